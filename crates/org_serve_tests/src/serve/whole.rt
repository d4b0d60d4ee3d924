//! Inputs that are whole steps, over disks that crash or fail. What they do on other disks, rows
//! of commands show.
use super::crashes::{done_in, done_stopped, way, ways};
use super::steps::{
    BETWEEN_TWINS, CAPTURES, LINE_MOVED, Step, TWO_LINES, WITHIN_TWINS, all_of, files,
};
use super::{Ended, SYNCS, disk_of, run_in};
use crate::shared::image;
use org_fixtures::OUTCOMES;
use org_serve::ServeEnd;
use org_store::Group;
use org_test_disks::MemoryDisk;
use std::process::Abort;

// The captures are one step.
const ONE_STEP: &str = "capture\ta.org\ttop\tlast\t2026-07-01 10:00\t* N\t\n\
        capture\tb.org\ttop\tlast\t2026-07-01 10:00\t* K\t\nsettle\n";

fn run_whole(rt: &(impl Abort + AllocGlobal), disk: MemoryDisk, lines: &[u8]) -> Ended<MemoryDisk> {
    run_in(rt, disk, Group::Whole, lines)
}

// Two edits that stand for one change of two files.
const TWO_EDITS: &str = "edit\ta.org\t4\tx\\n\t\nedit\tb.org\t4\t\tx\\n\n";

const EDITS_SETTLED: &str = "edit\ta.org\t4\tx\\n\t\nedit\tb.org\t4\t\tx\\n\nsettle\n";

// The second of them is refused, and a settling stands after it.
const EDIT_REFUSED: &str = "edit\ta.org\t4\tx\\n\t\nedit\tb.org\t4\ty\tx\\n\nsettle\n";

const MOVED_ACROSS: &str = "refile\ta.org\tA\\#2\tb.org\tT\\#2\tlast\nsettle\n";

const MOVED_WITHIN: &str = "refile\ta.org\tA\\#1\ta.org\tA\\#3\tlast\nsettle\n";

// A step, the lines that do it whole, and what is written for them.
const WHOLE: &[(&Step, &str, &str)] = &[
    (CAPTURES, ONE_STEP, "ok 1\nok 2\nsafe 2\n"),
    (LINE_MOVED, EDITS_SETTLED, "ok 1\nok 2\nsafe 2\n"),
    (BETWEEN_TWINS, MOVED_ACROSS, "ok 1\nsafe 1\n"),
    (WITHIN_TWINS, MOVED_WITHIN, "ok 1\nsafe 1\n"),
];

// The same, of lines that do none of it.
const GIVEN_UP: &[(&Step, &str, &str)] = &[
    (CAPTURES, TWO_LINES, "ok 1\nok 2\n"),
    (LINE_MOVED, TWO_EDITS, "ok 1\nok 2\n"),
    (LINE_MOVED, EDIT_REFUSED, "ok 1\nrefused 16 NotThere\n"),
];

// How many calls of the disk it takes to serve these lines over the files of a step.
fn calls_of(rt: &(impl Abort + AllocGlobal), step: &Step, lines: &str) -> u64 {
    let disk = disk_of(run_whole(rt, files(rt, step), lines.as_bytes()));
    let calls = disk.calls();
    drop(disk);
    calls
}

// The disk crashes in this way as lines are served: so much of the step is done, or nothing where
// it wasn't reported as safe; and opening the disk again may be stopped in turn.
fn crash(rt: &(impl Abort + AllocGlobal), row: &(&Step, &str, &str), all: u64, number: u64) {
    let (step, lines, written) = row;
    let (call, outcome) = way(number);
    let mut disk = files(rt, step);
    disk.crash_at(call, outcome);
    let ended = run_whole(rt, disk, lines.as_bytes());
    let served = ended.written.as_slice() == written.as_bytes();
    let crashed = disk_of(ended);
    let left = image(rt, &crashed);
    drop(crashed);
    let done = done_in(rt, image(rt, &left), step);
    assert!(rt;
        done == all || done == 0 && !served,
        "crashed in way {number}"
    );
    for outcome in &OUTCOMES {
        let again = done_stopped(rt, image(rt, &left), (SYNCS + 1, *outcome), step);
        assert!(rt; again == done, "opening stopped behind way {number}");
    }
    drop(left);
}

// It crashes at each call after the syncs.
fn crash_at_each_call(rt: &(impl Abort + AllocGlobal), row: &(&Step, &str, &str), all: u64) {
    for number in ways(SYNCS)..ways(calls_of(rt, row.0, row.1)) {
        crash(rt, row, all, number);
    }
}

#[test]
fn whole_inputs_crashed(rt: HostRuntime) {
    for row in WHOLE {
        crash_at_each_call(&rt, row, all_of(row.0));
    }
}

#[test]
fn inputs_given_up_crashed(rt: HostRuntime) {
    for row in GIVEN_UP {
        crash_at_each_call(&rt, row, 0);
    }
}

// A call of the disk fails: a line says so, and nothing is read after it.
fn fail(rt: &(impl Abort + AllocGlobal), row: &(&Step, &str, &str), call: u64) {
    let (step, lines, _) = row;
    let mut disk = files(rt, step);
    disk.fail_at(call);
    let ended = run_whole(rt, disk, lines.as_bytes());
    assert!(rt; matches!(&ended.end, Ok(ServeEnd::Device)));
    assert!(rt; ended.written.ends_with(b"fault Device\n"));
    let done = done_in(rt, disk_of(ended), step);
    assert!(rt; done == 0 || done == all_of(step), "failed at {call}");
}

#[test]
fn whole_inputs_failed(rt: HostRuntime) {
    for row in WHOLE {
        let opening = calls_of(&rt, row.0, "");
        let all = calls_of(&rt, row.0, row.1);
        for call in opening.saturating_add(1)..all.saturating_add(1) {
            fail(&rt, row, call);
        }
    }
}
