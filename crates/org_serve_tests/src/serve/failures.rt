//! Calls of the disk that fail.
use super::crashes::{done_in, done_stopped};
use super::steps::{
    ACROSS, ARCHIVE_WITHIN, CAPTURES, CLOCK_ELSEWHERE, FIRST, NOTHING, REFILE_WITHIN, REPEATED,
    Step, TO_A_DAY, TO_A_HEAD, TO_THE_ARCHIVE, files, may_be_done, safe_in,
};
use super::{Ended, calls, disk_of, is_refused, run};
use crate::shared::{image, must};
use org_fixtures::OUTCOMES;
use org_serve::ServeEnd;
use org_test_disks::MemoryDisk;
use std::alloc::Global;
use std::process::Abort;
use std::test::Fail;

// In groups of which size the lines of a step are settled; the step, and lines that follow it; how
// many calls all these make after the opening; and what is answered where one of these fails, one
// of two.
type Failed = (u32, &'static Step, &'static str, u64, [&'static str; 2]);

// The lines of a step, and those that follow.
fn joined(alloc: Global, step: &Step, behind: &str) -> Result<Vec<u8>, Fail> {
    let mut lines = step.lines.as_bytes().to_vec(alloc)?;
    lines.extend_from_slice(behind.as_bytes())?;
    Ok(lines)
}

// How serving these lines ends over the files before a step, where this call of the disk fails.
fn serve_failing(
    rt: &(impl Abort + AllocGlobal),
    group: u32,
    step: &Step,
    lines: &[u8],
    call: u64,
) -> Ended<MemoryDisk> {
    let mut disk = files(rt, step);
    disk.fail_at(call);
    run(rt, disk, group, lines)
}

// Whether a line was answered by the failure of the disk, and each later one by a broken store.
fn is_answered(ended: &Ended<MemoryDisk>, answers: &[&str; 2]) -> bool {
    let written = ended.written.as_slice();
    matches!(&ended.end, Ok(ServeEnd::Device))
        && (written == answers[0].as_bytes() || written == answers[1].as_bytes())
}

// Where this call of an opening fails it is refused, and the files are as they were; where a later
// one fails, so many lines of the step are done as may be.
fn fail_at(rt: &(impl Abort + AllocGlobal), row: &Failed, lines: &[u8], call: u64, opening: u64) {
    let (group, step, _, _, answers) = row;
    let ended = serve_failing(rt, *group, step, lines, call);
    let (is_right, most) = if call <= opening {
        (is_refused(&ended), 0)
    } else {
        (is_answered(&ended, answers), *group)
    };
    let safe = safe_in(&ended.written);
    let done = done_in(rt, disk_of(ended), step);
    assert!(rt;
        is_right && may_be_done(step, most, safe, done),
        "after {call}"
    );
}

// Each call fails in turn.
fn fail_at_every_call(rt: &(impl Abort + AllocGlobal), row: &Failed) {
    let (group, step, behind, wanted, _) = row;
    let lines = must(rt, joined(rt.alloc(), step, behind));
    let opening = calls(rt, files(rt, step), *group, b"");
    let all = calls(rt, files(rt, step), *group, &lines);
    assert!(rt; all.saturating_sub(opening) == *wanted, "{all} calls");
    for call in 0..all {
        fail_at(rt, row, &lines, call + 1, opening);
    }
}

// Where the first of three lines failed.
const FIRST_FAILED: &str = "fault Device\nfault Broken\nfault Broken\n";

const TOLD: [&str; 2] = [FIRST_FAILED, "ok 1\nsafe 1\nfault Device\nfault Broken\n"];

const TOLD_OF_A_GROUP: [&str; 2] = [FIRST_FAILED, "ok 1\nfault Device\nfault Broken\n"];

const TOLD_OF_A_SHOW: [&str; 2] = [
    "fault Device\nfault Broken\nfault Broken\nrefused 20 BadLine\n",
    "ok 1\nsafe 1\nfault Device\nfault Broken\nrefused 20 BadLine\n",
];

// A settling meets the disk only where something is left to settle.
const SETTLED: [&str; 2] = ["fault Device\nfault Broken\n"; 2];

fn fail_each(rt: &(impl Abort + AllocGlobal), rows: &[Failed]) {
    for row in rows {
        fail_at_every_call(rt, row);
    }
}

const CAPTURED: &[Failed] = &[
    (1, CAPTURES, "show\ta.org\n", 30, TOLD),
    (2, CAPTURES, "show\ta.org\n", 27, TOLD_OF_A_GROUP),
    // a show of a file that isn't held reads it
    (
        1,
        FIRST,
        "show\tb.org\nshow\ta.org\nnothing\n",
        17,
        TOLD_OF_A_SHOW,
    ),
    // nothing is pending on a fresh store
    (1, NOTHING, "settle\n", 0, SETTLED),
];

#[test]
fn each_failed_call(rt: HostRuntime) {
    fail_each(&rt, CAPTURED);
}

// How many calls a step of one line and a settling make after the opening, and such steps.
type Settled = (u64, &'static [&'static Step]);

// The line of each step is settled alone.
fn fail_steps(rt: &(impl Abort + AllocGlobal), row: &Settled) {
    let (calls, steps) = row;
    for step in *steps {
        fail_at_every_call(rt, &(1, *step, "settle\n", *calls, SETTLED));
    }
}

fn fail_each_settled(rt: &(impl Abort + AllocGlobal), rows: &[Settled]) {
    for row in rows {
        fail_steps(rt, row);
    }
}

const MOVED: &[Settled] = &[
    // Each file is asked for its length and read; the journal and both are tried; the record and
    // the open gate are written with a sync each, and both are tried again. Both are asked for
    // their length. The target's patch is written, the source's has no bytes; both are asked for
    // their length again, the source is cut, and both are synced and read back. The gate is closed
    // with a sync, and both are tried a last time.
    (27, &[ACROSS]),
    // One file, of which the made headings and the entry are one insertion. It isn't asked for its
    // length again.
    (15, &[REFILE_WITHIN, TO_A_HEAD, TO_A_DAY]),
];

#[test]
fn each_failed_call_of_a_move(rt: HostRuntime) {
    fail_each_settled(&rt, MOVED);
}

const CHANGED: &[Settled] = &[
    (27, &[TO_THE_ARCHIVE]),
    (15, &[ARCHIVE_WITHIN]),
    // The files up to that of the clock that runs, three, are asked for their length and read. Of
    // the two that change each is written in one place, and none is cut.
    (29, &[CLOCK_ELSEWHERE]),
    // The file is written in two places, at its keyword and from its planning line on: one write
    // more than a refile within it takes.
    (16, &[REPEATED]),
];

#[test]
fn each_failed_call_of_an_archive_a_clock_and_a_repetition(rt: HostRuntime) {
    fail_each_settled(&rt, CHANGED);
}

// The first of the captures, and a show.
pub const CAPTURE: &str = "capture\ta.org\ttop\tlast\t2026-07-01 10:00\t* N\t\nshow\ta.org\n";

// The call of a capture that syncs the open gate.
const GATE_SYNC: u64 = 8;

// The disk once the sync of the open gate failed in a capture.
fn gate_unsynced(rt: &(impl Abort + AllocGlobal)) -> MemoryDisk {
    let call = calls(rt, files(rt, CAPTURES), 1, b"").saturating_add(GATE_SYNC);
    disk_of(serve_failing(rt, 1, CAPTURES, CAPTURE.as_bytes(), call))
}

// Once the gate was written, the capture may be done or not in what a crash leaves. As the files
// read it isn't: the gate is marked as closed.
#[test]
fn the_sync_behind_the_gate_fails(rt: HostRuntime) {
    let disk = gate_unsynced(&rt);
    assert!(rt; done_in(&rt, image(&rt, &disk), CAPTURES) == 0);
    drop(disk);
    for outcome in &OUTCOMES {
        assert!(rt; done_stopped(&rt, gate_unsynced(&rt), (1, *outcome), CAPTURES) <= 1);
    }
}
