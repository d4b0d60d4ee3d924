//! Crashes of the disk, and what opening it again finds: the files are as after none of a step's
//! lines, or after the first, and so on.
use super::steps::{
    ACROSS, ARCHIVE_WITHIN, BACK, BETWEEN_TWINS, CAPTURES, CLOCK_ELSEWHERE, CLOCK_OUT, EDITED,
    IN_AND_OUT, LINE_MOVED, REFILE_WITHIN, REPEATED, Step, THERE_AND_BACK, TO_A_DAY, TO_A_HEAD,
    TO_ANOTHER_FILE, TO_THE_ARCHIVE, TWO_ARCHIVES, WITHIN_TWINS, all_of, count_of, files,
    may_be_done, safe_in,
};
use super::{Ended, SYNCS, calls, disk_of, run, served};
use crate::shared::image;
use org_disk::Disk;
use org_fixtures::OUTCOMES;
use org_test_disks::{MemoryDisk, Outcome};
use std::process::Abort;

// How many lines of the step are done in the files of a disk, once it is opened again.
pub fn done_in<D: Disk + Drop>(rt: &(impl Abort + AllocGlobal), disk: D, step: &Step) -> u64 {
    let shown = served(rt, disk, step.shows.as_bytes());
    count_of(step, &shown).expect(rt, "the files are as after some of the lines")
}

// In how many ways a disk can crash, of which each of so many calls has seven.
pub fn ways(calls: u64) -> u64 {
    calls.saturating_mul(7)
}

// The call of such a way, and what is left of it.
pub fn way(number: u64) -> (u64, Outcome) {
    (number / 7 + 1, OUTCOMES[(number % 7) as usize])
}

// Serves these lines over a disk that crashes at this call.
fn serve_crashing(
    rt: &(impl Abort + AllocGlobal),
    disk: MemoryDisk,
    group: u32,
    lines: &str,
    at: (u64, Outcome),
) -> Ended<MemoryDisk> {
    let mut disk = disk;
    disk.crash_at(at.0, at.1);
    run(rt, disk, group, lines.as_bytes())
}

// What a crash at this call of the disk leaves, as these lines are served in groups of one.
pub fn left(
    rt: &(impl Abort + AllocGlobal),
    disk: MemoryDisk,
    lines: &str,
    at: (u64, Outcome),
) -> MemoryDisk {
    let crashed = disk_of(serve_crashing(rt, disk, 1, lines, at));
    let left = image(rt, &crashed);
    drop(crashed);
    left
}

// How many lines of the step are done, once this call of an opening of the disk was stopped.
pub fn done_stopped(
    rt: &(impl Abort + AllocGlobal),
    disk: MemoryDisk,
    at: (u64, Outcome),
    step: &Step,
) -> u64 {
    done_in(rt, left(rt, disk, "", at), step)
}

// How many calls an opening takes over what a disk left.
pub fn calls_of_opening(rt: &(impl Abort + AllocGlobal), disk: &MemoryDisk) -> u64 {
    calls(rt, image(rt, disk), 1, b"")
}

// A crash at each call of an opening after its syncs leaves what the disk recovered to.
fn crash_each_opening(rt: &(impl Abort + AllocGlobal), disk: &MemoryDisk, step: &Step, done: u64) {
    for number in ways(SYNCS)..ways(calls_of_opening(rt, disk)) {
        let again = done_stopped(rt, image(rt, disk), way(number), step);
        assert!(rt; again == done, "opening stopped in way {number}");
    }
}

// A crash in this way leaves the files as after so many of the lines, and opening them again may be
// stopped in turn.
fn crash(rt: &(impl Abort + AllocGlobal), group: u32, step: &Step, number: u64) {
    let ended = serve_crashing(rt, files(rt, step), group, step.lines, way(number));
    let safe = safe_in(&ended.written);
    let left = image(rt, &ended.disk);
    drop(ended);
    let done = done_in(rt, image(rt, &left), step);
    assert!(rt;
        may_be_done(step, group, safe, done),
        "crashed in way {number}"
    );
    crash_each_opening(rt, &left, step, done);
    drop(left);
}

// Crashes in each way after the syncs. Where no call is stopped all lines are done.
fn crash_in_each_way(rt: &(impl Abort + AllocGlobal), group: u32, step: &Step) {
    let lines = step.lines.as_bytes();
    let disk = disk_of(run(rt, files(rt, step), group, lines));
    assert!(rt; done_in(rt, disk, step) == all_of(step));
    for number in ways(SYNCS)..ways(calls(rt, files(rt, step), group, lines)) {
        crash(rt, group, step, number);
    }
}

// Each step crashes at every call, its lines settled in groups of this size.
fn crash_each(rt: &(impl Abort + AllocGlobal), group: u32, steps: &[&Step]) {
    for step in steps {
        crash_in_each_way(rt, group, step);
    }
}

#[test]
fn captures_crashed(rt: HostRuntime) {
    for group in 1..=3 {
        crash_in_each_way(&rt, group, CAPTURES);
    }
}

const MOVED: &[&Step] = &[ACROSS, BACK, REFILE_WITHIN, TO_A_HEAD, TO_A_DAY];

#[test]
fn moves_crashed(rt: HostRuntime) {
    crash_each(&rt, 1, MOVED);
}

const TWINS: &[&Step] = &[BETWEEN_TWINS, WITHIN_TWINS];

#[test]
fn moves_of_twins_crashed(rt: HostRuntime) {
    crash_each(&rt, 1, TWINS);
}

const ARCHIVED: &[&Step] = &[TO_THE_ARCHIVE, TO_ANOTHER_FILE, ARCHIVE_WITHIN];

#[test]
fn archives_crashed(rt: HostRuntime) {
    crash_each(&rt, 1, ARCHIVED);
}

const CLOCKED: &[&Step] = &[CLOCK_ELSEWHERE, CLOCK_OUT, REPEATED];

#[test]
fn clocks_and_a_repetition_crashed(rt: HostRuntime) {
    crash_each(&rt, 1, CLOCKED);
}

// One edit, and two that stand for one change of two files.
#[test]
fn edits_crashed(rt: HostRuntime) {
    crash_in_each_way(&rt, 1, EDITED);
    for group in 1..=3 {
        crash_in_each_way(&rt, group, LINE_MOVED);
    }
}

// Two commands each.
const PAIRS: &[&Step] = &[THERE_AND_BACK, TWO_ARCHIVES, IN_AND_OUT];

// One command each.
const ALONE: &[&Step] = &[ACROSS, TO_THE_ARCHIVE, CLOCK_ELSEWHERE];

// A group that isn't full is settled at the end of the input.
#[test]
fn groups_full_and_not_full_crashed(rt: HostRuntime) {
    crash_each(&rt, 2, PAIRS);
    crash_each(&rt, 3, ALONE);
}
