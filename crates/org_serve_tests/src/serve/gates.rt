//! The gate of a journal, as a crash leaves it.
use super::crashes::{calls_of_opening, done_in, left, way, ways};
use super::steps::{FIRST, Step, TO_THE_ARCHIVE, files};
use super::{SYNCS, calls, disk_of, run};
use crate::shared::{image, must};
use org_fixtures::{OUTCOMES, bytes_of, disk_with, file_name};
use org_test_disks::{MemoryDisk, Outcome};
use std::process::Abort;

// A capture reads a length and a text, tries the journal and its file, and writes its record; then
// its seventh call opens the gate.
const RECORD: u64 = 5;

const GATE: u64 = 7;

// An archive asks both files for their length and reads them, though the archive file isn't there,
// and tries the journal and both; the record is written and synced, and the gate is the tenth call.
const ARCHIVE_GATE: u64 = 10;

// After the gate's sync the source is asked for its length and cut, since its patch has no bytes;
// then the archive file's patch is written.
const ARCHIVE_FILE: u64 = 14;

// What a crash at this call after the opening leaves, as the lines of a step are served.
fn left_behind(
    rt: &(impl Abort + AllocGlobal),
    step: &Step,
    call: u64,
    outcome: Outcome,
) -> MemoryDisk {
    let call = calls(rt, files(rt, step), 1, b"").saturating_add(call);
    left(rt, files(rt, step), step.lines, (call, outcome))
}

// A step of one line, a call, what of it goes out, and whether the line is done then.
const AT_THE_GATE: &[(&Step, u64, Outcome, bool)] = &[
    (FIRST, GATE, Outcome::Fill(1), true),
    (FIRST, GATE, Outcome::Fill(0x55), false),
    (TO_THE_ARCHIVE, ARCHIVE_GATE, Outcome::Fill(1), true),
    (TO_THE_ARCHIVE, ARCHIVE_GATE, Outcome::Fill(0x55), false),
    (TO_THE_ARCHIVE, ARCHIVE_GATE, Outcome::None, false),
    (TO_THE_ARCHIVE, ARCHIVE_FILE, Outcome::None, true),
    (TO_THE_ARCHIVE, ARCHIVE_FILE, Outcome::Front(1), true),
    (TO_THE_ARCHIVE, ARCHIVE_FILE, Outcome::Fill(0), true),
];

#[test]
fn the_gate_decides(rt: HostRuntime) {
    for (step, call, outcome, wanted) in AT_THE_GATE {
        let done = done_in(&rt, left_behind(&rt, step, *call, *outcome), step);
        assert!(rt; done == u64::from(*wanted), "crashed at {call}");
    }
}

// Whether the gate of a disk's journal is this byte.
fn has_gate(rt: &(impl Abort + AllocGlobal), disk: MemoryDisk, gate: u8) -> bool {
    let name = must(rt, file_name(rt.alloc(), "orgstore.journal"));
    let mut disk = disk;
    let journal = must(rt, bytes_of(rt.alloc(), &mut disk, &name));
    drop(disk);
    journal.first() == Some(&gate)
}

#[test]
fn the_gate_goes_out(rt: HostRuntime) {
    assert!(rt; has_gate(&rt, left_behind(&rt, FIRST, GATE, Outcome::Fill(1)), 1));
}

// Whether the gate is another byte than 0 and 1 once a disk was opened.
fn keeps_gate(rt: &(impl Abort + AllocGlobal), disk: MemoryDisk) -> bool {
    has_gate(rt, disk_of(run(rt, disk, 1, b"")), 0x55)
}

// A byte that closes the gate is left alone, also where its opening is stopped.
fn leave_gate_alone(rt: &(impl Abort + AllocGlobal), disk: &MemoryDisk) {
    assert!(rt; keeps_gate(rt, image(rt, disk)));
    for number in ways(SYNCS)..ways(calls_of_opening(rt, disk)) {
        let again = left(rt, image(rt, disk), "", way(number));
        assert!(rt; keeps_gate(rt, again));
    }
}

#[test]
fn another_byte_goes_out(rt: HostRuntime) {
    for (step, call) in [(FIRST, GATE), (TO_THE_ARCHIVE, ARCHIVE_GATE)] {
        let left = left_behind(&rt, step, call, Outcome::Fill(0x55));
        leave_gate_alone(&rt, &left);
        drop(left);
    }
}

// The files before a capture, and a journal of one byte that reads as an open gate.
fn with_journal(rt: &(impl Abort + AllocGlobal)) -> MemoryDisk {
    let files: &[(&str, &[u8])] = &[
        ("a.org", b"* A\n"),
        ("b.org", b"* Z"),
        ("orgstore.journal", b"\x01"),
    ];
    must(rt, disk_with(rt.alloc(), files))
}

// It has no record.
#[test]
fn a_journal_of_one_byte(rt: HostRuntime) {
    let call = calls(&rt, with_journal(&rt), 1, b"").saturating_add(RECORD);
    for outcome in &OUTCOMES {
        let left = left(&rt, with_journal(&rt), FIRST.lines, (call, *outcome));
        assert!(rt; done_in(&rt, left, FIRST) == 0);
    }
}
