//! What opening a set finds, and how it ends a record that a crash left.
use super::commits::{KEPT, LONGER};
use super::{
    FILES, crashed, disk_with, holds, image_of, open, opened_disk, opened_then_closed, opens_with,
    read_once, with_gate,
};
use crate::disk::{hold, hold_row, must, name_of};
use org_disk::FileName;
use org_fileset::{FileSet, LIMIT, OpenFault, OpenRefused, SetFault};
use org_fixtures::{OUTCOMES, TEXT, numbered_names};
use org_test_disks::{MemoryDisk, Outcome};
use std::alloc::Global;
use std::process::Abort;

// The gate of a record that a crash left half applied, the gate once a set was opened, and the text
// of inbox.org then: an open record is ended, and a closed one is left.
const GATES: &[(u8, u8, &[u8])] = &[
    (1, 0, &TEXT),
    (0, 0, b"* TO"),
    (2, 2, b"* TO"),
    (0x55, 0x55, b"* TO"),
    (0xff, 0xff, b"* TO"),
];

// The journal after an opening, which leaves 0 after the record that it ends.
fn after_opening(rt: &impl Abort, alloc: Global, gate: u8, after: u8) -> Vec<u8> {
    let mark: &[u8] = if gate == 1 { &[0] } else { &[] };
    let mut journal = Vec::from_slice(alloc, &with_gate(after)).expect(rt, "memory");
    journal.extend_from_slice(mark).expect(rt, "memory");
    journal
}

// Whether an opening leaves this gate and this inbox.org, and a.org as it was.
fn leaves(rt: &impl Abort, alloc: Global, gate: u8, after: u8, inbox: &[u8]) -> bool {
    let disk = crashed(rt, alloc, gate);
    let journal = after_opening(rt, alloc, gate, after);
    let (disk, is_left) = read_once(rt, alloc, disk, ("orgstore.journal", &journal, inbox));
    opens_with(rt, alloc, disk, ("a.org", b"* A\n", inbox)) && is_left
}

// Whether inbox.org holds this text once a set over a.org alone was opened: a record counts for
// other files too.
fn holds_beside(rt: &impl Abort, alloc: Global, gate: u8, inbox: &[u8]) -> bool {
    let mut disk = open(rt, alloc, crashed(rt, alloc, gate), &["a.org"]).into_disk();
    let is_held = holds(rt, alloc, &mut disk, "inbox.org", inbox);
    drop(disk);
    is_held
}

// Opens with a crash at the k-th call, and opens what is left: whether inbox.org has this text
// then, and a.org its own.
fn has_opened_twice(
    rt: &impl Abort,
    alloc: Global,
    gate: u8,
    (k, outcome): (u64, Outcome),
    inbox: &[u8],
) -> bool {
    let mut disk = crashed(rt, alloc, gate);
    disk.crash_at(k, outcome);
    let left = image_of(rt, alloc, opened_disk(rt, alloc, disk));
    opens_with(rt, alloc, left, ("a.org", b"* A\n", inbox))
}

// The same in each way in which the call may crash.
fn goes_on(rt: &impl Abort, alloc: Global, gate: u8, k: u64, inbox: &[u8]) -> bool {
    for outcome in &OUTCOMES {
        if !has_opened_twice(rt, alloc, gate, (k, *outcome), inbox) {
            return false;
        }
    }
    true
}

// The same at each call.
fn crash_opening(rt: &impl Abort, alloc: Global, gate: u8, inbox: &[u8]) {
    for k in 1..24usize {
        hold_row(rt, goes_on(rt, alloc, gate, k as u64, inbox), k);
    }
}

#[test]
fn openings(rt: HostRuntime) {
    let alloc = rt.alloc();
    for (i, (gate, after, inbox)) in GATES.iter().enumerate() {
        hold_row(&rt, leaves(&rt, alloc, *gate, *after, inbox), i);
        hold_row(&rt, holds_beside(&rt, alloc, *gate, inbox), i);
        crash_opening(&rt, alloc, *gate, inbox);
    }
}

// Whether a set has so many names; where there is none, they are too many, and refused before any
// call.
fn is_taken(
    opened: &Result<FileSet<MemoryDisk>, OpenRefused<MemoryDisk>>,
    names: Option<usize>,
) -> bool {
    match opened {
        Ok(set) => names == Some(set.names().len()),
        Err(refused) => {
            names.is_none()
                && matches!(refused.fault, OpenFault::TooManyFiles)
                && refused.disk.calls() == 0
        }
    }
}

// The same of a set that is opened over so many files.
fn takes(rt: &impl Abort, alloc: Global, count: u32, names: Option<usize>) -> bool {
    let given = must(rt, numbered_names(alloc, count));
    let opened = FileSet::open(alloc, MemoryDisk::new(alloc), given);
    let is_taken = is_taken(&opened, names);
    drop(opened);
    is_taken
}

const MANY: &[(u32, Option<usize>)] = &[(256, Some(512)), (257, None)];

#[test]
fn too_many_names_are_refused(rt: HostRuntime) {
    let alloc = rt.alloc();
    for (i, (count, names)) in MANY.iter().enumerate() {
        hold_row(&rt, takes(&rt, alloc, *count, *names), i);
    }
}

// Whether a file is refused as too large, or none where it is none.
fn is_refusal(fault: &Option<OpenFault>, file: Option<&str>) -> bool {
    match (fault, file) {
        (Some(OpenFault::TooLarge(name)), Some(file)) => name.as_str() == file,
        (None, None) => true,
        _ => false,
    }
}

// Whether an opening over an a.org of this length refuses this file as too large, if one, and ends
// what a crash left.
fn opens_large(rt: &impl Abort, alloc: Global, length: usize, file: Option<&str>) -> bool {
    let text = vec![in alloc; b'*'; length].expect(rt, "memory");
    let disk = disk_with(rt, alloc, &with_gate(1), &text, b"* TO");
    let (mut disk, fault) = opened_then_closed(rt, alloc, disk);
    let is_ended = holds(rt, alloc, &mut disk, "inbox.org", &TEXT);
    drop(disk);
    is_ended && is_refusal(&fault, file)
}

const LARGE: &[(usize, Option<&str>)] = &[(LIMIT, None), (LIMIT + 1, Some("a.org"))];

// What the crash had cut short is finished, also where the opening is refused.
#[test]
fn files_up_to_the_limit_are_taken(rt: HostRuntime) {
    let alloc = rt.alloc();
    for (i, (length, file)) in LARGE.iter().enumerate() {
        hold_row(&rt, opens_large(&rt, alloc, *length, *file), i);
    }
}

// Why a.org isn't read, if it isn't.
fn fault_of_read(set: &mut FileSet<MemoryDisk>, name: &FileName) -> Option<SetFault> {
    set.read(name).err()
}

// Whether one of the reads fails, and each that follows.
fn is_broken_by_read(set: &mut FileSet<MemoryDisk>, name: &FileName) -> bool {
    let mut failed = false;
    for _ in 0..8 {
        failed |= fault_of_read(set, name) == Some(SetFault::Device);
    }
    failed && set.is_broken() && fault_of_read(set, name) == Some(SetFault::Broken)
}

#[test]
fn a_failed_read_breaks_the_set(rt: HostRuntime) {
    let alloc = rt.alloc();
    let mut disk = opened_disk(&rt, alloc, crashed(&rt, alloc, 1));
    disk.fail_at(19);
    let mut set = open(&rt, alloc, disk, FILES);
    hold(
        &rt,
        is_broken_by_read(&mut set, &name_of(&rt, alloc, "a.org")),
    );
    drop(set);
}

// A closed journal of version 3, what a.org has once its gate is open, and what an opening makes of
// that; or nothing, where a.org is found changed.
type Left = (&'static [u8], &'static [u8], Option<&'static [u8]>);

static LEFT: &[Left] = &[
    (KEPT, b"* A\n* B\n", Some(b"* C\n* B\n")),
    (KEPT, b"* C\n* B\n", Some(b"* C\n* B\n")),
    // any byte where the patch is written
    (KEPT, b"* Z\n* B\n", Some(b"* C\n* B\n")),
    // a byte more, and one less
    (KEPT, b"* A\n* B\nx", None),
    (KEPT, b"* A\n* B", None),
    // other bytes before the patch, and after it
    (KEPT, b"+ A\n* B\n", None),
    (KEPT, b"*+A\n* B\n", None),
    (KEPT, b"* A+* B\n", None),
    (KEPT, b"* A\n* B+", None),
    (KEPT, b"", None),
    // each length from the old one to the final one
    (LONGER, b"* A\n", Some(b"* Better\n")),
    (LONGER, b"* Bet\0", Some(b"* Better\n")),
    (LONGER, b"* Better\n", Some(b"* Better\n")),
    (LONGER, b"* A", None),
    (LONGER, b"* Better\n\n", None),
    (LONGER, b"+ A\n", None),
];

fn is_left_so(rt: &impl Abort, alloc: Global, (journal, text, made): &Left) -> bool {
    let mut opened = Vec::from_slice(alloc, journal).expect(rt, "memory");
    if let Some(gate) = opened.first_mut() {
        *gate = 1;
    }
    let disk = disk_with(rt, alloc, &opened, text, b"");
    let (mut disk, fault) = opened_then_closed(rt, alloc, disk);
    let is_so = match made {
        Some(made) => fault.is_none() && holds(rt, alloc, &mut disk, "a.org", made),
        None => matches!(&fault, Some(OpenFault::Changed(name)) if name.as_str() == "a.org")
            && holds(rt, alloc, &mut disk, "a.org", text)
            && holds(rt, alloc, &mut disk, "orgstore.journal", &opened),
    };
    drop(disk);
    is_so
}

#[test]
fn changed_bytes_are_found(rt: HostRuntime) {
    let alloc = rt.alloc();
    for (i, row) in LEFT.iter().enumerate() {
        hold_row(&rt, is_left_so(&rt, alloc, row), i);
    }
}
