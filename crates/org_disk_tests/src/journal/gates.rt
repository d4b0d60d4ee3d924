//! Journals on a disk.
ghost use Rattle.std.specs.Prelude.{◌≡◌, ◌≤◌, length, IfOk, OnOk};
ghost use Rattle.org_disk.specs.Disk.{IsStable};
ghost use Rattle.org_disk.specs.Names.{journal_name};
ghost use Rattle.org_journal.specs.Finding.{IsWhole};

use super::{ALL, Body, TWO, behind_gate, body_of, is_capture, joined};
use crate::disk::{hold, hold_row};
use crate::fileset::{disk_with, is_refused};
use org_disk::{Disk, DiskFault, FileName};
use org_fixtures::{NEW, NEWEST, OLD};
use org_journal::{FindFault, Found, all_fit, arm, close_gate, find, open_gate, prepare};
use org_test_disks::MemoryDisk;
use std::alloc::Global;
use std::process::Abort;

#[derive(Clone, Copy, PartialEq, Eq)]
enum Answer {
    Closed,
    Capture,
    Other,
    Bad,
    Fault,
}

fn answer_in(found: &Result<Found, FindFault>) -> Answer {
    match found {
        Ok(Found::Closed) => Answer::Closed,
        Ok(Found::Open(record, _)) => if is_capture(record) {
            Answer::Capture
        } else {
            Answer::Other
        },
        Err(FindFault::BadJournal) => Answer::Bad,
        Err(_) => Answer::Fault,
    }
}

// The same, and `Bad` where the record doesn't fit its files.
fn fitting_answer<D: Disk>(disk: &mut D, found: &Result<Found, FindFault>) -> Answer
    requires { IfOk found.now (λ found. IsWhole found) }
{
    if let Ok(Found::Open(record, _)) = found {
        match all_fit(disk, record.as_slice()) {
            Ok(true) => {}
            Ok(false) => return Answer::Bad,
            Err(_) => return Answer::Fault,
        }
    }
    answer_in(found)
}

// What `find` and `all_fit` say over this journal, beside an inbox.org with this text.
fn answer_of(rt: &impl Abort, alloc: Global, bytes: &[u8], text: &[u8]) -> Answer {
    let mut disk = disk_with(rt, alloc, bytes, b"* A\n", text);
    let journal = FileName::journal_name(alloc).expect(rt, "memory");
    let found = find(alloc, &mut disk, &journal);
    let answer = fitting_answer(&mut disk, &found);
    drop(disk);
    answer
}

// A patch that begins past the end of a file that is absent, and at the end of one of one byte.
const LATE: &[(usize, &[u8])] = &[(37, &[1, 0, 0, 0, 0, 0, 0, 0, 17])];

// The final length is past the end of the patch, and of the file or not.
const LONG: &[(usize, &[u8])] = &[(45, &[17])];

// A gate, the bytes after it, the text of inbox.org, and what is said of them.
static ROWS: &[(u8, Body, &[u8], Answer)] = &[
    (1, (&OLD, ALL, &[], b""), b"", Answer::Capture),
    (1, (&NEW, ALL, &[], b""), b"", Answer::Capture),
    (1, (&NEWEST, ALL, &[], b""), b"", Answer::Capture),
    (1, (&OLD, ALL, &[], b"\0"), b"", Answer::Capture),
    (0, (&OLD, ALL, &[], b""), b"", Answer::Closed),
    (0x55, (&OLD, ALL, &[], b""), b"", Answer::Closed),
    // A journal without a whole header has no gate to be open.
    (1, (&OLD, 14, &[], b""), b"", Answer::Closed),
    // Its last byte is missing.
    (1, (&OLD, 69, &[], b""), b"", Answer::Bad),
    // A header alone, with a size past its end, and with the greatest.
    (1, (&OLD, 15, &[(14, &[0xff])], b""), b"", Answer::Bad),
    (1, (&OLD, 15, &[(7, &[0xff; 8])], b""), b"", Answer::Bad),
    // Another magic.
    (1, (&NEW, ALL, &[(0, &[0x4b])], b""), b"", Answer::Bad),
    (1, (&OLD, ALL, LATE, b""), b"", Answer::Bad),
    (1, (&OLD, ALL, LATE, b""), b"a", Answer::Other),
    (1, (&OLD, ALL, LATE, b"*"), b"", Answer::Bad),
    (1, (&OLD, ALL, LATE, b"*"), b"a", Answer::Other),
    (1, (&OLD, ALL, LONG, b""), b"", Answer::Bad),
    (1, (&OLD, ALL, LONG, b""), &[0x61; 17], Answer::Other),
    (1, (&OLD, ALL, LONG, b"*"), b"", Answer::Bad),
    (1, (&OLD, ALL, LONG, b"*"), &[0x61; 17], Answer::Other),
    // The second patch begins past the end of a file, or at its end.
    (1, (&TWO, ALL, &[], b""), b"* A\n", Answer::Bad),
    (1, (&TWO, ALL, &[], b""), b"* A\n* ", Answer::Bad),
    (1, (&TWO, ALL, &[], b""), b"* A\n* B\n", Answer::Other),
];

// Whether this is said, and a set of files is refused where the journal is bad, and nowhere
// else.
fn is_as_said(
    rt: &impl Abort,
    alloc: Global,
    journal: &[u8],
    text: &[u8],
    expected: Answer,
) -> bool {
    answer_of(rt, alloc, journal, text) == expected
        && is_refused(rt, alloc, journal, text) == (expected == Answer::Bad)
}

// The bytes of a journal.
fn journal_of(rt: &impl Abort, alloc: Global, gate: u8, body: &Body) -> Vec<u8> {
    joined(rt, alloc, &[gate], &body_of(rt, alloc, body))
}

#[test]
fn journals_on_a_disk(rt: HostRuntime) {
    let alloc = rt.alloc();
    for (i, (gate, body, text, expected)) in ROWS.iter().enumerate() {
        let journal = journal_of(&rt, alloc, *gate, body);
        hold_row(&rt, is_as_said(&rt, alloc, &journal, text, *expected), i);
    }
}

// A body after an open gate, as a commit leaves it until its files are written.
fn open<D: Disk>(disk: &mut D, journal: &FileName, body: &[u8]) -> Result<(), DiskFault>
    requires { journal.now ≡ journal_name }
    ensures stable { D.honest disk.new → OnOk result (IsStable (D.files disk.new journal_name)) }
    ensures nonempty { D.honest disk.new → OnOk result
        (1 ≤ length (D.files disk.new journal_name).content) }
{
    disk.sync(journal)?;
    if disk.length(journal)? >= 16 {
        return Err(DiskFault);
    }
    prepare(disk, journal)?;
    arm(disk, journal, body)?;
    open_gate(disk, journal)
}

// The gate is open then, and is closed.
fn opens_and_closes<D: Disk>(
    alloc: Global,
    disk: &mut D,
    journal: &FileName,
    body: &[u8],
) -> Result<bool, DiskFault>
    requires { journal.now ≡ journal_name }
{
    open(disk, journal, body)?;
    let is_open = answer_in(&find(alloc, disk, journal)) == Answer::Capture;
    close_gate(disk, journal)?;
    Ok(is_open && answer_in(&find(alloc, disk, journal)) == Answer::Closed)
}

#[test]
fn the_gate_opens_and_closes(rt: HostRuntime) {
    let alloc = rt.alloc();
    let journal = FileName::journal_name(alloc).expect(&rt, "memory");
    let mut disk = MemoryDisk::new(alloc);
    let both = opens_and_closes(alloc, &mut disk, &journal, behind_gate(&NEW));
    hold(&rt, both == Ok(true));
    drop(disk);
}
