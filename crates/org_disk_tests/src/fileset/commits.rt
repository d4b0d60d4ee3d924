//! Commits: whole, crashed and failing ones.
ghost use Rattle.std.specs.Prelude.{◌≤◌, length, Contains, OnOk};
ghost use Rattle.org_test_disks.specs.Memory.{memory_files};
ghost use Rattle.org_journal.specs.Recovered.{contents};
ghost use Rattle.org_splice.specs.Texts.{IsEditOf};
ghost use Rattle.org_fileset.specs.Names.{limit};
ghost use Rattle.org_fileset.specs.Set.{AreCommittable};

use super::edited::Edited;
use super::{
    FILES, calls_of, disk_with, image_of, open, opened, opened_disk, opens_with, read_once,
    with_gate,
};
use crate::disk::{hold, hold_row, must};
use org_disk::{Disk, FileName};
use org_fileset::{FileSet, LIMIT, SetFault};
use org_fixtures::{OLD, OUTCOMES, TEXT, bytes_of};
use org_splice::Editing;
use org_test_disks::{MemoryDisk, Outcome};
use std::alloc::Global;
use std::process::Abort;

// Bytes in the place of others: of which file of the set, where, and how many give way.
#[derive(Clone, Copy)]
struct Edit {
    file: usize,
    at: usize,
    removed: usize,
    bytes: &'static [u8],
}

// A heading of a.org gets another title.
const RENAME: Edit = Edit {
    file: 0,
    at: 2,
    removed: 1,
    bytes: b"Better",
};

// The first heading of inbox.org.
const CAPTURE: Edit = Edit {
    file: 2,
    at: 0,
    removed: 0,
    bytes: b"* TODO Call Ann\n",
};

// The text of a file with an edit.
fn edited(rt: &impl Abort, bytes: Vec<u8>, edit: &Edit) -> Editing
    ensures small { length result.text.bytes ≤ limit }
    ensures edit { IsEditOf bytes.items result.text }
{
    let at = edit.at.min(bytes.len());
    let removed = edit.removed.min(bytes.len() - at);
    let mut text = Editing::new(bytes);
    text.splice(at, removed, edit.bytes).expect(rt, "memory");
    assert!(rt; text.bytes().len() <= LIMIT, "too long");
    text
}

// The name of one of the set's files.
fn name_at(rt: &impl Abort, set: &FileSet<MemoryDisk>, index: usize) -> FileName
    ensures { Contains set.now.names result }
{
    if index >= set.names().len() {
        panic!(rt; "no such file");
    }
    set.names()[index].clone().expect(rt, "memory")
}

// Adds an edit of what a file holds to the changes.
fn put_edit(
    rt: &impl Abort,
    set: &mut FileSet<MemoryDisk>,
    changes: &mut Edited,
    edit: &Edit,
) -> Result<(), SetFault>
    requires { AreCommittable set.old.names (contents (memory_files set.old.disk)) changes.old }
    ensures { OnOk result
        (AreCommittable set.new.names (contents (memory_files set.new.disk)) changes.new) }
{
    let name = name_at(rt, set, edit.file);
    let text = edited(rt, set.read(&name)?, edit);
    changes.put(name, text).expect(rt, "memory");
    Ok(())
}

// Commits edits of what the files hold.
fn commit(
    rt: &impl Abort,
    alloc: Global,
    set: &mut FileSet<MemoryDisk>,
    edits: &[Edit],
) -> Result<(), SetFault> {
    let mut changes = Edited::new(alloc);
    for edit in edits {
        put_edit(rt, set, &mut changes, edit)?;
    }
    set.commit(&changes)
}

// Opens a set and commits these edits: what that answers, and the disk then.
fn change(
    rt: &impl Abort,
    alloc: Global,
    disk: MemoryDisk,
    edits: &[Edit],
) -> (MemoryDisk, Result<(), SetFault>) {
    match opened(rt, alloc, disk, FILES) {
        Ok(mut set) => {
            let answer = commit(rt, alloc, &mut set, edits);
            (set.into_disk(), answer)
        }
        Err(refused) => (refused.disk, Err(SetFault::Device)),
    }
}

// The disk that a commit of these edits leaves.
fn changed(rt: &impl Abort, alloc: Global, disk: MemoryDisk, edits: &[Edit]) -> MemoryDisk {
    let (disk, answer) = change(rt, alloc, disk, edits);
    hold(rt, answer.is_ok());
    disk
}

const BOTH: [Edit; 2] = [RENAME, CAPTURE];

// A disk with this journal, and an a.org.
fn with_journal(rt: &impl Abort, alloc: Global, journal: &[u8]) -> MemoryDisk {
    disk_with(rt, alloc, journal, b"* A\n", b"")
}

// The journal after an edit of a.org that keeps its length: what stands on both sides of the patch.
pub const KEPT: &[u8] = b"\0ORGJ\x03\0\0\0\0\0\0\0\0\0\x39\0\0\0\x01\0\x05a.org\
    \0\0\0\0\0\0\0\x08\0\0\0\0\0\0\0\x08\x02* \x05\n* B\n\
    \0\0\0\x01\0\0\0\0\0\0\0\x02\0\0\0\0\0\0\0\x01C";

// After one that makes it longer, and after another one that makes it shorter again.
pub const LONGER: &[u8] = b"\0ORGJ\x03\0\0\0\0\0\0\0\0\0\x3a\0\0\0\x01\0\x05a.org\
    \0\0\0\0\0\0\0\x09\0\0\0\0\0\0\0\x04\x02* \0\
    \0\0\0\x01\0\0\0\0\0\0\0\x02\0\0\0\0\0\0\0\x07Better\n";

const SHORTER: &[u8] = b"\0ORGJ\x03\0\0\0\0\0\0\0\0\0\x35\0\0\0\x01\0\x05a.org\
    \0\0\0\0\0\0\0\x04\0\0\0\0\0\0\0\x09\x02* \0\
    \0\0\0\x01\0\0\0\0\0\0\0\x02\0\0\0\0\0\0\0\x02C\n";

const LETTER: Edit = Edit {
    file: 0,
    at: 2,
    removed: 1,
    bytes: b"C",
};

const BACK: Edit = Edit {
    file: 0,
    at: 2,
    removed: 6,
    bytes: b"C",
};

// A text of a.org, edits that are committed one after the other by one set, and what the journal
// begins with then.
static RECORDED: &[(&[u8], &[Edit], &[u8])] = &[
    (b"* A\n* B\n", &[LETTER], KEPT),
    (b"* A\n", &[RENAME], LONGER),
    (b"* A\n", &[RENAME, BACK], SHORTER),
];

#[test]
fn records_say_what_files_were(rt: HostRuntime) {
    let alloc = rt.alloc();
    for (i, (text, edits, journal)) in RECORDED.iter().enumerate() {
        let mut set = open(&rt, alloc, disk_with(&rt, alloc, b"", text, b""), FILES);
        for edit in *edits {
            hold(&rt, commit(&rt, alloc, &mut set, &[*edit]).is_ok());
        }
        let mut disk = set.into_disk();
        let name = FileName::journal_name(alloc).expect(&rt, "memory");
        let bytes = must(&rt, bytes_of(alloc, &mut disk, &name));
        hold_row(&rt, bytes.starts_with(journal), i);
        drop(disk);
    }
}

// How many calls an opening and a commit of these edits make.
fn calls_with(rt: &impl Abort, alloc: Global, edits: &[Edit]) -> u64 {
    calls_of(changed(rt, alloc, with_journal(rt, alloc, b""), edits))
}

// How many calls an opening and the reading of the two files make, over a journal of these bytes.
fn calls_before_commit(rt: &impl Abort, alloc: Global, journal: &[u8]) -> u64 {
    let disk = with_journal(rt, alloc, journal);
    let (disk, is_before) = read_once(rt, alloc, disk, ("a.org", b"* A\n", b""));
    hold(rt, is_before);
    calls_of(disk)
}

// Whether a set that is opened over the disk reads both files' new texts, or both files' old ones.
fn is_changed(rt: &impl Abort, alloc: Global, disk: MemoryDisk, changed: bool) -> bool {
    if changed {
        opens_with(rt, alloc, disk, ("a.org", b"* Better\n", &TEXT))
    } else {
        opens_with(rt, alloc, disk, ("a.org", b"* A\n", b""))
    }
}

#[test]
fn a_commit_leaves_its_record(rt: HostRuntime) {
    let alloc = rt.alloc();
    let disk = changed(&rt, alloc, with_journal(&rt, alloc, b""), &[CAPTURE]);
    let journal = with_gate(0);
    hold(
        &rt,
        opens_with(&rt, alloc, disk, ("orgstore.journal", &journal, &TEXT)),
    );
}

#[test]
fn a_commit_of_nothing_makes_no_call(rt: HostRuntime) {
    let alloc = rt.alloc();
    let opened = opened_disk(&rt, alloc, with_journal(&rt, alloc, b""));
    hold(&rt, calls_with(&rt, alloc, &[]) == calls_of(opened));
}

// Opens a set over a record of version 1, open or closed: the disk then, where the record is ended.
// The opening that ends it leaves 0 after it.
fn end_old(rt: &impl Abort, alloc: Global, disk: MemoryDisk) -> MemoryDisk {
    let mut closed = [0; 72];
    closed[1..71].copy_from_slice(&OLD[1..]);
    let (disk, is_ended) = read_once(rt, alloc, disk, ("orgstore.journal", &closed, &TEXT));
    hold(rt, is_ended);
    disk
}

// Whether the journal has a closed gate and a record of version 3.
fn is_closed_and_new(rt: &impl Abort, alloc: Global, disk: &mut MemoryDisk) -> bool {
    let journal = FileName::journal_name(alloc).expect(rt, "memory");
    let bytes = must(rt, bytes_of(alloc, disk, &journal));
    matches!(bytes.as_slice(), [0, _, _, _, _, 3, ..])
}

#[test]
fn an_old_record_is_ended_and_a_new_one_follows(rt: HostRuntime) {
    let alloc = rt.alloc();
    let disk = end_old(&rt, alloc, with_journal(&rt, alloc, &OLD));
    // opened once more, no file changes
    let disk = end_old(&rt, alloc, disk);
    let disk = changed(&rt, alloc, disk, &[RENAME]);
    let mut disk = opened_disk(&rt, alloc, disk);
    hold(&rt, is_closed_and_new(&rt, alloc, &mut disk));
    drop(disk);
}

// Whether the gate was opened for what the crash leaves, at the write of the gate and at the sync
// after it.
fn is_gate_open(is_write: bool, outcome: Outcome) -> bool {
    match outcome {
        Outcome::All | Outcome::Fill(1) => true,
        Outcome::Front(n) => !is_write || n > 0,
        Outcome::None | Outcome::Fill(_) => false,
    }
}

// The first calls of a commit of both files, counted from 1: three tries, of the journal and of
// both; the body and its sync; the gate and its sync.
const TRIES: u64 = 3;

const BODY: u64 = 4;

const GATE: u64 = 6;

const GATE_SYNC: u64 = 7;

// Whether both files are changed after a crash at this call of the commit.
fn is_done(call: u64, outcome: Outcome) -> bool {
    match call {
        GATE => is_gate_open(true, outcome),
        GATE_SYNC => is_gate_open(false, outcome),
        _ => call > GATE_SYNC,
    }
}

// Whether a commit of both files that crashes at the k-th call changes both, or neither.
fn crashes(
    rt: &impl Abort,
    alloc: Global,
    journal: &[u8],
    (k, outcome): (u64, Outcome),
    changed: bool,
) -> bool {
    let mut disk = with_journal(rt, alloc, journal);
    disk.crash_at(k, outcome);
    let (disk, answer) = change(rt, alloc, disk, &BOTH);
    is_changed(rt, alloc, image_of(rt, alloc, disk), changed) && answer.is_err()
}

// Whether both files are changed, or neither is, as it should be, for each way in which the k-th
// call may crash; before the commit there are so many calls.
fn crashes_at(rt: &impl Abort, alloc: Global, journal: &[u8], before: u64, k: u64) -> bool {
    for outcome in &OUTCOMES {
        let changed = is_done(k.saturating_sub(before), *outcome);
        if !crashes(rt, alloc, journal, (k, *outcome), changed) {
            return false;
        }
    }
    true
}

#[test]
fn a_crashed_commit_changes_both_files_or_none(rt: HostRuntime) {
    let alloc = rt.alloc();
    let before = calls_before_commit(&rt, alloc, b"");
    for k in 1..=calls_with(&rt, alloc, &BOTH) {
        hold_row(&rt, crashes_at(&rt, alloc, b"", before, k), k as usize);
    }
}

// A commit that crashes as it writes its body changes nothing.
#[test]
fn a_body_behind_a_short_journal_opens_nothing(rt: HostRuntime) {
    let alloc = rt.alloc();
    let before = calls_before_commit(&rt, alloc, &[1]);
    hold(
        &rt,
        crashes_at(&rt, alloc, &[1], before, before.saturating_add(BODY)),
    );
}

// Whether the disk fails at a commit, and the set at one after it.
fn is_broken_by_commit(rt: &impl Abort, alloc: Global, set: &mut FileSet<MemoryDisk>) -> bool {
    matches!(commit(rt, alloc, set, &BOTH), Err(SetFault::Device))
        && set.is_broken()
        && matches!(commit(rt, alloc, set, &[]), Err(SetFault::Broken))
}

// A disk at which this call fails, the first of a commit being 1.
fn failing(rt: &impl Abort, alloc: Global, call: u64) -> MemoryDisk {
    let before = calls_before_commit(rt, alloc, b"");
    let mut disk = with_journal(rt, alloc, b"");
    disk.fail_at(before.saturating_add(call));
    disk
}

// Whether a commit whose call with this number fails ends there, and changes neither file.
fn ends_at(rt: &impl Abort, alloc: Global, call: u64) -> bool {
    let before = calls_before_commit(rt, alloc, b"");
    let (disk, answer) = change(rt, alloc, failing(rt, alloc, call), &BOTH);
    let is_last = disk.calls() == before.saturating_add(call);
    is_last && answer.is_err() && is_changed(rt, alloc, disk, false)
}

// Where a file or the journal can't be written, nothing is.
#[test]
fn a_failed_try_ends_the_commit(rt: HostRuntime) {
    let alloc = rt.alloc();
    for call in 1..=TRIES {
        hold_row(&rt, ends_at(&rt, alloc, call), call as usize);
    }
}

// A disk on which a commit was killed before it could sync the gate that it had opened.
fn open_unsynced(rt: &impl Abort, alloc: Global) -> MemoryDisk {
    let (mut disk, answer) = change(rt, alloc, failing(rt, alloc, GATE_SYNC), &BOTH);
    hold(rt, answer.is_err());
    let journal = FileName::journal_name(alloc).expect(rt, "memory");
    hold(rt, disk.write_at(&journal, 0, &[1]).is_ok());
    disk
}

// The first calls of an opening over an open gate: its length, its byte, and its sync.
const OPEN_GATE_SYNC: u64 = 3;

// Whether an opening over it that crashes at the k-th call changes both files, or neither, as it
// should be: it syncs the gate first.
fn crashes_reopened(rt: &impl Abort, alloc: Global, k: u64) -> bool {
    for outcome in &OUTCOMES {
        let mut disk = open_unsynced(rt, alloc);
        disk.crash_at(k, *outcome);
        let image = image_of(rt, alloc, opened_disk(rt, alloc, disk));
        let is_done = k > OPEN_GATE_SYNC || is_gate_open(false, *outcome);
        if !is_changed(rt, alloc, image, is_done) {
            return false;
        }
    }
    true
}

#[test]
fn an_opening_syncs_an_open_gate_first(rt: HostRuntime) {
    let alloc = rt.alloc();
    for k in 1..33usize {
        hold_row(&rt, crashes_reopened(&rt, alloc, k as u64), k);
    }
}

// The gate is marked as closed, whatever is on the disk.
#[test]
fn a_failed_sync_of_the_gate_breaks_the_set(rt: HostRuntime) {
    let alloc = rt.alloc();
    let mut set = open(&rt, alloc, failing(&rt, alloc, GATE_SYNC), FILES);
    hold(&rt, is_broken_by_commit(&rt, alloc, &mut set));
    let disk = set.into_disk();
    let image = disk.image(alloc).expect(&rt, "memory");
    hold(&rt, is_changed(&rt, alloc, image, false));
    hold(&rt, is_changed(&rt, alloc, disk, false));
}
