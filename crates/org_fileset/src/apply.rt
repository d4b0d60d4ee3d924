//! The files of a record, written one after the other.
//!
//! Each step may be stopped and done again: a record makes the same text of whatever a crash left
//! of its file. Nothing here looks at the journal.
ghost use Rattle.std.specs.Prelude.{◌≡◌, ◌≢◌, ◌+◌, ◌^◌, ◌<◌, ◌≤◌, List, ℕ, length, IfOk, IsFalse, OnOk, IsErr};
ghost use Rattle.org_disk.specs.Disk.{AreLeftBy, Changes, IsStable, write};
ghost use Rattle.org_disk.specs.CountsFailures.{CountsFailures, Looks, PassesOver};
ghost use Rattle.org_journal.specs.Record.{is_named};
ghost use Rattle.org_journal.specs.Recovered.{contents, made_by, replayed};
ghost use Rattle.org_fileset.specs.Replay.{AreApplicable, AreApplicableTo, CanPatch, AppliesOver, TakesOver, length_before};
ghost use Rattle.org_fileset.specs.Writes.{LeavesAlone};

use org_disk::{Disk, DiskFault, FileName};
use org_journal::Entry;
use org_splice::Patch;

/// What applies a record to its files.
#[derive(Clone, Copy)]
pub enum During {
    /// A commit. It has just looked at the file that is written first, and reads all of them back.
    Commit,
    /// An opening. It does neither.
    Opening,
}

// Which looks at a file are due: just before its patches are written, and just after.
#[derive(Clone, Copy)]
struct Due {
    before: bool,
    after: bool,
}

impl During {
    // The looks that are due at the file of this place among so many. Where a commit writes several
    // files, what it moves from one to another may be in none if another program replaces one now:
    // so it looks at each once more, while the gate is open.
    fn due(self, index: usize, count: usize) -> Due {
        match self {
            During::Opening => Due {
                before: true,
                after: true,
            },
            During::Commit => Due {
                before: index > 0,
                after: count > 1,
            },
        }
    }
}

/// Writes a patch over its file. One without bytes needs no call: as a write it would try the file,
/// and the gate is open here.
fn write_patch<D: Disk>(disk: &mut D, name: &FileName, patch: &Patch) -> Result<(), DiskFault>
    requires within { D.honest disk.old
        → patch.now.from ≤ length (D.files disk.old name.now).content }
    requires fits { D.honest disk.old → patch.now.from + length patch.now.bytes < 2 ^ 64 }
    ensures effect { D.honest disk.new → Changes (write patch.now.from patch.now.bytes) name.now
        (D.files disk.old) (D.files disk.new) result }
    ensures time { D.honest disk.new → PassesOver D.Disk disk.old disk.new
        (AreLeftBy (write patch.now.from patch.now.bytes) name.now (D.files disk.old)) }
    ensures accounts { CountsFailures D.Disk disk.old disk.new (IsErr result) }
{
    if patch.bytes.is_empty() {
        return Ok(());
    }
    disk.write_at(name, patch.from, patch.bytes.as_slice())
}

// Applies an entry's patches to its file, and cuts it to the entry's length if it was longer than
// that before its entry was made; an entry of version 1 or 2 doesn't say so, and the file is asked.
// What another program put past the end of a file that was no longer isn't cut off. Before, within
// and after it, also where it fails, the entry makes the same text of whatever a crash leaves of
// the file.
//
// The file is looked at where that is due, and before it is cut: a disk may see then that another
// program has changed it.
fn apply_entry<D: Disk>(disk: &mut D, entry: &Entry, due: Due) -> Result<(), DiskFault>
    requires { D.honest disk.old → CanPatch entry.now (D.files disk.old entry.now.name).content }
    ensures applies { D.honest disk.new → AppliesOver D.Disk entry.now disk.old disk.new }
    ensures content { OnOk result (D.honest disk.new → (D.files disk.new entry.now.name).content
        ≡ made_by entry.now (D.files disk.old entry.now.name).content) }
    ensures alone { D.honest disk.new → LeavesAlone D.Disk
        (λ other. other ≢ entry.now.name) disk.old disk.new }
    ensures accounts { CountsFailures D.Disk disk.old disk.new (IsErr result) }
{
    let before = length_before(disk, entry, due.before)?;
    apply_patches(disk, entry, before, due.after)
}

// How long the file of an entry was before: as the entry says, or as it is.
fn length_before<D: Disk>(disk: &mut D, entry: &Entry, is_look_due: bool) -> Result<u64, DiskFault>
    ensures length { IfOk result (λ n. D.honest disk.new
        → n ≡ length_before entry.now.before
        (length (D.files disk.old entry.now.name).content)) }
    ensures looks { Looks D.Disk disk.old disk.new }
    ensures accounts { CountsFailures D.Disk disk.old disk.new (IsErr result) }
{
    match &entry.before {
        Some(before) if is_look_due => {
            disk.length(&entry.name)?;
            Ok(before.length)
        }
        Some(before) => Ok(before.length),
        None => disk.length(&entry.name),
    }
}

// Applies an entry's patches to its file, which had so many bytes before.
fn apply_patches<D: Disk>(
    disk: &mut D,
    entry: &Entry,
    before: u64,
    is_look_due: bool,
) -> Result<(), DiskFault>
    requires can { D.honest disk.old
        → CanPatch entry.now (D.files disk.old entry.now.name).content }
    requires before { D.honest disk.old → before ≡ length_before entry.now.before
        (length (D.files disk.old entry.now.name).content) }
    ensures applies { D.honest disk.new → AppliesOver D.Disk entry.now disk.old disk.new }
    ensures content { OnOk result (D.honest disk.new → (D.files disk.new entry.now.name).content
        ≡ made_by entry.now (D.files disk.old entry.now.name).content) }
    ensures alone { D.honest disk.new → LeavesAlone D.Disk
        (λ other. other ≢ entry.now.name) disk.old disk.new }
    ensures accounts { CountsFailures D.Disk disk.old disk.new (IsErr result) }
{
    for patch in entry.patches.as_slice() {
        write_patch(disk, &entry.name, patch)?;
    }
    let is_shortened = before > entry.length;
    if is_shortened || is_look_due {
        let length = disk.length(&entry.name)?;
        if is_shortened && length >= entry.length {
            disk.cut(&entry.name, entry.length)?;
        }
    }
    Ok(())
}

/// Looks at the file that is written first, if others are written after it.
///
/// # Errors
///
/// `DiskFault`: a call of the disk failed.
pub fn look_at_first<D: Disk>(disk: &mut D, entries: &[Entry]) -> Result<(), DiskFault>
    ensures looks { Looks D.Disk disk.old disk.new }
    ensures accounts { CountsFailures D.Disk disk.old disk.new (IsErr result) }
{
    if let [first, _, ..] = entries {
        disk.length(&first.name)?;
    }
    Ok(())
}

/// Applies the entries of a record to their files, one after the other, and syncs the files. Each
/// file is looked at just before it is written, and just after where a record has several. Before,
/// within and after it, also where it fails, the record makes the same texts of whatever a crash
/// leaves of the files, if it did so at the start.
///
/// # Errors
///
/// `DiskFault`: a call of the disk failed.
pub fn apply_and_sync<D: Disk>(
    disk: &mut D,
    entries: &[Entry],
    during: During,
) -> Result<(), DiskFault>
    requires { D.honest disk.old → AreApplicableTo entries.now (D.files disk.old) }
    ensures replays { D.honest disk.new → TakesOver D.Disk entries.now disk.old disk.new }
    ensures contents { OnOk result (D.honest disk.new → (name : List ℕ)
        → contents (D.files disk.new) name ≡ replayed entries.now (contents (D.files disk.old))
        name) }
    ensures stable { OnOk result (D.honest disk.new → (name : List ℕ)
        → (IsFalse (is_named name entries.now) → IsStable (D.files disk.old name))
        → IsStable (D.files disk.new name)) }
    ensures alone { D.honest disk.new → LeavesAlone D.Disk
        (λ name. IsFalse (is_named name entries.now)) disk.old disk.new }
    ensures accounts { CountsFailures D.Disk disk.old disk.new (IsErr result) }
{
    apply_all(disk, entries, during)?;
    sync_all(disk, entries)
}

// Applies the entries alone.
fn apply_all<D: Disk>(disk: &mut D, entries: &[Entry], during: During) -> Result<(), DiskFault>
    requires { D.honest disk.old → AreApplicableTo entries.now (D.files disk.old) }
    ensures replays { D.honest disk.new → TakesOver D.Disk entries.now disk.old disk.new }
    ensures contents { OnOk result (D.honest disk.new → (name : List ℕ)
        → contents (D.files disk.new) name ≡ replayed entries.now (contents (D.files disk.old))
        name) }
    ensures alone { D.honest disk.new → LeavesAlone D.Disk
        (λ name. IsFalse (is_named name entries.now)) disk.old disk.new }
    ensures accounts { CountsFailures D.Disk disk.old disk.new (IsErr result) }
{
    for (index, entry) in entries.iter().enumerate() {
        apply_entry(disk, entry, during.due(index, entries.len()))?;
    }
    Ok(())
}

// Syncs the files of a record.
fn sync_all<D: Disk>(disk: &mut D, entries: &[Entry]) -> Result<(), DiskFault>
    requires { D.honest disk.old → AreApplicable entries.now }
    ensures replays { D.honest disk.new → TakesOver D.Disk entries.now disk.old disk.new }
    ensures contents { OnOk result (D.honest disk.new → (name : List ℕ)
        → contents (D.files disk.new) name ≡ contents (D.files disk.old) name) }
    ensures stable { OnOk result (D.honest disk.new → (name : List ℕ)
        → (IsFalse (is_named name entries.now) → IsStable (D.files disk.old name))
        → IsStable (D.files disk.new name)) }
    ensures alone { D.honest disk.new → LeavesAlone D.Disk
        (λ name. IsFalse (is_named name entries.now)) disk.old disk.new }
    ensures accounts { CountsFailures D.Disk disk.old disk.new (IsErr result) }
{
    for entry in entries {
        disk.sync(&entry.name)?;
    }
    Ok(())
}
