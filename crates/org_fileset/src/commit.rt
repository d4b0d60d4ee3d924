//! A record made to count: written to the journal, applied to its files, and done with.
//!
//! The order is that of FORMATS: tries, record, sync, gate, sync, tries, files, syncs, files read
//! back, gate, sync, tries.
//! What a commit has to do it does for any entries that fit their files; that they are changes of a
//! set is `set`'s matter.
ghost use Rattle.std.specs.Prelude.{◌≡◌, ◌≢◌, IsErr};
ghost use Rattle.std.specs.List.{AllByRecursion};
ghost use Rattle.org_disk.specs.CountsFailures.{CountsFailures, Looks};
ghost use Rattle.org_disk.specs.Names.{journal_name};
ghost use Rattle.org_journal.specs.Gate.{HasClosedGate};
ghost use Rattle.org_journal.specs.Record.{BeginsWith};
ghost use Rattle.org_journal.specs.Recovered.{contents, replayed};
ghost use Rattle.org_fileset.specs.Entries.{HoldTexts};
ghost use Rattle.org_fileset.specs.Replay.{AreApplicableTo, CommitsEntriesOver, IsOpenOver, ReplaysOver};
ghost use Rattle.org_fileset.specs.Writes.{TriesAgainOver, TriesOver};

use crate::apply::{During, apply_and_sync, look_at_first};
use crate::trying::{try_all, try_files};
use org_disk::{Disk, DiskFault, FileName};
use org_journal::{Entry, arm, close_gate, open_gate};
use org_splice::Changes;

/// Does what an open journal's record says: applies it to its files, syncs them, and closes the
/// gate. Where the record makes the same texts of whatever a crash leaves at the start, every image
/// recovers to them at every moment since.
///
/// # Errors
///
/// `DiskFault`: a call of the disk failed.
pub fn replay<D: Disk>(disk: &mut D, journal: &FileName, entries: &[Entry]) -> Result<(), DiskFault>
    requires journal { journal.now ≡ journal_name }
    requires applicable { D.honest disk.old → AreApplicableTo entries.now (D.files disk.old) }
    requires opened { D.honest disk.old → IsOpenOver entries.now (D.files disk.old) }
    ensures replays { D.honest disk.new → ReplaysOver D.Disk entries.now disk.old disk.new result }
    ensures accounts { CountsFailures D.Disk disk.old disk.new (IsErr result) }
{
    apply_and_sync(disk, entries, During::Opening)?;
    close_gate(disk, journal)
}

/// Commits entries that fit their files. The body is their record, from the journal's second byte
/// on. Where all files are on the disk at the start, every image at every moment since recovers to
/// all files before, or to all files after. No other file is written; and after the closed gate
/// the record stays.
///
/// Before anything is written, the journal and the files are tried: where one can't be written, the
/// gate stays closed. After the opened gate the files are tried again, just before the first of
/// them is written: where another program changed one meanwhile, the gate is closed, and none is
/// written. Before the gate is closed at last, the files are read back, and once it is closed they
/// are tried: where another program wrote one of the changed files in the same moment, or replaced
/// it since, the gate is closed all the same, and the commit fails.
///
/// # Errors
///
/// `DiskFault`: a call of the disk failed.
pub fn commit_entries<D: Disk, C: Changes<FileName>>(
    disk: &mut D,
    journal: &FileName,
    entries: &[Entry],
    body: &[u8],
    changes: &C,
) -> Result<(), DiskFault>
    requires journal { journal.now ≡ journal_name }
    requires applicable { D.honest disk.old → AreApplicableTo entries.now (D.files disk.old) }
    requires body { BeginsWith body.now entries.now }
    requires gate { D.honest disk.old → HasClosedGate (D.files disk.old journal_name) }
    requires named { AllByRecursion (λ change. change.0 ≢ journal_name) (C.pairs changes.now) }
    requires texts { D.honest disk.old → HoldTexts (C.pairs changes.now)
        (replayed entries.now (contents (D.files disk.old))) }
    ensures commits { D.honest disk.new
        → CommitsEntriesOver D.Disk entries.now disk.old disk.new result }
    ensures accounts { CountsFailures D.Disk disk.old disk.new (IsErr result) }
{
    commit_and_confirm(disk, journal, entries, body, changes)?;
    try_files(disk, entries)
}

// All of it but the last tries.
fn commit_and_confirm<D: Disk, C: Changes<FileName>>(
    disk: &mut D,
    journal: &FileName,
    entries: &[Entry],
    body: &[u8],
    changes: &C,
) -> Result<(), DiskFault>
    requires journal { journal.now ≡ journal_name }
    requires applicable { D.honest disk.old → AreApplicableTo entries.now (D.files disk.old) }
    requires body { BeginsWith body.now entries.now }
    requires gate { D.honest disk.old → HasClosedGate (D.files disk.old journal_name) }
    requires named { AllByRecursion (λ change. change.0 ≢ journal_name) (C.pairs changes.now) }
    requires texts { D.honest disk.old → HoldTexts (C.pairs changes.now)
        (replayed entries.now (contents (D.files disk.old))) }
    ensures commits { D.honest disk.new
        → CommitsEntriesOver D.Disk entries.now disk.old disk.new result }
    ensures accounts { CountsFailures D.Disk disk.old disk.new (IsErr result) }
{
    try_all(disk, journal, entries)?;
    arm(disk, journal, body)?;
    open_gate(disk, journal)?;
    try_again(disk, journal, entries)?;
    replay_and_confirm(disk, journal, entries, changes)
}

// Tries the files once more after the opened gate. Where another program changed one meanwhile,
// the gate is closed again, and each file stays as it is.
fn try_again<D: Disk>(disk: &mut D, journal: &FileName, entries: &[Entry]) -> Result<(), DiskFault>
    requires journal { journal.now ≡ journal_name }
    requires applicable { D.honest disk.old → AreApplicableTo entries.now (D.files disk.old) }
    requires opened { D.honest disk.old → IsOpenOver entries.now (D.files disk.old) }
    ensures again { D.honest disk.new → TriesAgainOver D.Disk entries.now disk.old disk.new result }
    ensures accounts { CountsFailures D.Disk disk.old disk.new (IsErr result) }
{
    match look_last(disk, entries) {
        Ok(()) => Ok(()),
        Err(fault) => {
            close_gate(disk, journal)?;
            Err(fault)
        }
    }
}

// Tries the files, and looks once more at the one that is written first, if others were tried since.
fn look_last<D: Disk>(disk: &mut D, entries: &[Entry]) -> Result<(), DiskFault>
    ensures tries { D.honest disk.new → TriesOver D.Disk entries.now disk.old disk.new result }
    ensures accounts { CountsFailures D.Disk disk.old disk.new (IsErr result) }
{
    try_files(disk, entries)?;
    look_at_first(disk, entries)
}

// Does what the record says, and reads the changed files back before it closes the gate.
fn replay_and_confirm<D: Disk, C: Changes<FileName>>(
    disk: &mut D,
    journal: &FileName,
    entries: &[Entry],
    changes: &C,
) -> Result<(), DiskFault>
    requires journal { journal.now ≡ journal_name }
    requires applicable { D.honest disk.old → AreApplicableTo entries.now (D.files disk.old) }
    requires opened { D.honest disk.old → IsOpenOver entries.now (D.files disk.old) }
    requires texts { D.honest disk.old → HoldTexts (C.pairs changes.now)
        (replayed entries.now (contents (D.files disk.old))) }
    ensures replays { D.honest disk.new → ReplaysOver D.Disk entries.now disk.old disk.new result }
    ensures accounts { CountsFailures D.Disk disk.old disk.new (IsErr result) }
{
    apply_and_sync(disk, entries, During::Commit)?;
    let confirmed = confirm_all(disk, changes);
    close_gate(disk, journal)?;
    confirmed
}

// Asks whether each changed file holds its text, as it should.
fn confirm_all<D: Disk, C: Changes<FileName>>(disk: &mut D, changes: &C) -> Result<(), DiskFault>
    requires { D.honest disk.old → HoldTexts (C.pairs changes.now) (contents (D.files disk.old)) }
    ensures looks { Looks D.Disk disk.old disk.new }
    ensures accounts { CountsFailures D.Disk disk.old disk.new (IsErr result) }
{
    for index in 0..changes.len() {
        let (name, text) = changes.pair(index);
        disk.confirm(name, text.bytes())?;
    }
    Ok(())
}
