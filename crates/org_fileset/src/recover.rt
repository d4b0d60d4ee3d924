//! What an opening does first: it finishes what a crash cut short, and leaves the gate closed.
//!
//! It may be stopped at any call and begun anew. A bad journal is left as it is.
ghost use Rattle.std.specs.Prelude.{◌≡◌, ◌+◌, ◌<◌, ◌^◌, Ok, IfOk, IfErr, IsErr, IsErrOf, IsFalse, IsTrue};
ghost use Rattle.org_disk.specs.CountsFailures.{CountsFailures, Looks};
ghost use Rattle.org_disk.specs.Disk.{IsStable};
ghost use Rattle.org_disk.specs.Names.{journal_name};
ghost use Rattle.org_journal.specs.Finding.{EndsAt, Finds, IsWhole};
ghost use Rattle.org_journal.specs.Recovered.{all_fit, contents};
ghost use Rattle.org_journal.specs.Gate.{is_open};
ghost use Rattle.org_journal.specs.Left.{is_left};
ghost use Rattle.org_journal.specs.Record.{is_named, IsEntry, IsRecord};
ghost use Rattle.org_journal.specs.declared.record.Version.{Version};
ghost use Rattle.org_fileset.specs.Opening.{IsFaultOfRecovery, IsFit, IsStrange, IsUnfit, Names};
ghost use Rattle.org_fileset.specs.Replay.{AreApplicableTo, IsOpenOver};
ghost use Rattle.org_fileset.specs.Forgetting.{ForgetsOver, IsTransient};
ghost use Rattle.org_fileset.specs.Looking.{IsLookedAt, IsFoundIn};
ghost use Rattle.org_fileset.specs.Recovery.{IsFoundBad, Reopens};

use crate::commit::replay;
use crate::open::OpenFault;
use org_disk::{Disk, DiskFault, FileName, Standing};
use org_journal::{
    Entry, FRONT, FindFault, Found, all_fit, close_gate, find, is_left, is_open, mark, prepare,
    write_gate_again, write_record_again,
};
use std::alloc::Global;

/// Syncs the journal and looks at it. Nothing else is done.
fn look<D: Disk>(alloc: Global, disk: &mut D, journal: &FileName) -> Result<Found, FindFault>
    requires { journal.now ≡ journal_name }
    ensures looked { D.honest disk.new
        → IsLookedAt D.Disk disk.old disk.new }
    ensures found { IfOk result (λ found. D.honest disk.new
        → IsFoundIn (D.files disk.old) (D.files disk.new) found) }
    ensures whole { IfOk result (λ found. IsWhole found) }
    ensures bad { IsErrOf result FindFault.BadJournal → D.honest disk.new
        → IsFoundBad (contents (D.files disk.old)) (contents (D.files disk.new)) }
    ensures accounts { CountsFailures D.Disk disk.old disk.new (IsErrOf result FindFault.Device) }
{
    disk.sync(journal)?;
    find(alloc, disk, journal)
}

/// Gives a journal without a gate one that is closed. A whole journal whose gate is closed stays as
/// it is.
fn give_gate<D: Disk>(disk: &mut D, journal: &FileName) -> Result<(), DiskFault>
    requires journal { journal.now ≡ journal_name }
    requires stable { D.honest disk.old → IsStable (D.files disk.old journal_name) }
    requires closed { D.honest disk.old
        → IsFalse (is_open (contents (D.files disk.old) journal_name)) }
    ensures reopens { Reopens D.Disk disk.old disk.new result }
    ensures accounts { CountsFailures D.Disk disk.old disk.new (IsErr result) }
{
    if disk.length(journal)? < FRONT {
        return prepare(disk, journal);
    }
    Ok(())
}

/// Does again what an open journal's record says, once the journal is marked. So a recovery that is
/// stopped here leaves a journal that changed after the files did, and isn't taken for the work of
/// another program.
fn redo_marked<D: Disk>(
    disk: &mut D,
    journal: &FileName,
    entries: &[Entry],
    end: u64,
) -> Result<(), DiskFault>
    requires journal { journal.now ≡ journal_name }
    requires room { end + 1 < 2 ^ 64 }
    requires applicable { D.honest disk.old → AreApplicableTo entries.now (D.files disk.old) }
    requires opened { D.honest disk.old → IsOpenOver entries.now (D.files disk.old) }
    requires end { D.honest disk.old → EndsAt (contents (D.files disk.old) journal_name) end }
    ensures reopens { Reopens D.Disk disk.old disk.new result }
    ensures accounts { CountsFailures D.Disk disk.old disk.new (IsErr result) }
{
    mark(disk, journal, end)?;
    replay(disk, journal, entries)
}

/// Does again what an open journal's record says. Where an earlier sync failed, the gate might read
/// as open and be closed on the disk, so the journal is first written again, as it is.
fn redo<D: Disk>(
    disk: &mut D,
    journal: &FileName,
    entries: &[Entry],
    end: u64,
) -> Result<(), DiskFault>
    requires journal { journal.now ≡ journal_name }
    requires room { end + 1 < 2 ^ 64 }
    requires applicable { D.honest disk.old → AreApplicableTo entries.now (D.files disk.old) }
    requires opened { D.honest disk.old → IsOpenOver entries.now (D.files disk.old) }
    requires end { D.honest disk.old → EndsAt (contents (D.files disk.old) journal_name) end }
    ensures reopens { Reopens D.Disk disk.old disk.new result }
    ensures accounts { CountsFailures D.Disk disk.old disk.new (IsErr result) }
{
    write_record_again(disk, journal, end)?;
    redo_marked(disk, journal, entries, end)
}

/// Finishes what was found in the journal, which is on the device.
fn finish<D: Disk>(disk: &mut D, journal: &FileName, found: &Found) -> Result<(), DiskFault>
    requires journal { journal.now ≡ journal_name }
    requires stable { D.honest disk.old → IsStable (D.files disk.old journal_name) }
    requires found { D.honest disk.old → Finds (contents (D.files disk.old)) (Ok found.now) }
    requires fit { D.honest disk.old → IsFit found.now (contents (D.files disk.old)) }
    requires whole { IsWhole found.now }
    ensures reopens { Reopens D.Disk disk.old disk.new result }
    ensures accounts { CountsFailures D.Disk disk.old disk.new (IsErr result) }
{
    match found {
        Found::Open(record, end) => redo(disk, journal, record.as_slice(), *end),
        Found::Closed => give_gate(disk, journal),
    }
}

/// Finishes the journal's record where its gate is open, and gives a journal without a gate one
/// that is closed. Nothing else is written.
///
/// On a disk that is recoverable, of which each image recovers to files, every image at every
/// moment since the call began recovers to what an image at the start recovered to, whatever is
/// answered; so it may be stopped, and called again. Where the journal is bad, as it reads, or is
/// whole and its gate is closed, a crash leaves what it might have left before, whatever is
/// answered.
///
/// # Errors
///
/// In this order, and the first three before anything is changed:
///
/// - `BadJournal`: the gate is open, and no whole record stands after it.
/// - `Changed`, `Outside`: the gate is open over a record, and this is the first of its files that
///   doesn't stand as a crash may have left it.
/// - `BadJournal`: the record doesn't fit its files.
/// - `Device`: a call of the disk failed.
/// - `OutOfMemory`.
pub fn recover<D: Disk>(alloc: Global, disk: &mut D, journal: &FileName) -> Result<(), OpenFault>
    requires { journal.now ≡ journal_name }
    ensures reopens { Reopens D.Disk disk.old disk.new result }
    ensures fault { IfErr result (IsFaultOfRecovery (D.honest disk.new)
        (contents (D.files disk.old)) (contents (D.files disk.new))) }
    ensures accounts { CountsFailures D.Disk disk.old disk.new (IsErrOf result OpenFault.Device) }
{
    write_gate_again(disk, journal)?;
    recover_found(alloc, disk, journal)
}

// Does so once a gate that reads as closed is written again, as it is: where an earlier sync failed,
// it might be open on the disk.
fn recover_found<D: Disk>(alloc: Global, disk: &mut D, journal: &FileName) -> Result<(), OpenFault>
    requires { journal.now ≡ journal_name }
    ensures reopens { Reopens D.Disk disk.old disk.new result }
    ensures fault { IfErr result (IsFaultOfRecovery (D.honest disk.new)
        (contents (D.files disk.old)) (contents (D.files disk.new))) }
    ensures accounts { CountsFailures D.Disk disk.old disk.new (IsErrOf result OpenFault.Device) }
{
    let found = look(alloc, disk, journal)?;
    check_found(disk, &found)?;
    finish(disk, journal, &found)?;
    Ok(())
}

/// Closes the journal's gate if it is open, whatever stands after it, and leaves every file but the
/// journal as it is: what a crash cut short stays as the crash left it. If the gate is closed,
/// nothing is written.
///
/// # Errors
///
/// - `Device`: a call of the disk failed.
/// - `OutOfMemory`: nothing was changed.
pub fn forget<D: Disk>(alloc: Global, disk: &mut D) -> Result<(), OpenFault>
    ensures forgets { D.honest disk.new → ForgetsOver D.Disk disk.old disk.new result }
    ensures fault { IfErr result IsTransient }
    ensures accounts { CountsFailures D.Disk disk.old disk.new (IsErrOf result OpenFault.Device) }
{
    let journal = FileName::journal_name(alloc)?;
    shut(disk, &journal)?;
    Ok(())
}

// Closes the gate if it is open.
fn shut<D: Disk>(disk: &mut D, journal: &FileName) -> Result<(), DiskFault>
    requires { journal.now ≡ journal_name }
    ensures forgets { D.honest disk.new → ForgetsOver D.Disk disk.old disk.new result }
    ensures accounts { CountsFailures D.Disk disk.old disk.new (IsErr result) }
{
    disk.sync(journal)?;
    if is_open(disk, journal)? {
        return close_gate(disk, journal);
    }
    Ok(())
}

// That each file of a record that is to be done stands as a crash may have left it, and then that
// the record fits them.
fn check_found<D: Disk>(disk: &mut D, found: &Found) -> Result<(), OpenFault>
    requires { IsWhole found.now }
    ensures strange { IfErr result (IsStrange (Names found.now)
        (D.honest disk.new → IsUnfit found.now (contents (D.files disk.old)))) }
    ensures fit { IfOk result (λ _. D.honest disk.new
        → IsFit found.now (contents (D.files disk.old))) }
    ensures looks { Looks D.Disk disk.old disk.new }
    ensures accounts { CountsFailures D.Disk disk.old disk.new (IsErrOf result OpenFault.Device) }
{
    match found {
        Found::Open(record, _) => check_record(disk, record.as_slice()),
        Found::Closed => Ok(()),
    }
}

fn check_record<D: Disk>(disk: &mut D, entries: &[Entry]) -> Result<(), OpenFault>
    requires { IsRecord entries.now }
    ensures strange { IfErr result (IsStrange (λ name. IsTrue (is_named name entries.now))
        (D.honest disk.new → IsFalse (all_fit entries.now (contents (D.files disk.old))))) }
    ensures fit { IfOk result (λ _. D.honest disk.new
        → IsTrue (all_fit entries.now (contents (D.files disk.old)))) }
    ensures looks { Looks D.Disk disk.old disk.new }
    ensures accounts { CountsFailures D.Disk disk.old disk.new (IsErrOf result OpenFault.Device) }
{
    check_standing(disk, entries)?;
    if !all_fit(disk, entries)? {
        return Err(OpenFault::BadJournal);
    }
    Ok(())
}

fn check_standing<D: Disk>(disk: &mut D, entries: &[Entry]) -> Result<(), OpenFault>
    requires { IsRecord entries.now }
    ensures strange { IfErr result (IsStrange (λ name. IsTrue (is_named name entries.now)) ⊥) }
    ensures looks { Looks D.Disk disk.old disk.new }
    ensures accounts { CountsFailures D.Disk disk.old disk.new (IsErrOf result OpenFault.Device) }
{
    for entry in entries {
        check_file(disk, entry)?;
    }
    Ok(())
}

fn check_file<D: Disk>(disk: &mut D, entry: &Entry) -> Result<(), OpenFault>
    requires { (version : Version) × IsEntry version entry.now }
    ensures strange { IfErr result (IsStrange (λ name. name ≡ entry.now.name) ⊥) }
    ensures looks { Looks D.Disk disk.old disk.new }
    ensures accounts { CountsFailures D.Disk disk.old disk.new (IsErrOf result OpenFault.Device) }
{
    match disk.standing(&entry.name)? {
        Standing::Left => check_bytes(disk, entry),
        Standing::Adopted => Ok(()),
        Standing::Changed => Err(OpenFault::Changed(entry.name.clone()?)),
        Standing::Outside => Err(OpenFault::Outside(entry.name.clone()?)),
    }
}

// That the bytes of an entry's file are as a crash may have left them.
fn check_bytes<D: Disk>(disk: &mut D, entry: &Entry) -> Result<(), OpenFault>
    requires { (version : Version) × IsEntry version entry.now }
    ensures left { IfOk result (λ _. D.honest disk.new
        → IsTrue (is_left entry.now (contents (D.files disk.old) entry.now.name))) }
    ensures strange { IfErr result (IsStrange (λ name. name ≡ entry.now.name) ⊥) }
    ensures looks { Looks D.Disk disk.old disk.new }
    ensures accounts { CountsFailures D.Disk disk.old disk.new (IsErrOf result OpenFault.Device) }
{
    if is_left(disk, entry)? {
        return Ok(());
    }
    Err(OpenFault::Changed(entry.name.clone()?))
}
