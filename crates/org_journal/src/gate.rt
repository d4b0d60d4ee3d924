//! The writes of the journal, in the order that lets a crash at any moment leave it whole.
//!
//! The gate is the journal's first byte. While other bytes are written it is closed on the disk; it
//! is opened and closed by a write of its own, synced before anything else is done.
ghost use Rattle.std.specs.Prelude.{◌≡◌, ◌≤◌, ◌<◌, ◌+◌, ◌^◌, ℕ, List, length, drop, [], ◌∷◌, IfOk, IsErr, OnOk, IsTrue, is_some};
ghost use Rattle.org_splice.specs.Overwritten.{overwritten};
ghost use Rattle.org_disk.specs.CountsFailures.{CountsFailures, Looks};
ghost use Rattle.org_disk.specs.Disk.{IsImage, IsStable};
ghost use Rattle.org_journal.specs.Finding.{EndsAt};
ghost use Rattle.org_journal.specs.Reading.{journal_at};
ghost use Rattle.org_journal.specs.Gate.{front_size, is_open, HasClosedGate, HasSameRecord, LeavesClosed, LeavesBody, LeavesRecord, PutsOnDisk};

use crate::finding::FRONT;
use org_disk::{Disk, DiskFault, FileName};

const CLOSED: u8 = 0;

/// The first byte of a journal whose gate is open.
pub(crate) const OPEN: u8 = 1;

// The first byte of a journal whose gate couldn't be put on the disk. It is closed.
const LOST: u8 = 2;

// How many bytes of a record are written again at once.
const PIECE: u64 = 4_096;

// What `mark` writes after a record.
const MARK: u8 = 0;

/// Gives a journal that is shorter than a header its gate, closed. At every moment the gate is
/// closed, also where the call fails.
///
/// # Errors
///
/// `DiskFault`: a call of the disk failed.
pub fn prepare<D: Disk>(disk: &mut D, journal: &FileName) -> Result<(), DiskFault>
    requires stable { D.honest disk.old → IsStable (D.files disk.old journal.now) }
    requires short { D.honest disk.old → length (D.files disk.old journal.now).content <
        front_size }
    ensures { PutsOnDisk D.Disk journal.now
        (0 ∷ drop 1 (D.files disk.old journal.now).content)
        (LeavesClosed journal.now (D.files disk.old)) disk.old disk.new result }
{
    set_gate(disk, journal, CLOSED)
}

/// Puts a record's bytes after the closed gate, on the disk. At every moment the gate is closed,
/// also where the call fails; bytes that stood after the new ones stay.
///
/// # Errors
///
/// `DiskFault`: a call of the disk failed.
pub fn arm<D: Disk>(disk: &mut D, journal: &FileName, body: &[u8]) -> Result<(), DiskFault>
    requires { D.honest disk.old → HasClosedGate (D.files disk.old journal.now) }
    ensures { PutsOnDisk D.Disk journal.now
        (overwritten 1 body.now (D.files disk.old journal.now).content)
        (LeavesClosed journal.now (D.files disk.old)) disk.old disk.new result }
{
    disk.write_at(journal, 1, body)?;
    disk.sync(journal)
}

/// Opens the gate, on the disk. Where a record stands after it, the journal is open then. At every
/// moment the journal differs from what it was at its first byte alone, also where the call fails.
///
/// # Errors
///
/// `DiskFault`: a call of the disk failed.
pub fn open_gate<D: Disk>(disk: &mut D, journal: &FileName) -> Result<(), DiskFault>
    requires { D.honest disk.old → IsStable (D.files disk.old journal.now) }
    ensures put { PutsOnDisk D.Disk journal.now
        (1 ∷ drop 1 (D.files disk.old journal.now).content)
        (LeavesBody journal.now (D.files disk.old)) disk.old disk.new result }
    ensures opened { D.honest disk.new → OnOk result
        (IsTrue (is_some (journal_at (drop 1 (D.files disk.old journal.now).content)))
        → IsTrue (is_open (D.files disk.new journal.now).content)) }
{
    set_gate(disk, journal, OPEN)
}

/// Closes the gate, on the disk. At every moment the journal differs from what it was at its first
/// byte alone, also where the call fails.
///
/// # Errors
///
/// `DiskFault`: a call of the disk failed.
pub fn close_gate<D: Disk>(disk: &mut D, journal: &FileName) -> Result<(), DiskFault>
    requires stable { D.honest disk.old → IsStable (D.files disk.old journal.now) }
    requires nonempty { D.honest disk.old → 1 ≤ length (D.files disk.old journal.now).content }
    ensures { PutsOnDisk D.Disk journal.now
        (0 ∷ drop 1 (D.files disk.old journal.now).content)
        (LeavesBody journal.now (D.files disk.old)) disk.old disk.new result }
{
    set_gate(disk, journal, CLOSED)
}

/// Writes 0 after the record of an open journal, where no reader looks, on the disk. So the
/// journal changed after the files that its record names, whoever changed those last. At every
/// moment the gate is open over the same record, also where the call fails.
///
/// # Errors
///
/// `DiskFault`: a call of the disk failed.
pub fn mark<D: Disk>(disk: &mut D, journal: &FileName, end: u64) -> Result<(), DiskFault>
    requires room { end + 1 < 2 ^ 64 }
    requires stable { D.honest disk.old → IsStable (D.files disk.old journal.now) }
    requires end { D.honest disk.old → EndsAt (D.files disk.old journal.now).content end }
    ensures put { PutsOnDisk D.Disk journal.now
        (overwritten end (0 ∷ []) (D.files disk.old journal.now).content)
        (LeavesRecord journal.now (D.files disk.old)) disk.old disk.new result }
    ensures images { D.honest disk.new → (bytes : List ℕ)
        → IsImage (D.files disk.new journal.now) bytes
        → HasSameRecord (D.files disk.old journal.now).content bytes }
{
    disk.write_at(journal, end, &[MARK])?;
    disk.sync(journal)
}

/// Whether the gate is open, whatever stands after it.
///
/// # Errors
///
/// `DiskFault`: a call of the disk failed.
pub fn is_open<D: Disk>(disk: &mut D, journal: &FileName) -> Result<bool, DiskFault>
    ensures value { IfOk result (λ answer. D.honest disk.new
        → answer ≡ is_open (D.files disk.old journal.now).content) }
    ensures looks { Looks D.Disk disk.old disk.new }
    ensures accounts { CountsFailures D.Disk disk.old disk.new (IsErr result) }
{
    if disk.length(journal)? < FRONT {
        return Ok(false);
    }
    let mut gate = [0];
    disk.read_at(journal, 0, &mut gate)?;
    Ok(gate[0] == OPEN)
}

/// Writes a closed gate again as it is, and the journal's last byte, on which its length depends. So
/// the next sync puts both on the disk, also where one failed to, and the system forgot them: else a
/// gate that reads as closed might be open after a crash. An open gate is left alone.
///
/// # Errors
///
/// `DiskFault`: a call of the disk failed.
pub fn write_gate_again<D: Disk>(disk: &mut D, journal: &FileName) -> Result<(), DiskFault>
    ensures looks { Looks D.Disk disk.old disk.new }
    ensures accounts { CountsFailures D.Disk disk.old disk.new (IsErr result) }
{
    if is_open(disk, journal)? {
        return Ok(());
    }
    write_ends_again(disk, journal)
}

/// Writes an open gate again, its record and the journal's last byte. `end` is the place after the
/// record.
///
/// # Errors
///
/// `DiskFault`: a call of the disk failed.
pub fn write_record_again<D: Disk>(
    disk: &mut D,
    journal: &FileName,
    end: u64,
) -> Result<(), DiskFault>
    requires { D.honest disk.old → end ≤ length (D.files disk.old journal.now).content }
    ensures looks { Looks D.Disk disk.old disk.new }
    ensures accounts { CountsFailures D.Disk disk.old disk.new (IsErr result) }
{
    let mut from = 0;
    while from < end {
        let size = (end - from).min(PIECE);
        write_piece_again(disk, journal, from, size as usize)?;
        from += size;
    }
    write_ends_again(disk, journal)
}

// Writes the first byte and the last one again.
fn write_ends_again<D: Disk>(disk: &mut D, journal: &FileName) -> Result<(), DiskFault>
    ensures looks { Looks D.Disk disk.old disk.new }
    ensures accounts { CountsFailures D.Disk disk.old disk.new (IsErr result) }
{
    let length = disk.length(journal)?;
    if length == 0 {
        return Ok(());
    }
    write_piece_again(disk, journal, 0, 1)?;
    write_piece_again(disk, journal, length - 1, 1)
}

// Writes so many bytes again, at most a piece.
fn write_piece_again<D: Disk>(
    disk: &mut D,
    journal: &FileName,
    from: u64,
    size: usize,
) -> Result<(), DiskFault>
    requires size { size ≤ 4096 }
    requires within { D.honest disk.old
        → from + size ≤ length (D.files disk.old journal.now).content }
    ensures looks { Looks D.Disk disk.old disk.new }
    ensures accounts { CountsFailures D.Disk disk.old disk.new (IsErr result) }
{
    let mut buffer = [0u8; 4_096];
    let piece = &mut buffer[..size];
    disk.read_at(journal, from, piece)?;
    disk.write_again(journal, from, piece)
}

// Writes the gate alone, and syncs it. Where that fails, a mark says that what is read of it may not
// be on the disk; it lives as long as what is read.
fn set_gate<D: Disk>(disk: &mut D, journal: &FileName, gate: u8) -> Result<(), DiskFault>
    requires { D.honest disk.old → IsStable (D.files disk.old journal.now) }
    ensures { PutsOnDisk D.Disk journal.now
        (gate ∷ drop 1 (D.files disk.old journal.now).content)
        (LeavesBody journal.now (D.files disk.old)) disk.old disk.new result }
{
    disk.write_at(journal, 0, &[gate])?;
    let synced = disk.sync(journal);
    if synced.is_err() {
        let _ = disk.write_at(journal, 0, &[LOST]);
    }
    synced
}
