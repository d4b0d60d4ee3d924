//! What a journal on a disk says: that nothing is to be done, or what a commit had still to do.
//!
//! It reads and never writes. An open gate over anything but a whole record is `BadJournal`.
//! Whether the record fits its files is a question of its own: it is asked after others.
ghost use Rattle.std.specs.Prelude.{◌≡◌, ◌≤◌, ◌<◌, ◌+◌, ◌^◌, ℕ, List, length, take, drop, Some, Ok, Err, IfOk, IfSome, IsErr, IsErrOf};
ghost use Rattle.org_disk.specs.CountsFailures.{CountsFailures, Looks};
ghost use Rattle.org_disk.specs.Names.{journal_name};
ghost use Rattle.org_splice.specs.Patches.{AreWellFormed};
ghost use Rattle.org_splice.specs.Texts.{pairs_of};
ghost use Rattle.org_journal.specs.Recovered.{contents, fits, all_fit};
ghost use Rattle.org_journal.specs.Finding.{Finds, IsWhole, FindsSize, FindsRecord, HoldsRecordOfSize, HaveWellFormedPatches};
ghost use Rattle.org_journal.specs.Gate.{front_size};

use crate::decoding::decode;
use crate::fault::{FindFault, Malformed};
use crate::gate::OPEN;
use crate::record::{Entry, Record};
use byteorder::{BigEndian, ByteOrder};
use org_disk::{Disk, DiskFault, FileName};
use org_fault::Fault;
use org_splice::Patch;
use std::alloc::Global;

/// How many bytes stand in front of a record: the gate, and the header after it. A journal that is
/// shorter has a closed gate.
pub const FRONT: u64 = 16;

/// What stands in a journal.
#[derive(Drop)]
pub enum Found {
    /// The gate is closed.
    Closed,
    /// The gate is open over this record, whose bytes end before this place of the journal.
    Open(Record, u64),
}

// The size of the record after an open gate, and nothing where the gate is closed.
fn size_of<D: Disk>(disk: &mut D, journal: &FileName) -> Result<Option<u64>, FindFault>
    ensures found { D.honest disk.new → FindsSize (D.files disk.old journal.now).content result }
    ensures small { IfOk result (λ found. IfSome found (λ size. front_size + size < 2 ^ 64)) }
    ensures looks { Looks D.Disk disk.old disk.new }
    ensures accounts { CountsFailures D.Disk disk.old disk.new
        (IsErrOf result FindFault.Device) }
{
    let length = disk.length(journal)?;
    if length < FRONT {
        return Ok(None);
    }
    let mut header = [0; 16];
    disk.read_at(journal, 0, &mut header)?;
    size_in(&header, length)
}

// The size of the record that the header of a journal of this many bytes gives, and nothing where
// the gate is closed.
fn size_in(header: &[u8], total: u64) -> Result<Option<u64>, FindFault>
    requires header { length header.now ≡ front_size }
    requires total { front_size ≤ total }
    ensures found { (journal : List ℕ) → header.now ≡ take front_size journal
        → length journal ≡ total → FindsSize journal result }
    ensures small { IfOk result (λ found. IfSome found (λ size. front_size + size < 2 ^ 64)) }
    ensures no_call { ¬ (IsErrOf result FindFault.Device) }
{
    if header[0] != OPEN {
        return Ok(None);
    }
    let size = BigEndian::read_u64(&header[8..]);
    if size > total - FRONT {
        return Err(FindFault::BadJournal);
    }
    Ok(Some(size))
}

// The journal's bytes after the gate, to the end of a record of this size.
fn body_of<D: Disk>(
    alloc: Global,
    disk: &mut D,
    journal: &FileName,
    size: u64,
) -> Result<Vec<u8>, FindFault>
    requires small { front_size + size < 2 ^ 64 }
    requires within { D.honest disk.old → front_size + size ≤ length
        (D.files disk.old journal.now).content }
    ensures bytes { IfOk result (λ body. D.honest disk.new
        → body.items ≡ take (15 + size) (drop 1 (D.files disk.old journal.now).content)) }
    ensures bad { ¬ (IsErrOf result FindFault.BadJournal) }
    ensures looks { Looks D.Disk disk.old disk.new }
    ensures accounts { CountsFailures D.Disk disk.old disk.new
        (IsErrOf result FindFault.Device) }
{
    let mut body = vec![in alloc; 0u8; 15 + size as usize]?;
    disk.read_at(journal, 1, &mut body)?;
    Ok(body)
}

// The place after the record that these bytes after the gate hold. Another byte has room there.
fn end_of(body: &[u8]) -> u64
    ensures value { result ≡ length body.now + 1 }
    ensures small { result + 1 < 2 ^ 64 }
{
    body.len() as u64 + 1
}

// The record after an open gate, which has this size.
fn record_of<D: Disk>(
    alloc: Global,
    disk: &mut D,
    journal: &FileName,
    size: u64,
) -> Result<Found, FindFault>
    requires small { front_size + size < 2 ^ 64 }
    requires within { D.honest disk.old → HoldsRecordOfSize
        (D.files disk.old journal.now).content size }
    ensures found { D.honest disk.new → FindsRecord (D.files disk.old journal.now).content result }
    ensures whole { IfOk result (λ found. IsWhole found) }
    ensures looks { Looks D.Disk disk.old disk.new }
    ensures accounts { CountsFailures D.Disk disk.old disk.new
        (IsErrOf result FindFault.Device) }
{
    let body = body_of(alloc, disk, journal, size)?;
    match decode(alloc, &body) {
        Ok(record) => Ok(Found::Open(record, end_of(&body))),
        Err(Fault::Refused(Malformed)) => Err(FindFault::BadJournal),
        Err(Fault::OutOfMemory) => Err(FindFault::OutOfMemory),
    }
}

// Whether patches and a final length fit a file of this size.
fn fits(patches: &[Patch], length: u64, size: u64) -> bool
    requires { AreWellFormed (pairs_of patches.now) length }
    ensures { result ≡ fits (pairs_of patches.now) length size }
{
    let mut place = 0;
    for patch in patches {
        if patch.from > size.max(place) {
            return false;
        }
        place = patch.from + patch.bytes.len() as u64;
    }
    length <= size.max(place)
}

/// Whether each entry fits its file: no patch begins past both the file's end and the end of the
/// patch before it, and the final length is reached. It changes nothing.
///
/// # Errors
///
/// `DiskFault`: a call of the disk failed.
pub fn all_fit<D: Disk>(disk: &mut D, entries: &[Entry]) -> Result<bool, DiskFault>
    requires { HaveWellFormedPatches entries.now }
    ensures fit { IfOk result (λ answer. D.honest disk.new
        → answer ≡ all_fit entries.now (contents (D.files disk.old))) }
    ensures looks { Looks D.Disk disk.old disk.new }
    ensures accounts { CountsFailures D.Disk disk.old disk.new (IsErr result) }
{
    for entry in entries {
        let size = disk.length(&entry.name)?;
        if !fits(entry.patches.as_slice(), entry.length, size) {
            return Ok(false);
        }
    }
    Ok(true)
}

/// Looks at the journal, and changes nothing. `Open` comes exactly where the gate is open and a
/// well-formed record stands after it, with that record; `Closed` exactly where the gate is
/// closed. Nothing is asked of the files that the record names.
///
/// # Errors
///
/// - `BadJournal`: the gate is open over anything else.
/// - `Device`: a call of the disk failed.
/// - `OutOfMemory`: memory is taken only where the gate is open and the journal is long enough for
///   the size that its header gives.
pub fn find<D: Disk>(alloc: Global, disk: &mut D, journal: &FileName) -> Result<Found, FindFault>
    requires { journal.now ≡ journal_name }
    ensures found { D.honest disk.new → Finds (contents (D.files disk.old)) result }
    ensures whole { IfOk result (λ found. IsWhole found) }
    ensures looks { Looks D.Disk disk.old disk.new }
    ensures accounts { CountsFailures D.Disk disk.old disk.new
        (IsErrOf result FindFault.Device) }
{
    let Some(size) = size_of(disk, journal)? else {
        return Ok(Found::Closed);
    };
    record_of(alloc, disk, journal, size)
}
