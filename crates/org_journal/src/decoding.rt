//! The record that the bytes after a journal's gate spell, in one of the versions of the
//! format.
//!
//! Bytes are checked whole before any memory is taken for what they hold. Whether a record fits its
//! files is `finding`'s question.
ghost use Rattle.std.specs.Prelude.{◌≡◌, ◌==◌, ◌⊎◌, List, Some, Ok, Err, IfOk, IsErrOf, IsFalse, IsTrue, is_some, slice_index};
ghost use Rattle.std.specs.Option.{option_map};
ghost use Rattle.org_journal.specs.Reading.{patches_at, before_of, new_entry_at, entry_at, entries_at, journal_at};
ghost use Rattle.org_disk.specs.Names.{is_file_name};
ghost use Rattle.org_journal.specs.Decoding.{DecodesAs, malformed};
ghost use Rattle.org_journal.specs.Record.{BeginsWith, IsRecord, IsWellFormed};
ghost use Rattle.org_journal.specs.declared.record.Version.TheVariants.{One, Three};
ghost use Rattle.org_journal.specs.declared.record.Entry.{Entry};

use crate::fault::Malformed;
use crate::fields::{BeforeSlice, head_at, old_entry_at, patch_at};
use crate::reading::{count_at, header_at, well_formed};
use crate::record::{Before, Entry, Patches, Record, Version};
use org_disk::{BadName, FileName};
use org_fault::Fault;
use org_splice::{Bytes, Patch};
use std::alloc::{AllocError, Global};

// The patches of an entry of version 2 or 3, and the bytes after them.
fn patches_of(
    alloc: Global,
    length: u64,
    count: u32,
    bytes: &[u8],
) -> Result<(Vec<Patch>, &[u8]), Fault<Malformed>>
    ensures { DecodesAs (λ x. (x.0.items, x.1.now)) result
        (patches_at 0 length (count == 1) count bytes.now) }
{
    let mut patches = Vec::new(alloc);
    let mut place = 0;
    let mut rest = bytes;
    for _ in 0..count {
        let Some((patch, after)) = patch_at(place, length, count == 1, rest) else {
            return Err(Fault::Refused(Malformed));
        };
        place = patch.from + patch.bytes.len() as u64;
        let bytes = copied(alloc, patch.bytes)?;
        patches.push(Patch {
            from: patch.from,
            bytes,
        })?;
        rest = after;
    }
    Ok((patches, rest))
}

// The name of a file.
fn name_of(alloc: Global, text: &str) -> Result<FileName, Fault<Malformed>>
    ensures name { IfOk result (λ name. name ≡ text.now) }
    ensures malformed { IsErrOf result malformed → IsFalse (is_file_name text.now) }
{
    match FileName::new(alloc, text) {
        Ok(name) => Ok(name),
        Err(Fault::Refused(BadName)) => Err(Fault::Refused(Malformed)),
        Err(Fault::OutOfMemory) => Err(Fault::OutOfMemory),
    }
}

// Bytes of their own.
fn copied(alloc: Global, bytes: &[u8]) -> Result<Bytes, AllocError>
    ensures { IfOk result (λ copy. copy ≡ bytes.now) }
{
    Ok(Bytes::new(Vec::from_slice(alloc, bytes)?))
}

// What a file was before, with contexts of its own.
fn before_of(alloc: Global, before: Option<BeforeSlice<'_>>) -> Result<Option<Before>, AllocError>
    ensures { IfOk result (λ copy. copy
        ≡ option_map (λ b. before_of b.length b.leading.now b.trailing.now) before.entry) }
{
    let Some(before) = before else {
        return Ok(None);
    };
    Ok(Some(Before {
        length: before.length,
        leading: copied(alloc, before.leading)?,
        trailing: copied(alloc, before.trailing)?,
    }))
}

// The entry of a file of this name.
fn named(
    alloc: Global,
    name: &str,
    length: u64,
    before: Option<Before>,
    patches: Vec<Patch>,
) -> Result<Entry, Fault<Malformed>>
    ensures entry { IfOk result (λ entry. entry ≡ record {
      name = name.now;
      length = length;
      before = before;
      patches = patches.items;
    }) }
    ensures malformed { IsErrOf result malformed → IsFalse (is_file_name name.now) }
{
    let name = name_of(alloc, name)?;
    let patches = Patches::new(patches);
    Ok(Entry {
        name,
        length,
        before,
        patches,
    })
}

// An entry of version 1, and the bytes after it.
#[tactic(auto, unfolding(crate::specs::Reading::entry_at))]
fn old_entry_of(alloc: Global, bytes: &[u8]) -> Result<(Entry, &[u8]), Fault<Malformed>>
    ensures { DecodesAs (λ x. (x.0, x.1.now)) result (entry_at One bytes.now) }
{
    let Some((entry, rest)) = old_entry_at(bytes) else {
        return Err(Fault::Refused(Malformed));
    };
    let bytes = copied(alloc, entry.patch.bytes)?;
    let mut patches = Vec::new(alloc);
    patches.push(Patch {
        from: entry.patch.from,
        bytes,
    })?;
    let entry = named(alloc, entry.name, entry.length, None, patches)?;
    Ok((entry, rest))
}

// An entry of version 2 or 3, and the bytes after it.
#[tactic(auto, unfolding(crate::specs::Reading::new_entry_at))]
fn new_entry_of(
    alloc: Global,
    version: Version,
    bytes: &[u8],
) -> Result<(Entry, &[u8]), Fault<Malformed>>
    ensures { DecodesAs (λ x. (x.0, x.1.now)) result (new_entry_at version bytes.now) }
{
    let Some((head, rest)) = head_at(version, bytes) else {
        return Err(Fault::Refused(Malformed));
    };
    let before = before_of(alloc, head.before)?;
    let (patches, rest) = patches_of(alloc, head.length, head.count, rest)?;
    let entry = named(alloc, head.name, head.length, before, patches)?;
    Ok((entry, rest))
}

// An entry, and the bytes after it.
#[tactic(auto, unfolding(crate::specs::Reading::entry_at))]
fn entry_of(
    alloc: Global,
    version: Version,
    bytes: &[u8],
) -> Result<(Entry, &[u8]), Fault<Malformed>>
    ensures { DecodesAs (λ x. (x.0, x.1.now)) result (entry_at version bytes.now) }
{
    match version {
        Version::One => old_entry_of(alloc, bytes),
        Version::Two | Version::Three => new_entry_of(alloc, version, bytes),
    }
}

// The entries of a record, and the bytes after them.
fn entries_of(
    alloc: Global,
    version: Version,
    count: u32,
    bytes: &[u8],
) -> Result<(Vec<Entry>, &[u8]), Fault<Malformed>>
    ensures { DecodesAs (λ x. (x.0.items, x.1.now)) result (entries_at version count bytes.now) }
{
    let mut entries = Vec::new(alloc);
    let mut rest = bytes;
    for _ in 0..count {
        let (entry, after) = entry_of(alloc, version, rest)?;
        entries.push(entry)?;
        rest = after;
    }
    Ok((entries, rest))
}

// The record of bytes that were looked at.
#[tactic(auto, unfolding(crate::specs::Reading::journal_at, crate::specs::Reading::record_at))]
fn record_of(alloc: Global, bytes: &[u8]) -> Result<Record, Fault<Malformed>>
    requires { IsTrue (is_some (journal_at bytes.now)) }
    ensures { DecodesAs (λ entries. entries) result (journal_at bytes.now) }
{
    let Some((version, record)) = header_at(bytes) else {
        return Err(Fault::Refused(Malformed));
    };
    let Some((count, rest)) = count_at(record) else {
        return Err(Fault::Refused(Malformed));
    };
    let (entries, _) = entries_of(alloc, version, count, rest)?;
    Ok(Record::new(entries))
}

/// The record whose bytes stand at the front of these, which are a journal's bytes after its gate.
///
/// # Errors
///
/// - `Malformed`: exactly where they don't begin with a well-formed record's bytes, in one of the
///   versions.
/// - `OutOfMemory`: only where they do.
pub fn decode(alloc: Global, bytes: &[u8]) -> Result<Record, Fault<Malformed>>
    ensures found { IfOk result (λ entries. BeginsWith bytes.now entries) }
    ensures only { (entries : List Entry) → BeginsWith bytes.now entries
        → (result ≡ Ok entries) ⊎ (result ≡ Err Fault.OutOfMemory) }
    ensures record { IfOk result (λ entries. IsRecord entries) }
    // What was read in version 3 can be written.
    ensures writable { IfOk result
        (λ entries. slice_index bytes.now 4 ≡ 3 → IsWellFormed Three entries) }
    ensures memory { IsErrOf result Fault.OutOfMemory
        → (entries : List Entry) × BeginsWith bytes.now entries }
    ensures exact { DecodesAs (λ entries. entries) result (journal_at bytes.now) }
{
    if !well_formed(bytes) {
        return Err(Fault::Refused(Malformed));
    }
    record_of(alloc, bytes)
}
