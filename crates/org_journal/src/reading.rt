//! Whether bytes are those of a record: `fields` over all entries.
//!
//! Nothing here takes memory: what is read is looked at and passed over.
ghost use Rattle.std.specs.Prelude.{◌≡◌, ◌↔◌, ◌==◌, List, Some, IfSome, IsTrue, is_some};
ghost use Rattle.org_journal.specs.Record.{is_named, names_differ, BeginsWith};
ghost use Rattle.org_journal.specs.declared.record.Entry.{Entry};
ghost use Rattle.org_journal.specs.Reading.{Reads, behind, name_behind, patches_at, new_entry_at, entry_at, entries_at, count_at, record_at, header_at, journal_at};

use crate::fields::{counted_at, head_at, old_entry_at, patch_at, u32_at};
use crate::record::Version;

const MOST_ENTRIES: u32 = 512;

/// The bytes in front of a record, without the gate; the last 8 are the record's size.
pub(crate) const HEADER: usize = 15;

// The bytes after the patches of an entry of version 2 or 3.
fn behind_patches(length: u64, count: u32, bytes: &[u8]) -> Option<&[u8]>
    ensures { Reads (λ rest. rest.now) result
        (behind (patches_at 0 length (count == 1) count bytes.now)) }
{
    let mut place = 0;
    let mut rest = bytes;
    for _ in 0..count {
        let (patch, after) = patch_at(place, length, count == 1, rest)?;
        place = patch.from + patch.bytes.len() as u64;
        rest = after;
    }
    Some(rest)
}

// The name of an entry of version 2 or 3, and the bytes after the entry.
#[tactic(auto, unfolding(crate::specs::Reading::new_entry_at))]
fn name_of_new_entry_at(version: Version, bytes: &[u8]) -> Option<(&str, &[u8])>
    ensures { Reads (λ x. (x.0.now, x.1.now)) result
        (name_behind (new_entry_at version bytes.now)) }
{
    let (head, rest) = head_at(version, bytes)?;
    let rest = behind_patches(head.length, head.count, rest)?;
    Some((head.name, rest))
}

// The name of an entry, and the bytes after the entry.
#[tactic(auto, unfolding(crate::specs::Reading::entry_at))]
fn name_of_entry_at(version: Version, bytes: &[u8]) -> Option<(&str, &[u8])>
    ensures { Reads (λ x. (x.0.now, x.1.now)) result (name_behind (entry_at version bytes.now)) }
{
    match version {
        Version::One => {
            let (entry, rest) = old_entry_at(bytes)?;
            Some((entry.name, rest))
        }
        Version::Two | Version::Three => name_of_new_entry_at(version, bytes),
    }
}

// The bytes after the entries.
fn behind_entries(version: Version, count: u32, bytes: &[u8]) -> Option<&[u8]>
    ensures { Reads (λ rest. rest.now) result (behind (entries_at version count bytes.now)) }
{
    let mut rest = bytes;
    for _ in 0..count {
        let (_, after) = name_of_entry_at(version, rest)?;
        rest = after;
    }
    Some(rest)
}

// Whether one of the entries has this name.
fn is_named(name: &str, version: Version, count: u32, bytes: &[u8]) -> bool
    ensures { IfSome (entries_at version count bytes.now)
        (λ found. result ≡ is_named name.now found.0) }
{
    let mut rest = bytes;
    for _ in 0..count {
        let Some((other, after)) = name_of_entry_at(version, rest) else {
            return false;
        };
        if other == name {
            return true;
        }
        rest = after;
    }
    false
}

// Whether no two of the entries have one name.
fn names_differ(version: Version, count: u32, bytes: &[u8]) -> bool
    ensures { IfSome (entries_at version count bytes.now) (λ found. result ≡ names_differ found.0) }
{
    let mut rest = bytes;
    for i in 0..count {
        let Some((name, after)) = name_of_entry_at(version, rest) else {
            return false;
        };
        if is_named(name, version, count - i - 1, after) {
            return false;
        }
        rest = after;
    }
    true
}

/// The number of entries of a record.
#[tactic(auto, unfolding(crate::specs::Reading::count_at))]
pub(crate) fn count_at(bytes: &[u8]) -> Option<(u32, &[u8])>
    ensures { Reads (λ x. (x.0, x.1.now)) result (count_at bytes.now) }
{
    let (count, rest) = u32_at(bytes)?;
    if !(1..=MOST_ENTRIES).contains(&count) {
        return None;
    }
    Some((count, rest))
}

#[tactic(auto, unfolding(crate::specs::Reading::record_at))]
fn is_record(version: Version, bytes: &[u8]) -> bool
    ensures { result ≡ is_some (record_at version bytes.now) }
{
    let Some((count, entries)) = count_at(bytes) else {
        return false;
    };
    let Some(rest) = behind_entries(version, count, entries) else {
        return false;
    };
    rest.is_empty() && names_differ(version, count, entries)
}

/// The version of a journal and the bytes of its record, from the bytes after the gate.
#[tactic(auto, unfolding(crate::specs::Reading::header_at))]
pub(crate) fn header_at(bytes: &[u8]) -> Option<(Version, &[u8])>
    ensures { Reads (λ x. (x.0, x.1.now)) result (header_at bytes.now) }
{
    if bytes.len() < HEADER || !bytes.starts_with(b"ORGJ") || bytes[5] != 0 || bytes[6] != 0 {
        return None;
    }
    let version = match bytes[4] {
        1 => Version::One,
        2 => Version::Two,
        3 => Version::Three,
        _ => return None,
    };
    let (record, _) = counted_at(&bytes[7..])?;
    Some((version, record))
}

#[tactic(auto, unfolding(crate::specs::Reading::journal_at))]
fn is_journal(bytes: &[u8]) -> bool
    ensures { result ≡ is_some (journal_at bytes.now) }
{
    match header_at(bytes) {
        Some((version, record)) => is_record(version, record),
        None => false,
    }
}

/// Whether the bytes after a journal's gate begin with those of a well-formed record, in one of
/// the versions. Takes no memory.
pub fn well_formed(bytes: &[u8]) -> bool
    ensures record { IsTrue result ↔ ((entries : List Entry) × BeginsWith bytes.now entries) }
    ensures exact { result ≡ is_some (journal_at bytes.now) }
{
    is_journal(bytes)
}
