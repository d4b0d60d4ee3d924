//! The fields of a record, read from the front of its bytes.
//!
//! Each function answers a field and the bytes after it, or none where it isn't well formed.
//! Nothing here takes memory.
ghost use Rattle.std.specs.Prelude.{◌≡◌, ◌+◌, ◌≤◌, length, IfSome, IsTrue};
ghost use Rattle.std.specs.Option.{option_map};
ghost use Rattle.org_disk.specs.Names.{is_file_name};
ghost use Rattle.org_journal.specs.Reading.{Reads, number_at, bytes_at, counted_at, name_at, may_follow, patch_at, old_entry, old_entry_at, context_at, before_of, before_at, before_in, head_at};

use crate::record::{MOST_CONTEXT, Version};
use byteorder::{BigEndian, ByteOrder};
use org_disk::FileName;
use std::str;

const OLD_GREATEST_LENGTH: u64 = 16_777_216;

/// The most bytes of a file whose entry is written.
pub const GREATEST_LENGTH: u64 = 67_108_864;

const MOST_PATCHES: u32 = 1_000;

/// A patch whose bytes are still those of the record.
#[derive(Clone, Copy)]
pub(crate) struct PatchSlice<'a> {
    pub from: u64,
    pub bytes: &'a [u8],
}

/// An entry of version 1.
#[derive(Clone, Copy)]
pub(crate) struct OldEntry<'a> {
    pub name: &'a str,
    pub length: u64,
    pub patch: PatchSlice<'a>,
}

/// What a file was before its entry was made, with contexts that are still the record's bytes.
#[derive(Clone, Copy)]
pub(crate) struct BeforeSlice<'a> {
    pub length: u64,
    pub leading: &'a [u8],
    pub trailing: &'a [u8],
}

/// What stands before the patches of an entry of version 2 or 3.
#[derive(Clone, Copy)]
pub(crate) struct EntryHead<'a> {
    pub name: &'a str,
    pub length: u64,
    pub before: Option<BeforeSlice<'a>>,
    pub count: u32,
}

fn u8_at(bytes: &[u8]) -> Option<(u8, &[u8])>
    ensures { Reads (λ x. (x.0, x.1.now)) result (number_at 1 bytes.now) }
{
    if bytes.is_empty() {
        return None;
    }
    Some((bytes[0], &bytes[1..]))
}

fn u16_at(bytes: &[u8]) -> Option<(u16, &[u8])>
    ensures { Reads (λ x. (x.0, x.1.now)) result (number_at 2 bytes.now) }
{
    if bytes.len() < 2 {
        return None;
    }
    Some((BigEndian::read_u16(bytes), &bytes[2..]))
}

pub(crate) fn u32_at(bytes: &[u8]) -> Option<(u32, &[u8])>
    ensures { Reads (λ x. (x.0, x.1.now)) result (number_at 4 bytes.now) }
{
    if bytes.len() < 4 {
        return None;
    }
    Some((BigEndian::read_u32(bytes), &bytes[4..]))
}

fn u64_at(bytes: &[u8]) -> Option<(u64, &[u8])>
    ensures { Reads (λ x. (x.0, x.1.now)) result (number_at 8 bytes.now) }
{
    if bytes.len() < 8 {
        return None;
    }
    Some((BigEndian::read_u64(bytes), &bytes[8..]))
}

fn bytes_at(count: u64, bytes: &[u8]) -> Option<(&[u8], &[u8])>
    ensures { Reads (λ x. (x.0.now, x.1.now)) result (bytes_at count bytes.now) }
{
    if (bytes.len() as u64) < count {
        return None;
    }
    Some(bytes.split_at(count as usize))
}

/// Bytes after their count.
#[tactic(auto, unfolding(crate::specs::Reading::counted_at))]
pub(crate) fn counted_at(bytes: &[u8]) -> Option<(&[u8], &[u8])>
    ensures { Reads (λ x. (x.0.now, x.1.now)) result (counted_at bytes.now) }
{
    let (count, rest) = u64_at(bytes)?;
    bytes_at(count, rest)
}

/// The name of a file, after its length.
fn name_at(bytes: &[u8]) -> Option<(&str, &[u8])>
    ensures reads { Reads (λ x. (x.0.now, x.1.now)) result (name_at bytes.now) }
    ensures accepted { IfSome result (λ x. IsTrue (is_file_name x.0.now)) }
{
    let (count, rest) = u16_at(bytes)?;
    let (name, rest) = bytes_at(u64::from(count), rest)?;
    match str::from_utf8(name) {
        Ok(name) if FileName::accepts(name) => Some((name, rest)),
        _ => None,
    }
}

// Whether a patch may follow one that ends at `place`, in a file of this final size. Only a patch
// that stands alone may be empty.
fn may_follow(place: u64, size: u64, alone: bool, from: u64, count: u64) -> bool
    ensures { result ≡ may_follow place size alone from count }
{
    place <= from && from <= size && count <= size - from && (alone || count >= 1)
}

/// A patch that may follow one that ends at `place`.
#[tactic(auto, unfolding(crate::specs::Reading::patch_at))]
pub(crate) fn patch_at(
    place: u64,
    size: u64,
    alone: bool,
    bytes: &[u8],
) -> Option<(PatchSlice<'_>, &[u8])>
    ensures reads { Reads (λ x. (record { from = x.0.from; bytes = x.0.bytes.now }, x.1.now)) result
        (patch_at place size alone bytes.now) }
    ensures within { IfSome result (λ x. x.0.from + length x.0.bytes.now ≤ size) }
{
    let (from, rest) = u64_at(bytes)?;
    let (bytes, rest) = counted_at(rest)?;
    if !may_follow(place, size, alone, from, bytes.len() as u64) {
        return None;
    }
    Some((PatchSlice { from, bytes }, rest))
}

/// An entry of version 1.
#[tactic(auto, unfolding(crate::specs::Reading::old_entry_at))]
pub(crate) fn old_entry_at(bytes: &[u8]) -> Option<(OldEntry<'_>, &[u8])>
    ensures accepted { IfSome result (λ x. IsTrue (is_file_name x.0.name.now)) }
    ensures reads { Reads
        (λ x. (old_entry x.0.name.now x.0.length x.0.patch.from x.0.patch.bytes.now, x.1.now))
        result (old_entry_at bytes.now) }
{
    let (name, rest) = name_at(bytes)?;
    let (from, rest) = u64_at(rest)?;
    let (length, rest) = u64_at(rest)?;
    let (bytes, rest) = counted_at(rest)?;
    let fits = length <= OLD_GREATEST_LENGTH
        && may_follow(0, length, true, from, bytes.len() as u64);
    if !fits {
        return None;
    }
    let patch = PatchSlice { from, bytes };
    Some((
        OldEntry {
            name,
            length,
            patch,
        },
        rest,
    ))
}

// A context, after its length.
#[tactic(auto, unfolding(crate::specs::Reading::context_at))]
fn context_at(bytes: &[u8]) -> Option<(&[u8], &[u8])>
    ensures { Reads (λ x. (x.0.now, x.1.now)) result (context_at bytes.now) }
{
    let (count, rest) = u8_at(bytes)?;
    if count > MOST_CONTEXT {
        return None;
    }
    bytes_at(u64::from(count), rest)
}

// What a file was before.
#[tactic(auto, unfolding(crate::specs::Reading::before_at))]
fn before_at(bytes: &[u8]) -> Option<(BeforeSlice<'_>, &[u8])>
    ensures { Reads (λ x. (before_of x.0.length x.0.leading.now x.0.trailing.now, x.1.now)) result
        (before_at bytes.now) }
{
    let (length, rest) = u64_at(bytes)?;
    let (leading, rest) = context_at(rest)?;
    let (trailing, rest) = context_at(rest)?;
    Some((
        BeforeSlice {
            length,
            leading,
            trailing,
        },
        rest,
    ))
}

// What a file was before, where an entry of this version says it.
#[tactic(auto, unfolding(crate::specs::Reading::before_in))]
fn before_in(version: Version, bytes: &[u8]) -> Option<(Option<BeforeSlice<'_>>, &[u8])>
    ensures { Reads
        (λ x. (option_map (λ b. before_of b.length b.leading.now b.trailing.now) x.0, x.1.now))
        result (before_in version bytes.now) }
{
    match version {
        Version::One | Version::Two => Some((None, bytes)),
        Version::Three => {
            let (before, rest) = before_at(bytes)?;
            Some((Some(before), rest))
        }
    }
}

/// What stands before the patches of an entry of version 2 or 3.
#[tactic(auto, unfolding(crate::specs::Reading::head_at))]
pub(crate) fn head_at(version: Version, bytes: &[u8]) -> Option<(EntryHead<'_>, &[u8])>
    ensures accepted { IfSome result (λ x. IsTrue (is_file_name x.0.name.now)) }
    ensures reads { Reads (λ x. (
      record {
        name = x.0.name.now;
        final = x.0.length;
        before = option_map (λ b. before_of b.length b.leading.now b.trailing.now) x.0.before;
        count = x.0.count;
      },
      x.1.now,
    )) result (head_at version bytes.now) }
{
    let (name, rest) = name_at(bytes)?;
    let (length, rest) = u64_at(rest)?;
    let (before, rest) = before_in(version, rest)?;
    let (count, rest) = u32_at(rest)?;
    if length > GREATEST_LENGTH || !(1..=MOST_PATCHES).contains(&count) {
        return None;
    }
    Some((
        EntryHead {
            name,
            length,
            before,
            count,
        },
        rest,
    ))
}
