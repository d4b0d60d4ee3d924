//! The record of a set of changed files: one entry each, in the order of the set.
//!
//! The patches are those of the edited texts. No disk is called.
ghost use Rattle.std.specs.Prelude.{◌≡◌, ◌≤◌, ◌-◌, ◌==◌, if◌then◌else◌, [], length, take, drop, slice_range, OnOk, IfOk, IsSomeAnd};
ghost use Rattle.std.specs.List.{IsDistinct};
ghost use Rattle.std.specs.Map.{keys_of};
ghost use Rattle.std.specs.Str.{bytes_eq};
ghost use Rattle.org_splice.specs.Patches.{AreWellFormed, last_end};
ghost use Rattle.org_splice.specs.Texts.{pairs_of};
ghost use Rattle.org_journal.specs.Record.{most_context};
ghost use Rattle.org_journal.specs.Left.{first_from};
ghost use Rattle.org_fileset.specs.Entries.{IsEntryOf, AreEntriesOf, SaySizes, before_of};
ghost use Rattle.org_fileset.specs.Lengths.{length_of};

use crate::lengths::length_of;
use org_disk::FileName;
use org_journal::{Before, Entry, MOST_CONTEXT, Patches};
use org_splice::{Bytes, Changes, Editing, Patch};
use std::alloc::{AllocError, Global};

// The most bytes of a context.
const CONTEXT: usize = MOST_CONTEXT as usize;

// The bytes of a text before this place, as many as a context has.
fn before(text: &[u8], place: usize) -> &[u8]
    requires { place ≤ length text.now }
    ensures { result.now ≡ slice_range text.now (place - most_context) place }
{
    &text[place.saturating_sub(CONTEXT)..place]
}

// .. and after it.
fn after(text: &[u8], place: usize) -> &[u8]
    requires { place ≤ length text.now }
    ensures { result.now ≡ take most_context (drop place text.now) }
{
    let rest = &text[place..];
    &rest[..rest.len().min(CONTEXT)]
}

// The bytes before the first patch. The file has them too, since they weren't changed.
fn leading<'a>(text: &'a [u8], patches: &[Patch]) -> &'a [u8]
    requires { AreWellFormed (pairs_of patches.now) (length text.now) }
    ensures { result.now
        ≡ slice_range text.now (first_from (pairs_of patches.now) - most_context)
        (first_from (pairs_of patches.now)) }
{
    before(text, patches[0].from as usize)
}

// The bytes after the last patch; none if the file had another length.
fn trailing<'a>(size: u64, text: &'a [u8], patches: &[Patch]) -> &'a [u8]
    requires { AreWellFormed (pairs_of patches.now) (length text.now) }
    ensures { result.now ≡ (if size == length text.now
        then take most_context (drop (last_end 0 (pairs_of patches.now)) text.now) else []) }
{
    if size != text.len() as u64 {
        return &[];
    }
    let last = &patches[patches.len() - 1];
    after(text, last.from as usize + last.bytes.len())
}

// What a file of so many bytes was before its text was changed by these patches.
fn before_of(alloc: Global, size: u64, text: &[u8], patches: &[Patch]) -> Result<Before, AllocError>
    requires { AreWellFormed (pairs_of patches.now) (length text.now) }
    ensures { IfOk result (λ before. before ≡ before_of size (pairs_of patches.now) text.now) }
{
    let leading = Vec::from_slice(alloc, leading(text, patches))?;
    let trailing = Vec::from_slice(alloc, trailing(size, text, patches))?;
    Ok(Before {
        length: size,
        leading: Bytes::new(leading),
        trailing: Bytes::new(trailing),
    })
}

// The entry of a changed file that had so many bytes.
fn entry_of(alloc: Global, name: &FileName, text: &Editing, size: u64) -> Result<Entry, AllocError>
    ensures entry { IfOk result (λ entry. IsEntryOf (name.now, text.now.text) entry) }
    ensures size { IfOk result
        (λ entry. IsSomeAnd entry.before (λ before. before.length ≡ size)) }
{
    let name = name.clone()?;
    let bytes = text.bytes();
    let length = bytes.len() as u64;
    let patches = text.patches()?;
    let before = before_of(alloc, size, bytes, &patches)?;
    let patches = Patches::new(patches);
    Ok(Entry {
        name,
        length,
        before: Some(before),
        patches,
    })
}

/// The entries of all changed files, in the order of the set. The files of these names have these
/// lengths.
///
/// # Errors
///
/// `AllocError`.
pub fn entries_of<C: Changes<FileName>>(
    alloc: Global,
    changes: &C,
    names: &[FileName],
    lengths: &[u64],
) -> Result<Vec<Entry>, AllocError>
    ensures entries { IfOk result (λ entries. AreEntriesOf (C.pairs changes.now) entries.items) }
    ensures sizes { IfOk result
        (λ entries. SaySizes (length_of names.now lengths.now) entries.items) }
    ensures distinct { OnOk result (IsDistinct bytes_eq (keys_of (C.pairs changes.now))) }
{
    let mut entries = Vec::new(alloc);
    for index in 0..changes.len() {
        let (name, text) = changes.pair(index);
        let size = length_of(names, lengths, name);
        entries.push(entry_of(alloc, name, text, size)?)?;
    }
    Ok(entries)
}
