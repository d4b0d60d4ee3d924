//! Whether a file is as a crash may have left it, as far as its entry says what it was before.
//!
//! It asks for the file's bytes alone. How its name and its times stand is for the disk to say.
ghost use Rattle.std.specs.Prelude.{◌≡◌, ◌≤◌, length, Some, IfOk, IsErr};
ghost use Rattle.org_disk.specs.CountsFailures.{CountsFailures, Looks};
ghost use Rattle.org_splice.specs.Patches.{AreWellFormed, last_end};
ghost use Rattle.org_splice.specs.Texts.{pairs_of};
ghost use Rattle.org_journal.specs.Left.{ends_at, first_from, is_left, is_left_of, stands_at};
ghost use Rattle.org_journal.specs.Record.{IsBefore, IsEntry, most_context};
ghost use Rattle.org_journal.specs.declared.record.Version.{Version};

use crate::record::{Before, Entry, MOST_CONTEXT};
use org_disk::{Disk, DiskFault, FileName};
use org_splice::Patch;

// Whether the file of this name, which has `size` bytes, has a context from `from` on.
fn stands_at<D: Disk>(
    disk: &mut D,
    name: &FileName,
    size: u64,
    from: u64,
    context: &[u8],
) -> Result<bool, DiskFault>
    requires few { length context.now ≤ most_context }
    requires size { D.honest disk.old → size ≡ length (D.files disk.old name.now).content }
    ensures stands { IfOk result (λ answer. D.honest disk.new
        → answer ≡ stands_at from context.now (D.files disk.old name.now).content) }
    ensures looks { Looks D.Disk disk.old disk.new }
    ensures accounts { CountsFailures D.Disk disk.old disk.new (IsErr result) }
{
    let count = context.len();
    if count == 0 {
        return Ok(true);
    }
    if from > size || size - from < count as u64 {
        return Ok(false);
    }
    let mut bytes = [0; MOST_CONTEXT as usize];
    disk.read_at(name, from, &mut bytes[..count])?;
    Ok(&bytes[..count] == context)
}

// Whether it has a context up to `end`.
fn ends_at<D: Disk>(
    disk: &mut D,
    name: &FileName,
    size: u64,
    end: u64,
    context: &[u8],
) -> Result<bool, DiskFault>
    requires few { length context.now ≤ most_context }
    requires size { D.honest disk.old → size ≡ length (D.files disk.old name.now).content }
    ensures ends { IfOk result (λ answer. D.honest disk.new
        → answer ≡ ends_at end context.now (D.files disk.old name.now).content) }
    ensures looks { Looks D.Disk disk.old disk.new }
    ensures accounts { CountsFailures D.Disk disk.old disk.new (IsErr result) }
{
    let count = context.len() as u64;
    if count > end {
        return Ok(false);
    }
    stands_at(disk, name, size, end - count, context)
}

// Where the first of some patches begins.
fn first_from(patches: &[Patch]) -> u64
    ensures { result ≡ first_from (pairs_of patches.now) }
{
    match patches {
        [patch, ..] => patch.from,
        [] => 0,
    }
}

// Where the last of some patches ends.
fn last_end(patches: &[Patch], length: u64) -> u64
    requires { AreWellFormed (pairs_of patches.now) length }
    ensures { result ≡ last_end 0 (pairs_of patches.now) }
{
    let last = &patches[patches.len() - 1];
    last.from + last.bytes.len() as u64
}

// `is_left` of an entry that says what its file was before.
fn is_left_of<D: Disk>(disk: &mut D, entry: &Entry, before: &Before) -> Result<bool, DiskFault>
    requires formed { AreWellFormed (pairs_of entry.now.patches) entry.now.length }
    requires before { IsBefore before.now }
    ensures left { IfOk result (λ answer. D.honest disk.new
        → answer ≡ is_left_of (Some before.now) (pairs_of entry.now.patches) entry.now.length
        (D.files disk.old entry.now.name).content) }
    ensures looks { Looks D.Disk disk.old disk.new }
    ensures accounts { CountsFailures D.Disk disk.old disk.new (IsErr result) }
{
    let name = &entry.name;
    let size = disk.length(name)?;
    if size < before.length.min(entry.length) || size > before.length.max(entry.length) {
        return Ok(false);
    }
    let patches = entry.patches.as_slice();
    if !ends_at(
        disk,
        name,
        size,
        first_from(patches),
        before.leading.as_slice(),
    )? {
        return Ok(false);
    }
    let end = last_end(patches, entry.length);
    stands_at(disk, name, size, end, before.trailing.as_slice())
}

/// Whether the file of an entry is as a crash may have left it, as far as the entry says what it was
/// before: its length lies between the old one and the final one, and the contexts stand beside the
/// patches. Of versions 1 and 2 each file is. It changes nothing.
///
/// # Errors
///
/// `DiskFault`: a call of the disk failed.
pub fn is_left<D: Disk>(disk: &mut D, entry: &Entry) -> Result<bool, DiskFault>
    requires { (version : Version) × IsEntry version entry.now }
    ensures left { IfOk result (λ answer. D.honest disk.new
        → answer ≡ is_left entry.now (D.files disk.old entry.now.name).content) }
    ensures looks { Looks D.Disk disk.old disk.new }
    ensures accounts { CountsFailures D.Disk disk.old disk.new (IsErr result) }
{
    match &entry.before {
        Some(before) => is_left_of(disk, entry, before),
        None => Ok(true),
    }
}
