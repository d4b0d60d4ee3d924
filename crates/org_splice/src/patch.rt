//! What is to be written of a text: patches, each at a byte position.
//!
//! Patches rise and don't touch. Applied to any text that the edited one was made from, they make
//! the edited one.
ghost use Rattle.std.specs.Prelude.{◌≡◌, ◌≤◌, [], ◌∷◌, ◌++◌, length, map, IfOk, OnOk, List, ℕ};
ghost use Rattle.org_splice.specs.Patches.{AreWellFormed, PatchedTo};
ghost use Rattle.org_splice.specs.Ranges.{AreChanged};
ghost use Rattle.org_splice.specs.Texts.{IsEditOf, patch_of, patches_of, pairs_of};
ghost use Rattle.org_splice.specs.Versions.{text_of_parts};

use crate::Span;
use crate::bytes::Bytes;
use std::alloc::{AllocError, Global};

/// Bytes of a text, and the byte position from which on they stand there.
#[derive(Drop)]
pub struct Patch {
    pub from: u64,
    pub bytes: Bytes,
}

/// Puts the patch of a range at the end.
fn push_patch(patches: &mut Vec<Patch>, text: &[u8], range: Span) -> Result<(), AllocError>
    requires { (range.start ≤ range.end) × (range.end ≤ length text.now) }
    ensures { OnOk result
        (pairs_of patches.new.items ≡ pairs_of patches.old.items ++ patch_of text.now range ∷ []) }
{
    let bytes = Vec::from_slice(*patches.allocator(), &text[range.start..range.end])?;
    patches.push(Patch {
        from: range.start as u64,
        bytes: Bytes::new(bytes),
    })?;
    Ok(())
}

/// The patches of a text's changed ranges, and one empty patch where there is none.
pub(crate) fn patches_of(
    alloc: Global,
    text: &[u8],
    changed: &[Span],
) -> Result<Vec<Patch>, AllocError>
    requires { AreChanged (length text.now) changed.now }
    ensures exact { IfOk result
        (λ patches. pairs_of patches.items ≡ patches_of (text_of_parts text.now changed.now)) }
    ensures well_formed { IfOk result
        (λ patches. AreWellFormed (pairs_of patches.items) (length text.now)) }
    ensures makes { IfOk result
        (λ patches. (old : List ℕ) → IsEditOf old (text_of_parts text.now changed.now)
        → PatchedTo (pairs_of patches.items) (length text.now) old text.now) }
{
    let mut patches = Vec::new(alloc);
    for range in changed {
        push_patch(&mut patches, text, *range)?;
    }
    if patches.is_empty() {
        push_patch(&mut patches, text, Span { start: 0, end: 0 })?;
    }
    Ok(patches)
}
