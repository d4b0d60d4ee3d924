//! One change of a text, and what several make of its size.
//!
//! An edit is a value: `Editing` makes it, and can take it back.
ghost use Rattle.std.specs.Prelude.{◌≡◌, ◌+◌, ◌<◌, ◌^◌, List, ℕ, length, sum_by, IfSome, IsSome};
ghost use Rattle.org_splice.specs.Edits.{CanApply, applied_each};

use crate::bytes::Bytes;

/// `removed` bytes from the byte position `at` on give way to `bytes`.
#[derive(Drop)]
pub struct Edit {
    pub at: usize,
    pub removed: usize,
    pub bytes: Bytes,
}

/// A part of a text that edits changed: `removed` bytes from the byte position `at` on gave way to
/// `added` others.
#[derive(Clone, Copy)]
pub struct Replaced {
    pub at: usize,
    pub removed: usize,
    pub added: usize,
}

/// How many bytes a text of this size has after edits, which can be made of it one after another.
/// None comes only where it would have 2^64 bytes or more after one of them. Takes no memory.
pub fn size_after(size: usize, edits: &[Edit]) -> Option<usize>
    ensures size { (text : List ℕ) → length text ≡ size → CanApply edits.now text
        → IfSome result (λ after. after ≡ length (applied_each edits.now text)) }
    ensures some { (text : List ℕ) → length text ≡ size → CanApply edits.now text
        → size + sum_by (λ edit. length edit.bytes) edits.now < 2 ^ 64 → IsSome result }
{
    let mut size = size;
    for edit in edits {
        size = size
            .saturating_sub(edit.removed)
            .checked_add(edit.bytes.len())?;
    }
    Some(size)
}
