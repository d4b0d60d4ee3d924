//! What takes an edit of a text back.
//!
//! An undo fits in room that the text has had before, so it takes no memory and can't fail.
ghost use Rattle.std.specs.Prelude.{◌≡◌, length, vec_capacity, []};
ghost use Rattle.org_splice.specs.Ranges.{AreChanged};
ghost use Rattle.org_splice.specs.Versions.{AreUndos, text_of_parts, undone_all};

use crate::Span;
use crate::bytes::Bytes;
use crate::replacing::replace;

/// `added` bytes from `at` on give way to the bytes that stood there, and the changed ranges are
/// these again.
#[derive(Drop)]
pub(crate) struct Undo {
    pub at: usize,
    pub added: usize,
    pub removed: Bytes,
    pub changed: Vec<Span>,
}

/// Takes all edits back, the last first, within room that the text has. Takes no memory.
pub(crate) fn undo_all(bytes: &mut Vec<u8>, changed: &mut Vec<Span>, undos: &mut Vec<Undo>)
    requires can { AreUndos (vec_capacity bytes.old) undos.old.items
        (text_of_parts bytes.old.items changed.old.items) }
    requires changed { AreChanged (length bytes.old.items) changed.old.items }
    ensures text { text_of_parts bytes.new.items changed.new.items
        ≡ undone_all undos.old.items (text_of_parts bytes.old.items changed.old.items) }
    ensures none { undos.new.items ≡ [] }
    ensures changed { AreChanged (length bytes.new.items) changed.new.items }
{
    while let Some(undo) = undos.pop() {
        if replace(bytes, undo.at, undo.added, undo.removed.as_slice()).is_err() {
            unreachable!();
        }
        *changed = undo.changed;
    }
}
