//! Texts under edit, whose edits can all be taken back.
//!
//! The bytes are those of the text now. `changed` rises, and covers each byte that may differ from
//! the settled text; `undos` lead back to what was kept last. Nothing here knows of lines or
//! headings, but for the last newline.
ghost use Rattle.std.specs.Prelude.{◌≡◌, ◌+◌, ◌-◌, ◌<◌, ◌≤◌, ◌∷◌, length, map, slice_range, vec_capacity, vec_len, IsFalse, IfOk, IfSome, OnOk, OnErr, List, None, ℕ};
ghost use Rattle.org_splice.specs.Edits.{edited, IsReplaced};
ghost use Rattle.org_splice.specs.Lines.{terminated};
ghost use Rattle.org_splice.specs.Patches.{AreWellFormed, PatchedTo};
ghost use Rattle.org_splice.specs.Ranges.{AreChanged};
ghost use Rattle.org_splice.specs.Texts.{IsEditOf, terminated_text, settled, spliced, spliced_each, patches_of, pairs_of};
ghost use Rattle.org_splice.specs.Versions.{AreUndos, LeadBack, before_of, revised, text_of_parts, unedited};

use crate::Span;
use crate::bytes::Bytes;
use crate::edit::{Edit, Replaced};
use crate::patch::{Patch, patches_of};
use crate::ranges::changed_by;
use crate::replacing::replace;
use crate::undo::{Undo, undo_all};
use crate::window::{MAX_PART, edited_part, touched};
use std::alloc::AllocError;
use std::marker::Model;
use std::mem;

/// A text that is edited in place, with the ranges of bytes that were changed since it was made or
/// last settled. Until they are kept, its edits can be taken back, which takes no memory and can't
/// fail: bytes are moved only within room that the text has had before, and the changed ranges of
/// before an edit are held whole.
///
/// A clause sees the text as it is, and as it was before its edits (specs/Versions.antt).
#[derive(Drop)]
pub struct Editing {
    bytes: Vec<u8>,
    changed: Vec<Span>,
    // What takes each edit back, in the order of the edits.
    undos: Vec<Undo>,
    // The room of ranges that were kept for an undo: the next edit puts its own there.
    room: Vec<Span>,
}

impl Model for Editing {
    ghost use Rattle.std.specs.Prelude.{length, vec_capacity};
    ghost use Rattle.org_splice.specs.Ranges.{AreChanged};
    ghost use Rattle.org_splice.specs.Versions.{AreUndos, Versions, text_of_parts, undone_all};

    ghost Value = { Versions };

    ghost view = { λ e. record {
      text = text_of_parts e.bytes.items e.changed.items;
      before = undone_all e.undos.items (text_of_parts e.bytes.items e.changed.items);
    } };

    ghost invariant = { λ e. AreChanged (length e.bytes.items) e.changed.items
        × AreUndos (vec_capacity e.bytes) e.undos.items
        (text_of_parts e.bytes.items e.changed.items) };
}

impl Editing {
    /// A text of these bytes, with no change. Takes no memory.
    pub fn new(bytes: Vec<u8>) -> Editing
        ensures { result ≡ unedited (settled bytes.items) }
    {
        let alloc = *bytes.allocator();
        Editing {
            bytes,
            changed: Vec::new(alloc),
            undos: Vec::new(alloc),
            room: Vec::new(alloc),
        }
    }

    /// The bytes of the text.
    pub fn bytes(&self) -> &[u8]
        ensures bytes { result.now ≡ self.now.text.bytes }
        ensures changed { AreChanged (length self.now.text.bytes) self.now.text.changed }
    {
        self.bytes.as_slice()
    }

    /// Whether an edit could be taken back. Takes no memory.
    pub fn is_edited(&self) -> bool
        ensures { IsFalse result → self.now ≡ unedited self.now.text }
    {
        !self.undos.is_empty()
    }

    /// Puts bytes in the place of `removed` bytes from the byte position `at` on. The text is
    /// changed in place: what stands after the removed bytes moves once.
    ///
    /// # Errors
    ///
    /// `AllocError`: the text stays as it is.
    ///
    /// # Examples
    ///
    /// ```
    /// let mut text = Editing::new(b"* A\n* B\n".to_vec(alloc)?);
    /// text.splice(2, 1, b"C")?;
    /// text.splice(6, 1, b"D")?;
    /// assert_eq!(rt; text.bytes(), b"* C\n* D\n".as_slice());
    /// assert_eq!(rt; text.patches()?.len(), 2);
    /// text.undo();
    /// assert_eq!(rt; text.bytes(), b"* A\n* B\n".as_slice());
    /// ```
    pub fn splice(&mut self, at: usize, removed: usize, bytes: &[u8]) -> Result<(), AllocError>
        requires { at + removed ≤ length self.old.text.bytes }
        ensures ok { OnOk result
            (self.new ≡ revised self.old (spliced at removed bytes.now self.old.text)) }
        ensures edit { (old : List ℕ) → IsEditOf old self.old.text → IsEditOf old self.new.text }
        ensures err { OnErr result (self.new ≡ self.old) }
    {
        splice(
            &mut self.bytes,
            &mut self.changed,
            &mut self.undos,
            &mut self.room,
            at,
            removed,
            bytes,
        )
    }

    /// Makes one edit.
    ///
    /// # Errors
    ///
    /// `AllocError`: the text stays as it is.
    pub fn apply(&mut self, edit: &Edit) -> Result<(), AllocError>
        requires { edit.now.at + edit.now.removed ≤ length self.old.text.bytes }
        ensures ok { OnOk result
            (self.new
            ≡ revised self.old
            (spliced edit.now.at edit.now.removed edit.now.bytes self.old.text)) }
        ensures edit { (old : List ℕ) → IsEditOf old self.old.text → IsEditOf old self.new.text }
        ensures err { OnErr result (self.new ≡ self.old) }
    {
        self.splice(edit.at, edit.removed, edit.bytes.as_slice())
    }

    /// Makes edits that lie near one another, one after another: what stands after them moves
    /// once. None, with nothing changed, where they lie far apart. The part that was replaced holds
    /// all that they touch.
    ///
    /// # Errors
    ///
    /// `AllocError`: the text stays as it is.
    pub fn apply_near(
        &mut self,
        first: &Edit,
        rest: &[Edit],
    ) -> Result<Option<Replaced>, AllocError>
        ensures made { IfOk result (λ part. IfSome part (λ part. self.new
            ≡ revised self.old (spliced_each (first.now ∷ rest.now) self.old.text))) }
        ensures part { IfOk result (λ part. IfSome part
            (λ part. IsReplaced part.at part.removed part.added self.old.text.bytes
            self.new.text.bytes)) }
        ensures far { IfOk result (λ part. part ≡ None → self.new ≡ self.old) }
        ensures err { OnErr result (self.new ≡ self.old) }
    {
        apply_near(
            &mut self.bytes,
            &mut self.changed,
            &mut self.undos,
            &mut self.room,
            first,
            rest,
        )
    }

    /// Puts a newline at the end of a text that has bytes and doesn't end in one.
    ///
    /// # Errors
    ///
    /// `AllocError`: the text stays as it is.
    pub fn terminate(&mut self) -> Result<(), AllocError>
        ensures ok { OnOk result (self.new ≡ revised self.old (terminated_text self.old.text)) }
        ensures bytes { OnOk result (self.new.text.bytes ≡ terminated self.old.text.bytes) }
        ensures edit { (old : List ℕ) → IsEditOf old self.old.text → IsEditOf old self.new.text }
        ensures err { OnErr result (self.new ≡ self.old) }
    {
        let Some(&last) = self.bytes().last() else {
            return Ok(());
        };
        if last == b'\n' {
            return Ok(());
        }
        self.splice(self.bytes().len(), 0, b"\n")
    }

    /// Takes all edits back. Takes no memory, and can't fail.
    pub fn undo(&mut self)
        ensures { self.new ≡ unedited self.old.before }
    {
        undo_all(&mut self.bytes, &mut self.changed, &mut self.undos);
    }

    /// Keeps all edits: they can't be taken back any more. Takes no memory.
    pub fn keep(&mut self)
        ensures { self.new ≡ unedited self.old.text }
    {
        if let Some(undo) = self.undos.pop() {
            self.room = undo.changed;
        }
        self.undos.clear();
    }

    /// Takes the text as it is for one with no change: what it is to be is written. Takes no
    /// memory.
    pub fn settle(&mut self)
        ensures { self.new ≡ unedited (settled self.old.text.bytes) }
    {
        self.changed.clear();
        self.undos.clear();
    }

    /// What is to be written of the text, over any text that it was made from: the bytes of each
    /// changed range, and one empty patch where there is none.
    ///
    /// # Errors
    ///
    /// `AllocError`.
    pub fn patches(&self) -> Result<Vec<Patch>, AllocError>
        ensures exact { IfOk result (λ patches. pairs_of patches.items ≡ patches_of self.now.text) }
        ensures well_formed { IfOk result
            (λ patches. AreWellFormed (pairs_of patches.items) (length self.now.text.bytes)) }

        // Applied to any text that this one was made from, they make this one.
        ensures makes { IfOk result (λ patches. (old : List ℕ) → IsEditOf old self.now.text
            → PatchedTo (pairs_of patches.items) (length self.now.text.bytes) old
            self.now.text.bytes) }
    {
        patches_of(*self.bytes.allocator(), &self.bytes, &self.changed)
    }
}

/// The bytes that are removed, with room for what takes that back.
fn prepared(
    text: &[u8],
    undos: &mut Vec<Undo>,
    at: usize,
    removed: usize,
) -> Result<Vec<u8>, AllocError>
    requires { at + removed ≤ length text.now }
    ensures bytes { IfOk result (λ bytes. bytes.items ≡ slice_range text.now at (at + removed)) }
    ensures undos { undos.new.items ≡ undos.old.items }
    ensures room { OnOk result (vec_len undos.new < vec_capacity undos.new) }
{
    undos.reserve(1)?;
    Vec::from_slice(*undos.allocator(), &text[at..at + removed])
}

/// Puts bytes in the place of others, beside the changed ranges of the text that this makes.
fn put(
    text: &mut Vec<u8>,
    changed: &mut Vec<Span>,
    undos: &mut Vec<Undo>,
    at: usize,
    removed: usize,
    bytes: &[u8],
    new_changed: Vec<Span>,
) -> Result<(), AllocError>
    requires within { at + removed ≤ length text.old.items }
    requires changed { AreChanged (length text.old.items) changed.old.items }
    requires new { AreChanged (length text.old.items - removed + length bytes.now)
        new_changed.items }
    requires can { AreUndos (vec_capacity text.old) undos.old.items
        (text_of_parts text.old.items changed.old.items) }
    ensures ok { OnOk result (text_of_parts text.new.items changed.new.items
        ≡ text_of_parts (edited at removed bytes.now text.old.items) new_changed.items) }
    ensures err { OnErr result (text_of_parts text.new.items changed.new.items
        ≡ text_of_parts text.old.items changed.old.items) }
    ensures back { LeadBack (vec_capacity text.new) text.new.items changed.new.items
        undos.new.items (before_of text.old.items changed.old.items undos.old.items) }
{
    // All memory is taken before anything changes.
    let old_bytes = prepared(text, undos, at, removed)?;
    replace(text, at, removed, bytes)?;
    let old_changed = mem::replace(changed, new_changed);
    let undo = Undo {
        at,
        added: bytes.len(),
        removed: Bytes::new(old_bytes),
        changed: old_changed,
    };
    if undos.push(undo).is_err() {
        unreachable!();
    }
    Ok(())
}

/// `Editing::splice`, on its parts.
fn splice(
    text: &mut Vec<u8>,
    changed: &mut Vec<Span>,
    undos: &mut Vec<Undo>,
    room: &mut Vec<Span>,
    at: usize,
    removed: usize,
    bytes: &[u8],
) -> Result<(), AllocError>
    requires within { at + removed ≤ length text.old.items }
    requires changed { AreChanged (length text.old.items) changed.old.items }
    requires can { AreUndos (vec_capacity text.old) undos.old.items
        (text_of_parts text.old.items changed.old.items) }
    ensures ok { OnOk result (text_of_parts text.new.items changed.new.items
        ≡ spliced at removed bytes.now (text_of_parts text.old.items changed.old.items)) }
    ensures err { OnErr result (text_of_parts text.new.items changed.new.items
        ≡ text_of_parts text.old.items changed.old.items) }
    ensures edit { (old : List ℕ) → IsEditOf old (text_of_parts text.old.items changed.old.items)
        → IsEditOf old (text_of_parts text.new.items changed.new.items) }
    ensures back { LeadBack (vec_capacity text.new) text.new.items changed.new.items
        undos.new.items (before_of text.old.items changed.old.items undos.old.items) }
{
    let size = text.len() - removed + bytes.len();
    let spare = mem::replace(room, Vec::new(*text.allocator()));
    let new_changed = changed_by(spare, at, removed, bytes.len(), size, changed)?;
    put(text, changed, undos, at, removed, bytes, new_changed)
}

/// `Editing::apply_near`, on its parts.
fn apply_near(
    text: &mut Vec<u8>,
    changed: &mut Vec<Span>,
    undos: &mut Vec<Undo>,
    room: &mut Vec<Span>,
    first: &Edit,
    rest: &[Edit],
) -> Result<Option<Replaced>, AllocError>
    requires changed { AreChanged (length text.old.items) changed.old.items }
    requires can { AreUndos (vec_capacity text.old) undos.old.items
        (text_of_parts text.old.items changed.old.items) }
    ensures made { IfOk result (λ part. IfSome part
        (λ part. text_of_parts text.new.items changed.new.items
        ≡ spliced_each (first.now ∷ rest.now) (text_of_parts text.old.items changed.old.items))) }
    ensures part { IfOk result (λ part. IfSome part
        (λ part. IsReplaced part.at part.removed part.added text.old.items text.new.items)) }
    ensures far { IfOk result (λ part. part ≡ None
        → text_of_parts text.new.items changed.new.items
        ≡ text_of_parts text.old.items changed.old.items) }
    ensures err { OnErr result (text_of_parts text.new.items changed.new.items
        ≡ text_of_parts text.old.items changed.old.items) }
    ensures back { LeadBack (vec_capacity text.new) text.new.items changed.new.items
        undos.new.items (before_of text.old.items changed.old.items undos.old.items) }
{
    let part = touched(text.len(), first, rest);
    let at = part.start;
    let removed = part.end - at;
    if removed > MAX_PART {
        return Ok(None);
    }
    let spare = mem::replace(room, Vec::new(*text.allocator()));
    let Some((bytes, new_changed)) = edited_part(text, changed, spare, part, first, rest)? else {
        return Ok(None);
    };
    put(text, changed, undos, at, removed, &bytes, new_changed)?;
    let added = bytes.len();
    Ok(Some(Replaced { at, removed, added }))
}
