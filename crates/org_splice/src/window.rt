//! Edits that lie near one another, made beside the text that they are of.
//!
//! The part of the text that they touch is copied, edited, and then put back at once. What stands
//! before and after it doesn't move till then. An edit that reaches beyond the part is found.
ghost use Rattle.std.specs.Prelude.{◌≡◌, ◌+◌, ◌-◌, ◌≤◌, ◌∷◌, length, IsTrue, IfOk, IfSome};
ghost use Rattle.org_splice.specs.Edits.{edited};
ghost use Rattle.org_splice.specs.Ranges.{AreChanged};
ghost use Rattle.org_splice.specs.Texts.{spliced, spliced_each};
ghost use Rattle.org_splice.specs.Versions.{text_of_parts};

use crate::Span;
use crate::edit::Edit;
use crate::ranges::changed_by;
use crate::replacing::replace;
use std::alloc::AllocError;
use std::mem;

/// How long a part may be that is edited beside its text: it is copied, and kept for an undo.
pub(crate) const MAX_PART: usize = 16_384;

/// How many bytes before edits, and how many after them, none of them touches, in a text that has
/// this size after them.
#[derive(Clone, Copy)]
struct Untouched {
    before: usize,
    behind: usize,
    size: usize,
}

/// The same with one more edit.
fn untouched_by(of: Untouched, edit: &Edit) -> Untouched
    ensures { result.before ≤ of.before }
{
    let behind = of.size.saturating_sub(edit.at).saturating_sub(edit.removed);
    Untouched {
        before: of.before.min(edit.at),
        behind: of.behind.min(behind),
        size: of
            .size
            .saturating_sub(edit.removed)
            .saturating_add(edit.bytes.len()),
    }
}

/// The part that edits touch of a text of this size. It lies within; `edited_part` sees whether
/// they do.
pub(crate) fn touched(size: usize, first: &Edit, rest: &[Edit]) -> Span
    ensures ordered { result.start ≤ result.end }
    ensures within { result.end ≤ size }
{
    let whole = Untouched {
        before: size,
        behind: size,
        size,
    };
    let mut untouched = untouched_by(whole, first);
    for edit in rest {
        untouched = untouched_by(untouched, edit);
    }
    let start = untouched.before;
    let end = size - untouched.behind.min(size - start);
    Span { start, end }
}

/// Makes one edit of a text within a part, for which `window` stands, beside the changed ranges;
/// or answers that it reaches beyond.
fn edit_within(
    text: &[u8],
    part: Span,
    window: &mut Vec<u8>,
    changed: &mut Vec<Span>,
    room: &mut Vec<Span>,
    edit: &Edit,
) -> Result<bool, AllocError>
    requires ordered { part.start ≤ part.end }
    requires within { part.end ≤ length text.now }
    requires changed { AreChanged
        (length (edited part.start (part.end - part.start) window.old.items text.now))
        changed.old.items }
    ensures made { IfOk result (λ made. IsTrue made
        → text_of_parts (edited part.start (part.end - part.start) window.new.items text.now)
        changed.new.items
        ≡ spliced edit.now.at edit.now.removed edit.now.bytes
        (text_of_parts (edited part.start (part.end - part.start) window.old.items text.now)
        changed.old.items)) }
    ensures changed { IfOk result (λ made. IsTrue made → AreChanged
        (length (edited part.start (part.end - part.start) window.new.items text.now))
        changed.new.items) }
{
    if edit.at < part.start {
        return Ok(false);
    }
    let start = edit.at - part.start;
    if start > window.len() || edit.removed > window.len() - start {
        return Ok(false);
    }
    replace(window, start, edit.removed, edit.bytes.as_slice())?;
    let size = text.len() - (part.end - part.start) + window.len();
    let spare = mem::replace(room, Vec::new(*window.allocator()));
    let added = edit.bytes.len();
    let new_changed = changed_by(spare, edit.at, edit.removed, added, size, changed)?;
    *room = mem::replace(changed, new_changed);
    Ok(true)
}

/// What edits, one after another, make of a part of a text, and the changed ranges of the text with
/// it; none where one of them reaches beyond the part.
pub(crate) fn edited_part(
    text: &[u8],
    changed: &[Span],
    room: Vec<Span>,
    part: Span,
    first: &Edit,
    rest: &[Edit],
) -> Result<Option<(Vec<u8>, Vec<Span>)>, AllocError>
    requires ordered { part.start ≤ part.end }
    requires within { part.end ≤ length text.now }
    requires changed { AreChanged (length text.now) changed.now }
    ensures made { IfOk result (λ made. IfSome made
        (λ made. text_of_parts (edited part.start (part.end - part.start) made.0.items text.now)
        made.1.items ≡ spliced_each (first.now ∷ rest.now) (text_of_parts text.now changed.now))) }
    ensures changed { IfOk result (λ made. IfSome made
        (λ made. AreChanged
        (length (edited part.start (part.end - part.start) made.0.items text.now))
        made.1.items)) }
{
    let alloc = *room.allocator();
    let mut room = room;
    let mut window = Vec::from_slice(alloc, &text[part.start..part.end])?;
    let mut changed = Vec::from_slice(alloc, changed)?;
    if !edit_within(text, part, &mut window, &mut changed, &mut room, first)? {
        return Ok(None);
    }
    for edit in rest {
        if !edit_within(text, part, &mut window, &mut changed, &mut room, edit)? {
            return Ok(None);
        }
    }
    Ok(Some((window, changed)))
}
