//! What tests of several crates share: states, a moment, paths, edits, patches, and texts after an
//! edit.
ghost use Rattle.std.specs.Prelude.{[], ◌∷◌};
ghost use Rattle.org_splice.specs.Edits.{AreEdits};

use org_headings::is_terminated;
use org_outline::{Path, States, Step};
use org_splice::{Bytes, Edit, Editing, Patch};
use org_stamp::Moment;
use std::alloc::Global;
use std::process::Abort;

/// TODO and DONE.
pub fn states(rt: &impl Abort, alloc: Global) -> States {
    States::new(alloc, &["TODO"], &["DONE"]).expect(rt, "states")
}

/// 2026-07-01 10:00.
pub fn now(rt: &impl Abort) -> Moment {
    Moment::new(2026, 7, 1, 10, 0).expect(rt, "a moment")
}

/// The path of these titles, each without a number.
pub fn titles(rt: &impl Abort, alloc: Global, path: &[&str]) -> Path {
    let mut steps = Vec::new(alloc);
    for title in path {
        let title = Bytes::new(title.as_bytes().to_vec(alloc).expect(rt, "memory"));
        let step = Step {
            title,
            number: None,
        };
        steps.push(step).expect(rt, "memory");
    }
    Path::new(steps)
}

/// A place, how many bytes are removed there, and the bytes that take their place.
pub type Splice = (usize, usize, &'static [u8]);

/// The edit that does this.
pub fn edit_of(rt: &impl Abort, alloc: Global, splice: &Splice) -> Edit {
    let (at, removed, bytes) = splice;
    Edit {
        at: *at,
        removed: *removed,
        bytes: Bytes::new(bytes.to_vec(alloc).expect(rt, "memory")),
    }
}

/// The edits that do this.
pub fn edits_of(rt: &impl Abort, alloc: Global, splices: &[Splice]) -> Vec<Edit> {
    let mut edits = Vec::new(alloc);
    for splice in splices {
        edits.push(edit_of(rt, alloc, splice)).expect(rt, "memory");
    }
    edits
}

/// Makes an edit, which has to lie in the text and to leave a terminated one.
pub fn make(rt: &impl Abort, now: &mut Editing, edit: &Edit)
    ensures { AreEdits (edit.now ∷ []) now.old.text.bytes now.new.text.bytes }
{
    let size = now.bytes().len();
    assert!(rt; edit.removed <= size && edit.at <= size - edit.removed);
    now.apply(edit).expect(rt, "memory");
    assert!(rt; is_terminated(now.bytes()));
}

/// Where a patch begins, and its bytes.
pub type Patched = (u64, &'static [u8]);

/// The patches of a text without changes.
pub const NONE: &[Patched] = &[(0, b"")];

fn is(patch: &Patch, expected: &Patched) -> bool {
    patch.from == expected.0 && patch.bytes.as_slice() == expected.1
}

/// Whether these are the patches, two at most.
fn are(patches: &[Patch], expected: &[Patched]) -> bool {
    match (patches, expected) {
        ([one], [first]) => is(one, first),
        ([one, two], [first, second]) => is(one, first) && is(two, second),
        _ => false,
    }
}

/// Whether a text has these bytes and these patches.
pub fn has(rt: &impl Abort, text: &Editing, bytes: &[u8], patches: &[Patched]) -> bool {
    text.bytes() == bytes && are(&text.patches().expect(rt, "memory"), patches)
}

/// How many patches a text has.
pub fn patch_count(rt: &impl Abort, text: &Editing) -> usize {
    text.patches().expect(rt, "memory").len()
}

/// Whether a text is this one after an edit, which has to lie in it.
pub fn becomes(text: &[u8], edit: &Edit, expected: &[u8]) -> bool {
    let Some(end) = edit.at.checked_add(edit.removed) else {
        return false;
    };
    let (Some(front), Some(rest)) = (text.get(..edit.at), text.get(end..)) else {
        return false;
    };
    match expected.strip_prefix(front) {
        Some(made) => made.strip_prefix(edit.bytes.as_slice()) == Some(rest),
        None => false,
    }
}
