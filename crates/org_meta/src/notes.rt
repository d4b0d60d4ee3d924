//! Notes of repetitions (Org manual, "Tracking TODO state changes").
//!
//! A note is one line, put first into the rest of a section. No drawer is made for it.
ghost use Rattle.std.specs.Prelude.{◌≡◌, ◌∷◌, [], ◌++◌, IfOk, OnOk};
ghost use Rattle.org_meta.specs.Edits.{RewritesParts};
ghost use Rattle.org_meta.specs.Notes.{quoted, note_line, with_note};
ghost use Rattle.org_meta.specs.Sections.{parts_of};

use crate::lines::Lines;
use crate::moments::push_moment;
use crate::split::sections;
use crate::texts::push_all;
use org_splice::{Bytes, Edit};
use org_stamp::Moment;
use std::alloc::{AllocError, Global};

/// The state in quotes, in 12 columns at least, after a text.
fn push_quoted(out: &mut Vec<u8>, before: &[u8], state: &[u8]) -> Result<(), AllocError>
    ensures { OnOk result (out.new.items
        ≡ out.old.items ++ (before.now ++ quoted state.now)) }
{
    let blanks = &b"          "[state.len().min(10)..];
    push_all(out, &[before, b"\"", state, b"\"", blanks])
}

/// `- State "DONE"       from "TODO"       [stamp]`, with its newline.
fn push_note(out: &mut Vec<u8>, new: &[u8], old: &[u8], now: Moment) -> Result<(), AllocError>
    ensures { OnOk result (out.new.items
        ≡ out.old.items ++ (note_line new.now old.now now ++ 10 ∷ [])) }
{
    push_quoted(out, b"- State ", new)?;
    push_quoted(out, b" from ", old)?;
    push_moment(out, b" ", now, b"\n")
}

/// The edit that puts the note of a repetition first into the rest of the section (Org manual,
/// "Repeated tasks"): `- State`, the new state, `from`, the old one, each in quotes and padded to
/// 12 columns, and the moment. A heading without a state has the empty one.
///
/// # Errors
///
/// `AllocError`.
pub fn add_note(
    alloc: Global,
    section: Lines<'_>,
    new: &[u8],
    old: &[u8],
    now: Moment,
) -> Result<Edit, AllocError>
    ensures { let text = section.entry.bytes.now in
        IfOk result (λ edit. RewritesParts edit text
        (with_note (note_line new.now old.now now) (parts_of text))) }
{
    let mut bytes = Vec::new(alloc);
    push_note(&mut bytes, new, old, now)?;
    Ok(Edit {
        at: section.bytes.len() - sections(section).rest.bytes.len(),
        removed: 0,
        bytes: Bytes::new(bytes),
    })
}
