//! Clocking in and out: edits of LOGBOOK drawers (Org manual, "Clocking Work Time").
//!
//! An edit is answered, and the section isn't changed here. Which clock runs is the caller's
//! question.
ghost use Rattle.std.specs.Prelude.{◌≡◌, ℕ, List, IfOk, IfErr, IfSome, IfNone, OnOk, None, [], ◌∷◌, ◌++◌};
ghost use Rattle.std.specs.List.{list_any};
ghost use Rattle.org_splice.specs.Lines.{lines_of};
ghost use Rattle.org_meta.specs.Edits.{RewritesParts, IsPlaceFor};
ghost use Rattle.org_meta.specs.Sections.{is_end, parts_of};
ghost use Rattle.org_meta.specs.Clocks.{HasOpenAt};
ghost use Rattle.org_meta.specs.Clocking.{in_logbook, logged, opened, closing_text, Closes, ClosesNot};

use crate::clock::{minutes_between, running_clock};
use crate::lines::{Lines, Place};
use crate::moments::{moment_bytes, push_moment};
use crate::split::{is_end, is_mark, sections};
use org_fault::{Fault, Refusal};
use org_splice::{Bytes, Edit, Span};
use org_stamp::{Moment, duration};
use std::alloc::{AllocError, Global};

/// Whether a line is `:END:`.
fn has_end(text: Lines<'_>) -> bool
    ensures { result ≡ list_any is_end (lines_of text.entry.bytes.now) }
{
    let mut left = text;
    while let Some((line, rest)) = left.first() {
        if is_end(line) {
            return true;
        }
        left = rest;
    }
    false
}

/// The place for a line first in the LOGBOOK drawer, where the text has one.
fn log_place(text: Lines<'_>) -> Option<Place<'_>>
    ensures some { let lines = lines_of text.entry.bytes.now in
        IfSome result (IsPlaceFor (λ line. logged line lines) text.entry.bytes.now) }
    ensures none { let lines = lines_of text.entry.bytes.now in
        IfNone result ((line : List ℕ) → in_logbook line lines ≡ None) }
{
    let mut left = text;
    while let Some((line, rest)) = left.first() {
        if is_mark(line, b":LOGBOOK:") {
            if !has_end(rest) {
                return None;
            }
            return Some(Place {
                left: rest.bytes,
                removed: 0,
            });
        }
        left = rest;
    }
    None
}

/// The edit that puts an open clock line first into the section's LOGBOOK drawer, or into a new one
/// before the rest (Org manual, "Clocking commands").
///
/// # Errors
///
/// `AllocError`.
pub fn open_clock(alloc: Global, section: Lines<'_>, now: Moment) -> Result<Edit, AllocError>
    ensures { let text = section.entry.bytes.now in
        IfOk result (λ edit. RewritesParts edit text (opened now (parts_of text))) }
{
    let rest = sections(section).rest;
    let Some(place) = log_place(rest) else {
        return Ok(Edit {
            at: section.bytes.len() - rest.bytes.len(),
            removed: 0,
            bytes: Bytes::new(moment_bytes(alloc, b":LOGBOOK:\nCLOCK: ", now, b"\n:END:\n")?),
        });
    };
    Ok(Edit {
        at: section.bytes.len() - place.left.len(),
        removed: place.removed,
        bytes: Bytes::new(moment_bytes(alloc, b"CLOCK: ", now, b"\n")?),
    })
}

/// `--[stamp] => H:MM`, which closes an open clock line.
fn push_closing(out: &mut Vec<u8>, now: Moment, minutes: u64) -> Result<(), AllocError>
    ensures { OnOk result (out.new.items ≡ out.old.items ++ closing_text now minutes) }
{
    push_moment(out, b"--", now, b" => ")?;
    let duration = duration(*out.allocator(), minutes, 2)?;
    out.extend_from_slice(&duration)
}

/// The edit that closes an open clock line of the section, as `find_open` answers it: `--`, the
/// moment's timestamp and the duration take the place of all that follows the line's own timestamp
/// (Org manual, "Clocking commands").
///
/// # Errors
///
/// - `ClockBackwards`: the moment is before the clock's start.
/// - `OutOfMemory`: only where it isn't.
pub fn close_clock(
    alloc: Global,
    section: Lines<'_>,
    line: Span,
    now: Moment,
) -> Result<Edit, Fault<Refusal>>
    requires { HasOpenAt section.bytes.now line }
    ensures ok { IfOk result (Closes now section.entry.bytes.now line) }
    ensures err { IfErr result (ClosesNot now section.entry.bytes.now line) }
{
    let text = &section.bytes[line.start..line.end - 1];
    let Some(running) = running_clock(text) else {
        unreachable!();
    };
    let Some(minutes) = minutes_between(running.start, now) else {
        return Err(Fault::Refused(Refusal::ClockBackwards));
    };
    let mut bytes = Vec::new(alloc);
    push_closing(&mut bytes, now, minutes)?;
    Ok(Edit {
        at: line.start + running.head,
        removed: text.len() - running.head,
        bytes: Bytes::new(bytes),
    })
}
