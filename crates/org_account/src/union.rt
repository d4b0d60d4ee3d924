//! A text that both sides changed: whether the merged one has each line as often as it is due.
ghost use Rattle.std.specs.Prelude.{◌≡◌, ◌+◌, ◌<◌, ◌≤◌, ◌^◌, ℕ, List, max, length, IsTrue, IfOk};
ghost use Rattle.org_account.specs.Text.{copies, least, most, least_of, most_of, new_quotes, GaveWay, IsKeptLine, IsDueQuote, IsHeadingQuote, IsDueLine, StandTogether, IsAlone, IsSingleLine, are_rivals, IsUnion, EachLine};

use crate::in_order::is_in_order;
use crate::lines::{
    HEADING_QUOTE, QUOTE, are_rivals, copies, first_line, is_single, is_told_heading, is_told_line,
    quotes,
};
use std::alloc::{AllocError, Global};
use std::marker::Model;

/// A text that both sides changed.
#[derive(Drop)]
pub(crate) struct Texts<'t> {
    pub(crate) told: &'t [u8],
    pub(crate) ours_line: &'t [u8],
    pub(crate) theirs_line: &'t [u8],
    pub(crate) base: &'t [u8],
    pub(crate) ours: &'t [u8],
    pub(crate) theirs: &'t [u8],
    pub(crate) merged: &'t [u8],
}

impl<'t> Model for Texts<'t> {
    ghost use Rattle.org_account.specs.Text.{Changed};

    ghost Value = { Changed };

    ghost view = { λ t. record {
      told = t.told.now;
      ours_line = t.ours_line.now;
      theirs_line = t.theirs_line.now;
      base = t.base.now;
      ours = t.ours.now;
      theirs = t.theirs.now;
      merged = t.merged.now;
    } };
}

/// The least copies of a line.
fn least(base: usize, ours: usize, theirs: usize) -> usize
    requires { ours + theirs < 2 ^ 64 }
    ensures { result ≡ least base ours theirs }
{
    if base < ours && base < theirs {
        ours.max(theirs)
    } else {
        (ours + theirs).saturating_sub(base)
    }
}

/// The most copies of a line.
fn most(base: usize, ours: usize, theirs: usize) -> usize
    requires { ours + theirs < 2 ^ 64 }
    ensures { result ≡ most base ours theirs }
{
    let added = ours.saturating_sub(base) + theirs.saturating_sub(base);
    added + base.min(ours.min(theirs))
}

/// The least copies of a line in the merged text.
fn least_of(texts: &Texts<'_>, line: &[u8]) -> usize
    ensures { result ≡ least_of texts.now line.now }
{
    least(
        copies(line, texts.base),
        copies(line, texts.ours),
        copies(line, texts.theirs),
    )
}

/// The most copies of a line in the merged text.
fn most_of(texts: &Texts<'_>, line: &[u8]) -> usize
    ensures { result ≡ most_of texts.now line.now }
{
    most(
        copies(line, texts.base),
        copies(line, texts.ours),
        copies(line, texts.theirs),
    )
}

/// The quotes of a line that the merge made.
fn new_quotes(texts: &Texts<'_>, line: &[u8]) -> usize
    ensures value { result ≡ new_quotes texts.now line.now }
    ensures few { result ≤ length texts.now.merged }
{
    let old = least(
        quotes(line, texts.base),
        quotes(line, texts.ours),
        quotes(line, texts.theirs),
    );
    quotes(line, texts.merged).saturating_sub(old)
}

/// Whether a text has a rival of a line.
fn has_rival(line: &[u8], text: &[u8]) -> bool
    ensures { IsTrue result → (other : List ℕ)
        × (0 < copies other text.now) × IsTrue (are_rivals line.now other) }
{
    let mut left = text;
    while !left.is_empty() {
        let (other, rest) = first_line(left);
        if are_rivals(line, other) {
            return true;
        }
        left = rest;
    }
    false
}

/// Whether a line gave way to a rival, and is told.
pub(crate) fn gave_way(texts: &Texts<'_>, line: &[u8]) -> bool
    ensures { IsTrue result → GaveWay texts.now line.now }
{
    if !is_told_line(texts.told, line) {
        return false;
    }
    has_rival(line, texts.merged)
}

/// Whether no copy of a line is lost.
fn is_kept_line(texts: &Texts<'_>, line: &[u8]) -> bool
    ensures { IsTrue result → IsKeptLine texts.now line.now }
{
    let there = copies(line, texts.merged) + new_quotes(texts, line);
    least_of(texts, line) <= there || gave_way(texts, line)
}

/// Whether no copy of a side's lines is lost.
fn are_kept(texts: &Texts<'_>, side: &[u8]) -> bool
    ensures { IsTrue result → EachLine (IsKeptLine texts.now) side.now }
{
    let mut left = side;
    while !left.is_empty() {
        let (line, rest) = first_line(left);
        if !is_kept_line(texts, line) {
            return false;
        }
        left = rest;
    }
    true
}

/// Whether a line quotes one of which the merged text lacks this many copies.
fn is_due_quote(texts: &Texts<'_>, more: usize, line: &[u8]) -> bool
    ensures { IsTrue result → IsDueQuote texts.now more line.now }
{
    match line.strip_prefix(QUOTE) {
        Some(held) => {
            if !is_told_line(texts.told, held) {
                return false;
            }
            more <= most_of(texts, held).saturating_sub(copies(held, texts.merged))
        }
        None => false,
    }
}

/// Whether a line quotes one of the two headings.
fn is_heading_quote(texts: &Texts<'_>, line: &[u8]) -> bool
    ensures { IsTrue result → IsHeadingQuote texts.now line.now }
{
    match line.strip_prefix(HEADING_QUOTE) {
        Some(heading) => {
            if !is_told_heading(texts.told, heading) {
                return false;
            }
            heading == texts.ours_line || heading == texts.theirs_line
        }
        None => false,
    }
}

/// Whether no copy of a line is made up or doubled.
fn is_due_line(texts: &Texts<'_>, line: &[u8]) -> bool
    ensures { IsTrue result → IsDueLine texts.now line.now }
{
    let more = copies(line, texts.merged).saturating_sub(most_of(texts, line));
    if more == 0 {
        return true;
    }
    is_due_quote(texts, more, line) || more == 1 && is_heading_quote(texts, line)
}

/// Whether no line of the merged text is made up or doubled.
fn are_due(texts: &Texts<'_>) -> bool
    ensures { IsTrue result → EachLine (IsDueLine texts.now) texts.now.merged }
{
    let mut left = texts.merged;
    while !left.is_empty() {
        let (line, rest) = first_line(left);
        if !is_due_line(texts, line) {
            return false;
        }
        left = rest;
    }
    true
}

/// Whether a text has both lines.
fn has_both(line: &[u8], other: &[u8], text: &[u8]) -> bool
    ensures { IsTrue result → (0 < copies line.now text.now) × (0 < copies other.now text.now) }
{
    copies(line, text) > 0 && copies(other, text) > 0
}

/// Whether a rival of a line stands beside it on a side.
fn is_alone(texts: &Texts<'_>, line: &[u8], other: &[u8]) -> bool
    ensures { IsTrue result → IsAlone texts.now line.now other.now }
{
    !are_rivals(line, other)
        || has_both(line, other, texts.ours)
        || has_both(line, other, texts.theirs)
}

/// Whether each rival of a line does that the merged text has.
fn are_alone(texts: &Texts<'_>, line: &[u8]) -> bool
    ensures { IsTrue result → EachLine (IsAlone texts.now line.now) texts.now.merged }
{
    let mut left = texts.merged;
    while !left.is_empty() {
        let (other, rest) = first_line(left);
        if !is_alone(texts, line, other) {
            return false;
        }
        left = rest;
    }
    true
}

/// Whether a property, a planning line or a clock line stands there as often as a side has it.
fn is_once(texts: &Texts<'_>, line: &[u8]) -> bool
    ensures { IsTrue result → copies line.now texts.now.merged
        ≤ max (copies line.now texts.now.ours) (copies line.now texts.now.theirs) }
{
    copies(line, texts.merged) <= copies(line, texts.ours).max(copies(line, texts.theirs))
}

/// Whether a line isn't there twice, nor beside a rival, unless it is so on a side.
fn is_single_line(texts: &Texts<'_>, line: &[u8]) -> bool
    ensures { IsTrue result → IsSingleLine texts.now line.now }
{
    if !is_single(line) {
        return true;
    }
    if !is_once(texts, line) {
        return false;
    }
    are_alone(texts, line)
}

/// Whether no line of the merged text is.
fn are_single(texts: &Texts<'_>) -> bool
    ensures { IsTrue result → EachLine (IsSingleLine texts.now) texts.now.merged }
{
    let mut left = texts.merged;
    while !left.is_empty() {
        let (line, rest) = first_line(left);
        if !is_single_line(texts, line) {
            return false;
        }
        left = rest;
    }
    true
}

/// Whether the merged text has what both sides made of base's, in the order of each.
pub(crate) fn is_union(alloc: Global, texts: &Texts<'_>) -> Result<bool, AllocError>
    ensures { IfOk result (λ is. IsTrue is → IsUnion texts.now) }
{
    if !are_kept(texts, texts.ours) {
        return Ok(false);
    }
    if !are_kept(texts, texts.theirs) {
        return Ok(false);
    }
    if !are_due(texts) {
        return Ok(false);
    }
    if !are_single(texts) {
        return Ok(false);
    }
    let ours = is_in_order(alloc, texts, texts.ours, texts.theirs)?;
    let theirs = is_in_order(alloc, texts, texts.theirs, texts.ours)?;
    Ok(ours && theirs)
}
