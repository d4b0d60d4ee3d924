//! A text that both sides changed: whether a side's lines stand in the merged one in their order.
ghost use Rattle.std.specs.Prelude.{◌≡◌, ◌&&◌, ℕ, List, map, IsTrue, IfOk, IfSome};
ghost use Rattle.std.specs.Borrow.{Bor};
ghost use Rattle.org_splice.specs.Lines.{lines_of};
ghost use Rattle.org_account.specs.Text.{copies_among, has_end, is_log_start, IsAfter, IsInOrder, MayBeMissing};

use crate::lines::{copies, first_line, has_end, is_end, is_log_start, is_quote_of};
use crate::union::{Texts, gave_way};
use std::alloc::{AllocError, Global};

/// What follows the first line of a text that is this one or quotes it.
fn line_after<'t>(line: &[u8], text: &'t [u8]) -> Option<&'t [u8]>
    ensures { IfSome result
        (λ more. IsAfter line.now (lines_of text.now) (lines_of more.now)) }
{
    let mut left = text;
    while !left.is_empty() {
        let (first, rest) = first_line(left);
        if first == line || is_quote_of(first, line) {
            return Some(rest);
        }
        left = rest;
    }
    None
}

/// How often a line is among others.
fn count_among(line: &[u8], lines: &[&[u8]]) -> usize
    ensures { result ≡ copies_among line.now (map (λ (l : Bor (List ℕ)). l.now) lines.now) }
{
    let most = lines.len();
    let mut count: usize = 0;
    for other in lines {
        if *other == line {
            prove!(count < most);
            count += 1;
        }
    }
    count
}

/// Whether a line of a side may be missing besides these.
fn may_be_missing(texts: &Texts<'_>, other: &[u8], missing: &[&[u8]], line: &[u8]) -> bool
    ensures { IsTrue result → MayBeMissing texts.now other.now
        (map (λ (l : Bor (List ℕ)). l.now) missing.now) line.now }
{
    let taken = copies(line, texts.base).saturating_sub(copies(line, other));
    count_among(line, missing) < taken || gave_way(texts, line)
}

/// Whether the first line of a text that may not be missing stands before `more` in `rest`.
fn is_passed(
    texts: &Texts<'_>,
    other: &[u8],
    missing: &[&[u8]],
    text: &[u8],
    rest: &[u8],
    more: &[u8],
) -> bool {
    let mut left = text;
    while !left.is_empty() {
        let (line, later) = first_line(left);
        if !may_be_missing(texts, other, missing, line) {
            return match line_after(line, rest) {
                Some(found) => found.len() > more.len(),
                None => false,
            };
        }
        left = later;
    }
    false
}

/// What follows a line in the merged text, unless the line may be missing and a later one would be
/// passed.
fn found_in<'t>(
    texts: &Texts<'_>,
    other: &[u8],
    missing: &[&[u8]],
    line: &[u8],
    later: &[u8],
    rest: &'t [u8],
) -> Option<&'t [u8]>
    ensures { IfSome result (λ more. IsAfter line.now (lines_of rest.now) (lines_of more.now)) }
{
    let more = line_after(line, rest)?;
    if may_be_missing(texts, other, missing, line) {
        if is_passed(texts, other, missing, later, rest, more) {
            return None;
        }
    }
    Some(more)
}

/// Whether a line begins a LOGBOOK drawer, which ends in the lines that follow.
fn begins_log(line: &[u8], later: &[u8]) -> bool
    ensures { result ≡ (is_log_start line.now && has_end (lines_of later.now)) }
{
    is_log_start(line) && has_end(later)
}

/// Whether what a side's text keeps after the other's deletions stands in the merged one, in its
/// order.
pub(crate) fn is_in_order(
    alloc: Global,
    texts: &Texts<'_>,
    side: &[u8],
    other: &[u8],
) -> Result<bool, AllocError>
    ensures { IfOk result (λ is. IsTrue is → IsInOrder texts.now side.now other.now) }
{
    let mut missing = Vec::new(alloc);
    let mut left = side;
    let mut rest = texts.merged;
    let mut log = false;
    while !left.is_empty() {
        let (line, later) = first_line(left);
        left = later;
        if log {
            log = !is_end(line);
            continue;
        }
        if begins_log(line, later) {
            log = true;
            continue;
        }
        if let Some(more) = found_in(texts, other, missing.as_slice(), line, later, rest) {
            rest = more;
            continue;
        }
        if !may_be_missing(texts, other, missing.as_slice(), line) {
            return Ok(false);
        }
        missing.push(line)?;
    }
    Ok(true)
}
