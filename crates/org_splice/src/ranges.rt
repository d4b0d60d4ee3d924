//! The changed ranges of a text, kept as lists that rise.
//!
//! No two ranges touch, none is empty, and there are at most a thousand: past that the last two
//! become one. So a record has few patches, however many edits a command makes.
ghost use Rattle.std.specs.Prelude.{◌≡◌, ◌+◌, ◌<◌, ◌≤◌, length, IfOk};
ghost use Rattle.org_splice.specs.Ranges.{AreChanged, changed_by, cut_at, joined, a_thousand_of, with_range};

use crate::Span;
use std::alloc::AllocError;

/// How many changed ranges a text keeps apart, and so how many patches it has at most.
const MAX_PATCHES: usize = 1_000;

/// The ranges, cut at the end of a text of this size. They are put into a list that isn't needed
/// any more.
fn cut_at(room: Vec<Span>, size: usize, ranges: &[Span]) -> Result<Vec<Span>, AllocError>
    ensures { IfOk result (λ kept. kept.items ≡ cut_at size ranges.now) }
{
    let mut kept = room;
    kept.clear();
    for range in ranges {
        if range.start < size {
            kept.push(Span {
                start: range.start,
                end: range.end.min(size),
            })?;
        }
    }
    Ok(kept)
}

/// The ranges, cut at the end of a text of this size, with one more, which becomes one with those
/// that it touches or overlaps. They are put into a list that isn't needed any more.
fn joined(room: Vec<Span>, own: Span, size: usize, ranges: &[Span]) -> Result<Vec<Span>, AllocError>
    requires full { own.start < own.end }
    requires changed { AreChanged usize.MAX ranges.now }
    ensures { IfOk result (λ all. all.items ≡ joined own (cut_at size ranges.now)) }
{
    let mut own = own;
    let mut all = room;
    all.clear();
    all.reserve(ranges.len() + 1)?;
    for range in ranges {
        if range.start >= size {
            continue;
        }
        let cut = Span {
            start: range.start,
            end: range.end.min(size),
        };
        if cut.end < own.start {
            all.push(cut)?;
        } else if own.end < cut.start {
            all.push(own)?;
            own = cut;
        } else {
            own = Span {
                start: own.start.min(cut.start),
                end: own.end.max(cut.end),
            };
        }
    }
    all.push(own)?;
    Ok(all)
}

/// Joins the last two ranges, with what lies between, where there are more than a thousand.
fn keep_a_thousand(ranges: &mut Vec<Span>)
    ensures { ranges.new.items ≡ a_thousand_of ranges.old.items }
{
    if ranges.len() > MAX_PATCHES
        && let Some(last) = ranges.pop()
    {
        let before = ranges.len() - 1;
        ranges[before].end = last.end;
    }
}

/// The ranges, cut at the end of a text of this size, with one more, if it isn't empty. They are
/// put into a list that isn't needed any more, so that no memory is taken where it has room.
fn with_range(
    room: Vec<Span>,
    own: Span,
    size: usize,
    ranges: &[Span],
) -> Result<Vec<Span>, AllocError>
    requires rises { own.start ≤ own.end }
    requires changed { AreChanged usize.MAX ranges.now }
    ensures { IfOk result (λ all. all.items ≡ with_range own (cut_at size ranges.now)) }
{
    if own.start == own.end {
        return cut_at(room, size, ranges);
    }
    let mut all = joined(room, own, size, ranges)?;
    keep_a_thousand(&mut all);
    Ok(all)
}

/// The changed ranges after an edit that leaves a text of this size: `removed` bytes from `at` on
/// gave way to `added` others. They are put into a list that isn't needed any more.
///
/// # Errors
///
/// `AllocError`.
pub fn changed_by(
    room: Vec<Span>,
    at: usize,
    removed: usize,
    added: usize,
    size: usize,
    ranges: &[Span],
) -> Result<Vec<Span>, AllocError>
    requires within { at + added ≤ size }
    requires changed { AreChanged usize.MAX ranges.now }
    ensures { IfOk result (λ all. all.items ≡ changed_by at removed added size ranges.now) }
{
    let end = if removed == added { at + added } else { size };
    with_range(room, Span { start: at, end }, size, ranges)
}
