//! Merges of lists of numbers, which stand for lines: by the changes that make each side of base.
//!
//! Two changes *meet* if they touch a common element, or if both add at one place. Changes that
//! don't meet are all made.
use std::alloc::{AllocError, Global};

/// The most comparisons for a longest common subsequence. Longer lists share their ends alone.
const MOST: usize = 1 << 25;

/// One of the two sides of a merge.
#[derive(Clone, Copy, PartialEq, Eq)]
pub(crate) enum Side {
    Ours,
    Theirs,
}

/// A part of a merged list.
#[derive(Drop)]
pub(crate) enum Chunk {
    /// What both kept, or what one side made of it.
    Plain(Vec<usize>),
    /// Both added at one place.
    Both(Vec<usize>, Vec<usize>),
    /// Both changed the same.
    Clash(Vec<usize>, Vec<usize>),
}

/// The elements from one place to another; none where the list doesn't reach there.
pub(crate) fn part(list: &[usize], start: usize, end: usize) -> &[usize] {
    list.get(start..end).unwrap_or(&[])
}

/// How many elements both lists begin with.
fn same_front(one: &[usize], other: &[usize]) -> usize {
    let mut count: usize = 0;
    for (a, b) in one.iter().zip(other) {
        if *a != *b {
            return count;
        }
        count = count.saturating_add(1);
    }
    count
}

/// How many elements both lists end with.
fn same_back(one: &[usize], other: &[usize]) -> usize {
    let mut count: usize = 0;
    for (a, b) in one.iter().rev().zip(other.iter().rev()) {
        if *a != *b {
            return count;
        }
        count = count.saturating_add(1);
    }
    count
}

/// An entry of a row of lengths.
fn length_at(row: &[u32], at: usize) -> u32 {
    row.get(at).copied().unwrap_or(0)
}

/// The lengths of longest common subsequences of a list that begins with `first`, and of the other
/// list from each place on; `below` are those of the list without its first element.
fn row_above(
    alloc: Global,
    first: usize,
    other: &[usize],
    below: &[u32],
) -> Result<Vec<u32>, AllocError> {
    let size = other.len();
    let mut row = vec![in alloc; 0u32; size.saturating_add(1)]?;
    let mut after: u32 = 0;
    for (count, element) in other.iter().rev().enumerate() {
        let at = size.saturating_sub(count).saturating_sub(1);
        after = if *element == first {
            length_at(below, at.saturating_add(1)).saturating_add(1)
        } else {
            length_at(below, at).max(after)
        };
        if let Some(slot) = row.get_mut(at) {
            *slot = after;
        }
    }
    Ok(row)
}

/// The rows of lengths, that of the whole list last.
fn rows_of(alloc: Global, one: &[usize], other: &[usize]) -> Result<Vec<Vec<u32>>, AllocError> {
    let mut rows = Vec::new(alloc);
    let mut below = vec![in alloc; 0u32; other.len().saturating_add(1)]?;
    for first in one.iter().rev() {
        let row = row_above(alloc, *first, other, below.as_slice())?;
        rows.push(below)?;
        below = row;
    }
    rows.push(below)?;
    Ok(rows)
}

/// The entry of the rows for the elements from `i` of the first list on, and from `j` of the other.
fn length_from(rows: &[Vec<u32>], i: usize, j: usize) -> u32 {
    match rows.get(rows.len().saturating_sub(1).saturating_sub(i)) {
        Some(row) => length_at(row.as_slice(), j),
        None => 0,
    }
}

/// The pairs of places of a longest common subsequence, by its rows; each moved on by `moved`.
fn walk(
    alloc: Global,
    one: &[usize],
    other: &[usize],
    rows: &[Vec<u32>],
    moved: usize,
) -> Result<Vec<(usize, usize)>, AllocError> {
    let mut pairs = Vec::new(alloc);
    let (mut i, mut j) = (0usize, 0usize);
    for _ in 0..one.len().saturating_add(other.len()) {
        let (Some(a), Some(b)) = (one.get(i), other.get(j)) else {
            break;
        };
        if *a == *b {
            pairs.push((i.saturating_add(moved), j.saturating_add(moved)))?;
            i = i.saturating_add(1);
            j = j.saturating_add(1);
        } else if length_from(rows, i.saturating_add(1), j)
            >= length_from(rows, i, j.saturating_add(1))
        {
            i = i.saturating_add(1);
        } else {
            j = j.saturating_add(1);
        }
    }
    Ok(pairs)
}

/// The pairs between the ends that both lists share, of which the front has this size.
fn middle(
    alloc: Global,
    one: &[usize],
    other: &[usize],
    moved: usize,
) -> Result<Vec<(usize, usize)>, AllocError> {
    if one.len().saturating_mul(other.len()) > MOST {
        return Ok(Vec::new(alloc));
    }
    let rows = rows_of(alloc, one, other)?;
    walk(alloc, one, other, rows.as_slice(), moved)
}

/// Puts pairs of places, one after the other, at the end of others.
fn push_run(
    pairs: &mut Vec<(usize, usize)>,
    i: usize,
    j: usize,
    count: usize,
) -> Result<(), AllocError> {
    for k in 0..count {
        pairs.push((i.saturating_add(k), j.saturating_add(k)))?;
    }
    Ok(())
}

/// The pairs of places of a longest common subsequence, in order.
pub(crate) fn common(
    alloc: Global,
    one: &[usize],
    other: &[usize],
) -> Result<Vec<(usize, usize)>, AllocError> {
    let front = same_front(one, other);
    let back = same_back(part(one, front, one.len()), part(other, front, other.len()));
    let i = one.len().saturating_sub(back);
    let j = other.len().saturating_sub(back);
    let mut pairs = Vec::new(alloc);
    push_run(&mut pairs, 0, 0, front)?;
    let between = middle(alloc, part(one, front, i), part(other, front, j), front)?;
    pairs.extend_from_slice(between.as_slice())?;
    push_run(&mut pairs, i, j, back)?;
    Ok(pairs)
}

/// A change of base: the elements that give way, and those of the side that come for them.
#[derive(Clone, Copy)]
struct Change {
    start: usize,
    end: usize,
    side: Side,
    from: usize,
    to: usize,
}

impl Change {
    /// Whether it only adds.
    fn adds(&self) -> bool {
        self.start == self.end
    }

    /// Whether it meets one of the other side.
    fn meets(&self, other: &Change) -> bool {
        match (self.adds(), other.adds()) {
            (true, true) => self.start == other.start,
            (true, false) => other.start < self.start && self.start < other.end,
            (false, true) => self.start < other.start && other.start < self.end,
            (false, false) => self.start.max(other.start) < self.end.min(other.end),
        }
    }
}

/// Puts the changes that make a side of base after those of the other.
fn push_changes(
    alloc: Global,
    changes: &mut Vec<Change>,
    base: &[usize],
    list: &[usize],
    side: Side,
) -> Result<(), AllocError> {
    let mut pairs = common(alloc, base, list)?;
    pairs.push((base.len(), list.len()))?;
    let (mut start, mut from) = (0usize, 0usize);
    for (end, to) in &pairs {
        if start != *end || from != *to {
            changes.push(Change {
                start,
                end: *end,
                side,
                from,
                to: *to,
            })?;
        }
        start = end.saturating_add(1);
        from = to.saturating_add(1);
    }
    Ok(())
}

/// Whether a change meets one of these of the other side.
fn meets_any(change: &Change, group: &[Change]) -> bool {
    for other in group {
        if other.side != change.side && change.meets(other) {
            return true;
        }
    }
    false
}

/// Where the groups of changes begin, each of which meets an earlier one of its group; and the end.
fn group_starts(alloc: Global, changes: &[Change]) -> Result<Vec<usize>, AllocError> {
    let mut starts = Vec::new(alloc);
    let mut start: usize = 0;
    for (k, change) in changes.iter().enumerate() {
        let group = changes.get(start..k).unwrap_or(&[]);
        if !meets_any(change, group) {
            starts.push(k)?;
            start = k;
        }
    }
    starts.push(changes.len())?;
    Ok(starts)
}

/// What a side makes of base from `start` to `end`.
fn applied(
    alloc: Global,
    base: &[usize],
    list: &[usize],
    group: &[Change],
    side: Side,
    span: (usize, usize),
) -> Result<Vec<usize>, AllocError> {
    let mut out = Vec::new(alloc);
    let (mut at, end) = span;
    for change in group {
        if change.side == side {
            out.extend_from_slice(part(base, at, change.start))?;
            out.extend_from_slice(part(list, change.from, change.to))?;
            at = change.end;
        }
    }
    out.extend_from_slice(part(base, at, end))?;
    Ok(out)
}

/// Whether a list stands in another one, as it is.
fn is_part(small: &[usize], big: &[usize]) -> bool {
    for at in 0..=big.len() {
        if part(big, at, big.len()).starts_with(small) {
            return true;
        }
    }
    false
}

/// From where to where changes reach.
fn span_of(group: &[Change]) -> (usize, usize) {
    let (mut start, mut end) = (usize::MAX, 0usize);
    for change in group {
        start = start.min(change.start);
        end = end.max(change.end);
    }
    (start.min(end), end)
}

/// What becomes of both sides' changes that meet.
fn met(mine: Vec<usize>, other: Vec<usize>, is_addition: bool) -> Chunk {
    if mine.as_slice() == other.as_slice() {
        return Chunk::Plain(mine);
    }
    if !is_addition {
        return Chunk::Clash(mine, other);
    }
    if is_part(mine.as_slice(), other.as_slice()) {
        return Chunk::Plain(other);
    }
    if is_part(other.as_slice(), mine.as_slice()) {
        return Chunk::Plain(mine);
    }
    Chunk::Both(mine, other)
}

/// What becomes of a group of changes.
fn chunk_of(
    alloc: Global,
    base: &[usize],
    ours: &[usize],
    theirs: &[usize],
    group: &[Change],
) -> Result<Chunk, AllocError> {
    let span = span_of(group);
    let mine = applied(alloc, base, ours, group, Side::Ours, span)?;
    let other = applied(alloc, base, theirs, group, Side::Theirs, span)?;
    match group {
        [change] => match change.side {
            Side::Ours => Ok(Chunk::Plain(mine)),
            Side::Theirs => Ok(Chunk::Plain(other)),
        },
        _ => Ok(met(mine, other, span.0 == span.1)),
    }
}

/// The changes of both sides, in order; at one place ours come first.
fn changes_of(
    alloc: Global,
    base: &[usize],
    ours: &[usize],
    theirs: &[usize],
) -> Result<Vec<Change>, AllocError> {
    let mut changes = Vec::new(alloc);
    push_changes(alloc, &mut changes, base, ours, Side::Ours)?;
    push_changes(alloc, &mut changes, base, theirs, Side::Theirs)?;
    changes.sort_by_key(|change| (change.start, change.end))?;
    Ok(changes)
}

/// What both sides make of a list.
pub(crate) fn merge_lists(
    alloc: Global,
    base: &[usize],
    ours: &[usize],
    theirs: &[usize],
) -> Result<Vec<Chunk>, AllocError> {
    let changes = changes_of(alloc, base, ours, theirs)?;
    let starts = group_starts(alloc, changes.as_slice())?;
    let mut chunks = Vec::new(alloc);
    let mut at: usize = 0;
    for (from, to) in starts.iter().zip(starts.iter().skip(1)) {
        let group = changes.as_slice().get(*from..*to).unwrap_or(&[]);
        let (start, end) = span_of(group);
        chunks.push(Chunk::Plain(Vec::from_slice(alloc, part(base, at, start))?))?;
        chunks.push(chunk_of(alloc, base, ours, theirs, group)?)?;
        at = end;
    }
    chunks.push(Chunk::Plain(Vec::from_slice(alloc, part(base, at, base.len()))?))?;
    Ok(chunks)
}
