//! Where the headings of a text are: places, levels, and how their titles can begin, in document
//! order.
//!
//! The list rises, and has every heading of its text. An edit moves what stands after it; only the
//! lines that it touches are read again. Titles aren't held.
ghost use Rattle.std.specs.Prelude.{◌≡◌, ◌⊎◌, ◌+◌, ◌++◌, ◌∷◌, [], ◌<◌, ◌≤◌, ◌^◌, take, drop, vec_len, IfOk, IfSome, OnOk, OnErr, None, length, map, not, true, nat_lt};
ghost use Rattle.std.specs.List.{prefix_len, AllByRecursion};
ghost use Rattle.std.specs.List.Sorted.{IsNonDecreasingBy};
ghost use Rattle.org_splice.specs.Lines.{terminated};
ghost use Rattle.org_headings.specs.Beginnings.{beginnings_of};
ghost use Rattle.org_headings.specs.Text.{line_at};
ghost use Rattle.org_headings.specs.Headings.{headings_of, heads_from, next_at, last_above, start_or, can_be_dated, lowest_level, AreBeginnings, IsEdit, CanMove, moved};

use crate::beginnings::Beginnings;
use crate::text::{has_space, is_line_start, line_end, line_start, star_count};
use memchr::memchr;
use std::alloc::{AllocError, Global};
use std::marker::Model;

/// Where a heading line begins in a text, its level, and how its title can begin. It has 16 bytes,
/// since a look-up by date walks over all headings.
#[derive(Clone, Copy)]
pub struct Heading {
    /// The byte at which the line begins.
    pub start: usize,
    /// The count of its stars, from 1 on.
    pub level: u32,
    /// How its title can begin.
    pub beginnings: Beginnings,
}

/// Puts a heading after others, by what stands after its stars and all that follows it; unchanged
/// where memory ran out, or where the level doesn't have 32 bits, which takes a line of 4 GiB.
fn push(
    headings: &mut Vec<Heading>,
    start: usize,
    level: usize,
    tail: &[u8],
) -> Result<(), AllocError>
    ensures ok { OnOk result (headings.new.items ≡ headings.old.items
        ++ (record { start = start; level = level; beginnings = beginnings_of (line_at tail.now) }
        ∷ [])) }
    ensures err { OnErr result (headings.new.items ≡ headings.old.items) }
{
    if level > u32::MAX as usize {
        return Err(AllocError);
    }
    headings.push(Heading {
        start,
        level: level as u32,
        beginnings: Beginnings::of_line(tail),
    })?;
    Ok(())
}

/// Puts the headings of whole lines that stand at `base` of a text after others; unchanged where
/// memory ran out. Each star is looked for once.
fn scan(headings: &mut Vec<Heading>, text: &[u8], base: usize) -> Result<(), AllocError>
    requires { base + length text.now < 2 ^ 64 }
    ensures ok { OnOk result
        (headings.new.items ≡ headings.old.items ++ heads_from base true text.now) }
    ensures err { OnErr result (headings.new.items ≡ headings.old.items) }
{
    let count = headings.len();
    let mut from = 0;
    while let Some(skipped) = memchr(b'*', &text[from..]) {
        let start = from + skipped;
        let level = star_count(&text[start..]);
        from = start + level;
        if is_line_start(text, start) && has_space(text, from) {
            let tail = text.split_at(from).1;
            if push(headings, base + start, level, tail).is_err() {
                headings.truncate(count);
                return Err(AllocError);
            }
        }
    }
    Ok(())
}

/// How the titles of headings can begin.
fn beginnings_of(alloc: Global, headings: &[Heading]) -> Result<Vec<Beginnings>, AllocError>
    ensures { IfOk result
        (λ beginnings. beginnings.items ≡ map (λ (h : Heading). h.beginnings) headings.now) }
{
    let mut beginnings = Vec::with_capacity(alloc, headings.len())?;
    for heading in headings {
        beginnings.push(heading.beginnings)?;
    }
    Ok(beginnings)
}

/// Makes the beginnings follow headings of which there were `count`, and those from `first` on and
/// before `last` were replaced by `fresh` ones. Where memory runs out, none are kept.
fn follow(
    beginnings: &mut Vec<Beginnings>,
    count: usize,
    first: usize,
    last: usize,
    fresh: &[Heading],
)
    requires ordered { first ≤ last }
    requires within { last ≤ count }
    ensures { ((vec_len beginnings.old ≡ count)
        × (beginnings.new.items ≡ take first beginnings.old.items
        ++ (map (λ (h : Heading). h.beginnings) fresh.now ++ drop last beginnings.old.items)))
        ⊎ (beginnings.new.items ≡ []) }
{
    let alloc = *beginnings.allocator();
    let followed = match beginnings_of(alloc, fresh) {
        Ok(fresh) if beginnings.len() == count => replace(beginnings, first, last, fresh),
        _ => Err(AllocError),
    };
    if followed.is_err() {
        beginnings.clear();
    }
}

/// The places and levels of the headings of a terminated text, kept apart from it. A clause sees
/// their list.
///
/// How their titles can begin is kept once more, each after the other, since a look-up by title
/// reads only that; where memory ran out, it isn't, and each heading is looked at.
#[derive(Drop)]
pub struct Heads {
    headings: Vec<Heading>,
    beginnings: Vec<Beginnings>,
}

impl Model for Heads {
    ghost use Rattle.std.specs.Prelude.{List};
    ghost use Rattle.org_headings.specs.declared.heads.Heading.{Heading};

    ghost Value = { List Heading };

    ghost use Rattle.org_headings.specs.Headings.{AreBeginnings};

    ghost view = { λ h. h.headings.items };

    ghost invariant = { λ h. AreBeginnings h.beginnings.items h.headings.items };
}

impl Heads {
    /// The headings of a terminated text, in one pass.
    ///
    /// # Errors
    ///
    /// `AllocError`.
    pub fn read(alloc: Global, text: &[u8]) -> Result<Heads, AllocError>
        requires { terminated text.now ≡ text.now }
        ensures { IfOk result (λ heads. heads ≡ headings_of text.now) }
    {
        let mut headings = Vec::new(alloc);
        scan(&mut headings, text, 0)?;
        let beginnings = beginnings_of(alloc, headings.as_slice())?;
        Ok(Heads {
            headings,
            beginnings,
        })
    }

    /// The same headings again.
    ///
    /// # Errors
    ///
    /// `AllocError`.
    pub fn copy(&self) -> Result<Heads, AllocError>
        ensures { IfOk result (λ heads. heads ≡ self.now) }
    {
        let alloc = *self.headings.allocator();
        let headings = Vec::from_slice(alloc, self.headings.as_slice())?;
        let beginnings = Vec::from_slice(alloc, self.beginnings.as_slice())?;
        Ok(Heads {
            headings,
            beginnings,
        })
    }

    /// Makes these the headings of the text `after`, which comes from the text whose headings they
    /// are by one edit: at `at`, `removed` bytes were replaced by `added` others. Only the lines
    /// that the edit touches are read; what lies after them moves.
    ///
    /// # Errors
    ///
    /// `AllocError`: all is as it was.
    pub fn edited(
        &mut self,
        after: &[u8],
        at: usize,
        removed: usize,
        added: usize,
    ) -> Result<(), AllocError>
        requires { IsEdit self.old after.now at removed added }
        ensures ok { OnOk result (self.new ≡ headings_of after.now) }
        ensures err { OnErr result (self.new ≡ self.old) }
    {
        let from = line_start(after, at);
        let to = line_end(after, at + added);
        let end = after.len();
        prove!(to <= end);
        let lines = &after[from..to];
        let first = starts_before(self.headings.as_slice(), from);
        // All others stand before the lines, as for an append: none moves.
        if first == self.headings.len() {
            return self.append(lines, from);
        }
        let last = starts_before(self.headings.as_slice(), to - added + removed);
        let mut fresh = Vec::new(*self.headings.allocator());
        scan(&mut fresh, lines, from)?;
        let behind = first + fresh.len();
        self.replace(first, last, fresh)?;
        self.move_from(behind, removed, added);
        Ok(())
    }

    /// Puts the headings of whole lines that stand at `base` of the text after the others;
    /// unchanged where memory ran out.
    fn append(&mut self, lines: &[u8], base: usize) -> Result<(), AllocError>
        requires { base + length lines.now < 2 ^ 64 }
        ensures ok { OnOk result (self.new ≡ self.old ++ heads_from base true lines.now) }
        ensures err { OnErr result (self.new ≡ self.old) }
    {
        let count = self.headings.len();
        scan(&mut self.headings, lines, base)?;
        let fresh = self.headings.as_slice().split_at(count).1;
        follow(&mut self.beginnings, count, count, count, fresh);
        Ok(())
    }

    /// Puts others in the place of the headings from `first` on and before `last`; unchanged where
    /// memory ran out.
    fn replace(&mut self, first: usize, last: usize, fresh: Vec<Heading>) -> Result<(), AllocError>
        requires ordered { first ≤ last }
        requires within { last ≤ length self.old }
        ensures ok { OnOk result
            (self.new ≡ take first self.old ++ (fresh.items ++ drop last self.old)) }
        ensures err { OnErr result (self.new ≡ self.old) }
    {
        let count = self.headings.len();
        let behind = first + fresh.len();
        replace(&mut self.headings, first, last, fresh)?;
        let fresh = self
            .headings
            .as_slice()
            .split_at(behind)
            .0
            .split_at(first)
            .1;
        follow(&mut self.beginnings, count, first, last, fresh);
        Ok(())
    }

    /// Moves the headings from a number on, which lie after an edit.
    fn move_from(&mut self, first: usize, removed: usize, added: usize)
        requires within { first ≤ length self.old }
        requires room { AllByRecursion (λ h. CanMove removed added h) (drop first self.old) }
        ensures { self.new
            ≡ take first self.old ++ map (moved removed added) (drop first self.old) }
    {
        let (_, later) = self.headings.as_mut_slice().split_at_mut(first);
        move_by(later, removed, added);
    }

    /// How their titles can begin, in the same order; or nothing, where memory ran out.
    pub fn beginnings(&self) -> &[Beginnings]
        ensures { AreBeginnings result.now self.now }
    {
        self.beginnings.as_slice()
    }

    /// The headings, in document order.
    pub fn as_slice(&self) -> &[Heading]
        ensures { result.now ≡ self.now }
    {
        self.headings.as_slice()
    }
}

/// Where the first of the headings begins that is not deeper than `level`, or `end`.
pub fn next_start(headings: &[Heading], level: usize, end: usize) -> usize
    ensures { result ≡ next_at level headings.now end }
{
    for heading in headings {
        if heading.level as usize <= level {
            return heading.start;
        }
    }
    end
}

/// Where the first of the headings begins, or `end`.
pub fn first_start(headings: &[Heading], end: usize) -> usize
    ensures { result ≡ start_or headings.now end }
{
    match headings {
        [] => end,
        [first, ..] => first.start,
    }
}

/// The number of the last of the headings that has a lower level.
pub fn last_above(headings: &[Heading], level: usize) -> Option<usize>
    ensures value { result ≡ last_above level 0 None headings.now }
    ensures within { IfSome result (λ i. i < length headings.now) }
{
    for index in (0..headings.len()).rev() {
        if (headings[index].level as usize) < level {
            return Some(index);
        }
    }
    None
}

/// How many of the headings, from the first on, lie deeper than `level`.
pub fn deeper_count(headings: &[Heading], level: usize) -> usize
    ensures count { result ≡ prefix_len (λ h. nat_lt level h.level) headings.now }
    ensures within { result ≤ length headings.now }
{
    for (count, heading) in headings.iter().enumerate() {
        if heading.level as usize <= level {
            return count;
        }
    }
    headings.len()
}

/// How many of the headings stand before the first of this level whose title can begin with a
/// digit.
pub fn count_before_digit(headings: &[Heading], level: usize) -> usize
    ensures count { result ≡ prefix_len (λ h. not (can_be_dated level h)) headings.now }
    ensures within { result ≤ length headings.now }
{
    for (count, heading) in headings.iter().enumerate() {
        if heading.level as usize == level && heading.beginnings.allow_digit() {
            return count;
        }
    }
    headings.len()
}

/// The lowest of the levels of headings, which lie deeper than `floor`, and of another one. Once it
/// is one more than `floor`, none is lower, and the others aren't looked at.
pub fn lowest_level(headings: &[Heading], floor: usize, level: usize) -> usize
    requires { AllByRecursion (λ (h : Heading). floor < h.level) headings.now }
    ensures { result ≡ lowest_level level headings.now }
{
    let mut lowest = level;
    for heading in headings {
        if lowest.saturating_sub(1) <= floor {
            return lowest;
        }
        lowest = lowest.min(heading.level as usize);
    }
    lowest
}

/// How many of the headings begin before this position: all, as of most edits, or found by a binary
/// search, as they stand in order.
pub fn starts_before(headings: &[Heading], position: usize) -> usize
    requires { IsNonDecreasingBy (λ (h : Heading). h.start) headings.now }
    ensures count { result ≡ prefix_len (λ h. nat_lt h.start position) headings.now }
    ensures within { result ≤ length headings.now }
{
    let count = headings.len();
    if count > 0 && headings[count - 1].start < position {
        return count;
    }
    headings.partition_point(|heading| heading.start < position)
}

/// Moves headings that lie after an edit.
fn move_by(headings: &mut [Heading], removed: usize, added: usize)
    requires { AllByRecursion (λ h. CanMove removed added h) headings.old }
    ensures { headings.new ≡ map (moved removed added) headings.old }
{
    for heading in headings.iter_mut() {
        heading.start = heading.start - removed + added;
    }
}

/// Puts others in the place of some of these; unchanged where memory ran out.
fn replace<T: Drop>(
    items: &mut Vec<T>,
    first: usize,
    last: usize,
    fresh: Vec<T>,
) -> Result<(), AllocError>
    requires ordered { first ≤ last }
    requires within { last ≤ vec_len items.old }
    ensures ok { OnOk result
        (items.new.items
        ≡ take first items.old.items ++ (fresh.items ++ drop last items.old.items)) }
    ensures err { OnErr result (items.new.items ≡ items.old.items) }
{
    let _old = items.splice(first..last, fresh)?;
    Ok(())
}
