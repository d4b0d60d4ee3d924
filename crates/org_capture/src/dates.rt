//! Date trees: a heading for each year, for each month below its year, and for each day below its
//! month.
//!
//! A heading is known by the key of its title, compared byte by byte; no calendar is asked.
ghost use Rattle.std.specs.Prelude.{◌≡◌, ℕ, ◌<◌, ◌≤◌, ◌+◌, ◌^◌, ◌++◌, IfOk, IfSome, MatchOption, length};
ghost use Rattle.std.specs.Option.{ForSome};
ghost use Rattle.org_outline.specs.Tree.{node_count, node_at, tree};
ghost use Rattle.org_outline.specs.Moves.{level_below};
ghost use Rattle.org_capture.specs.Dates.{behind_key, date_title, first_dated, is_dated, is_key_from, key_len, key_of, key_on, may_follow, month_name, span_below, weekday_name};

use crate::inserting::level_below;
use org_outline::{Node, Outline};
use org_stamp::{Moment, Stamp};
use std::alloc::{AllocError, Global};
use std::cmp::Ordering;

/// What a date heading stands for.
#[derive(Clone, Copy)]
pub(crate) enum DateKind {
    Year,
    Month,
    Day,
}

impl DateKind {
    /// How many bytes a key has: `YYYY`, `YYYY-MM` or `YYYY-MM-DD`.
    fn key_len(self) -> usize
        ensures { result ≡ key_len self }
    {
        match self {
            DateKind::Year => 4,
            DateKind::Month => 7,
            DateKind::Day => 10,
        }
    }
}

/// Whether these bytes are digits, but for the hyphens after a year and after a month.
fn is_key(bytes: &[u8]) -> bool
    ensures { result ≡ is_key_from 0 bytes.now }
{
    for (index, byte) in bytes.iter().enumerate() {
        let fits = if index == 4 || index == 7 {
            *byte == b'-'
        } else {
            byte.is_ascii_digit()
        };
        if !fits {
            return false;
        }
    }
    true
}

/// Whether these bytes may stand after a key of this kind.
fn may_follow(kind: DateKind, rest: &[u8]) -> bool
    ensures { result ≡ may_follow kind rest.now }
{
    match (kind, rest) {
        (_, []) => true,
        (DateKind::Year, _) => false,
        (_, [byte, ..]) => *byte == b' ',
    }
}

/// The key of a title, if it is that of a date heading of this kind. Any digits serve.
fn key_of(kind: DateKind, title: &[u8]) -> Option<&[u8]>
    ensures { MatchOption result (key_of kind title.now ≡ None)
        (λ key. key_of kind title.now ≡ Some key.now) }
{
    if title.len() < kind.key_len() {
        return None;
    }
    let (key, rest) = title.split_at(kind.key_len());
    if is_key(key) && may_follow(kind, rest) {
        Some(key)
    } else {
        None
    }
}

/// The name of a month, from 1 on.
fn month_name(month: u8) -> &'static [u8]
    ensures { result.now ≡ month_name month }
{
    match month {
        1 => b"January",
        2 => b"February",
        3 => b"March",
        4 => b"April",
        5 => b"May",
        6 => b"June",
        7 => b"July",
        8 => b"August",
        9 => b"September",
        10 => b"October",
        11 => b"November",
        _ => b"December",
    }
}

/// The name of a day of the week, from 0 for Monday.
fn weekday_name(weekday: u8) -> &'static [u8]
    ensures { result.now ≡ weekday_name weekday }
{
    match weekday {
        0 => b"Monday",
        1 => b"Tuesday",
        2 => b"Wednesday",
        3 => b"Thursday",
        4 => b"Friday",
        5 => b"Saturday",
        _ => b"Sunday",
    }
}

/// The key of a moment's heading of this kind.
pub(crate) fn key_on(alloc: Global, kind: DateKind, moment: Moment) -> Result<Vec<u8>, AllocError>
    ensures { IfOk result (λ key. key.items ≡ key_on kind moment.day) }
{
    let stamp = Stamp::at(moment, true, false).print(alloc)?;
    prove!(stamp.len() > 10);
    let date = stamp.as_slice().split_at(1).1;
    date.split_at(kind.key_len()).0.to_vec(alloc)
}

/// The title of a moment's heading of this kind: `2026`, `2026-07 July`, `2026-07-01 Wednesday`.
pub(crate) fn date_title(
    alloc: Global,
    kind: DateKind,
    moment: Moment,
) -> Result<Vec<u8>, AllocError>
    ensures { IfOk result (λ title. title.items ≡ date_title kind moment.day) }
{
    let mut title = key_on(alloc, kind, moment)?;
    let name = match kind {
        DateKind::Year => return Ok(title),
        DateKind::Month => month_name(moment.month()),
        DateKind::Day => weekday_name(moment.weekday()),
    };
    title.push(b' ')?;
    title.extend_from_slice(name)?;
    Ok(title)
}

/// Whether a heading is a date heading of this kind and level, whose key compares with the one
/// given in this way.
fn is_dated(
    outline: &Outline<'_>,
    node: Node,
    level: usize,
    kind: DateKind,
    key: &[u8],
    wanted: Ordering,
) -> bool
    requires { node < node_count (tree outline.now.text) }
    ensures { result ≡ is_dated outline.now.states level kind key.now wanted
        (node_at (tree outline.now.text) node).node }
{
    if outline.level(node) != level {
        return false;
    }
    match key_of(kind, outline.parts(node).title) {
        None => false,
        Some(found) => found.cmp(&key) == wanted,
    }
}

/// The numbers of the first heading below a heading, or at top level, and of the first after
/// those.
fn span_below(outline: &Outline<'_>, parent: &Option<Node>) -> (usize, usize)
    requires { ForSome parent.now (λ node. node < node_count (tree outline.now.text)) }
    ensures span { result ≡ span_below (tree outline.now.text) parent.now }
    ensures ordered { result.0 ≤ result.1 }
    ensures within { result.1 ≤ node_count (tree outline.now.text) }
{
    let count = outline.count();
    match parent {
        None => (0, count),
        Some(node) => {
            let size = outline.size(*node);
            (node.number() + 1, node.number() + size)
        }
    }
}

/// The first date heading of this kind one level below a heading, or at level 1, whose key compares
/// with the one given in this way.
pub(crate) fn first_dated(
    outline: &Outline<'_>,
    parent: &Option<Node>,
    kind: DateKind,
    key: &[u8],
    wanted: Ordering,
) -> Option<Node>
    requires { ForSome parent.now (λ node. node < node_count (tree outline.now.text)) }
    ensures value { result ≡ first_dated outline.now.states (tree outline.now.text)
        parent.now kind key.now wanted }
    ensures within { IfSome result (λ node. node < node_count (tree outline.now.text)) }
{
    let level = level_below(outline, *parent);
    let (first, end) = span_below(outline, parent);
    prove!(end <= outline.count());
    // Of the headings below, those of this level are the children; each key begins with a digit.
    let mut index = outline.next_with_digit(first, end, level);
    while index < end {
        let node = outline.node(index);
        if is_dated(outline, node, level, kind, key, wanted) {
            return Some(node);
        }
        index = outline.next_with_digit(index + 1, end, level);
    }
    None
}
