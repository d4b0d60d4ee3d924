//! Entries put below the headings of a day, those that are missing made.
//!
//! From the first missing one on, all headings are made in one insertion. Headings that are there
//! are never moved.
ghost use Rattle.std.specs.Prelude.{◌≡◌, ◌<◌, ◌≤◌, ◌+◌, ◌^◌, ◌++◌, ◌∷◌, List, length, IfOk, OnOk, Ok};
ghost use Rattle.std.specs.Option.{ForSome};
ghost use Rattle.std.specs.declared.cmp.Ordering.TheVariants.{Greater};
ghost use Rattle.org_outline.specs.Tree.{Node as NodeOf, node_count, print_node, tree};
ghost use Rattle.org_outline.specs.Moves.{InsertsAt, level_below, shift_node};
ghost use Rattle.org_capture.specs.Entry.{IsEntry};
ghost use Rattle.org_capture.specs.Dates.{dated, first_dated, key_on, made_lines, made_over, put_dated};
ghost use Rattle.org_capture.specs.Answers.{AnswersEdit};

use crate::dates::{DateKind, date_title, first_dated, key_on};
use crate::inserting::{insertion, level_below, push_heading};
use org_fault::{Fault, Refusal};
use org_outline::{Node, Outline, Place, shift};
use org_splice::{Bytes, Edit};
use org_stamp::Moment;
use std::alloc::{AllocError, Global};
use std::cmp::Ordering;

/// A level beyond which no date headings are made: a text with a heading as deep takes all memory.
const DEEPEST: usize = 0x4000_0000_0000_0000;

/// Where a new date heading of this kind and key goes: before the first one with a greater key,
/// else last among the children.
fn dated_place(outline: &Outline<'_>, parent: &Option<Node>, kind: DateKind, key: &[u8]) -> usize
    requires { ForSome parent.now (λ node. node < node_count (tree outline.now.text)) }
    ensures { (node : NodeOf) → InsertsAt outline.now.text
        (put_dated (first_dated outline.now.states (tree outline.now.text) parent.now kind
        key.now Greater) parent.now node (tree outline.now.text))
        result (shift_node (level_below parent.now (tree outline.now.text)) node) }
{
    if let Some(later) = first_dated(outline, parent, kind, key, Ordering::Greater) {
        let at = outline.subtree(later).start;
        prove!(at <= outline.text().len());
        return at;
    }
    outline.place(*parent, Place::Last)
}

/// Puts the lines of a moment's date headings of these kinds after a text, from a level on.
fn push_dates(
    alloc: Global,
    text: &mut Vec<u8>,
    level: usize,
    kinds: &[DateKind],
    moment: Moment,
) -> Result<(), AllocError>
    requires { level + length kinds.now < 2 ^ 64 }
    ensures { OnOk result
        (text.new.items ≡ text.old.items ++ made_lines level kinds.now moment.day) }
{
    match kinds {
        [] => Ok(()),
        [kind, rest @ ..] => {
            let title = date_title(alloc, *kind, moment)?;
            push_heading(text, level, title.as_slice())?;
            push_dates(alloc, text, level + 1, rest, moment)
        }
    }
}

/// The bytes of a moment's date headings of these kinds, from a level on, with an entry below the
/// last.
fn made_dates(
    alloc: Global,
    level: usize,
    kinds: &[DateKind],
    moment: Moment,
    entry: &[u8],
) -> Result<Vec<u8>, AllocError>
    requires low { 1 ≤ level }
    requires high { level + length kinds.now < 2 ^ 63 }
    requires entry { (node : NodeOf) × IsEntry entry.now node }
    ensures { (node : NodeOf) → IsEntry entry.now node
        → IfOk result (λ bytes.
        bytes.items ≡ print_node (made_over level kinds.now moment.day node)) }
{
    let mut bytes = Vec::new(alloc);
    push_dates(alloc, &mut bytes, level, kinds, moment)?;
    let below = shift(alloc, entry, level + kinds.len())?;
    bytes.extend_from_slice(below.as_slice())?;
    Ok(bytes)
}

/// The edit that puts an entry below the moment's date headings of these kinds, each among the
/// children of the one before it.
pub(crate) fn dated_insertion(
    alloc: Global,
    outline: &Outline<'_>,
    parent: &Option<Node>,
    kinds: &[DateKind],
    place: Place,
    moment: Moment,
    entry: Vec<u8>,
) -> Result<Edit, Fault<Refusal>>
    requires parent { ForSome parent.now (λ node. node < node_count (tree outline.now.text)) }
    requires few { length kinds.now < 2 ^ 32 }
    requires entry { (node : NodeOf) × IsEntry entry.items node }
    ensures { (node : NodeOf) → IsEntry entry.items node
        → AnswersEdit (Ok (dated outline.now.states place moment.day node
        (tree outline.now.text) kinds.now parent.now)) outline.now.text result }
{
    let Some((kind, rest)) = kinds.split_first() else {
        return insertion(alloc, outline, *parent, place, entry);
    };
    let key = key_on(alloc, *kind, moment)?;
    if let Some(node) = first_dated(outline, parent, *kind, key.as_slice(), Ordering::Equal) {
        return dated_insertion(alloc, outline, &Some(node), rest, place, moment, entry);
    }
    let level = level_below(outline, *parent);
    if level > DEEPEST {
        return Err(Fault::OutOfMemory);
    }
    let at = dated_place(outline, parent, *kind, key.as_slice());
    prove!(at <= outline.text().len());
    let bytes = Bytes::new(made_dates(alloc, level, kinds, moment, &entry)?);
    Ok(Edit {
        at,
        removed: 0,
        bytes,
    })
}
