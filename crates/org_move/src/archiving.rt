//! Subtrees archived: the edits of one text or of two, with the properties of an archived entry.
//!
//! The place is given (`locating` finds it). Nothing is changed here.
ghost use Rattle.std.specs.Prelude.{◌≡◌, [], ◌∷◌, ◌+◌, ◌<◌, ◌^◌};
ghost use Rattle.std.specs.Option.{ForSome, option_map};
ghost use Rattle.org_splice.specs.Edits.{AreEdits};
ghost use Rattle.org_splice.specs.Lines.{terminated};
ghost use Rattle.org_outline.specs.Moves.{InsertsAt, take};
ghost use Rattle.org_outline.specs.Numbers.{LiesIn, parent_without, size_of};
ghost use Rattle.org_outline.specs.Tree.{Node as NodeOf, node_at, node_count, print, tree};
ghost use Rattle.org_move.specs.Answers.{IsMadeAs};
ghost use Rattle.org_move.specs.Archive.{archive_across_at, archive_within_at, filled, put_last};
ghost use Rattle.org_move.specs.Location.{Destination};

use crate::destination::Location;
use crate::place::apart;
use crate::refile::{level_of, without};
use crate::subtree::archived_lines;
use crate::target::target_heading;
use org_disk::FileName;
use org_fault::{Fault, Refusal};
use org_outline::{Node, Outline, Place};
use org_splice::{Bytes, Edit};
use org_stamp::Moment;
use std::alloc::Global;

/// The level of the heading below which a subtree goes, if there is one.
fn level_above(outline: &Outline<'_>, up: &Option<Node>) -> Option<usize>
    requires { ForSome up.now (λ up. up < node_count (tree outline.now.text)) }
    ensures level { result
        ≡ option_map (λ i. (node_at (tree outline.now.text) i).node.level) up.now }
    ensures room { ForSome result (λ level. level + 1 < 2 ^ 63) }
{
    match up {
        Some(up) => Some(level_of(outline, *up)),
        None => None,
    }
}

/// The byte at which a subtree goes in last below a heading; with none, the end of the text.
fn last_below(outline: &Outline<'_>, up: Option<Node>) -> usize
    requires { ForSome up (λ up. up < node_count (tree outline.now.text)) }
    ensures place { let d = tree outline.now.text in (to : Destination) (node : NodeOf)
        → InsertsAt outline.now.text (put_last to up node d) result
        (filled to (option_map (λ i. (node_at d i).node.level) up) node) }
    ensures terminated { terminated outline.now.text ≡ outline.now.text }
{
    let end = outline.text().len();
    match up {
        Some(up) => outline.place(Some(up), Place::Last),
        None => end,
    }
}

/// The same once a subtree is taken out, in the text that is left.
fn last_below_without(outline: &Outline<'_>, taken: Node, up: Option<Node>) -> usize
    requires taken { taken < node_count (tree outline.now.text) }
    requires up { ForSome up (λ up. up < node_count (tree outline.now.text)) }
    requires outside { ForSome up (λ up. LiesIn (tree outline.now.text) taken up → ⊥) }
    ensures { let d = tree outline.now.text in let left = take taken d in
        let there = parent_without taken (size_of d taken) up in (to : Destination) (node : NodeOf)
        → InsertsAt (print left) (put_last to there node left) result
        (filled to (option_map (λ i. (node_at d i).node.level) up) node) }
{
    match up {
        Some(up) => outline.place_without(taken, Some(up), Place::Last),
        None => {
            let span = outline.subtree(taken);
            let behind = outline.text().len() - span.end;
            span.start + behind
        }
    }
}

/// The edit that puts bytes in.
fn insertion(at: usize, bytes: Vec<u8>) -> Edit
    ensures { result ≡ record { at = at; removed = 0; bytes = bytes.items } }
{
    Edit {
        at,
        removed: 0,
        bytes: Bytes::new(bytes),
    }
}

/// The edits of two texts by which a subtree of the source, the text of the file with this name, is
/// archived in the target, the text of the location's file (Org manual, "Moving a tree to an
/// archive file"): the first one takes it out of the source, and the second one puts it into the
/// target, last below the location's heading, which is made at the end where it isn't there, or
/// last at the top level. Its root gets the properties ARCHIVE_TIME, ARCHIVE_FILE, ARCHIVE_OLPATH,
/// ARCHIVE_CATEGORY, ARCHIVE_TODO and ARCHIVE_ITAGS.
///
/// # Errors
///
/// In this order: `NotUnique` of the location's heading, and `OutOfMemory`.
pub fn archive(
    alloc: Global,
    source: &Outline<'_>,
    target: &Outline<'_>,
    name: &FileName,
    node: Node,
    now: Moment,
    to: &Location,
) -> Result<(Edit, Edit), Fault<Refusal>>
    requires { node < node_count (tree source.now.text) }
    ensures { let from = tree source.now.text in
        let into = tree target.now.text in
        IsMadeAs (archive_across_at source.now.states name.now now from
        target.now.states to.now into node)
        (λ new edits. AreEdits (edits.0 ∷ []) source.now.text (print new.source)
        × AreEdits (edits.1 ∷ []) target.now.text (print new.target)) result }
{
    let up = target_heading(target, to)?;
    let above = level_above(target, &up);
    let at = last_below(target, up);
    let lines = archived_lines(alloc, source, node, name, now, to, above)?;
    let goes_in = insertion(at, lines);
    Ok((without(alloc, source, node), goes_in))
}

/// The edits, to be made in this order, by which a subtree of the text of the file with this name
/// is archived in the same text (Org manual, "Moving a tree to an archive file"): the first one
/// takes it out, and the second one puts it in, at a byte of the text that the first one leaves,
/// last below the location's heading, which is made at the end where it isn't there, or last at the
/// top level. Its root gets the properties of an archived entry, as by `archive`.
///
/// # Errors
///
/// In this order:
///
/// - `NotUnique` of the location's heading;
/// - `InsideItself`: that heading lies in the subtree;
/// - `AlreadyArchive`: the subtree lies below it;
/// - `OutOfMemory`.
pub fn archive_within(
    alloc: Global,
    outline: &Outline<'_>,
    name: &FileName,
    node: Node,
    now: Moment,
    to: &Location,
) -> Result<[Edit; 2], Fault<Refusal>>
    requires { node < node_count (tree outline.now.text) }
    ensures { let states = outline.now.states in
        let document = tree outline.now.text in
        IsMadeAs (archive_within_at states name.now now to.now document node)
        (λ new edits. AreEdits edits outline.now.text (print new)) result }
{
    let up = apart(outline, node, target_heading(outline, to)?)?;
    let at = last_below_without(outline, node, up);
    let above = level_above(outline, &up);
    let lines = archived_lines(alloc, outline, node, name, now, to, above)?;
    let goes_in = insertion(at, lines);
    Ok([without(alloc, outline, node), goes_in])
}
