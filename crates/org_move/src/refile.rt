//! A subtree made a child of another heading, within a text or across two.
//!
//! Both paths are resolved before anything is taken out. The edits are answered in the order in
//! which they are to be made.
ghost use Rattle.std.specs.Prelude.{◌≡◌, [], ◌∷◌, ◌+◌, ◌<◌, ◌≤◌, ◌^◌, Some, IfOk};
ghost use Rattle.org_splice.specs.Edits.{AreEdits};
ghost use Rattle.org_splice.specs.Lines.{terminated};
ghost use Rattle.org_outline.specs.Tree.{node_at, node_count, print, tree};
ghost use Rattle.org_outline.specs.Moves.{level_below, shift_node};
ghost use Rattle.org_move.specs.Answers.{IsMadeAs};
ghost use Rattle.org_move.specs.Edits.{insertion, removal};
ghost use Rattle.org_move.specs.Refile.{refile_across, refile_within};

use org_fault::{Fault, Refusal};
use org_outline::{Node, Outline, Place, Step, shift};
use org_splice::{Bytes, Edit};
use std::alloc::{AllocError, Global};

/// The edit that takes a subtree out of its text. Takes no memory.
pub(crate) fn without(alloc: Global, outline: &Outline<'_>, node: Node) -> Edit
    requires { node < node_count (tree outline.now.text) }
    ensures { result ≡ removal node (tree outline.now.text) }
{
    let span = outline.subtree(node);
    Edit {
        at: span.start,
        removed: span.end - span.start,
        bytes: Bytes::new(Vec::new(alloc)),
    }
}

/// The level of a heading.
pub(crate) fn level_of(outline: &Outline<'_>, node: Node) -> usize
    requires { node < node_count (tree outline.now.text) }
    ensures value { result ≡ (node_at (tree outline.now.text) node).node.level }
    ensures terminated { terminated outline.now.text ≡ outline.now.text }
    ensures room { result + 1 < 2 ^ 63 }
{
    let end = outline.text().len();
    let level = outline.level(node);
    prove!(level < end);
    level
}

/// The level of what is put below a heading.
fn level_below(outline: &Outline<'_>, parent: Node) -> usize
    requires { parent < node_count (tree outline.now.text) }
    ensures value { result ≡ level_below (Some parent) (tree outline.now.text) }
    ensures terminated { terminated outline.now.text ≡ outline.now.text }
    ensures low { 1 ≤ result }
    ensures high { result < 2 ^ 63 }
{
    level_of(outline, parent) + 1
}

/// The edit that puts the subtree of a text in at a byte of that text or another one, with its root
/// at a level.
fn with_subtree(
    alloc: Global,
    source: &Outline<'_>,
    node: Node,
    level: usize,
    at: usize,
) -> Result<Edit, AllocError>
    requires node { node < node_count (tree source.now.text) }
    requires low { 1 ≤ level }
    requires high { level < 2 ^ 63 }
    ensures value { IfOk result (λ edit. edit
        ≡ insertion at (shift_node level (node_at (tree source.now.text) node).node)) }
    ensures terminated { terminated source.now.text ≡ source.now.text }
{
    let span = source.subtree(node);
    let bytes = shift(alloc, &source.text()[span.start..span.end], level)?;
    Ok(Edit {
        at,
        removed: 0,
        bytes: Bytes::new(bytes),
    })
}

/// The edits, to be made in this order, by which the subtree at `path` becomes a child of the
/// heading at `to` (Org manual, "Refile and Copy"): the first takes it out, and the second puts it
/// in, at a byte of the text that the first one leaves. Its root gets the level of its parent plus
/// 1, and its descendants move by the same amount.
///
/// # Errors
///
/// In this order:
///
/// - `NotFound` or `NotUnique` of `path`, then of `to`;
/// - `InsideItself`: `to` leads into the subtree;
/// - `OutOfMemory`.
pub fn refile_within(
    alloc: Global,
    outline: &Outline<'_>,
    path: &[Step],
    to: &[Step],
    place: Place,
) -> Result<[Edit; 2], Fault<Refusal>>
    ensures { let states = outline.now.states in
        let document = tree outline.now.text in
        IsMadeAs (refile_within states path.now to.now place document)
        (λ new edits. AreEdits edits outline.now.text (print new)) result }
{
    let node = outline.find(path)?;
    let parent = outline.find(to)?;
    if outline.lies_in(parent, node) {
        return Err(Fault::Refused(Refusal::InsideItself));
    }
    let at = outline.place_without(node, Some(parent), place);
    let level = level_below(outline, parent);
    let goes_in = with_subtree(alloc, outline, node, level, at)?;
    Ok([without(alloc, outline, node), goes_in])
}

/// The edits of two texts by which the subtree at `path` of the source becomes a child of the
/// heading at `to` of the target (Org manual, "Refile and Copy"): the first one takes it out of the
/// source, and the second one puts it into the target. Its root gets the level of its parent plus
/// 1, and its descendants move by the same amount.
///
/// # Errors
///
/// In this order: `NotFound` or `NotUnique` of `path`, then of `to`, and `OutOfMemory`.
pub fn refile_across(
    alloc: Global,
    source: &Outline<'_>,
    target: &Outline<'_>,
    path: &[Step],
    to: &[Step],
    place: Place,
) -> Result<(Edit, Edit), Fault<Refusal>>
    ensures { let from = tree source.now.text in
        let into = tree target.now.text in
        IsMadeAs (refile_across source.now.states path.now from
        target.now.states to.now into place)
        (λ new edits. AreEdits (edits.0 ∷ []) source.now.text (print new.source)
        × AreEdits (edits.1 ∷ []) target.now.text (print new.target)) result }
{
    let node = source.find(path)?;
    let parent = target.find(to)?;
    let at = target.place(Some(parent), place);
    let level = level_below(target, parent);
    let goes_in = with_subtree(alloc, source, node, level, at)?;
    Ok((without(alloc, source, node), goes_in))
}
