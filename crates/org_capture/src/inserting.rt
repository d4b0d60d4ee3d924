//! Entries put below a heading that is there, or at top level.
//!
//! The entry's levels are shifted as a whole. The place is the outline's (`Outline::place`).
ghost use Rattle.std.specs.Prelude.{◌≡◌, ◌<◌, ◌≤◌, ◌^◌, ◌++◌, ◌∷◌, [], IfOk, OnOk, Ok};
ghost use Rattle.std.specs.Option.{ForSome};
ghost use Rattle.org_headings.specs.Text.{heading_line};
ghost use Rattle.org_outline.specs.Tree.{Node as NodeOf, node_at, node_count, print_node, tree};
ghost use Rattle.org_outline.specs.Moves.{IsPrinted, insert, level_below, shift_node};
ghost use Rattle.org_capture.specs.Entry.{IsEntry};
ghost use Rattle.org_capture.specs.Capture.{rest_of};
ghost use Rattle.org_capture.specs.Answers.{AnswersEdit};

use org_fault::{Fault, Refusal};
use org_headings::heading_level;
use org_outline::{Node, Outline, Place, shift};
use org_splice::{Bytes, Edit};
use std::alloc::{AllocError, Global};

/// The level of what goes below a heading, or at top level.
pub(crate) fn level_below(outline: &Outline<'_>, parent: Option<Node>) -> usize
    requires { ForSome parent (λ node. node < node_count (tree outline.now.text)) }
    ensures value { result ≡ level_below parent (tree outline.now.text) }
    ensures low { 1 ≤ result }
    ensures high { result < 2 ^ 63 }
{
    match parent {
        None => 1,
        Some(node) => {
            let level = outline.level(node);
            prove!(level < outline.text().len());
            level + 1
        }
    }
}

/// The print of a node with its root at another level, as `shift` gives it. At its own level it is
/// not copied.
fn shifted(alloc: Global, bytes: Vec<u8>, level: usize) -> Result<Vec<u8>, AllocError>
    requires node { IsPrinted bytes.items }
    requires low { 1 ≤ level }
    requires high { level < 2 ^ 63 }
    ensures { IfOk result (λ shifted. shifted.items
        ≡ print_node (shift_node level (node_at (tree bytes.items) 0).node)) }
{
    match heading_level(&bytes) {
        Some(root) if root == level => Ok(bytes),
        _ => shift(alloc, &bytes, level),
    }
}

/// The edit that puts an entry below a heading, or at top level.
pub(crate) fn insertion(
    alloc: Global,
    outline: &Outline<'_>,
    parent: Option<Node>,
    place: Place,
    entry: Vec<u8>,
) -> Result<Edit, Fault<Refusal>>
    requires parent { ForSome parent (λ node. node < node_count (tree outline.now.text)) }
    requires entry { (node : NodeOf) × IsEntry entry.items node }
    ensures { (node : NodeOf) → IsEntry entry.items node
        → AnswersEdit (Ok (insert parent place node (tree outline.now.text)))
        outline.now.text result }
{
    let level = level_below(outline, parent);
    let at = outline.place(parent, place);
    prove!(at <= outline.text().len());
    let bytes = Bytes::new(shifted(alloc, entry, level)?);
    Ok(Edit {
        at,
        removed: 0,
        bytes,
    })
}

/// Puts the line of a heading with a title after a text.
pub(crate) fn push_heading(text: &mut Vec<u8>, level: usize, title: &[u8]) -> Result<(), AllocError>
    ensures { OnOk result (text.new.items
        ≡ text.old.items ++ (heading_line level (rest_of title.now) ++ 10 ∷ [])) }
{
    for _ in 0..level {
        text.push(b'*')?;
    }
    text.push(b' ')?;
    text.extend_from_slice(title)?;
    text.push(b'\n')?;
    Ok(())
}
