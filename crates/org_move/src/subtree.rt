//! The lines of an archived subtree, below the heading that they go under.
ghost use Rattle.std.specs.Prelude.{◌≡◌, ◌<◌, ◌+◌, ◌^◌, ◌++◌, ◌∷◌, [], IfOk};
ghost use Rattle.std.specs.Option.{ForSome};
ghost use Rattle.org_splice.specs.Lines.{terminated, lines_of};
ghost use Rattle.org_outline.specs.Moves.{IsPrinted};
ghost use Rattle.org_headings.specs.Text.{heading_line};
ghost use Rattle.org_outline.specs.Tree.{node_at, node_count, print_node, tree};
ghost use Rattle.org_move.specs.Archive.{archived, filled};

use crate::destination::Location;
use crate::properties::{archived_section, between};
use org_disk::FileName;
use org_meta::Lines;
use org_outline::{Node, Outline, shift};
use org_stamp::Moment;
use std::alloc::{AllocError, Global};

/// The lines of a subtree with others in the place of its root's section.
fn with_section(
    alloc: Global,
    outline: &Outline<'_>,
    node: Node,
    section: Lines<'_>,
) -> Result<Vec<u8>, AllocError>
    requires { node < node_count (tree outline.now.text) }
    ensures value { let own = (node_at (tree outline.now.text) node).node in
        IfOk result (λ made. made.items
        ≡ print_node (record own { section = lines_of section.entry.bytes.now })) }
    ensures terminated { IfOk result (λ made. terminated outline.now.text ≡ outline.now.text) }
{
    let subtree = outline.subtree(node);
    let old = outline.section(node);
    let text = outline.text();
    let front = &text[subtree.start..old.start];
    let back = &text[old.end..subtree.end];
    between(alloc, front, section.bytes, back)
}

/// The lines of a subtree whose root has the properties of an archived entry of the file with this
/// name.
fn archived_subtree(
    alloc: Global,
    outline: &Outline<'_>,
    node: Node,
    name: &FileName,
    now: Moment,
) -> Result<Vec<u8>, AllocError>
    requires { node < node_count (tree outline.now.text) }
    ensures printed { IfOk result (λ made. IsPrinted made.items) }
    ensures root { IfOk result (λ made. (node_at (tree made.items) 0).node
        ≡ archived outline.now.states name.now now (tree outline.now.text) node) }
    ensures terminated { IfOk result (λ made. terminated outline.now.text ≡ outline.now.text) }
{
    let file = name.as_str().as_bytes();
    let section = archived_section(alloc, outline, node, file, now)?;
    with_section(alloc, outline, node, Lines { bytes: &section })
}

/// The line of the heading of a place, with others below it.
fn with_heading(alloc: Global, to: &Location, below: &[u8]) -> Result<Vec<u8>, AllocError>
    ensures { IfOk result (λ made. made.items
        ≡ (heading_line to.now.level (32 ∷ to.now.title) ++ 10 ∷ []) ++ below.now) }
{
    let mut made = vec![in alloc; b'*'; to.level()]?;
    made.push(b' ')?;
    made.extend_from_slice(to.title())?;
    made.push(b'\n')?;
    made.extend_from_slice(below)?;
    Ok(made)
}

/// What goes in of a subtree: its lines, below a heading of a level, or below the heading of the
/// place, which is made.
fn filled(
    alloc: Global,
    subtree: &[u8],
    to: &Location,
    above: Option<usize>,
) -> Result<Vec<u8>, AllocError>
    requires node { IsPrinted subtree.now }
    requires high { ForSome above (λ level. level + 1 < 2 ^ 63) }
    ensures { IfOk result (λ made. made.items
        ≡ print_node (filled to.now above (node_at (tree subtree.now) 0).node)) }
{
    if let Some(level) = above {
        return shift(alloc, subtree, level + 1);
    }
    if to.level() == 0 {
        return shift(alloc, subtree, 1);
    }
    let below = shift(alloc, subtree, to.level() + 1)?;
    with_heading(alloc, to, &below)
}

/// What goes in of an archived entry of the file with this name: its subtree, whose root has the
/// properties, below a heading of a level, or below the heading of the place, which is made.
pub(crate) fn archived_lines(
    alloc: Global,
    outline: &Outline<'_>,
    node: Node,
    name: &FileName,
    now: Moment,
    to: &Location,
    above: Option<usize>,
) -> Result<Vec<u8>, AllocError>
    requires node { node < node_count (tree outline.now.text) }
    requires high { ForSome above (λ level. level + 1 < 2 ^ 63) }
    ensures lines { let d = tree outline.now.text in
        let root = archived outline.now.states name.now now d node in
        IfOk result (λ made. made.items ≡ print_node (filled to.now above root)) }
    ensures terminated { IfOk result (λ made. terminated outline.now.text ≡ outline.now.text) }
{
    let subtree = archived_subtree(alloc, outline, node, name, now)?;
    filled(alloc, &subtree, to, above)
}
