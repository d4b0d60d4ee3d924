//! The heading below which an archived subtree goes: the one of that level and title.
ghost use Rattle.std.specs.Prelude.{◌≡◌, ◌<◌, ◌==◌, ◌&&◌, IfOk};
ghost use Rattle.std.specs.Option.{IfSome};
ghost use Rattle.std.specs.Str.{bytes_eq};
ghost use Rattle.org_outline.specs.Paths.{title_of};
ghost use Rattle.org_outline.specs.Tree.{node_at, node_count, tree};
ghost use Rattle.org_move.specs.Archive.{target_heading};

use crate::destination::Location;
use org_outline::{Node, Outline, PathFault};

/// Whether a heading has the level and the title of a place.
fn is_at(outline: &Outline<'_>, node: Node, to: &Location) -> bool
    requires { node < node_count (tree outline.now.text) }
    ensures { let heading = (node_at (tree outline.now.text) node).node in
        result ≡ (heading.level == to.now.level
        && bytes_eq (title_of outline.now.states heading.rest) to.now.title) }
{
    outline.level(node) == to.level() && outline.has_title(node, to.title())
}

/// The one heading of the place's level and title, anywhere in the text, if there is one; at the
/// top level there is none. Takes no memory.
pub(crate) fn target_heading(
    outline: &Outline<'_>,
    to: &Location,
) -> Result<Option<Node>, PathFault>
    ensures value { result
        ≡ target_heading outline.now.states to.now (tree outline.now.text) }
    ensures within { IfOk result
        (λ found. IfSome found (λ node. node < node_count (tree outline.now.text))) }
{
    if to.level() == 0 {
        return Ok(None);
    }
    let mut found = None;
    for index in 0..outline.count() {
        let node = outline.node(index);
        if is_at(outline, node, to) {
            if found.is_some() {
                return Err(PathFault::NotUnique);
            }
            found = Some(node);
        }
    }
    Ok(found)
}
