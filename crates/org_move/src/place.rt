//! Whether the place of an archived subtree is apart from it.
ghost use Rattle.std.specs.Prelude.{◌≡◌, ◌<◌, IfOk};
ghost use Rattle.std.specs.Option.{ForSome};
ghost use Rattle.org_outline.specs.Numbers.{LiesIn};
ghost use Rattle.org_outline.specs.Tree.{node_count, tree};
ghost use Rattle.org_move.specs.Archive.{if_apart};

use org_fault::Refusal;
use org_outline::{Node, Outline};

/// The heading at the place, where it is there; fails where it lies in the entry, or above it.
pub(crate) fn apart(
    outline: &Outline<'_>,
    node: Node,
    up: Option<Node>,
) -> Result<Option<Node>, Refusal>
    requires node { node < node_count (tree outline.now.text) }
    requires up { ForSome up (λ up. up < node_count (tree outline.now.text)) }
    ensures value { result ≡ if_apart (tree outline.now.text) node up up }
    ensures within { IfOk result
        (λ there. ForSome there (λ up. up < node_count (tree outline.now.text))) }
    ensures outside { IfOk result
        (λ there. ForSome there (λ up. LiesIn (tree outline.now.text) node up → ⊥)) }
{
    let Some(up) = up else {
        return Ok(None);
    };
    if outline.lies_in(up, node) {
        return Err(Refusal::InsideItself);
    }
    if outline.lies_in(node, up) {
        return Err(Refusal::AlreadyArchive);
    }
    Ok(Some(up))
}
