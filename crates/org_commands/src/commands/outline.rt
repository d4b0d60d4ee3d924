//! The outlines of held texts, and the headings that commands name.
ghost use Rattle.std.specs.Prelude.{◌≡◌, ◌<◌, IfOk, true};
ghost use Rattle.org_outline.specs.Paths.{find_path};
ghost use Rattle.org_outline.specs.Tree.{node_count, tree};

use org_outline::{Node, Outline, Path, PathFault, States};
use org_texts::Held;

/// The outline of a text that is ready. Takes no memory.
pub(crate) fn outline_of<'a>(held: &'a Held, states: &'a States) -> Outline<'a>
    requires { held.now.ready ≡ true }
    ensures { (result.text ≡ held.now.text.bytes) × (result.states ≡ states.now) }
{
    let Some(heads) = held.heads() else {
        unreachable!();
    };
    Outline::over(held.bytes(), heads, states)
}

/// The heading at a path of a text that is ready, for a command of which several calls need it: it
/// is looked up once, and handed down. Takes no memory.
pub(crate) fn heading_at(held: &Held, states: &States, path: &Path) -> Result<Node, PathFault>
    requires { held.now.ready ≡ true }
    ensures value { result ≡ find_path states.now (tree held.now.text.bytes) path.now }
    ensures within { IfOk result (λ node. node < node_count (tree held.now.text.bytes)) }
{
    outline_of(held, states).find(path.as_slice())
}
