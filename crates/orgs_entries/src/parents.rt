//! The parents of headings.
//!
//! The heading before one is its parent, or lies below a heading that may be: its own parent, the
//! parent of that, and so on. So each heading is left behind once, and all are read in one pass.
ghost use Rattle.std.specs.Prelude.{◌≡◌, ◌<◌, ◌≤◌, IfOk, IfSome, take};
ghost use Rattle.org_outline.specs.Tree.{node_count, parent_of, tree};
ghost use Rattle.orgs_entries.specs.Twins.{parents_below, parents_of};

use org_outline::Outline;
use std::alloc::{AllocError, Global};

/// The parent of a heading, where those of all before it are known.
fn parent(outline: &Outline<'_>, parents: &[Option<usize>], index: usize) -> Option<usize>
    requires within { index < node_count (tree outline.now.text) }
    requires known { parents.now ≡ parents_below (tree outline.now.text) index }
    ensures { result ≡ parent_of (tree outline.now.text) index }
{
    let level = outline.level(outline.node(index));
    let mut up = index.checked_sub(1);
    while let Some(above) = up {
        if outline.level(outline.node(above)) < level {
            return Some(above);
        }
        up = parents[above];
    }
    None
}

/// The parent of each heading, in document order.
///
/// # Errors
///
/// `AllocError`.
pub(crate) fn read_parents(
    alloc: Global,
    outline: &Outline<'_>,
) -> Result<Vec<Option<usize>>, AllocError>
    ensures { IfOk result (λ parents. parents.items ≡ parents_of (tree outline.now.text)) }
{
    let mut parents = Vec::new(alloc);
    for index in 0..outline.count() {
        parents.push(parent(outline, &parents, index))?;
    }
    Ok(parents)
}
