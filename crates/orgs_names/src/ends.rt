//! The end of a heading's path, as people type it: `work/rent` for `Homework/Rent and heating`.
ghost use Rattle.std.specs.Prelude.{◌≡◌, ◌<◌, IfOk, reverse};
ghost use Rattle.std.specs.Option.{ForSome};
ghost use Rattle.org_outline.specs.Tree.{node_count, tree};
ghost use Rattle.orgs_names.specs.Ways.{ends_above, ends_path, folded_at};

use org_splice::Bytes;
use orgs_entries::Entries;
use orgs_folding::folded;
use std::alloc::{AllocError, Global};

// The folded title of a heading.
fn folded_title(alloc: Global, entries: &Entries<'_>, index: usize) -> Result<Vec<u8>, AllocError>
    requires { index < node_count (tree entries.now.text) }
    ensures { IfOk result (λ title. title.items
        ≡ folded_at entries.now.states (tree entries.now.text) index) }
{
    folded(alloc, entries.title(index))
}

// Whether folded titles, from the topmost on, are those of a heading and of the ones above it; of
// the first title an end is enough.
fn ends_above(
    alloc: Global,
    titles: &[Bytes],
    entries: &Entries<'_>,
    up: Option<usize>,
) -> Result<bool, AllocError>
    requires { ForSome up (λ i. i < node_count (tree entries.now.text)) }
    ensures { IfOk result (λ ends. ends
        ≡ ends_above entries.now.states (tree entries.now.text) (reverse titles.now) up) }
{
    let mut left = titles.len();
    let mut up = up;
    while left > 0 {
        left -= 1;
        let Some(index) = up else {
            return Ok(false);
        };
        let title = folded_title(alloc, entries, index)?;
        let asked = titles[left].as_slice();
        if left == 0 {
            return Ok(title.as_slice().ends_with(asked));
        }
        if title.as_slice() == asked {
            up = entries.parent(index);
        } else {
            return Ok(false);
        }
    }
    Ok(true)
}

/// Whether two folded titles or more, from the topmost on, end the path of a heading: of the last
/// title a beginning is enough, and of the first an end.
///
/// # Errors
///
/// `AllocError`.
pub(crate) fn ends_path(
    alloc: Global,
    titles: &[Bytes],
    entries: &Entries<'_>,
    index: usize,
) -> Result<bool, AllocError>
    requires { index < node_count (tree entries.now.text) }
    ensures { IfOk result (λ ends. ends
        ≡ ends_path entries.now.states (tree entries.now.text) (reverse titles.now) index) }
{
    if titles.len() < 2 {
        return Ok(false);
    }
    let end = titles.len() - 1;
    let asked = titles[end].as_slice();
    if asked.is_empty() {
        return Ok(false);
    }
    let title = folded_title(alloc, entries, index)?;
    if title.as_slice().starts_with(asked) {
        ends_above(
            alloc,
            titles.split_at(end).0,
            entries,
            entries.parent(index),
        )
    } else {
        Ok(false)
    }
}
