//! The ways in which a name fits headings.
ghost use Rattle.std.specs.Prelude.{◌≡◌, ◌<◌, IfOk};
ghost use Rattle.std.specs.List.{list_all};
ghost use Rattle.org_outline.specs.Tree.{node_count, tree};
ghost use Rattle.orgs_names.specs.Ways.{are_titles, fits};

use crate::ends::ends_path;
use crate::name::Name;
use org_outline::Step;
use orgs_entries::Entries;
use orgs_folding::{contains, folded};
use std::alloc::{AllocError, Global};

/// The ways in which a name fits headings, the strictest first.
#[derive(Clone, Copy)]
pub enum Way {
    /// It is a path that leads to the heading.
    Path,
    /// It is the heading's title.
    Title,
    /// The title has it in it, whatever the case.
    Part,
    /// It is the end of the heading's path, whatever the case: of the first title an end is enough,
    /// and of the last a beginning.
    End,
}

/// Whether no step has a number.
fn are_titles(path: &[Step]) -> bool
    ensures { result ≡ are_titles path.now }
{
    path.iter().all(|step| step.number.is_none())
}

/// Whether a name fits a heading in a way.
///
/// # Errors
///
/// `AllocError`.
pub(crate) fn fits(
    alloc: Global,
    way: Way,
    name: &Name,
    entries: &Entries<'_>,
    index: usize,
) -> Result<bool, AllocError>
    requires { index < node_count (tree entries.now.text) }
    ensures { IfOk result (λ found. found ≡ fits way name.now entries.now index) }
{
    match way {
        Way::Path => Ok(entries.is_led_to(name.path(), index)),
        Way::Title => Ok(entries.title(index) == name.text()),
        Way::Part => {
            let title = folded(alloc, entries.title(index))?;
            Ok(contains(&title, name.folded()))
        }
        Way::End => Ok(are_titles(name.path()) && ends_path(alloc, name.titles(), entries, index)?),
    }
}
