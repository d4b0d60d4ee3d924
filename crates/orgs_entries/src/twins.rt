//! Headings that have one title below one parent, and how many of each family there are.
//!
//! They are counted in a map, so that a thousand headings of one title cost no more than others.
ghost use Rattle.std.specs.Prelude.{◌≡◌, ◌<◌, IfOk, OnOk};
ghost use Rattle.org_outline.specs.Tree.{node_count, tree};
ghost use Rattle.orgs_entries.specs.Families.{AreCounted, counted, family_at};
ghost use Rattle.orgs_entries.specs.Twins.{family_of, numbers_of, parents_of, twins_of};

use org_outline::Outline;
use std::alloc::{AllocError, Global};
use std::collections::HashMap;

/// A parent, or none at top level, and a title.
type Family<'t> = (Option<usize>, &'t [u8]);

/// How many headings of each family there are.
pub(crate) type Families<'t> = HashMap<Family<'t>, usize>;

/// The family of a heading.
fn family<'t>(outline: &Outline<'t>, parents: &[Option<usize>], index: usize) -> Family<'t>
    requires within { index < node_count (tree outline.now.text) }
    requires known { parents.now ≡ parents_of (tree outline.now.text) }
    ensures { family_at result ≡ family_of outline.now.states (tree outline.now.text) index }
{
    (parents[index], outline.parts(outline.node(index)).title)
}

/// How many headings of a family were counted.
fn count(families: &Families<'_>, family: Family<'_>) -> usize
    ensures { result ≡ counted families.now family.entry }
{
    families.get(&family).copied().unwrap_or(0)
}

/// The number of each heading among its twins, in document order; and each family is counted.
///
/// # Errors
///
/// `AllocError`.
pub(crate) fn number_all<'t>(
    alloc: Global,
    outline: &Outline<'t>,
    parents: &[Option<usize>],
    families: &mut Families<'t>,
) -> Result<Vec<usize>, AllocError>
    requires known { parents.now ≡ parents_of (tree outline.now.text) }
    requires none { AreCounted families.old outline.now.states (tree outline.now.text) 0 }
    ensures numbers { IfOk result (λ numbers.
        numbers.items ≡ numbers_of outline.now.states (tree outline.now.text)) }
    ensures counts { OnOk result (AreCounted families.new outline.now.states
        (tree outline.now.text) (node_count (tree outline.now.text))) }
{
    let mut numbers = Vec::new(alloc);
    for index in 0..outline.count() {
        let family = family(outline, parents, index);
        let number = count(families, family) + 1;
        families.insert(family, number)?;
        numbers.push(number)?;
    }
    Ok(numbers)
}

/// Whether each heading has a twin, in document order, where each family is counted.
///
/// # Errors
///
/// `AllocError`.
pub(crate) fn read_twins(
    alloc: Global,
    outline: &Outline<'_>,
    parents: &[Option<usize>],
    families: &Families<'_>,
) -> Result<Vec<bool>, AllocError>
    requires known { parents.now ≡ parents_of (tree outline.now.text) }
    requires counts { AreCounted families.now outline.now.states
        (tree outline.now.text) (node_count (tree outline.now.text)) }
    ensures { IfOk result (λ twins.
        twins.items ≡ twins_of outline.now.states (tree outline.now.text)) }
{
    let mut twins = Vec::new(alloc);
    for index in 0..outline.count() {
        let family = family(outline, parents, index);
        twins.push(count(families, family) > 1)?;
    }
    Ok(twins)
}
