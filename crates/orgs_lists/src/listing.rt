//! The headings of a file that a filter wants.
ghost use Rattle.std.specs.Prelude.{◌≡◌, ◌<◌, IfOk};
ghost use Rattle.std.specs.List.{list_all};
ghost use Rattle.org_outline.specs.Tree.{node_count, tree};
ghost use Rattle.orgs_lists.specs.Filters.{has_head, has_property, has_tags, is_wanted, wanted};

use crate::file::File;
use crate::filter::{Filter, Property};
use crate::headings::{parts, states};
use crate::properties::has_property;
use orgs_entries::Entries;
use std::alloc::{AllocError, Global};

// Whether a heading has all of these properties.
fn has_properties(entries: &Entries<'_>, index: usize, properties: &[Property]) -> bool
    requires { index < node_count (tree entries.now.text) }
    ensures { result ≡ list_all (has_property entries.now index) properties.now }
{
    for property in properties {
        if !has_property(entries, index, property) {
            return false;
        }
    }
    true
}

// Whether a heading has the tags that are asked for, and none of the others.
fn has_tags(filter: &Filter, file: &File<'_, '_>, index: usize) -> bool
    requires { index < node_count (tree file.now.entries.now.text) }
    ensures { result ≡ has_tags filter.now file.now index }
{
    file.has_all_tags(index, &filter.tags) && !file.has_any_tag(index, &filter.without)
}

// Whether a heading has a state and a priority that are asked for.
fn has_head(filter: &Filter, file: &File<'_, '_>, index: usize) -> bool
    requires { index < node_count (tree file.now.entries.now.text) }
    ensures { result ≡ has_head filter.now file.now index }
{
    let parts = parts(file.entries, index);
    filter.has_state(states(file.entries), parts.keyword) && filter.has_priority(parts.priority)
}

// Whether a heading is wanted.
fn is_wanted(filter: &Filter, file: &File<'_, '_>, index: usize) -> bool
    requires { index < node_count (tree file.now.entries.now.text) }
    ensures { result ≡ is_wanted filter.now file.now index }
{
    if !has_head(filter, file, index) {
        return false;
    }
    if !has_tags(filter, file, index) {
        return false;
    }
    has_properties(file.entries, index, &filter.properties)
}

/// The headings of a file that a filter wants: each once, in the order of the text.
///
/// # Errors
///
/// `AllocError`.
pub fn wanted(alloc: Global, filter: &Filter, file: &File<'_, '_>) -> Result<Vec<usize>, AllocError>
    ensures { IfOk result (λ headings. headings.items ≡ wanted filter.now file.now) }
{
    let mut headings = Vec::new(alloc);
    for index in 0..file.entries.count() {
        if is_wanted(filter, file, index) {
            headings.push(index)?;
        }
    }
    Ok(headings)
}
