//! What an entry has of the headings above it: titles, tags, the nearest value of a property.
//!
//! The innermost value counts; tags are collected from the outermost on, each once.
ghost use Rattle.std.specs.Prelude.{◌≡◌, ◌<◌, [], ◌∷◌, IfOk, OnOk, map};
ghost use Rattle.std.specs.Option.{option_map};
ghost use Rattle.std.specs.List.{flat_map};
ghost use Rattle.org_outline.specs.Tree.{node_count, tree};
ghost use Rattle.org_move.specs.Inherited.{first_ones, nearest, own_value, nonempty, nonempty_only, tag_list, with_first, tags_above, titles_above};

use org_meta::{Lines, property};
use org_outline::{Node, Outline};
use std::alloc::{AllocError, Global};

/// The value, unless it is empty.
pub(crate) fn nonempty(value: &[u8]) -> Option<&[u8]>
    ensures { option_map (λ value. value.now) result ≡ nonempty value.now }
{
    if value.is_empty() { None } else { Some(value) }
}

/// The value of the heading's own property, where it isn't empty.
fn own_value<'a>(outline: &Outline<'a>, node: Node, name: &[u8]) -> Option<&'a [u8]>
    requires { node < node_count (tree outline.now.text) }
    ensures { option_map (λ value. value.now) result
        ≡ own_value name.now (tree outline.now.text) node }
{
    let span = outline.section(node);
    let bytes = &outline.text()[span.start..span.end];
    nonempty(property(Lines { bytes }, name)?)
}

/// The nearest nonempty value of a property: the heading's own, or that of an ancestor, the
/// innermost first (Org manual, "Property Inheritance"). Takes no memory.
pub(crate) fn nearest<'a>(outline: &Outline<'a>, node: Node, name: &[u8]) -> Option<&'a [u8]>
    requires { node < node_count (tree outline.now.text) }
    ensures { option_map (λ value. value.now) result
        ≡ nearest name.now (tree outline.now.text) node }
{
    let mut next = Some(node);
    while let Some(node) = next {
        if let Some(value) = own_value(outline, node, name) {
            return Some(value);
        }
        next = outline.parent(node);
    }
    None
}

/// The titles and the tags of the headings above an entry, outermost first. A heading's tags are
/// `:a:b:`, or empty.
#[derive(Drop)]
pub(crate) struct Above<'a> {
    pub titles: Vec<&'a [u8]>,
    pub tags: Vec<&'a [u8]>,
}

/// The titles and the tags of an entry's ancestors.
pub(crate) fn titles_and_tags<'a>(
    alloc: Global,
    outline: &Outline<'a>,
    node: Node,
) -> Result<Above<'a>, AllocError>
    requires { node < node_count (tree outline.now.text) }
    ensures titles { IfOk result (λ above. map (λ title. title.now) above.titles.items
        ≡ titles_above outline.now.states (tree outline.now.text) node) }
    ensures tags { IfOk result (λ above. map (λ tags. tags.now) above.tags.items
        ≡ tags_above outline.now.states (tree outline.now.text) node) }
{
    let mut titles = Vec::new(alloc);
    let mut tags = Vec::new(alloc);
    let mut next = outline.parent(node);
    while let Some(up) = next {
        let parts = outline.parts(up);
        titles.push(parts.title)?;
        tags.push(parts.tags)?;
        next = outline.parent(up);
    }
    titles.reverse();
    tags.reverse();
    Ok(Above { titles, tags })
}

/// Puts the tag at the end, unless it is empty or is there.
fn push_tag<'a>(found: &mut Vec<&'a [u8]>, tag: &'a [u8]) -> Result<(), AllocError>
    ensures { OnOk result (map (λ tag. tag.now) found.new.items
        ≡ with_first (map (λ tag. tag.now) found.old.items) (nonempty_only (tag.now ∷ []))) }
{
    if tag.is_empty() || found.contains(&tag) {
        return Ok(());
    }
    found.push(tag)?;
    Ok(())
}

/// Puts the tags of `:a:b:` at the end, each unless it is there.
fn push_tags<'a>(found: &mut Vec<&'a [u8]>, tags: &'a [u8]) -> Result<(), AllocError>
    ensures { OnOk result (map (λ tag. tag.now) found.new.items
        ≡ with_first (map (λ tag. tag.now) found.old.items) (tag_list tags.now)) }
{
    for tag in tags.split(|byte| *byte == b':') {
        push_tag(found, tag)?;
    }
    Ok(())
}

/// The tags in all of these `:a:b:`, each only where it comes first.
pub(crate) fn first_tags<'a>(alloc: Global, all: &[&'a [u8]]) -> Result<Vec<&'a [u8]>, AllocError>
    ensures { IfOk result (λ found. map (λ tag. tag.now) found.items
        ≡ first_ones [] (flat_map tag_list (map (λ tags. tags.now) all.now))) }
{
    let mut found = Vec::new(alloc);
    for tags in all {
        push_tags(&mut found, tags)?;
    }
    Ok(found)
}
