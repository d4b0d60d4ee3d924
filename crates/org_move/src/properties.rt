//! The properties of an archived entry, in Org's order; one without a value is left out.
//!
//! They are put as `org_meta` puts a property, so that those that are there get new values in
//! place.
ghost use Rattle.std.specs.Prelude.{◌≡◌, ◌<◌, ◌++◌, ℕ, true, IfOk, map};
ghost use Rattle.std.specs.List.{AllByRecursion};
ghost use Rattle.std.specs.Option.{option_map};
ghost use Rattle.org_disk.specs.Names.{IsDiskName, last_part};
ghost use Rattle.org_splice.specs.Lines.{terminated, IsLine, lines_of};
ghost use Rattle.org_outline.specs.Tree.{Document, node_at, node_count, tree};
ghost use Rattle.org_outline.specs.States.{Keywords};
ghost use Rattle.org_outline.specs.Parts.{parts_of as heading_parts};
ghost use Rattle.org_stamp.specs.Calendar.{Moment};
ghost use Rattle.org_meta.specs.Sections.{is_property_name, parts_of, property_line, put};
ghost use Rattle.org_move.specs.Archive.{archive_properties, archived_section, category_of, joined_if_any, put_each, time_text, without_org};
ghost use Rattle.org_move.specs.Inherited.{inherited_tags, titles_above};
ghost use Rattle.org_move.specs.Given.{IsGood, given};

use crate::inherited::{first_tags, nearest, nonempty, titles_and_tags};
use memchr::memrchr;
use org_meta::{Lines, put_property};
use org_outline::{Node, Outline};
use org_stamp::{Moment, Stamp};
use std::alloc::{AllocError, Global};

/// The moment as `2026-07-01 Wed 10:00`.
pub(crate) fn time_text(alloc: Global, now: Moment) -> Result<Vec<u8>, AllocError>
    ensures { IfOk result (λ text. text.items ≡ time_text now) }
{
    let stamp = Stamp::at(now, false, true).print(alloc)?;
    Vec::from_slice(alloc, &stamp[1..stamp.len() - 1])
}

/// The bytes between two others.
pub(crate) fn between(
    alloc: Global,
    front: &[u8],
    bytes: &[u8],
    back: &[u8],
) -> Result<Vec<u8>, AllocError>
    ensures { IfOk result (λ whole. whole.items ≡ (front.now ++ bytes.now) ++ back.now) }
{
    let mut whole = Vec::from_slice(alloc, front)?;
    whole.extend_from_slice(bytes)?;
    whole.extend_from_slice(back)?;
    Ok(whole)
}

/// A section with a property put into it.
fn with_property(
    alloc: Global,
    section: Lines<'_>,
    name: &[u8],
    value: &[u8],
) -> Result<Vec<u8>, AllocError>
    requires name { is_property_name name.now ≡ true }
    requires line { IsLine (property_line name.now value.now) }
    ensures parts { IfOk result
        (λ new. parts_of new.items ≡ put name.now value.now (parts_of section.entry.bytes.now)) }
    ensures terminated { IfOk result (λ new. terminated new.items ≡ new.items) }
{
    let edit = put_property(alloc, section, name, value)?;
    let front = &section.bytes[..edit.at];
    let back = &section.bytes[edit.at + edit.removed..];
    between(alloc, front, edit.bytes.as_slice(), back)
}

/// A property that an archived entry gets; without a value it is left out.
#[derive(Clone, Copy)]
struct Property<'a> {
    name: &'static [u8],
    value: Option<&'a [u8]>,
}

/// The name of a file in its folder.
fn last_part(name: &[u8]) -> &[u8]
    ensures { result.now ≡ last_part name.now }
{
    match memrchr(b'/', name) {
        Some(slash) => name.split_at(slash + 1).1,
        None => name,
    }
}

/// A section with properties put into it, in their order.
fn with_properties(
    alloc: Global,
    section: Lines<'_>,
    properties: &[Property<'_>],
) -> Result<Vec<u8>, AllocError>
    requires { AllByRecursion IsGood (given properties.now) }
    ensures parts { IfOk result (λ new. parts_of new.items
        ≡ put_each (given properties.now) (parts_of section.entry.bytes.now)) }
    ensures terminated { IfOk result (λ new. terminated new.items ≡ new.items) }
{
    let mut new = Vec::from_slice(alloc, section.bytes)?;
    for property in properties {
        if let Some(value) = property.value {
            new = with_property(alloc, Lines { bytes: &new }, property.name, value)?;
        }
    }
    Ok(new)
}

/// The texts with a byte between each two; nothing where there are none.
fn joined_if_any(alloc: Global, texts: &[&[u8]], byte: u8) -> Result<Option<Vec<u8>>, AllocError>
    ensures { IfOk result (λ made. option_map (λ text. text.items) made
        ≡ joined_if_any byte (map (λ text. text.now) texts.now)) }
{
    if texts.is_empty() {
        return Ok(None);
    }
    let mut made = Vec::new(alloc);
    for text in texts {
        made.extend_from_slice(text)?;
        made.push(byte)?;
    }
    made.pop();
    Ok(Some(made))
}

/// What an archived entry has of its ancestors: the path to it, and their tags.
#[derive(Drop)]
struct FromAbove {
    path: Option<Vec<u8>>,
    tags: Option<Vec<u8>>,
}

/// The titles of an entry's ancestors, joined by slashes, and their tags, joined by spaces.
fn inherited(alloc: Global, outline: &Outline<'_>, node: Node) -> Result<FromAbove, AllocError>
    requires { node < node_count (tree outline.now.text) }
    ensures path { IfOk result (λ made. option_map (λ text. text.items) made.path
        ≡ joined_if_any 47 (titles_above outline.now.states (tree outline.now.text) node)) }
    ensures tags { IfOk result (λ made. option_map (λ text. text.items) made.tags
        ≡ joined_if_any 32 (inherited_tags outline.now.states (tree outline.now.text) node)) }
{
    let above = titles_and_tags(alloc, outline, node)?;
    let path = joined_if_any(alloc, &above.titles, b'/')?;
    let tags = joined_if_any(alloc, &first_tags(alloc, &above.tags)?, b' ')?;
    Ok(FromAbove { path, tags })
}

/// The text, if there is one.
fn slice_of(text: &Option<Vec<u8>>) -> Option<&[u8]>
    ensures { option_map (λ text. text.now) result ≡ option_map (λ text. text.items) text.now }
{
    match text {
        Some(text) => Some(text.as_slice()),
        None => None,
    }
}

/// A file's name without `.org`.
fn without_org(name: &[u8]) -> &[u8]
    ensures { result.now ≡ without_org name.now }
{
    name.strip_suffix(b".org").unwrap_or(name)
}

/// The properties of an archived entry, in their order, where the file is that of the entry, the
/// time is the moment's text, and an entry without a keyword has an empty one.
fn properties<'a>(
    file: &'a [u8],
    time: &'a [u8],
    category: &'a [u8],
    keyword: &'a [u8],
    above: &'a FromAbove,
) -> [Property<'a>; 6]
    ensures { (states : Keywords) (d : Document) (node : ℕ) (now : Moment)
        → time.now ≡ time_text now → category.now ≡ category_of file.now d node
        → keyword.now ≡ (heading_parts states (node_at d node).node.rest).keyword
        → option_map (λ text. text.items) above.now.path
        ≡ joined_if_any 47 (titles_above states d node)
        → option_map (λ text. text.items) above.now.tags
        ≡ joined_if_any 32 (inherited_tags states d node)
        → given result ≡ archive_properties states file.now now d node }
{
    [
        Property {
            name: b"ARCHIVE_TIME",
            value: Some(time),
        },
        Property {
            name: b"ARCHIVE_FILE",
            value: Some(file),
        },
        Property {
            name: b"ARCHIVE_OLPATH",
            value: slice_of(&above.path),
        },
        Property {
            name: b"ARCHIVE_CATEGORY",
            value: Some(category),
        },
        Property {
            name: b"ARCHIVE_TODO",
            value: nonempty(keyword),
        },
        Property {
            name: b"ARCHIVE_ITAGS",
            value: slice_of(&above.tags),
        },
    ]
}

/// The section of an archived entry of the file with this name: its own, with the properties put.
pub(crate) fn archived_section(
    alloc: Global,
    outline: &Outline<'_>,
    node: Node,
    file: &[u8],
    now: Moment,
) -> Result<Vec<u8>, AllocError>
    requires node { node < node_count (tree outline.now.text) }
    requires file { IsDiskName file.now }
    ensures lines { IfOk result (λ section. lines_of section.items
        ≡ archived_section outline.now.states file.now now (tree outline.now.text) node) }
    ensures terminated { IfOk result (λ section. terminated section.items ≡ section.items) }
{
    let time = time_text(alloc, now)?;
    let above = inherited(alloc, outline, node)?;
    let category = nearest(outline, node, b"CATEGORY").unwrap_or(without_org(last_part(file)));
    let keyword = outline.parts(node).keyword;
    let span = outline.section(node);
    let section = Lines {
        bytes: &outline.text()[span.start..span.end],
    };
    let properties = properties(file, &time, category, keyword, &above);
    with_properties(alloc, section, &properties)
}
