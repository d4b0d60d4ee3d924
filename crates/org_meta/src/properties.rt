//! Properties (Org manual, "Property Syntax"): read from the drawer, and put into it.
//!
//! The first line of a name counts. Names are compared without regard to ASCII case; `+` properties
//! aren't joined.
ghost use Rattle.std.specs.Prelude.{◌≡◌, ℕ, ◌≤◌, ◌+◌, length, IfOk, [], ◌∷◌, ◌++◌};
ghost use Rattle.std.specs.Option.{option_map};
ghost use Rattle.org_splice.specs.Lines.{lines_of};
ghost use Rattle.org_meta.specs.Edits.{RewritesParts, IsPlaceFor};
ghost use Rattle.org_meta.specs.Sections.{value_named, value_before_end, put_before_end, property, property_line, put, parts_of, split, joined};

use crate::lines::{Lines, Place};
use crate::names::same_name;
use crate::split::{is_end, property_of, sections};
use crate::texts::push_all;
use org_splice::{Bytes, Edit};
use std::alloc::{AllocError, Global};

/// The value, where the line is a property of this name.
fn value_named<'a>(line: &'a [u8], name: &[u8]) -> Option<&'a [u8]>
    ensures { option_map (λ value. value.now) result ≡ value_named name.now line.now }
{
    let property = property_of(line)?;
    if same_name(property.name, name) {
        Some(property.value)
    } else {
        None
    }
}

/// The first value of that name before the `:END:`.
fn value_before_end<'a>(text: Lines<'a>, name: &[u8]) -> Option<&'a [u8]>
    ensures { option_map (λ value. value.now) result
        ≡ value_before_end name.now (lines_of text.entry.bytes.now) }
{
    let mut left = text;
    while let Some((line, rest)) = left.first() {
        if is_end(line) {
            return None;
        }
        if let Some(value) = value_named(line, name) {
            return Some(value);
        }
        left = rest;
    }
    None
}

/// The value of the first property of that name in the section's drawer (Org manual, "Property
/// Syntax"); ASCII case doesn't count. Takes no memory.
pub fn property<'a>(section: Lines<'a>, name: &[u8]) -> Option<&'a [u8]>
    ensures { option_map (λ value. value.now) result
        ≡ property name.now (parts_of section.entry.bytes.now) }
{
    let (_start, properties) = sections(section).drawer.first()?;
    value_before_end(properties, name)
}

/// The place of the first property of that name, or else before the `:END:`.
fn place_of<'a>(text: Lines<'a>, name: &[u8]) -> Place<'a>
    ensures { IsPlaceFor (λ line. put_before_end name.now line (lines_of text.entry.bytes.now))
        text.entry.bytes.now result }
{
    let mut left = text;
    while let Some((line, rest)) = left.first() {
        if is_end(line) {
            return Place {
                left: left.bytes,
                removed: 0,
            };
        }
        if value_named(line, name).is_some() {
            return Place {
                left: left.bytes,
                removed: left.bytes.len() - rest.bytes.len(),
            };
        }
        left = rest;
    }
    Place {
        left: left.bytes,
        removed: 0,
    }
}

/// `:NAME: VALUE`, or `:NAME:` where the value is empty, with its newline, between two texts.
fn property_bytes(
    alloc: Global,
    before: &[u8],
    name: &[u8],
    value: &[u8],
    after: &[u8],
) -> Result<Bytes, AllocError>
    ensures { IfOk result (λ bytes. bytes
        ≡ before.now ++ (property_line name.now value.now ++ 10 ∷ []) ++ after.now) }
{
    let mark: &[u8] = if value.is_empty() { b":" } else { b": " };
    let mut bytes = Vec::new(alloc);
    push_all(&mut bytes, &[before, b":", name, mark, value, b"\n", after])?;
    Ok(Bytes::new(bytes))
}

/// The edit that puts a property into the section (Org manual, "Property Syntax"): its line in the
/// place of the first of that name, or before the `:END:` of the drawer, or in a new drawer below
/// the planning line. What is put is read again where the name is nonblank bytes and not END.
///
/// # Errors
///
/// `AllocError`.
pub fn put_property(
    alloc: Global,
    section: Lines<'_>,
    name: &[u8],
    value: &[u8],
) -> Result<Edit, AllocError>
    ensures { let text = section.entry.bytes.now in
        IfOk result (λ edit. RewritesParts edit text (put name.now value.now (parts_of text))) }
{
    let parts = sections(section);
    let Some((_start, properties)) = parts.drawer.first() else {
        return Ok(Edit {
            at: parts.planning.bytes.len(),
            removed: 0,
            bytes: property_bytes(alloc, b":PROPERTIES:\n", name, value, b":END:\n")?,
        });
    };
    let place = place_of(properties, name);
    Ok(Edit {
        at: section.bytes.len() - parts.rest.bytes.len() - place.left.len(),
        removed: place.removed,
        bytes: property_bytes(alloc, b"", name, value, b"")?,
    })
}
