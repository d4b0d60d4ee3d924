//! The three parts of a section, found from its front.
//!
//! A planning line stands first or isn't one; a drawer counts only where all its lines are
//! properties.
ghost use Rattle.std.specs.Prelude.{◌≡◌, codes, is_some};
ghost use Rattle.std.specs.Option.{option_map};
ghost use Rattle.org_splice.specs.Lines.{lines_of};
ghost use Rattle.org_meta.specs.Sections.{is_planning, is_mark, is_name_run, property_of, size_to_end, planning_size, drawer_size, split, AreSections};
ghost use Rattle.org_meta.specs.Sections.{is_drawer_start, is_end};
ghost use Rattle.org_meta.specs.Lines.{behind_lines};

use crate::lines::Lines;
use crate::names::same_name;
use crate::parts::Sections;
use org_splice::blanks::{behind_blanks, solid_count, trimmed};
use std::marker::Model;

/// A property of a drawer (Org Syntax, "Node Properties").
#[derive(Drop)]
pub(crate) struct Property<'a> {
    pub name: &'a [u8],
    pub value: &'a [u8],
}

impl<'a> Model for Property<'a> {
    ghost use Rattle.org_meta.specs.Sections.{NodeProperty};

    ghost Value = { NodeProperty };

    ghost view = { λ p. record { name = p.name.now; value = p.value.now } };
}

fn is_planning(line: &[u8]) -> bool
    ensures { result ≡ is_planning line.now }
{
    let body = behind_blanks(line);
    body.starts_with(b"CLOSED:")
        || body.starts_with(b"DEADLINE:")
        || body.starts_with(b"SCHEDULED:")
}

/// Whether the line is a mark, as `:END:`.
pub(crate) fn is_mark(line: &[u8], mark: &[u8]) -> bool
    ensures { result ≡ is_mark mark.now line.now }
{
    same_name(trimmed(line), mark)
}

/// Whether the line is `:END:`.
pub(crate) fn is_end(line: &[u8]) -> bool
    ensures { result ≡ is_end line.now }
{
    is_mark(line, b":END:")
}

/// The property that the line says.
pub(crate) fn property_of(line: &[u8]) -> Option<Property<'_>>
    ensures { result ≡ property_of line.now }
{
    let body = trimmed(line);
    let (run, value) = body.split_at(solid_count(body));
    match run {
        [b':', name @ .., b':'] if !name.is_empty() => Some(Property {
            name,
            value: behind_blanks(value),
        }),
        _ => None,
    }
}

/// What follows the first `:END:`, where only property lines come before it.
fn behind_end(text: Lines<'_>) -> Option<Lines<'_>>
    ensures { let text = text.entry.bytes.now in option_map (λ rest. rest.bytes.now) result
        ≡ option_map (behind_lines text) (size_to_end (lines_of text)) }
{
    let mut left = text;
    while let Some((line, rest)) = left.first() {
        if is_end(line) {
            return Some(rest);
        }
        property_of(line)?;
        left = rest;
    }
    None
}

/// What follows the property drawer that the text begins with.
fn behind_drawer(text: Lines<'_>) -> Lines<'_>
    ensures { let text = text.entry.bytes.now in
        result.bytes.now ≡ behind_lines text (drawer_size (lines_of text)) }
{
    let Some((line, rest)) = text.first() else {
        return text;
    };
    if !is_mark(line, b":PROPERTIES:") {
        return text;
    }
    behind_end(rest).unwrap_or(text)
}

/// What follows the planning line that the section begins with.
fn behind_planning(section: Lines<'_>) -> Lines<'_>
    ensures { let text = section.entry.bytes.now in
        result.bytes.now ≡ behind_lines text (planning_size (lines_of text)) }
{
    match section.first() {
        Some((line, rest)) if is_planning(line) => rest,
        _ => section,
    }
}

/// The parts of a section (Org Syntax, "Planning", "Property Drawers"). Takes no memory.
pub fn sections(section: Lines<'_>) -> Sections<'_>
    ensures { AreSections result (split (lines_of section.entry.bytes.now)) }
{
    let below = behind_planning(section);
    let rest = behind_drawer(below);
    let above = section.bytes.len() - below.bytes.len();
    let between = below.bytes.len() - rest.bytes.len();
    Sections {
        planning: Lines {
            bytes: section.bytes.split_at(above).0,
        },
        drawer: Lines {
            bytes: below.bytes.split_at(between).0,
        },
        rest,
    }
}
