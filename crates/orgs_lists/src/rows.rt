//! The rows of lists: for people, and for programs (`--porcelain`).
//!
//! A row for people begins with `FILE:LINE`, one for programs has fields with tabs between. Both
//! name their heading again where a command line takes them.
ghost use Rattle.std.specs.Prelude.{◌<◌};
ghost use Rattle.org_outline.specs.Tree.{node_count, tree};

use crate::file::File;
use crate::paths::{push_number, push_path, push_twin};
use orgs_entries::Entries;
use std::alloc::{AllocError, Global};

/// How rows look at a terminal.
#[derive(Clone, Copy)]
pub struct Look {
    /// Control characters are shown as question marks, since a terminal would obey them.
    pub masks: bool,
    /// States have colours.
    pub colours: bool,
}

/// Puts `FILE:LINE` after other bytes.
///
/// # Errors
///
/// `AllocError`.
pub fn push_place(out: &mut Vec<u8>, file: &File<'_, '_>, index: usize) -> Result<(), AllocError>
    requires { index < node_count (tree file.now.entries.now.text) }
{
    out.extend_from_slice(file.name.as_bytes())?;
    out.push(b':')?;
    push_number(out, file.entries.line(index))
}

// Whether a terminal would obey a character: those of C0 and C1 and DEL, but for the tab.
fn is_control(character: char) -> bool {
    character.is_control() && character != '\t'
}

/// Puts text of a file after other bytes, as people are shown it.
///
/// # Errors
///
/// `AllocError`.
pub fn push_shown(out: &mut Vec<u8>, text: &[u8], look: Look) -> Result<(), AllocError> {
    if !look.masks {
        return out.extend_from_slice(text);
    }
    let text = String::from_utf8_lossy(*out.allocator(), text)?;
    let mut shown = String::new(*out.allocator());
    for character in text.as_str().chars() {
        let character = if is_control(character) {
            '?'
        } else {
            character
        };
        shown.push(character)?;
    }
    out.extend_from_slice(shown.as_bytes())
}

// Puts a state after other bytes, in its colour where it has one.
fn push_state(
    out: &mut Vec<u8>,
    state: &[u8],
    is_done: bool,
    look: Look,
) -> Result<(), AllocError> {
    if !look.colours || state.is_empty() {
        return out.extend_from_slice(state);
    }
    let colour: &[u8] = if is_done { b"\x1b[32m" } else { b"\x1b[31m" };
    out.extend_from_slice(colour)?;
    out.extend_from_slice(state)?;
    out.extend_from_slice(b"\x1b[0m")
}

// Puts a blank between a part of a line and the ones before it, where both are there.
fn push_between(out: &mut Vec<u8>, start: usize, part: &[u8]) -> Result<(), AllocError> {
    if out.len() > start && !part.is_empty() {
        out.push(b' ')?;
    }
    Ok(())
}

/// Puts a heading's line without its stars after other bytes, with its number among its twins after
/// the title.
///
/// # Errors
///
/// `AllocError`.
pub fn push_headline(
    out: &mut Vec<u8>,
    entries: &Entries<'_>,
    index: usize,
    look: Look,
) -> Result<(), AllocError>
    requires { index < node_count (tree entries.now.text) }
{
    let start = out.len();
    let outline = entries.outline();
    let parts = outline.parts(outline.node(index));
    let is_done = outline.states().is_done(parts.keyword);
    push_state(out, parts.keyword, is_done, look)?;
    push_between(out, start, parts.priority)?;
    out.extend_from_slice(parts.priority)?;
    let mut title = Vec::new(*out.allocator());
    push_shown(&mut title, parts.title, look)?;
    push_twin(&mut title, entries, index)?;
    push_between(out, start, &title)?;
    out.extend_from_slice(&title)?;
    push_between(out, start, parts.tags)?;
    out.extend_from_slice(parts.tags)
}

/// Puts a row for people after other bytes, without its newline: the place, in a column of this
/// width, and the heading, indented by its level.
///
/// # Errors
///
/// `AllocError`.
pub fn push_row(
    out: &mut Vec<u8>,
    file: &File<'_, '_>,
    index: usize,
    width: usize,
    look: Look,
) -> Result<(), AllocError>
    requires { index < node_count (tree file.now.entries.now.text) }
{
    push_place(out, file, index)?;
    push_blanks(
        out,
        width.saturating_sub(place_len(*out.allocator(), file, index)?),
    )?;
    let outline = file.entries.outline();
    push_blanks(out, outline.level(outline.node(index)).saturating_mul(2))?;
    push_headline(out, file.entries, index, look)
}

// Puts blanks after other bytes.
fn push_blanks(out: &mut Vec<u8>, count: usize) -> Result<(), AllocError> {
    for _ in 0..count {
        out.push(b' ')?;
    }
    Ok(())
}

/// How many characters `FILE:LINE` has.
///
/// # Errors
///
/// `AllocError`.
pub fn place_len(alloc: Global, file: &File<'_, '_>, index: usize) -> Result<usize, AllocError>
    requires { index < node_count (tree file.now.entries.now.text) }
{
    let mut line = Vec::new(alloc);
    push_number(&mut line, file.entries.line(index))?;
    Ok(
        file.name
            .chars()
            .count()
            .saturating_add(line.len())
            .saturating_add(1),
    )
}

/// Puts a row for programs after other bytes, with its newline: FILE:LINE, level, state, priority,
/// tags and path, with tabs between.
///
/// # Errors
///
/// `AllocError`.
pub fn push_porcelain(
    out: &mut Vec<u8>,
    file: &File<'_, '_>,
    index: usize,
) -> Result<(), AllocError>
    requires { index < node_count (tree file.now.entries.now.text) }
{
    let outline = file.entries.outline();
    let node = outline.node(index);
    let parts = outline.parts(node);
    push_place(out, file, index)?;
    out.push(b'\t')?;
    push_number(out, outline.level(node))?;
    out.push(b'\t')?;
    out.extend_from_slice(parts.keyword)?;
    out.push(b'\t')?;
    out.extend_from_slice(inner(parts.priority, 2, 1))?;
    out.push(b'\t')?;
    out.extend_from_slice(inner(parts.tags, 1, 1))?;
    out.push(b'\t')?;
    push_path(out, file.entries, index)?;
    Ok(out.push(b'\n')?)
}

// What stands between marks: `A` of `[#A]`, `a:b` of `:a:b:`; nothing where they aren't there.
fn inner(part: &[u8], before: usize, after: usize) -> &[u8] {
    match part.get(before..part.len().saturating_sub(after)) {
        Some(inner) => inner,
        None => &[],
    }
}
