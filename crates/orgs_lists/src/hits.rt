//! Where a heading has a text: in its own line, or in the lines below it.
ghost use Rattle.std.specs.Prelude.{◌≡◌, ◌<◌, ◌&&◌, ◌==◌, not, length, IfOk};
ghost use Rattle.std.specs.List.{list_any};
ghost use Rattle.std.specs.Option.{is_some};
ghost use Rattle.org_splice.specs.Lines.{lines_of};
ghost use Rattle.org_move.specs.Inherited.{tag_list};
ghost use Rattle.org_outline.specs.Tree.{node_count, tree};
ghost use Rattle.orgs_lists.specs.Hits.{has_in_line, has_text, is_hit};

use crate::headings::{parts, section};
use org_meta::Lines;
use org_splice::blanks::trimmed;
use orgs_entries::Entries;
use orgs_folding::{contains, folded};
use std::alloc::{AllocError, Global};

/// Where a heading has a text.
#[derive(Clone, Copy)]
pub enum Hit<'a> {
    /// In its title or in a tag.
    Heading,
    /// In this line below it, the first one that has it, without the blanks round it.
    Line(&'a [u8]),
}

// Whether a text has a folded one in it, whatever the case.
fn has_text(alloc: Global, text: &[u8], part: &[u8]) -> Result<bool, AllocError>
    ensures { IfOk result (λ has. has ≡ has_text part.now text.now) }
{
    let text = folded(alloc, text)?;
    Ok(contains(&text, part))
}

// Whether what stands between two colons is a tag, and has a folded text in it.
fn is_tag_with(alloc: Global, word: &[u8], part: &[u8]) -> Result<bool, AllocError>
    ensures { IfOk result
        (λ has. has ≡ (not (length word.now == 0) && has_text part.now word.now)) }
{
    if word.is_empty() {
        return Ok(false);
    }
    has_text(alloc, word, part)
}

// Whether a tag of `:a:b:` has a folded text in it.
fn has_in_tags(alloc: Global, tags: &[u8], part: &[u8]) -> Result<bool, AllocError>
    ensures { IfOk result (λ has. has ≡ list_any (has_text part.now) (tag_list tags.now)) }
{
    for tag in tags.split(|byte| *byte == b':') {
        if is_tag_with(alloc, tag, part)? {
            return Ok(true);
        }
    }
    Ok(false)
}

// The first of these lines that has a folded text in it, without the blanks round it.
fn line_with<'a>(
    alloc: Global,
    lines: Lines<'a>,
    part: &[u8],
) -> Result<Option<&'a [u8]>, AllocError>
    ensures { IfOk result (λ found. is_some found
        ≡ list_any (has_in_line part.now) (lines_of lines.entry.bytes.now)) }
{
    let mut left = lines;
    while let Some((line, rest)) = left.first() {
        let line = trimmed(line);
        if has_text(alloc, line, part)? {
            return Ok(Some(line));
        }
        left = rest;
    }
    Ok(None)
}

/// Where a heading has a folded text, whatever the case: in its title, in a tag, or in a line below
/// it. `None` says that it has it nowhere.
///
/// # Errors
///
/// `AllocError`.
pub fn find_hit<'a>(
    alloc: Global,
    entries: &Entries<'a>,
    index: usize,
    part: &[u8],
) -> Result<Option<Hit<'a>>, AllocError>
    requires { index < node_count (tree entries.now.text) }
    ensures { IfOk result (λ found. is_some found ≡ is_hit part.now entries.now index) }
{
    let parts = parts(entries, index);
    if has_text(alloc, parts.title, part)? {
        return Ok(Some(Hit::Heading));
    }
    if has_in_tags(alloc, parts.tags, part)? {
        return Ok(Some(Hit::Heading));
    }
    match line_with(alloc, section(entries, index), part)? {
        Some(line) => Ok(Some(Hit::Line(line))),
        None => Ok(None),
    }
}
