//! The merge of an entry's own text: its heading line and its section.
use crate::drawer::merge_drawers;
use crate::event::{Events, What, append_quoted, conflict, has_conflict, quotes_of};
use crate::heading::{merge_headings, with_conflict};
use crate::lists::common;
use crate::pieces::{Numbers, Piece};
use crate::planning::{PlanningLines, merge_planning};
use crate::text::{Parts, lines_of, parts_of, push_line, without_newline};
use crate::texts::{Texts, merge_texts};
use crate::three::{Taken, taken_bytes};
use org_outline::States;
use std::alloc::{AllocError, Global};

/// An entry's own text.
#[derive(Drop)]
pub(crate) struct Own {
    /// What follows the stars of its heading.
    pub(crate) line: Vec<u8>,
    pub(crate) section: Vec<u8>,
}

/// The heading lines and the sections of three entries. Base may have none.
#[derive(Clone, Copy)]
pub(crate) struct Owns<'a> {
    pub(crate) base_line: Option<&'a [u8]>,
    pub(crate) ours_line: &'a [u8],
    pub(crate) theirs_line: &'a [u8],
    pub(crate) sections: Texts<'a>,
}

/// The parts of three sections, one after the other.
fn merge_parts(
    alloc: Global,
    parts: &[Parts<'_>; 3],
    is_ours_keyword: bool,
    held: &mut Events,
) -> Result<[Vec<u8>; 3], AllocError> {
    let lines = PlanningLines {
        base: without_newline(parts[0].planning),
        ours: without_newline(parts[1].planning),
        theirs: without_newline(parts[2].planning),
    };
    let planning = merge_planning(alloc, &lines, is_ours_keyword, held)?;
    let drawers = Texts {
        base: parts[0].drawer,
        ours: parts[1].drawer,
        theirs: parts[2].drawer,
    };
    let drawer = merge_drawers(alloc, &drawers, held)?;
    let texts = Texts {
        base: parts[0].rest,
        ours: parts[1].rest,
        theirs: parts[2].rest,
    };
    let rest = merge_texts(alloc, &texts, held)?;
    Ok([planning, drawer, rest])
}

/// Texts one after the other.
fn joined(alloc: Global, texts: &[&[u8]]) -> Result<Vec<u8>, AllocError> {
    let mut out = Vec::new(alloc);
    for text in texts {
        out.extend_from_slice(*text)?;
    }
    Ok(out)
}

/// Whether a section is read as these parts.
fn is_read_as(section: &[u8], planning: &[u8], drawer: &[u8]) -> bool {
    let parts = parts_of(section);
    parts.planning == planning && parts.drawer == drawer
}

/// The merged section: with quotes before its text, if its parts are read back, else as lines.
fn merge_sections(
    alloc: Global,
    sections: &Texts<'_>,
    is_ours_keyword: bool,
    events: &mut Events,
) -> Result<Vec<u8>, AllocError> {
    match taken_bytes(sections.base, sections.ours, sections.theirs) {
        Taken::Ours => return Vec::from_slice(alloc, sections.ours),
        Taken::Theirs if !is_ours_keyword => return Vec::from_slice(alloc, sections.theirs),
        _ => {}
    }
    let parts = [
        parts_of(sections.base),
        parts_of(sections.ours),
        parts_of(sections.theirs),
    ];
    let mut held = Vec::new(alloc);
    let [planning, drawer, rest] = merge_parts(alloc, &parts, is_ours_keyword, &mut held)?;
    let (planning, drawer, rest) = (planning.as_slice(), drawer.as_slice(), rest.as_slice());
    let whole = joined(alloc, &[planning, drawer, rest])?;
    if !is_read_as(whole.as_slice(), planning, drawer) {
        return merge_lines(alloc, sections, events);
    }
    let quotes = quotes_of(alloc, held.as_slice())?;
    append_quoted(events, held)?;
    joined(alloc, &[planning, drawer, quotes.as_slice(), rest])
}

/// The merged section as lines alone.
fn merge_lines(
    alloc: Global,
    sections: &Texts<'_>,
    events: &mut Events,
) -> Result<Vec<u8>, AllocError> {
    let mut held = Vec::new(alloc);
    let rest = merge_texts(alloc, sections, &mut held)?;
    let mut out = quotes_of(alloc, held.as_slice())?;
    append_quoted(events, held)?;
    out.extend_from_slice(rest.as_slice())?;
    Ok(out)
}

/// A section with quotes before its text.
fn with_quotes(alloc: Global, section: &[u8], quotes: &[u8]) -> Result<Vec<u8>, AllocError> {
    let parts = parts_of(section);
    let out = joined(alloc, &[parts.planning, parts.drawer, quotes, parts.rest])?;
    if is_read_as(out.as_slice(), parts.planning, parts.drawer) {
        return Ok(out);
    }
    joined(alloc, &[quotes, section])
}

/// The lines that both texts have, in order.
fn common_lines(alloc: Global, ours: &[u8], theirs: &[u8]) -> Result<Vec<u8>, AllocError> {
    let mut numbers = Numbers::new(alloc);
    let lines = lines_of(alloc, ours)?;
    let mine = numbered(alloc, &mut numbers, lines.as_slice())?;
    let other = numbered(alloc, &mut numbers, lines_of(alloc, theirs)?.as_slice())?;
    let mut out = Vec::new(alloc);
    for (place, _) in &common(alloc, mine.as_slice(), other.as_slice())? {
        if let Some(line) = lines.as_slice().get(*place) {
            push_line(&mut out, *line)?;
        }
    }
    Ok(out)
}

/// The numbers of lines.
fn numbered<'a>(
    alloc: Global,
    numbers: &mut Numbers<'a>,
    lines: &[&'a [u8]],
) -> Result<Vec<usize>, AllocError> {
    let mut pieces = Vec::with_capacity(alloc, lines.len())?;
    for line in lines {
        pieces.push(Piece::Line(*line))?;
    }
    numbers.numbers(alloc, pieces.as_slice())
}

/// What both sides make of an entry that each changed otherwise. `is_unsure` says that the entry is
/// known by its place alone, and that the sides' titles differ.
pub(crate) fn merge_own(
    alloc: Global,
    states: &States,
    owns: &Owns<'_>,
    is_unsure: bool,
    events: &mut Events,
) -> Result<Own, AllocError> {
    let mut held = Vec::new(alloc);
    let (ours, theirs) = (owns.ours_line, owns.theirs_line);
    let line = merge_headings(alloc, states, owns.base_line, ours, theirs, &mut held)?;
    if is_unsure && !has_conflict(held.as_slice()) {
        let heading = joined(alloc, &[b"*", theirs])?;
        conflict(alloc, &mut held, What::KnownByPlace, heading.as_slice())?;
    }
    let quotes = quotes_of(alloc, held.as_slice())?;
    append_quoted(events, held)?;
    let mut more = Vec::new(alloc);
    let section = merge_over(alloc, owns, line.is_ours_keyword, &mut more)?;
    let is_marked = !quotes.is_empty() || has_conflict(more.as_slice());
    append_quoted(events, more)?;
    if !is_marked {
        return Ok(Own {
            line: line.text,
            section,
        });
    }
    Ok(Own {
        line: with_conflict(alloc, states, line.text.as_slice())?,
        section: with_quotes(alloc, section.as_slice(), quotes.as_slice())?,
    })
}

/// The merged section. If base has no such entry, what both sides have counts as base's.
fn merge_over(
    alloc: Global,
    owns: &Owns<'_>,
    is_ours_keyword: bool,
    events: &mut Events,
) -> Result<Vec<u8>, AllocError> {
    let sections = &owns.sections;
    if owns.base_line.is_some() {
        return merge_sections(alloc, sections, is_ours_keyword, events);
    }
    let base = common_lines(alloc, sections.ours, sections.theirs)?;
    let sections = Texts {
        base: base.as_slice(),
        ours: sections.ours,
        theirs: sections.theirs,
    };
    merge_sections(alloc, &sections, is_ours_keyword, events)
}
