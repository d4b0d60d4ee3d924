//! The merge of planning lines: word by word (Org Syntax, "Planning").
use crate::event::{Events, What, conflict, note};
use crate::text::{by_digits, cut, cut_from};
use crate::three::{Taken, taken_bytes, taken_some};
use org_splice::blanks::{behind_blanks, blank_count, trimmed, trimmed_end, without_last_blanks};
use org_stamp::Stamp;
use std::alloc::{AllocError, Global};

/// A word of a planning line.
#[derive(Clone, Copy, PartialEq, Eq)]
enum Word {
    Closed,
    Deadline,
    Scheduled,
}

/// What a planning line says, in the order of its words.
#[derive(Drop)]
struct Planning<'a> {
    indent: &'a [u8],
    /// Each word with its timestamp.
    entries: Vec<(Word, &'a [u8])>,
    /// The blanks at the end, from a carriage return on.
    tail: &'a [u8],
}

impl<'a> Planning<'a> {
    /// What it says for a word.
    fn entry(&self, word: Word) -> Option<&'a [u8]> {
        for (other, text) in &self.entries {
            if *other == word {
                return Some(*text);
            }
        }
        None
    }
}

/// The word that a text begins with, and what follows it.
fn word_of(text: &[u8]) -> Option<(Word, &[u8])> {
    if let Some(rest) = text.strip_prefix(b"CLOSED:") {
        return Some((Word::Closed, rest));
    }
    if let Some(rest) = text.strip_prefix(b"DEADLINE:") {
        return Some((Word::Deadline, rest));
    }
    match text.strip_prefix(b"SCHEDULED:") {
        Some(rest) => Some((Word::Scheduled, rest)),
        None => None,
    }
}

/// The first entry of a text, and what follows it and its blanks.
fn first_entry(text: &[u8]) -> Option<(Word, &[u8], &[u8])> {
    let (word, rest) = word_of(text)?;
    let (_, size) = Stamp::read(behind_blanks(rest))?;
    let rest = cut_from(behind_blanks(rest), size);
    let entry = cut(text, 0, text.len().saturating_sub(rest.len()));
    Some((word, entry, behind_blanks(rest)))
}

/// What a planning line says, unless it has something else, or a word twice. It has at most three
/// entries.
fn read(alloc: Global, line: &[u8]) -> Result<Option<Planning<'_>>, AllocError> {
    let indent = cut(line, 0, blank_count(line));
    let mut planning = Planning {
        indent,
        entries: Vec::new(alloc),
        tail: &[],
    };
    let mut left = behind_blanks(line);
    for _ in 0..4 {
        if trimmed_end(left).is_empty() {
            planning.tail = left;
            return Ok(Some(planning));
        }
        match first_entry(left) {
            Some((word, entry, rest)) if planning.entry(word).is_none() => {
                planning.entries.push((word, entry))?;
                left = rest;
            }
            _ => return Ok(None),
        }
    }
    Ok(None)
}

/// The planning lines of base, ours and theirs, without their newlines; empty where there is none.
#[derive(Clone, Copy)]
pub(crate) struct PlanningLines<'a> {
    pub(crate) base: &'a [u8],
    pub(crate) ours: &'a [u8],
    pub(crate) theirs: &'a [u8],
}

/// What is taken of CLOSED where the keyword is ours after a conflict: ours too.
fn closed_with_keyword<'a>(
    alloc: Global,
    base: Option<&'a [u8]>,
    ours: Option<&'a [u8]>,
    theirs: Option<&'a [u8]>,
    events: &mut Events,
) -> Result<Option<&'a [u8]>, AllocError> {
    if let Some(other) = theirs {
        if base != theirs && ours != theirs {
            conflict(alloc, events, What::Planning, other)?;
        }
    }
    Ok(ours)
}

/// What is taken of a word that both sides changed.
fn either<'a>(
    alloc: Global,
    word: Word,
    ours: Option<&'a [u8]>,
    theirs: Option<&'a [u8]>,
    events: &mut Events,
) -> Result<Option<&'a [u8]>, AllocError> {
    match (ours, theirs) {
        (Some(mine), Some(other)) if word == Word::Closed => {
            let (last, first) = by_digits(alloc, mine, other)?;
            note(alloc, events, What::LaterMoment, first)?;
            Ok(Some(last))
        }
        (Some(mine), Some(other)) => {
            conflict(alloc, events, What::Planning, other)?;
            Ok(Some(mine))
        }
        _ => {
            note(alloc, events, What::Planning, theirs.unwrap_or(&[]))?;
            Ok(ours.or(theirs))
        }
    }
}

/// The entry of a word in the merged line.
fn entry_of<'a>(
    alloc: Global,
    word: Word,
    lines: &[Planning<'a>; 3],
    is_ours_keyword: bool,
    events: &mut Events,
) -> Result<Option<&'a [u8]>, AllocError> {
    let base = lines[0].entry(word);
    let ours = lines[1].entry(word);
    let theirs = lines[2].entry(word);
    if word == Word::Closed && is_ours_keyword {
        return closed_with_keyword(alloc, base, ours, theirs, events);
    }
    match taken_some(base, ours, theirs) {
        Taken::Ours => Ok(ours),
        Taken::Theirs => Ok(theirs),
        Taken::Either => either(alloc, word, ours, theirs, events),
    }
}

/// The words of both sides: those of ours, then those that theirs has besides.
fn words_of(alloc: Global, lines: &[Planning<'_>; 3]) -> Result<Vec<Word>, AllocError> {
    let mut words = Vec::new(alloc);
    for (word, _) in &lines[1].entries {
        words.push(*word)?;
    }
    for (word, _) in &lines[2].entries {
        if lines[1].entry(*word).is_none() {
            words.push(*word)?;
        }
    }
    Ok(words)
}

/// The entries of the merged line, CLOSED first.
fn entries_of<'a>(
    alloc: Global,
    lines: &[Planning<'a>; 3],
    is_ours_keyword: bool,
    events: &mut Events,
) -> Result<Vec<&'a [u8]>, AllocError> {
    let mut closed = Vec::new(alloc);
    let mut others = Vec::new(alloc);
    for word in &words_of(alloc, lines)? {
        if let Some(entry) = entry_of(alloc, *word, lines, is_ours_keyword, events)? {
            if *word == Word::Closed {
                closed.push(entry)?;
            } else {
                others.push(entry)?;
            }
        }
    }
    closed.extend_from_slice(others.as_slice())?;
    Ok(closed)
}

/// A planning line with these entries.
fn line_with(
    alloc: Global,
    entries: &[&[u8]],
    frame: &Planning<'_>,
) -> Result<Vec<u8>, AllocError> {
    let mut out = Vec::from_slice(alloc, frame.indent)?;
    for (count, entry) in entries.iter().enumerate() {
        if count > 0 {
            out.push(b' ')?;
        }
        out.extend_from_slice(without_last_blanks(*entry))?;
    }
    out.extend_from_slice(frame.tail)?;
    out.push(b'\n')?;
    Ok(out)
}

/// A line of a planning that isn't read word by word, with its newline.
fn whole_line(
    alloc: Global,
    lines: &PlanningLines<'_>,
    events: &mut Events,
) -> Result<Vec<u8>, AllocError> {
    let line = match taken_bytes(lines.base, lines.ours, lines.theirs) {
        Taken::Theirs => lines.theirs,
        Taken::Ours => lines.ours,
        Taken::Either => {
            if !lines.theirs.is_empty() {
                conflict(alloc, events, What::Planning, trimmed(lines.theirs))?;
            }
            lines.ours
        }
    };
    printed(alloc, line)
}

/// A line with its newline; nothing for no line.
fn printed(alloc: Global, line: &[u8]) -> Result<Vec<u8>, AllocError> {
    let mut out = Vec::from_slice(alloc, line)?;
    if !line.is_empty() {
        out.push(b'\n')?;
    }
    Ok(out)
}

/// The merged planning line, with its newline; nothing if there is none.
pub(crate) fn merge_planning(
    alloc: Global,
    lines: &PlanningLines<'_>,
    is_ours_keyword: bool,
    events: &mut Events,
) -> Result<Vec<u8>, AllocError> {
    match taken_bytes(lines.base, lines.ours, lines.theirs) {
        Taken::Ours => return printed(alloc, lines.ours),
        Taken::Theirs if !is_ours_keyword => return printed(alloc, lines.theirs),
        _ => {}
    }
    let base = read(alloc, lines.base)?;
    let ours = read(alloc, lines.ours)?;
    let theirs = read(alloc, lines.theirs)?;
    let (Some(base), Some(ours), Some(theirs)) = (base, ours, theirs) else {
        return whole_line(alloc, lines, events);
    };
    let all = [base, ours, theirs];
    let entries = entries_of(alloc, &all, is_ours_keyword, events)?;
    if entries.is_empty() {
        return Ok(Vec::new(alloc));
    }
    let frame = if lines.ours.is_empty() {
        &all[2]
    } else {
        &all[1]
    };
    line_with(alloc, entries.as_slice(), frame)
}
