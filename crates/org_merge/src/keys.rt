//! What an entry may be known by: its text without what an archiving puts there, lines of its text,
//! words of its title.
use crate::clock::clock_of;
use crate::folder::Entry;
use crate::text::{first_line, framed, is_mark, lines_of, parts_of, property_of, push_line};
use org_splice::blanks::trimmed;
use std::alloc::{AllocError, Global};
use std::collections::HashSet;

/// Whether a property is one of those that an archiving writes.
fn is_archive(line: &[u8]) -> bool {
    match property_of(line) {
        Some((name, _)) => name
            .get(..8)
            .unwrap_or(&[])
            .eq_ignore_ascii_case(b"ARCHIVE_"),
        None => false,
    }
}

/// The lines of a drawer but for those of an archiving.
fn unarchived_lines(alloc: Global, drawer: &[u8]) -> Result<Vec<u8>, AllocError> {
    let mut out = Vec::new(alloc);
    for line in &lines_of(alloc, framed(drawer).1)? {
        if !is_archive(*line) {
            push_line(&mut out, *line)?;
        }
    }
    Ok(out)
}

/// An entry's own text without what an archiving puts there.
pub(crate) fn unarchived(alloc: Global, entry: &Entry<'_>) -> Result<Vec<u8>, AllocError> {
    let parts = parts_of(entry.bare_section);
    let mut out = Vec::new(alloc);
    push_line(&mut out, entry.bare_line)?;
    out.extend_from_slice(parts.planning)?;
    let lines = unarchived_lines(alloc, parts.drawer)?;
    if !lines.is_empty() {
        let (first, _, last) = framed(parts.drawer);
        out.extend_from_slice(first)?;
        out.extend_from_slice(lines.as_slice())?;
        out.extend_from_slice(last)?;
    }
    out.extend_from_slice(parts.rest)?;
    Ok(out)
}

/// What a line of an entry's text is known by; a clock by its start.
fn key_of(line: &[u8]) -> Option<&[u8]> {
    let key = trimmed(line);
    match key {
        [] => None,
        [b':', ..] if is_mark(key, b":LOGBOOK:") || is_mark(key, b":END:") => None,
        [b'C', ..] => match clock_of(key) {
            Some(clock) => Some(clock.head),
            None => Some(key),
        },
        _ => Some(key),
    }
}

/// The lines of an entry's text by which it may be known.
pub(crate) fn text_keys<'a>(alloc: Global, entry: &Entry<'a>) -> Result<Vec<&'a [u8]>, AllocError> {
    let mut keys = Vec::new(alloc);
    let mut left = parts_of(entry.section).rest;
    while !left.is_empty() {
        let (line, rest) = first_line(left);
        if let Some(key) = key_of(line) {
            keys.push(key)?;
        }
        left = rest;
    }
    Ok(keys)
}

fn set_of<'a>(alloc: Global, keys: &[&'a [u8]]) -> Result<HashSet<&'a [u8]>, AllocError> {
    let mut out = HashSet::new(alloc);
    for key in keys {
        out.insert(*key)?;
    }
    Ok(out)
}

/// Whether one of the two texts is empty, or they have a line in common.
pub(crate) fn are_akin(
    alloc: Global,
    one: &Entry<'_>,
    other: &Entry<'_>,
) -> Result<bool, AllocError> {
    let mine = text_keys(alloc, one)?;
    let theirs = text_keys(alloc, other)?;
    if mine.is_empty() || theirs.is_empty() {
        return Ok(true);
    }
    let known = set_of(alloc, mine.as_slice())?;
    Ok(theirs.iter().any(|key| known.contains(key)))
}

/// Whether a byte separates words.
fn is_gap(byte: u8) -> bool {
    byte == b' ' || byte == b'\t' || byte == b'\r'
}

/// The words of a title.
pub(crate) fn words_of(alloc: Global, title: &[u8]) -> Result<Vec<&[u8]>, AllocError> {
    let mut words = Vec::new(alloc);
    for word in title.split(|byte| is_gap(*byte)) {
        if !word.is_empty() {
            words.push(word)?;
        }
    }
    Ok(words)
}
