//! Finding the place to which a subtree is archived.
//!
//! A property of the entry or above it comes before the file's first `#+ARCHIVE:` line, and that
//! before the file's own archive.
ghost use Rattle.std.specs.Prelude.{◌≡◌, ◌⊎◌, ◌<◌, ◌≤◌, ◌^◌, ◌+◌, ◌++◌, ◌∷◌, [], ℕ, List, true, false, if◌then◌else◌, IfOk, IfSome, IfNone, None, Some, codes, length, take, drop};
ghost use Rattle.std.specs.List.{find};
ghost use Rattle.std.specs.Option.{option_map};
ghost use Rattle.org_disk.specs.Names.{parts};
ghost use Rattle.org_splice.specs.Lines.{lines_of};
ghost use Rattle.org_splice.specs.Searched.{IsSearched};
ghost use Rattle.org_outline.specs.Parts.{AreParts, Parts};
ghost use Rattle.org_outline.specs.Tree.{node_count, tree};
ghost use Rattle.org_move.specs.Answers.{IsNameOf, IsPlaceAs};
ghost use Rattle.org_move.specs.Location.{ComesTo, Destination, LeavesLines, after_part, and_file, at_end, location_at, file_named, halves_made, halves_of, has_archive_line, heading_made, heading_of, is_archive_line, is_title_alone, value_for, value_of_lines, with_file, with_name};
ghost use Rattle.org_splice.specs.Blanks.{is_blank, behind};

use crate::destination::Location;
use crate::inherited::{nearest, nonempty};
use memchr::memmem::Finder;
use memchr::memrchr;
use org_disk::{BadName, FileName};
use org_fault::{Fault, Refusal};
use org_headings::heading_level;
use org_meta::Lines;
use org_outline::{HeadParts, Node, Outline, States};
use org_splice::blanks::{behind_blanks, trimmed};
use org_splice::{Bytes, Searched};
use std::alloc::{AllocError, Global};
use std::str;

// How many bytes `#+ARCHIVE:` has.
const MARK_SIZE: usize = 10;

/// The first bytes of the line after its blanks, as many as `#+ARCHIVE:` has, and what follows
/// them.
fn mark_and_value(line: &[u8]) -> (&[u8], &[u8])
    ensures mark { result.0.now ≡ take 10 (behind is_blank line.now) }
    ensures value { result.1.now ≡ drop 10 (behind is_blank line.now) }
{
    let body = behind_blanks(line);
    body.split_at(body.len().min(MARK_SIZE))
}

/// Whether the line begins, after blanks, with `#+ARCHIVE:`.
fn is_archive_line(line: &[u8]) -> bool
    ensures { result ≡ is_archive_line line.now }
{
    mark_and_value(line).0.eq_ignore_ascii_case(b"#+ARCHIVE:")
}

/// The text from the line on that holds this place, or from its start.
fn from_line(text: &[u8], at: usize) -> &[u8]
    requires { at ≤ length text.now }
    ensures { (result.now ≡ text.now)
        ⊎ ((before : List ℕ) × (text.now ≡ before ++ 10 ∷ result.now) × (length before < at)) }
{
    match memrchr(b'\n', &text[..at]) {
        Some(newline) => text.split_at(newline + 1).1,
        None => text,
    }
}

/// The first line that holds `#+`, for which the finder looks, and what follows it.
fn marked_line<'a>(finder: &Finder<'_>, text: Lines<'a>) -> Option<(&'a [u8], Lines<'a>)>
    requires { finder.now ≡ codes "#+" }
    ensures some { IfSome result (λ r. ComesTo text.entry.bytes.now r.0.now r.1.bytes.now) }
    ensures none { IfNone result (has_archive_line text.entry.bytes.now ≡ false) }
{
    let bytes = from_line(text.bytes, finder.find(text.bytes)?);
    Lines { bytes }.first()
}

/// The first line of the text that begins with `#+ARCHIVE:`, and what follows it. Lines without
/// `#+` aren't read.
fn first_archive_line(text: Lines<'_>) -> Option<(&[u8], Lines<'_>)>
    ensures some { IfSome result (λ r. ComesTo text.entry.bytes.now r.0.now r.1.bytes.now
        × (is_archive_line r.0.now ≡ true)) }
    ensures none { IfNone result (has_archive_line text.entry.bytes.now ≡ false) }
{
    let finder = Finder::new(b"#+");
    let mut left = text;
    while let Some((line, rest)) = marked_line(&finder, left) {
        if is_archive_line(line) {
            return Some((line, rest));
        }
        left = rest;
    }
    None
}

/// The lines of which nothing is known, and what follows them.
fn unknown_lines(text: Lines<'_>, front: usize, back: usize) -> (&[u8], &[u8])
    ensures { LeavesLines text.entry.bytes.now front back result.0.now result.1.now }
{
    let left = from_line(text.bytes, front.min(text.bytes.len()));
    let (_, bytes) = left.split_at(left.len().saturating_sub(back));
    let end = Lines { bytes };
    match end.first() {
        Some((_, rest)) => left.split_at(left.len() - rest.bytes.len()),
        None => (left, bytes),
    }
}

/// The first line of the text that begins with `#+ARCHIVE:`, and what is known after the search.
/// Only the lines of which nothing was known are read.
fn archive_line(text: Lines<'_>, searched: Searched) -> (Option<&[u8]>, Searched)
    requires { IsSearched has_archive_line searched text.bytes.now }
    ensures line { option_map (λ line. line.now) result.0
        ≡ find is_archive_line (lines_of text.entry.bytes.now) }
    ensures searched { IsSearched has_archive_line result.1 text.entry.bytes.now }
{
    let (front, back) = match searched {
        Searched::Nowhere => return (None, Searched::Nowhere),
        Searched::Ends { front, back } => (front, back),
    };
    let (lines, behind) = unknown_lines(text, front, back);
    match first_archive_line(Lines { bytes: lines }) {
        None => (None, Searched::Nowhere),
        Some((line, rest)) => {
            let front = text.bytes.len() - behind.len() - rest.bytes.len() - line.len() - 1;
            (Some(line), Searched::Ends { front, back })
        }
    }
}

/// The value of the text's first `#+ARCHIVE:` line, where that isn't empty.
fn value_of_text<'a>(text: Lines<'a>, searched: &mut Searched) -> Option<&'a [u8]>
    requires { IsSearched has_archive_line searched.old text.bytes.now }
    ensures value { option_map (λ value. value.now) result
        ≡ value_of_lines (lines_of text.entry.bytes.now) }
    ensures searched { IsSearched has_archive_line searched.new text.entry.bytes.now }
{
    let (line, known) = archive_line(text, *searched);
    *searched = known;
    nonempty(trimmed(mark_and_value(line?).1))
}

/// The value that counts for a heading: that of the nearest property, of the text, or the default.
fn value_for<'a>(outline: &Outline<'a>, node: Node, searched: &mut Searched) -> &'a [u8]
    requires node { node < node_count (tree outline.now.text) }
    requires searched { IsSearched has_archive_line searched.old outline.now.text }
    ensures value { result.now ≡ value_for outline.now.text node }
    ensures searched { IsSearched has_archive_line searched.new outline.now.text }
{
    if let Some(value) = nearest(outline, node, b"ARCHIVE") {
        return value;
    }
    let bytes = outline.text();
    value_of_text(Lines { bytes }, searched).unwrap_or(b"%s_archive::")
}

/// What stands before and after the first `::`.
fn halves(value: &[u8]) -> Option<(&[u8], &[u8])>
    ensures { option_map halves_made result ≡ halves_of value.now }
{
    let mut left = value;
    while let Some((_, rest)) = left.split_first() {
        if let Some(heading) = left.strip_prefix(b"::") {
            return Some((value.split_at(value.len() - left.len()).0, heading));
        }
        left = rest;
    }
    None
}

/// Whether a heading line of these parts has a title, and nothing else.
fn is_title_alone(parts: &HeadParts<'_>) -> bool
    ensures { (said : Parts) → AreParts parts.now said → result ≡ is_title_alone said }
{
    parts.keyword.is_empty()
        && parts.priority.is_empty()
        && parts.tags.is_empty()
        && !parts.title.is_empty()
}

/// The level and the title of the heading that the line is, where it is a title alone; level 0 of
/// no line.
fn heading<'a>(states: &States, line: &'a [u8]) -> Option<(usize, &'a [u8])>
    ensures value { option_map heading_made result ≡ heading_of states.now line.now }
    ensures low { IfSome result (λ heading. heading.0 + 1 < 2 ^ 63) }
{
    if line.is_empty() {
        return Some((0, line));
    }
    let level = heading_level(line)?;
    let parts = HeadParts::of(states, line.split_at(level).1);
    if is_title_alone(&parts) {
        Some((level, parts.title))
    } else {
        None
    }
}

/// The text with a name in the place of each `%s`.
fn with_name(alloc: Global, name: &[u8], text: &[u8]) -> Result<Vec<u8>, AllocError>
    ensures { IfOk result (λ made. made.items ≡ with_name name.now text.now) }
{
    let mut made = Vec::new(alloc);
    let mut left = text;
    while let Some((first, rest)) = left.split_first() {
        if let Some(behind) = left.strip_prefix(b"%s") {
            made.extend_from_slice(name)?;
            left = behind;
        } else {
            made.push(*first)?;
            left = rest;
        }
    }
    Ok(made)
}

/// The name of the file that the text says in the file of this name. It is read from the folder of
/// that file, `%s` is its own name there, and `..` leads one folder up. An empty text is the own
/// file. None leads above the store.
fn file_text(alloc: Global, name: &FileName, text: &[u8]) -> Result<Option<Vec<u8>>, AllocError>
    ensures { IfOk result (λ made. option_map (λ file. file.items) made
        ≡ file_named name.now text.now) }
{
    if text.is_empty() {
        return Ok(Some(Vec::from_slice(alloc, name.as_str().as_bytes())?));
    }
    let way = with_name(alloc, name.last_part().as_bytes(), text)?;
    end_of(Vec::from_slice(alloc, name.folder().as_bytes())?, &way)
}

/// The path at the end of a way that begins in the folder at this path, if it doesn't lead above the
/// store.
fn end_of(folder: Vec<u8>, way: &[u8]) -> Result<Option<Vec<u8>>, AllocError>
    ensures { IfOk result (λ made. option_map (λ file. file.items) made
        ≡ at_end folder.items (parts way.now)) }
{
    let mut path = folder;
    let mut start = 0;
    for (at, byte) in way.iter().enumerate() {
        if *byte != b'/' {
            continue;
        }
        if !take_part(&mut path, &way[start..at])? {
            return Ok(None);
        }
        start = at + 1;
    }
    if !take_part(&mut path, &way[start..])? {
        return Ok(None);
    }
    path.pop();
    Ok(Some(path))
}

/// Goes on by a part of a way from the folder at a path, which ends in a slash or is empty. Whether
/// that doesn't lead above the store.
fn take_part(path: &mut Vec<u8>, part: &[u8]) -> Result<bool, AllocError>
    ensures { IfOk result (λ taken. after_part path.old.items part.now
        ≡ (if taken then Some path.new.items else None)) }
{
    if part != b"..".as_slice() {
        path.extend_from_slice(part)?;
        path.push(b'/')?;
        return Ok(true);
    }
    if path.pop().is_none() {
        return Ok(false);
    }
    let above = match memrchr(b'/', path.as_slice()) {
        Some(slash) => slash + 1,
        None => 0,
    };
    path.truncate(above);
    Ok(true)
}

/// The name that the bytes are.
#[tactic(auto, using(crate::proofs::Utf8::is_no_utf8))]
fn file_name(alloc: Global, bytes: &[u8]) -> Result<FileName, Fault<Refusal>>
    ensures { IsNameOf bytes.now result }
{
    let Ok(text) = str::from_utf8(bytes) else {
        return Err(Fault::Refused(Refusal::NoSuchFile));
    };
    match FileName::new(alloc, text) {
        Ok(name) => Ok(name),
        Err(Fault::Refused(BadName)) => Err(Fault::Refused(Refusal::NoSuchFile)),
        Err(Fault::OutOfMemory) => Err(Fault::OutOfMemory),
    }
}

/// The place below this heading, in the file that the text says.
fn place(
    alloc: Global,
    name: &FileName,
    file: &[u8],
    level: usize,
    title: &[u8],
) -> Result<Location, Fault<Refusal>>
    requires { level + 1 < 2 ^ 63 }
    ensures { IsPlaceAs (and_file (option_map (λ file. let to : Destination
        = record { file = file; level = level; title = title.now } in to)
        (file_named name.now file.now))) result }
{
    let Some(file) = file_text(alloc, name, file)? else {
        return Err(Fault::Refused(Refusal::BadLocation));
    };
    let file = file_name(alloc, &file)?;
    let title = Vec::from_slice(alloc, title)?;
    Ok(Location {
        file,
        level,
        title: Bytes::new(title),
    })
}

/// Where a subtree of the file of this name goes when it is archived (Org manual, "Moving a tree to
/// an archive file"): the nearest nonempty property ARCHIVE of it or a heading above it says so;
/// else the text's first line that begins with `#+ARCHIVE:`, if it says something; else it is the
/// top level of the file's archive file. The text is searched for such a line only where it isn't
/// known to have none. What is known after the search is noted.
///
/// # Errors
///
/// In this order:
///
/// - `AlreadyArchive`: the file is an archive file;
/// - `BadLocation`: what was found isn't a file's name, `::` and then nothing or a heading line
///   that is a title alone; or it leads above the store;
/// - `NoSuchFile`: no file can have that name;
/// - `OutOfMemory`.
pub fn location_searched(
    alloc: Global,
    outline: &Outline<'_>,
    name: &FileName,
    node: Node,
    searched: &mut Searched,
) -> Result<Location, Fault<Refusal>>
    requires node { node < node_count (tree outline.now.text) }
    requires searched { IsSearched has_archive_line searched.old outline.now.text }
    ensures place { let states = outline.now.states in
        IsPlaceAs (location_at states name.now outline.now.text node) result }
    ensures searched { IsSearched has_archive_line searched.new outline.now.text }
{
    if name.is_archive() {
        return Err(Fault::Refused(Refusal::AlreadyArchive));
    }
    let Some((file, line)) = halves(value_for(outline, node, searched)) else {
        return Err(Fault::Refused(Refusal::BadLocation));
    };
    let Some((level, title)) = heading(outline.states(), line) else {
        return Err(Fault::Refused(Refusal::BadLocation));
    };
    place(alloc, name, file, level, title)
}
