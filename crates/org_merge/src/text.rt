//! Lines of a text, and what a line is.
ghost use Rattle.std.specs.Prelude.{◌≡◌, ◌<◌, ◌≤◌, ◌∷◌, ◌++◌, [], length, IfOk, OnOk};
ghost use Rattle.std.specs.List.{suffix_len};
ghost use Rattle.org_splice.specs.Lines.{lines_of, terminated};
ghost use Rattle.org_merge.specs.Reading.{as_read, bare, is_return};

use memchr::{memchr, memrchr};
use org_headings::is_terminated;
use org_meta::{Lines, sections};
use org_splice::blanks::{behind_blanks, solid_count, trimmed};
use std::alloc::{AllocError, Global};

/// The first line of a text, and what follows it.
pub(crate) fn first_line(text: &[u8]) -> (&[u8], &[u8])
    requires { 0 < length text.now }
    ensures lines { lines_of text.now ≡ result.0.now ∷ lines_of result.1.now }
    ensures less { length result.1.now < length text.now }
{
    match memchr(b'\n', text) {
        None => (text, &[]),
        Some(end) => {
            let (line, rest) = text.split_at(end);
            (line, rest.split_at(1).1)
        }
    }
}

/// The lines of a text, without their newlines.
pub(crate) fn lines_of(alloc: Global, text: &[u8]) -> Result<Vec<&[u8]>, AllocError> {
    let mut lines = Vec::new(alloc);
    let mut left = text;
    while !left.is_empty() {
        let (line, rest) = first_line(left);
        lines.push(line)?;
        left = rest;
    }
    Ok(lines)
}

/// Puts a line at a text's end.
pub(crate) fn push_line(text: &mut Vec<u8>, line: &[u8]) -> Result<(), AllocError> {
    text.extend_from_slice(line)?;
    text.push(b'\n')?;
    Ok(())
}

/// The bytes from one place to another; none where the text doesn't reach there.
pub(crate) fn cut(text: &[u8], start: usize, end: usize) -> &[u8] {
    text.get(start..end).unwrap_or(&[])
}

/// The bytes of a text from a place on.
pub(crate) fn cut_from(text: &[u8], start: usize) -> &[u8] {
    text.get(start..).unwrap_or(&[])
}

/// How many carriage returns a line ends with.
fn return_count(line: &[u8]) -> usize
    ensures count { result ≡ suffix_len is_return line.now }
    ensures within { result ≤ length line.now }
{
    let mut start = line.len();
    while start > 0 && line[start - 1] == b'\r' {
        start -= 1;
    }
    line.len() - start
}

/// A line without the carriage returns at its end.
pub(crate) fn bare(line: &[u8]) -> &[u8]
    ensures { result.now ≡ bare line.now }
{
    line.split_at(line.len() - return_count(line)).0
}

/// Puts a line at a text's end, without the carriage returns at its own, and with a newline.
fn push_bare(text: &mut Vec<u8>, line: &[u8]) -> Result<(), AllocError>
    ensures { OnOk result (text.new.items ≡ text.old.items ++ (bare line.now ++ 10 ∷ [])) }
{
    text.extend_from_slice(bare(line))?;
    text.push(b'\n')?;
    Ok(())
}

/// A text whose lines have no carriage returns at their ends, and each its newline.
pub(crate) fn bare_text(alloc: Global, text: &[u8]) -> Result<Vec<u8>, AllocError>
    ensures value { IfOk result (λ out. out.items ≡ as_read text.now) }
    ensures whole { IfOk result (λ out. terminated out.items ≡ out.items) }
{
    let mut out = Vec::with_capacity(alloc, text.len())?;
    let mut left = text;
    while !left.is_empty() {
        let (line, rest) = first_line(left);
        push_bare(&mut out, line)?;
        left = rest;
    }
    Ok(out)
}

/// Whether a text has no carriage return.
pub(crate) fn is_bare(text: &[u8]) -> bool {
    memchr(b'\r', text).is_none()
}

/// Whether a line is a mark, such as `:END:`.
pub(crate) fn is_mark(line: &[u8], mark: &[u8]) -> bool {
    trimmed(line).eq_ignore_ascii_case(mark)
}

/// The name and the value of a property line (Org Syntax, "Node Properties").
pub(crate) fn property_of(line: &[u8]) -> Option<(&[u8], &[u8])> {
    let body = trimmed(line);
    let (run, value) = body.split_at(solid_count(body));
    match run {
        [b':', name @ .., b':'] if !name.is_empty() => Some((name, behind_blanks(value))),
        _ => None,
    }
}

/// The digits of a text.
pub(crate) fn digits(alloc: Global, text: &[u8]) -> Result<Vec<u8>, AllocError> {
    let mut out = Vec::new(alloc);
    for byte in text {
        if byte.is_ascii_digit() {
            out.push(*byte)?;
        }
    }
    Ok(out)
}

/// Of two texts with moments the later one, by their digits, and then the other; the first is the
/// later one if they have the same.
pub(crate) fn by_digits<'a>(
    alloc: Global,
    one: &'a [u8],
    other: &'a [u8],
) -> Result<(&'a [u8], &'a [u8]), AllocError> {
    if digits(alloc, one)? < digits(alloc, other)? {
        Ok((other, one))
    } else {
        Ok((one, other))
    }
}

/// What a section is split into: planning line, property drawer, and the rest (Org Syntax,
/// "Planning", "Property Drawers").
#[derive(Clone, Copy)]
pub(crate) struct Parts<'a> {
    pub(crate) planning: &'a [u8],
    pub(crate) drawer: &'a [u8],
    pub(crate) rest: &'a [u8],
}

/// Whether a section may begin with a planning line or a drawer, by its first byte that isn't blank.
pub(crate) fn may_have_parts(section: &[u8]) -> bool {
    matches!(behind_blanks(section), [b'C' | b'D' | b'S' | b':', ..])
}

/// The parts of a section.
pub(crate) fn parts_of(section: &[u8]) -> Parts<'_> {
    if !may_have_parts(section) || !is_terminated(section) {
        return Parts {
            planning: &[],
            drawer: &[],
            rest: section,
        };
    }
    let parts = sections(Lines { bytes: section });
    Parts {
        planning: parts.planning.bytes,
        drawer: parts.drawer.bytes,
        rest: parts.rest.bytes,
    }
}

/// A line of a text, without its newline, for a text of one line.
pub(crate) fn without_newline(text: &[u8]) -> &[u8] {
    text.strip_suffix(b"\n").unwrap_or(text)
}

/// The first and the last line of a text, and what stands between, each with its newline. The last
/// line of a text of one line is empty.
pub(crate) fn framed(text: &[u8]) -> (&[u8], &[u8], &[u8]) {
    let Some(end) = memchr(b'\n', text) else {
        return (text, &[], &[]);
    };
    let (first, rest) = (
        cut(text, 0, end.saturating_add(1)),
        cut_from(text, end.saturating_add(1)),
    );
    let last = match memrchr(b'\n', without_newline(rest)) {
        Some(start) => start.saturating_add(1),
        None => 0,
    };
    (first, cut(rest, 0, last), cut_from(rest, last))
}
