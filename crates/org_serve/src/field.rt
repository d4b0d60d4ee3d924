//! The fields of a command line: names, paths, targets, positions, texts with escapes.
//!
//! A field without an escape is borrowed from the line.
ghost use Rattle.std.specs.Prelude.{◌≡◌, ◌&&◌, ◌<◌, ◌≤◌, ◌^◌, true, false, Some, None, IfSome, MatchOption, if◌then◌else◌, length};
ghost use Rattle.std.specs.Str.{bytes_eq, is_utf8};
ghost use Rattle.org_disk.specs.Names.{is_file_name};
ghost use Rattle.org_serve.specs.Grammar.{digits_of, escape, leads_with_zero, mark_from, number_of, step_of, unescaped, file_of, path_of, position_of, target_of, place_of, Parses, ParsesAs};

use crate::fault::BadLine;
use org_capture::Target;
use org_disk::{BadName, FileName};
use org_fault::Fault;
use org_outline::{Path, Place, Step};
use org_splice::Bytes;
use org_store::TextOf;
use std::alloc::Global;

/// Whether a field is this word.
pub fn is(field: &[u8], word: &str) -> bool
    ensures { result ≡ bytes_eq field.now word.now }
{
    field == word.as_bytes()
}

fn escape(b: u8) -> Option<u8>
    ensures { result ≡ escape b }
{
    match b {
        b'n' => Some(b'\n'),
        b't' => Some(b'\t'),
        b'\\' => Some(b'\\'),
        b's' => Some(b'/'),
        _ => None,
    }
}

// What a field with an escape stands for.
fn read_escapes(alloc: Global, field: &[u8]) -> Result<Vec<u8>, Fault<BadLine>>
    ensures { ParsesAs (λ v. v.items) result (unescaped field.now) }
{
    let mut text = Vec::with_capacity(alloc, field.len())?;
    let mut is_escaped = false;
    for b in field {
        if is_escaped {
            let Some(c) = escape(*b) else {
                return Err(Fault::Refused(BadLine));
            };
            text.push(c)?;
            is_escaped = false;
        } else if *b == b'\\' {
            is_escaped = true;
        } else {
            text.push(*b)?;
        }
    }
    if is_escaped {
        return Err(Fault::Refused(BadLine));
    }
    Ok(text)
}

// What a field stands for. Most have no escape, and are copied at once.
fn unescape(alloc: Global, field: &[u8]) -> Result<Vec<u8>, Fault<BadLine>>
    ensures { ParsesAs (λ v. v.items) result (unescaped field.now) }
{
    if !field.contains(&b'\\') {
        return Ok(field.to_vec(alloc)?);
    }
    read_escapes(alloc, field)
}

/// The text that a field TEMPLATE, INITIAL, STATE, OLD or NEW is: the field as it stands, which
/// isn't copied, where it has no escape.
///
/// # Errors
///
/// - `BadLine`: it has a wrong escape.
/// - `OutOfMemory`.
pub fn text(alloc: Global, field: &[u8]) -> Result<TextOf<'_>, Fault<BadLine>>
    ensures { Parses result (unescaped field.now) }
{
    if !field.contains(&b'\\') {
        return Ok(TextOf::given(field));
    }
    Ok(TextOf::made(read_escapes(alloc, field)?))
}

#[tactic(auto, using(crate::proofs::Utf8::is_no_utf8, crate::proofs::Utf8::is_some_utf8))]
fn utf8(bytes: &[u8]) -> Option<&str>
    ensures { MatchOption result (is_utf8 bytes.now ≡ false)
        (λ text. (is_utf8 bytes.now ≡ true) × (text.now ≡ bytes.now)) }
{
    match str::from_utf8(bytes) {
        Ok(text) => Some(text),
        Err(_) => None,
    }
}

// The name that bytes are.
fn named(alloc: Global, bytes: &[u8]) -> Result<FileName, Fault<BadLine>>
    ensures { Parses result
        (if is_utf8 bytes.now && is_file_name bytes.now then Some bytes.now else None) }
{
    let Some(name) = utf8(bytes) else {
        return Err(Fault::Refused(BadLine));
    };
    match FileName::new(alloc, name) {
        Ok(name) => Ok(name),
        Err(Fault::Refused(BadName)) => Err(Fault::Refused(BadLine)),
        Err(Fault::OutOfMemory) => Err(Fault::OutOfMemory),
    }
}

/// The name that a field FILE is.
///
/// # Errors
///
/// - `BadLine`: it is no file name.
/// - `OutOfMemory`.
#[tactic(auto, unfolding(crate::specs::Grammar::file_of))]
pub fn file(alloc: Global, field: &[u8]) -> Result<FileName, Fault<BadLine>>
    ensures { Parses result (file_of field.now) }
{
    // Most fields have no escape, and are the name as they stand.
    if !field.contains(&b'\\') {
        return named(alloc, field);
    }
    let name = read_escapes(alloc, field)?;
    named(alloc, &name)
}

// Where the `#` of the first `\#` stands that isn't after an escaped backslash.
fn mark(field: &[u8]) -> Option<usize>
    ensures place { result ≡ mark_from false 0 field.now }
    ensures within { IfSome result (λ at. (1 ≤ at) × (at < length field.now)) }
{
    let mut is_escaped = false;
    for (at, b) in field.iter().enumerate() {
        if is_escaped && *b == b'#' {
            return Some(at);
        }
        is_escaped = !is_escaped && *b == b'\\';
    }
    None
}

// The number that one to this many digits write.
fn digits(field: &[u8], most: usize) -> Option<usize>
    requires { most ≤ 9 }
    ensures value { result ≡ digits_of most field.now }
    ensures within { IfSome result (λ n. n < 10 ^ 9) }
{
    if field.is_empty() || field.len() > most {
        return None;
    }
    let mut number = 0;
    for b in field {
        if !b.is_ascii_digit() {
            return None;
        }
        number = 10 * number + usize::from(*b - b'0');
    }
    Some(number)
}

// The number that stands after the mark of a step.
fn number(field: &[u8]) -> Option<u32>
    ensures { result ≡ number_of field.now }
{
    if !field.is_empty() && field[0] == b'0' {
        return None;
    }
    let number = digits(field, 9)?;
    Some(number as u32)
}

// The step that a part of a path is: a title, or a title, `\#` and a number.
#[tactic(auto, unfolding(crate::specs::Grammar::step_of))]
fn step(alloc: Global, field: &[u8]) -> Result<Step, Fault<BadLine>>
    ensures { Parses result (step_of field.now) }
{
    let Some(at) = mark(field) else {
        let title = Bytes::new(unescape(alloc, field)?);
        return Ok(Step {
            title,
            number: None,
        });
    };
    let number = number(&field[at + 1..]).ok_or(Fault::Refused(BadLine))?;
    let title = Bytes::new(unescape(alloc, &field[..at - 1])?);
    Ok(Step {
        title,
        number: Some(number),
    })
}

/// The path that a field PATH is: steps with slashes between them, of which there is one more than
/// slashes.
///
/// # Errors
///
/// - `BadLine`: a step has a wrong escape, or a wrong number.
/// - `OutOfMemory`.
pub fn path(alloc: Global, field: &[u8]) -> Result<Path, Fault<BadLine>>
    ensures { Parses result (path_of field.now) }
{
    let mut steps = Vec::new(alloc);
    for part in field.split(|b| *b == b'/') {
        steps.push(step(alloc, part)?)?;
    }
    Ok(Path::new(steps))
}

/// The target that a field TARGET is.
///
/// # Errors
///
/// - `BadLine`: it is none.
/// - `OutOfMemory`.
#[tactic(auto, unfolding(crate::specs::Grammar::target_of))]
pub fn target(alloc: Global, field: &[u8]) -> Result<Target, Fault<BadLine>>
    ensures { Parses result (target_of field.now) }
{
    if is(field, "top") {
        Ok(Target::Top)
    } else if is(field, "date") {
        Ok(Target::Date(Path::new(Vec::new(alloc))))
    } else if let Some(part) = field.strip_prefix(b"head:") {
        Ok(Target::Head(step(alloc, part)?))
    } else if let Some(steps) = field.strip_prefix(b"path:") {
        Ok(Target::Path(path(alloc, steps)?))
    } else if let Some(steps) = field.strip_prefix(b"date:") {
        Ok(Target::Date(path(alloc, steps)?))
    } else {
        Err(Fault::Refused(BadLine))
    }
}

/// The place that a field PLACE is, if it is one.
#[tactic(auto, unfolding(crate::specs::Grammar::place_of))]
pub fn place(field: &[u8]) -> Option<Place>
    ensures { result ≡ place_of field.now }
{
    if is(field, "first") {
        Some(Place::First)
    } else if is(field, "last") {
        Some(Place::Last)
    } else {
        None
    }
}

// Whether a zero stands in front of other bytes.
fn leads_with_zero(field: &[u8]) -> bool
    ensures { result ≡ leads_with_zero field.now }
{
    field.len() > 1 && field[0] == b'0'
}

/// The byte position that a field AT is, if it is one: a number of at most eight digits, without a
/// zero in front of others.
#[tactic(auto, unfolding(crate::specs::Grammar::position_of))]
pub fn position(field: &[u8]) -> Option<usize>
    ensures { result ≡ position_of field.now }
{
    if leads_with_zero(field) {
        return None;
    }
    digits(field, 8)
}
