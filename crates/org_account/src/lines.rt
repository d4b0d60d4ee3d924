//! Lines of a text: how often one stands there, plain or quoted, and what kind it is.
ghost use Rattle.std.specs.Prelude.{◌≡◌, ◌<◌, ◌≤◌, ◌∷◌, ◌++◌, ℕ, List, codes, length, drop, IsTrue, IfSome};
ghost use Rattle.std.specs.List.{prefix_len};
ghost use Rattle.memchr.specs.Find.{OccursAt};
ghost use Rattle.std.specs.Str.{bytes_eq};
ghost use Rattle.org_splice.specs.Lines.{lines_of};
ghost use Rattle.org_account.specs.Text.{copies, quoted, key_of, is_inside, are_rivals, is_single, IsToldLine, IsToldOf, IsConflict, is_property, is_keyed, is_log_start, is_end, has_end};

use memchr::{memchr, memmem};
use org_splice::blanks::{behind_blanks, solid_count, trimmed};

/// What a line begins with that holds another one.
pub(crate) const QUOTE: &[u8] = b": CONFLICT: ";

/// What stands between the fields of a line of the report.
const TAB: &[u8] = b"\t";

/// The same before a heading.
const TAB_STAR: &[u8] = b"\t*";

/// What a line of the report begins with that tells of a conflict.
const CONFLICT: &[u8] = b"conflict\t";

/// What a line begins with that holds a heading.
pub(crate) const HEADING_QUOTE: &[u8] = b": CONFLICT: *";

/// The first line of a text, and what follows it.
pub(crate) fn first_line(text: &[u8]) -> (&[u8], &[u8])
    requires { 0 < length text.now }
    ensures lines { lines_of text.now ≡ result.0.now ∷ lines_of result.1.now }
    ensures less { length result.1.now < length text.now }
{
    match memchr(b'\n', text) {
        None => (text, &[]),
        Some(end) => {
            let (line, rest) = text.split_at(end);
            (line, rest.split_at(1).1)
        }
    }
}

/// Whether a line quotes this one.
pub(crate) fn is_quote_of(quote: &[u8], line: &[u8]) -> bool
    ensures { result ≡ bytes_eq quote.now (quoted line.now) }
{
    match quote.strip_prefix(QUOTE) {
        Some(held) => held == line,
        None => false,
    }
}

/// How often a line stands in a text.
pub(crate) fn copies(line: &[u8], text: &[u8]) -> usize
    ensures value { result ≡ copies line.now text.now }
    ensures few { result ≤ length text.now }
{
    let most = text.len();
    let mut count: usize = 0;
    let mut left = text;
    while !left.is_empty() {
        let (first, rest) = first_line(left);
        if first == line {
            prove!(count < most);
            count += 1;
        }
        left = rest;
    }
    count
}

/// How often a line stands quoted in a text.
pub(crate) fn quotes(line: &[u8], text: &[u8]) -> usize
    ensures value { result ≡ copies (quoted line.now) text.now }
    ensures few { result ≤ length text.now }
{
    let most = text.len();
    let mut count: usize = 0;
    let mut left = text;
    while !left.is_empty() {
        let (first, rest) = first_line(left);
        if is_quote_of(first, line) {
            prove!(count < most);
            count += 1;
        }
        left = rest;
    }
    count
}

/// Whether a line ends with both parts, one after the other.
fn ends_with_both(line: &[u8], front: &[u8], back: &[u8]) -> bool
    ensures { IsTrue result → (more : List ℕ) × (line.now ≡ more ++ (front.now ++ back.now)) }
{
    match line.strip_suffix(back) {
        Some(left) => left.ends_with(front),
        None => false,
    }
}

/// Whether the last field of a line of the report is both parts, one after the other.
fn tells(told: &[u8], front: &[u8], back: &[u8]) -> bool
    ensures { IsTrue result → (fields : List ℕ)
        × (0 < copies (fields ++ (front.now ++ back.now)) told.now) }
{
    let mut left = told;
    while !left.is_empty() {
        let (first, rest) = first_line(left);
        if ends_with_both(first, front, back) {
            return true;
        }
        left = rest;
    }
    false
}

/// Whether the report tells a line.
pub(crate) fn is_told_line(told: &[u8], line: &[u8]) -> bool
    ensures { IsTrue result → IsToldLine told.now line.now }
{
    tells(told, TAB, line)
}

/// Whether the report tells a heading, given by what follows its stars.
pub(crate) fn is_told_heading(told: &[u8], line: &[u8]) -> bool
    ensures { IsTrue result → IsToldLine told.now (42 ∷ line.now) }
{
    tells(told, TAB_STAR, line)
}

/// Whether a line of the report has these bytes.
pub(crate) fn is_told_of(told: &[u8], bytes: &[u8]) -> bool
    ensures { IsTrue result → (line : List ℕ)
        × ((k : ℕ) × (0 < copies line told.now) × OccursAt line bytes.now k) }
{
    let mut left = told;
    while !left.is_empty() {
        let (first, rest) = first_line(left);
        if let Some(_) = memmem::find(first, bytes) {
            return true;
        }
        left = rest;
    }
    false
}

/// Whether the report tells of a conflict.
pub(crate) fn is_conflict(told: &[u8]) -> bool
    ensures { IsTrue result → IsConflict told.now }
{
    let mut left = told;
    while !left.is_empty() {
        let (first, rest) = first_line(left);
        if let Some(_) = first.strip_prefix(CONFLICT) {
            return true;
        }
        left = rest;
    }
    false
}

/// Whether what follows a line's blanks is a property.
fn is_property(body: &[u8]) -> bool
    ensures { result ≡ is_property body.now }
{
    let run = body.split_at(solid_count(body)).0;
    run.len() >= 3 && run[0] == b':' && run[run.len() - 1] == b':'
}

/// Whether a line is a clock, a planning line or a property.
fn is_keyed(line: &[u8]) -> bool
    ensures { result ≡ is_keyed line.now }
{
    let body = behind_blanks(line);
    body.starts_with(b"CLOCK:")
        || body.starts_with(b"CLOSED:")
        || body.starts_with(b"DEADLINE:")
        || body.starts_with(b"SCHEDULED:")
        || is_property(body)
}

/// How many bytes stand before the first closing bracket.
fn inside_count(body: &[u8]) -> usize
    ensures count { result ≡ prefix_len is_inside body.now }
    ensures within { result ≤ length body.now }
{
    memchr(b']', body).unwrap_or(body.len())
}

/// What a keyed line is known by.
fn key_of(line: &[u8]) -> &[u8]
    ensures { result.now ≡ key_of line.now }
{
    let body = behind_blanks(line);
    if body.starts_with(b"CLOCK:") {
        body.split_at(inside_count(body)).0
    } else {
        body.split_at(solid_count(body)).0
    }
}

/// Whether a keyed line says something besides its key.
pub(crate) fn is_single(line: &[u8]) -> bool
    ensures { result ≡ is_single line.now }
{
    is_keyed(line) && key_of(line).len() < trimmed(line).len()
}

/// Whether two such lines are known by one key and say different things.
pub(crate) fn are_rivals(line: &[u8], other: &[u8]) -> bool
    ensures { result ≡ are_rivals line.now other.now }
{
    is_single(line)
        && (is_single(other) && (key_of(line).eq_ignore_ascii_case(key_of(other)) && line != other))
}

/// Whether a line begins a LOGBOOK drawer.
pub(crate) fn is_log_start(line: &[u8]) -> bool
    ensures { result ≡ is_log_start line.now }
{
    trimmed(line).eq_ignore_ascii_case(b":LOGBOOK:")
}

/// Whether a line ends a drawer.
pub(crate) fn is_end(line: &[u8]) -> bool
    ensures { result ≡ is_end line.now }
{
    trimmed(line).eq_ignore_ascii_case(b":END:")
}

/// Whether a line of a text ends a drawer.
pub(crate) fn has_end(text: &[u8]) -> bool
    ensures { result ≡ has_end (lines_of text.now) }
{
    let mut left = text;
    while !left.is_empty() {
        let (first, rest) = first_line(left);
        if is_end(first) {
            return true;
        }
        left = rest;
    }
    false
}
