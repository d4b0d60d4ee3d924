//! Clock lines (Org Syntax, "Clocks"): open ones, and closed ones with their minutes.
//!
//! Minutes are counted from the two stamps; the duration that is written isn't believed.
ghost use Rattle.std.specs.Prelude.{◌≡◌, ◌≤◌, length, IfSome, codes, nat_eq, map};
ghost use Rattle.std.specs.Option.{option_map};
ghost use Rattle.std.specs.List.{prefix_len};
ghost use Rattle.std.specs.Char.{is_ascii_digit};
ghost use Rattle.org_splice.specs.Lines.{lines_of};
ghost use Rattle.org_meta.specs.Clocks.{is_clock_stamp, clock_stamp_at, behind_some, behind_mark, are_minutes, behind_hours, is_duration, minutes_between, closed_minutes, clock_from, clock_of, head_of, running_clock, is_open, minutes_in, total, open_line, HasOpenAt};
ghost use Rattle.org_splice.specs.Blanks.{is_blank, trimmed_end, behind};

use crate::lines::Lines;
use org_splice::Span;
use org_splice::blanks::{behind_blanks, blank_count, trimmed_end};
use org_stamp::{Moment, Stamp};

/// A clock that runs.
#[derive(Clone, Copy)]
pub(crate) struct Running {
    pub start: Moment,
    /// How many bytes of its line go up to the end of the timestamp.
    pub head: usize,
}

/// What a clock line says.
#[derive(Clone, Copy)]
pub(crate) enum Clock {
    Open(Running),
    Closed { minutes: u64 },
}

/// Whether the stamp is inactive, with one time, and no repeater or delay.
fn is_clock_stamp(stamp: &Stamp) -> bool
    ensures { result ≡ is_clock_stamp stamp.now }
{
    !stamp.is_active() && stamp.has_time() && !stamp.has_cookies()
}

/// Where the stamp at the front of the text starts, and the number of its bytes.
fn clock_stamp(text: &[u8]) -> Option<(Moment, usize)>
    ensures value { result ≡ clock_stamp_at text.now }
    ensures within { IfSome result (λ r. r.1 ≤ length text.now) }
{
    let (stamp, size) = Stamp::read(text)?;
    if is_clock_stamp(&stamp) {
        Some((stamp.moment(), size))
    } else {
        None
    }
}

/// What follows the mark.
fn behind_mark<'a>(mark: &[u8], text: &'a [u8]) -> Option<&'a [u8]>
    ensures value { option_map (λ rest. rest.now) result ≡ behind_mark mark.now text.now }
    ensures within { IfSome result (λ rest. length rest.now ≤ length text.now) }
{
    if text.starts_with(mark) {
        Some(text.split_at(mark.len()).1)
    } else {
        None
    }
}

/// What follows the blanks, of which there is one at least.
fn behind_some_blanks(text: &[u8]) -> Option<&[u8]>
    ensures value { option_map (λ rest. rest.now) result ≡ behind_some is_blank text.now }
    ensures within { IfSome result (λ rest. length rest.now ≤ length text.now) }
{
    match blank_count(text) {
        0 => None,
        count => Some(text.split_at(count).1),
    }
}

/// What follows the digits, of which there is one at least.
fn behind_some_digits(text: &[u8]) -> Option<&[u8]>
    ensures { option_map (λ rest. rest.now) result ≡ behind_some is_ascii_digit text.now }
{
    match digits(text) {
        0 => None,
        count => Some(text.split_at(count).1),
    }
}

/// How many digits the text begins with.
fn digits(text: &[u8]) -> usize
    ensures count { result ≡ prefix_len is_ascii_digit text.now }
    ensures within { result ≤ length text.now }
{
    for (count, byte) in text.iter().enumerate() {
        if !byte.is_ascii_digit() {
            return count;
        }
    }
    text.len()
}

/// Whether the text is a colon and two digits.
fn are_minutes(text: &[u8]) -> bool
    ensures { result ≡ are_minutes text.now }
{
    matches!(text, [b':', tens, ones] if tens.is_ascii_digit() && ones.is_ascii_digit())
}

/// What follows the blanks, the arrow, blanks and digits of a duration.
fn behind_hours(text: &[u8]) -> Option<&[u8]>
    ensures { option_map (λ rest. rest.now) result ≡ behind_hours text.now }
{
    let arrow = behind_some_blanks(text)?;
    let hours = behind_some_blanks(behind_mark(b"=>", arrow)?)?;
    behind_some_digits(hours)
}

/// Whether the text is a duration, as ` =>  1:30`.
fn is_duration(text: &[u8]) -> bool
    ensures { result ≡ is_duration text.now }
{
    match behind_hours(text) {
        Some(rest) => are_minutes(rest),
        None => false,
    }
}

/// The minutes from the first to the second, unless that lies before the first.
pub(crate) fn minutes_between(first: Moment, second: Moment) -> Option<u64>
    ensures { result ≡ minutes_between first second }
{
    let minutes = second.minutes() - first.minutes();
    if minutes < 0 {
        None
    } else {
        Some(minutes as u64)
    }
}

/// The minutes of a clock that `--`, a second stamp and a duration close.
fn closed_minutes(start: Moment, text: &[u8]) -> Option<u64>
    ensures { result ≡ closed_minutes start text.now }
{
    let second = behind_mark(b"--", text)?;
    let (end, size) = clock_stamp(second)?;
    if is_duration(second.split_at(size).1) {
        minutes_between(start, end)
    } else {
        None
    }
}

/// The clock of a line whose first stamp starts there and ends after `head` bytes; `text` follows
/// that stamp.
fn clock_from(start: Moment, head: usize, text: &[u8]) -> Option<Clock>
    ensures value { result ≡ clock_from start head text.now }
    ensures within { IfSome result (λ clock. head_of clock ≤ head) }
{
    if text.is_empty() {
        return Some(Clock::Open(Running { start, head }));
    }
    let minutes = closed_minutes(start, text)?;
    Some(Clock::Closed { minutes })
}

/// The clock that the line says.
fn clock_of(line: &[u8]) -> Option<Clock>
    ensures value { result ≡ clock_of line.now }
    ensures within { IfSome result (λ clock. head_of clock ≤ length line.now) }
{
    let body = trimmed_end(line);
    let text = behind_some_blanks(behind_mark(b"CLOCK:", behind_blanks(body))?)?;
    let (start, size) = clock_stamp(text)?;
    let head = body.len() - text.len() + size;
    clock_from(start, head, text.split_at(size).1)
}

/// The clock of an open clock line.
pub(crate) fn running_clock(line: &[u8]) -> Option<Running>
    ensures value { result ≡ running_clock line.now }
    ensures within { IfSome result (λ running. running.head ≤ length line.now) }
{
    match clock_of(line) {
        Some(Clock::Open(running)) => Some(running),
        _ => None,
    }
}

/// Whether the line is an open clock.
fn is_open(line: &[u8]) -> bool
    ensures { result ≡ is_open line.now }
{
    running_clock(line).is_some()
}

/// The minutes of a closed clock line.
fn minutes_in(line: &[u8]) -> u64
    ensures { result ≡ minutes_in line.now }
{
    match clock_of(line) {
        Some(Clock::Closed { minutes }) => minutes,
        _ => 0,
    }
}

/// The minutes of the closed clock lines of a heading's section, at most 2^64 - 1 (Org Syntax,
/// "Clocks"): from their first timestamps to their second ones; the written durations aren't read.
/// Takes no memory.
pub fn total(section: Lines<'_>) -> u64
    ensures { result ≡ total (lines_of section.entry.bytes.now) }
{
    let mut left = section;
    let mut minutes: u64 = 0;
    while let Some((line, rest)) = left.first() {
        minutes = minutes.saturating_add(minutes_in(line));
        left = rest;
    }
    minutes
}

/// The first open clock line of a heading's section (Org Syntax, "Clocks"), with its newline. Takes
/// no memory.
pub fn find_open(section: Lines<'_>) -> Option<Span>
    ensures first { result ≡ open_line (lines_of section.entry.bytes.now) }
    ensures stands { IfSome result (HasOpenAt section.entry.bytes.now) }
{
    let mut left = section;
    while let Some((line, rest)) = left.first() {
        if is_open(line) {
            return Some(Span {
                start: section.bytes.len() - left.bytes.len(),
                end: section.bytes.len() - rest.bytes.len(),
            });
        }
        left = rest;
    }
    None
}
