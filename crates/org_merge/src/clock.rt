//! Clock lines and lines of a log, as a merge compares them (Org Syntax, "Clocks").
use crate::text::{cut, cut_from};
use memchr::memchr;
use org_splice::blanks::{behind_blanks, blank_count, trimmed_end};
use org_stamp::{Moment, Stamp};
use std::cmp::Ordering;

/// A clock line.
#[derive(Clone, Copy)]
pub(crate) struct Clock<'a> {
    /// The line up to the end of its first timestamp.
    pub(crate) head: &'a [u8],
    /// When it ends; None of a clock that runs.
    pub(crate) end: Option<i64>,
}

/// The moment of the timestamp of a clock that a text begins with, and the timestamp's size.
fn clock_stamp(text: &[u8]) -> Option<(Moment, usize)> {
    let (stamp, size) = Stamp::read(text)?;
    if stamp.is_active() || !stamp.has_time() || stamp.has_cookies() {
        return None;
    }
    Some((stamp.moment(), size))
}

/// What follows the blanks that a text begins with.
fn after_some_blanks(text: &[u8]) -> Option<&[u8]> {
    match blank_count(text) {
        0 => None,
        count => Some(cut_from(text, count)),
    }
}

/// How many digits a text begins with.
fn digit_count(text: &[u8]) -> usize {
    for (count, byte) in text.iter().enumerate() {
        if !byte.is_ascii_digit() {
            return count;
        }
    }
    text.len()
}

/// Whether a text is a duration, such as ` =>  1:30`.
fn is_duration(text: &[u8]) -> bool {
    let Some(arrow) = after_some_blanks(text) else {
        return false;
    };
    let Some(hours) = arrow.strip_prefix(b"=>") else {
        return false;
    };
    let Some(hours) = after_some_blanks(hours) else {
        return false;
    };
    let count = digit_count(hours);
    count > 0
        && matches!(cut_from(hours, count), [b':', tens, ones] if tens.is_ascii_digit() && ones.is_ascii_digit())
}

/// When a clock ends that `--`, a timestamp and a duration close.
fn end_of(start: Moment, text: &[u8]) -> Option<i64> {
    let second = text.strip_prefix(b"--")?;
    let (end, size) = clock_stamp(second)?;
    if !is_duration(cut_from(second, size)) || end.minutes() < start.minutes() {
        return None;
    }
    Some(end.minutes())
}

/// The clock that a line is.
pub(crate) fn clock_of(line: &[u8]) -> Option<Clock<'_>> {
    let body = trimmed_end(line);
    let text = after_some_blanks(behind_blanks(body).strip_prefix(b"CLOCK:")?)?;
    let (start, size) = clock_stamp(text)?;
    let at = body.len().saturating_sub(text.len()).saturating_add(size);
    let head = cut(body, 0, at);
    if at >= body.len() {
        return Some(Clock { head, end: None });
    }
    let end = end_of(start, cut_from(body, at))?;
    Some(Clock {
        head,
        end: Some(end),
    })
}

/// When a line of a log was written.
#[derive(Clone, Copy)]
pub(crate) struct Logged<'a> {
    date: &'a [u8],
    time: &'a [u8],
}

/// Which of two was written later. A line without a time comes first on its day.
pub(crate) fn compare(one: Logged<'_>, other: Logged<'_>) -> Ordering {
    match one.date.cmp(&other.date) {
        Ordering::Equal => compare_times(one.time, other.time),
        unequal => unequal,
    }
}

/// Which of two times is later: with more digits, or else by its digits.
fn compare_times(one: &[u8], other: &[u8]) -> Ordering {
    match one.len().cmp(&other.len()) {
        Ordering::Equal => one.cmp(&other),
        unequal => unequal,
    }
}

/// Whether a text begins with a date, such as `2026-07-01`.
fn begins_with_date(text: &[u8]) -> bool {
    match cut(text, 0, 10) {
        [a, b, c, d, b'-', e, f, b'-', g, h] => cut(&[*a, *b, *c, *d, *e, *f, *g, *h], 0, 8)
            .iter()
            .all(|byte| byte.is_ascii_digit()),
        _ => false,
    }
}

/// The time that a text ends with, after a space.
fn last_time(text: &[u8]) -> &[u8] {
    let size = text.len();
    match text {
        [.., b' ', a, b, b':', c, d] if are_digits(*a, *b, *c, *d) => {
            cut_from(text, size.saturating_sub(5))
        }
        [.., b' ', b, b':', c, d] if are_digits(b'0', *b, *c, *d) => {
            cut_from(text, size.saturating_sub(4))
        }
        _ => &[],
    }
}

fn are_digits(a: u8, b: u8, c: u8, d: u8) -> bool {
    a.is_ascii_digit() && b.is_ascii_digit() && c.is_ascii_digit() && d.is_ascii_digit()
}

/// What follows the word that a line of a log begins with.
fn after_log_word(line: &[u8]) -> Option<&[u8]> {
    let body = behind_blanks(line);
    match body.strip_prefix(b"CLOCK:") {
        Some(text) => Some(text),
        None => body.strip_prefix(b"- State "),
    }
}

/// When a clock or a note of a state was written: its first bracket with a date.
pub(crate) fn logged_of(line: &[u8]) -> Option<Logged<'_>> {
    let text = after_log_word(line)?;
    for (at, byte) in text.iter().enumerate() {
        let inside = cut_from(text, at.saturating_add(1));
        if *byte == b'[' && begins_with_date(inside) {
            let end = memchr(b']', inside)?;
            return Some(Logged {
                date: cut(inside, 0, 10),
                time: last_time(cut(inside, 10, end)),
            });
        }
    }
    None
}
