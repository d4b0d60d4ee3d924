//! The parts of a timestamp's inside, each read from a run of bytes without a blank.
//!
//! A run is one part or none: which parts may stand together is `inside`'s question.
ghost use Rattle.std.specs.Prelude.{◌≡◌, ◌<◌, ◌≤◌, ◌^◌, ◌==◌, length, IfSome};
ghost use Rattle.std.specs.List.{list_all, position};
ghost use Rattle.org_stamp.specs.Parts.{is_blank, is_closing, is_name_byte, number_of, date_of, minute_if_any, clock_of, times_of, unit_of, interval_of, first_interval_of, marked, repeater_of, delay_of, kind_of};

use crate::calendar::Day;
use crate::kind::{Interval, Kind, Mark, Repeater, Times, Unit};
use memchr::memchr;

/// Whether the byte is a space or a tab.
pub fn is_blank(byte: u8) -> bool
    ensures { result ≡ is_blank byte }
{
    byte == b' ' || byte == b'\t'
}

/// Whether the byte closes a timestamp.
fn is_closing(byte: u8) -> bool
    ensures { result ≡ is_closing byte }
{
    byte == b']' || byte == b'>'
}

fn is_name_byte(byte: u8) -> bool
    ensures { result ≡ is_name_byte byte }
{
    !(is_blank(byte)
        || is_closing(byte)
        || byte.is_ascii_digit()
        || byte == b'\n'
        || byte == b'+'
        || byte == b'-')
}

fn is_name(run: &[u8]) -> bool
    ensures { result ≡ list_all is_name_byte run.now }
{
    run.iter().all(|byte| is_name_byte(*byte))
}

fn find(text: &[u8], byte: u8) -> Option<usize>
    ensures { result ≡ position (λ b. b == byte) text.now }
{
    memchr(byte, text)
}

// The number that one to four digits write.
fn read_number(digits: &[u8]) -> Option<u16>
    ensures value { result ≡ number_of digits.now }
    ensures bound { IfSome result (λ n. n < 10 ^ length digits.now) }
{
    if digits.is_empty() || digits.len() > 4 {
        return None;
    }
    let mut value = 0;
    for byte in digits {
        if !byte.is_ascii_digit() {
            return None;
        }
        value = 10 * value + u16::from(*byte - b'0');
    }
    Some(value)
}

/// The day that `YYYY-MM-DD` writes.
pub fn read_date(text: &[u8]) -> Option<Day>
    ensures { result ≡ date_of text.now }
{
    if text.len() != 10 || text[4] != b'-' || text[7] != b'-' {
        return None;
    }
    Day::new(
        read_number(&text[..4])?,
        read_number(&text[5..7])?,
        read_number(&text[8..])?,
    )
}

fn minute(hours: u16, minutes: u16) -> Option<u16>
    ensures { result ≡ minute_if_any hours minutes }
{
    if hours < 24 && minutes < 60 {
        Some(hours * 60 + minutes)
    } else {
        None
    }
}

// The minute of the day that `H:MM` or `HH:MM` writes.
fn read_clock(text: &[u8]) -> Option<u16>
    ensures { result ≡ clock_of text.now }
{
    if text.len() < 4 || text.len() > 5 || text[text.len() - 3] != b':' {
        return None;
    }
    minute(
        read_number(&text[..text.len() - 3])?,
        read_number(&text[text.len() - 2..])?,
    )
}

// A time, or a range of two.
fn read_times(text: &[u8]) -> Option<Times>
    ensures { result ≡ times_of text.now }
{
    match find(text, b'-') {
        None => Some(Times {
            start: read_clock(text)?,
            end: None,
        }),
        Some(at) => {
            let start = read_clock(&text[..at])?;
            let end = read_clock(&text[at + 1..])?;
            Some(Times {
                start,
                end: Some(end),
            })
        }
    }
}

fn read_unit(byte: u8) -> Option<Unit>
    ensures { result ≡ unit_of byte }
{
    match byte {
        b'h' => Some(Unit::Hour),
        b'd' => Some(Unit::Day),
        b'w' => Some(Unit::Week),
        b'm' => Some(Unit::Month),
        b'y' => Some(Unit::Year),
        _ => None,
    }
}

fn read_interval(text: &[u8]) -> Option<Interval>
    ensures { result ≡ interval_of text.now }
{
    if text.is_empty() {
        return None;
    }
    let last = text.len() - 1;
    let unit = read_unit(text[last])?;
    let value = read_number(&text[..last])?;
    Some(Interval { value, unit })
}

// An interval, and perhaps `/` and a second one.
fn read_first_interval(text: &[u8]) -> Option<Interval>
    ensures { result ≡ first_interval_of text.now }
{
    match find(text, b'/') {
        None => read_interval(text),
        Some(at) => read_interval(&text[at + 1..]).and(read_interval(&text[..at])),
    }
}

fn read_marked(mark: Mark, text: &[u8]) -> Option<Repeater>
    ensures { result ≡ marked mark text.now }
{
    let interval = read_first_interval(text)?;
    Some(Repeater { mark, interval })
}

// A mark and intervals.
fn read_repeater(text: &[u8]) -> Option<Repeater>
    ensures { result ≡ repeater_of text.now }
{
    match text {
        [b'.', b'+', ..] => read_marked(Mark::Restart, &text[2..]),
        [b'+', b'+', ..] => read_marked(Mark::CatchUp, &text[2..]),
        [b'+', ..] => read_marked(Mark::Cumulate, &text[1..]),
        _ => None,
    }
}

fn read_delay(text: &[u8]) -> Option<Interval>
    ensures { result ≡ delay_of text.now }
{
    match text {
        [b'-', b'-', rest @ ..] => read_interval(rest),
        [b'-', rest @ ..] => read_interval(rest),
        _ => None,
    }
}

/// What a run of bytes other than blanks says, if it is a part.
pub fn read_kind(run: &[u8]) -> Option<Kind>
    ensures { result ≡ kind_of run.now }
{
    if is_name(run) {
        return Some(Kind::Name);
    }
    match run[0] {
        b'0'..=b'9' => Some(Kind::Clock(read_times(run)?)),
        b'-' => read_delay(run).and(Some(Kind::Delay)),
        _ => Some(Kind::Repeat(read_repeater(run)?)),
    }
}
