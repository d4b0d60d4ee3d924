//! What timestamps are written as: one text for each value.
//!
//! The functions append, so that a stamp is one buffer.
ghost use Rattle.std.specs.Prelude.{◌≡◌, ◌+◌, ◌%◌, [], ◌∷◌, ◌++◌, OnOk};
ghost use Rattle.org_stamp.specs.Calendar.{weekday_of};
ghost use Rattle.org_stamp.specs.Stamp.{date_text, day_name, clock_text, end_text, time_text, cookies_text};
ghost use Rattle.org_stamp.specs.Reading.{part_of, parts_of};

use crate::calendar::Day;
use crate::inside::{Cookie, Cookies};
use crate::kind::Times;
use std::alloc::AllocError;

// The last decimal digit.
fn digit(number: u16) -> u8
    ensures { result ≡ 48 + number % 10 }
{
    b'0' + (number % 10) as u8
}

// Appends `YYYY-MM-DD` and a space.
fn push_date(out: &mut Vec<u8>, day: Day) -> Result<(), AllocError>
    ensures { OnOk result (out.new.items ≡ out.old.items ++ (date_text day ++ 32 ∷ [])) }
{
    let (year, month, date) = (day.year(), u16::from(day.month()), u16::from(day.day()));
    out.extend_from_slice(&[
        digit(year / 1000),
        digit(year / 100),
        digit(year / 10),
        digit(year),
        b'-',
        digit(month / 10),
        digit(month),
        b'-',
        digit(date / 10),
        digit(date),
        b' ',
    ])
}

/// Appends `YYYY-MM-DD`, a space and the day's name.
///
/// # Errors
///
/// `AllocError`.
pub fn push_day(out: &mut Vec<u8>, day: Day) -> Result<(), AllocError>
    ensures { OnOk result (out.new.items
        ≡ out.old.items ++ (date_text day ++ (32 ∷ day_name (weekday_of day)))) }
{
    push_date(out, day)?;
    out.extend_from_slice(day_name(day.weekday()))
}

// The day's name in English, three letters, from 0 for Monday.
fn day_name(weekday: u8) -> &'static [u8]
    ensures { result.now ≡ day_name weekday }
{
    let names = b"MonTueWedThuFriSatSun".as_slice();
    let start = 3 * usize::from(weekday.min(6));
    &names[start..start + 3]
}

// Appends the byte and `HH:MM`.
fn push_clock(out: &mut Vec<u8>, byte: u8, minute: u16) -> Result<(), AllocError>
    ensures { OnOk result (out.new.items ≡ out.old.items ++ (byte ∷ clock_text minute)) }
{
    let (hour, minute) = (minute / 60, minute % 60);
    out.extend_from_slice(&[
        byte,
        digit(hour / 10),
        digit(hour),
        b':',
        digit(minute / 10),
        digit(minute),
    ])
}

/// Appends ` HH:MM` or ` HH:MM-HH:MM` where there is a time.
///
/// # Errors
///
/// `AllocError`.
pub fn push_time(out: &mut Vec<u8>, time: Option<Times>) -> Result<(), AllocError>
    ensures { OnOk result (out.new.items ≡ out.old.items ++ time_text time) }
{
    let Some(times) = time else {
        return Ok(());
    };
    push_clock(out, b' ', times.start)?;
    match times.end {
        None => Ok(()),
        Some(end) => push_clock(out, b'-', end),
    }
}

fn push_cookie(out: &mut Vec<u8>, cookie: Cookie<'_>) -> Result<(), AllocError>
    ensures { OnOk result (out.new.items ≡ out.old.items ++ (32 ∷ (part_of cookie.entry).run)) }
{
    out.push(b' ')?;
    out.extend_from_slice(cookie.run)
}

/// Appends a space and its bytes for each cookie.
pub fn push_cookies(out: &mut Vec<u8>, cookies: Cookies<'_>) -> Result<(), AllocError>
    ensures { OnOk result (out.new.items ≡ out.old.items ++ cookies_text (parts_of cookies.entry)) }
{
    match cookies {
        Cookies::Empty => Ok(()),
        Cookies::One(first) => push_cookie(out, first),
        Cookies::Two(first, second) => {
            push_cookie(out, first)?;
            push_cookie(out, second)
        }
    }
}
