//! Days of the calendar, by jiff: years 0001 to 9999, without a time zone.
//!
//! A day is valid from its making on. Days and months are added by the library; what has no day in
//! its month goes to the month's last day.
ghost use Rattle.std.specs.Prelude.{◌≡◌, ◌<◌, ◌^◌, ◌≤ℤ◌, IfSome, neg_ℤ, pos};
ghost use Rattle.org_stamp.specs.Parts.{day_if_any};
ghost use Rattle.jiff_core.specs.Calendar.{IsBetween};
ghost use Rattle.org_stamp.specs.Calendar.{IsDay, days_after, month_number, months_after, to_year_9999, day_number, weekday_of};

use jiff::Span;
use jiff::civil::{self, Date};
use std::marker::Model;

/// A day of the calendar, in a year from 0001 to 9999.
#[derive(Clone, Copy)]
pub struct Day {
    year: u16,
    month: u8,
    day: u8,
}

impl Model for Day {
    ghost use Rattle.org_stamp.specs.Calendar.{CivilDay, IsDay};

    ghost Value = { CivilDay };

    ghost view = { λ d. record { year = d.year; month = d.month; day = d.day } };

    ghost invariant = { λ d. IsDay (record { year = d.year; month = d.month; day = d.day }) };

    ghost inverse = { λ d. record { year = d.year; month = d.month; day = d.day } };
}

impl Day {
    /// The day with these parts, if the calendar has it.
    pub fn new(year: u16, month: u16, day: u16) -> Option<Day>
        ensures { result ≡ day_if_any year month day }
    {
        if year < 1 || year > 9999 || month > 12 || day > 31 {
            return None;
        }
        match Date::new(year as i16, month as i8, day as i8) {
            Ok(date) => Some(Day::of(date)),
            Err(_) => None,
        }
    }

    /// The year, from 1 to 9999.
    pub fn year(self) -> u16
        ensures value { result ≡ self.year }
        ensures valid { IsDay self }
    {
        self.year
    }

    /// The month, from 1 to 12.
    pub fn month(self) -> u8
        ensures value { result ≡ self.month }
        ensures valid { IsDay self }
    {
        self.month
    }

    /// The day of the month, from 1.
    pub fn day(self) -> u8
        ensures value { result ≡ self.day }
        ensures valid { IsDay self }
    {
        self.day
    }

    /// The library's date.
    fn date(self) -> Date
        ensures year { result.year ≡ pos self.year }
        ensures month { result.month ≡ self.month }
        ensures day { result.day ≡ self.day }
    {
        civil::date(self.year as i16, self.month as i8, self.day as i8)
    }

    /// Days since 1970-01-01.
    pub fn number(self) -> i32
        ensures value { result ≡ day_number self }
        ensures valid { IsDay self }
        ensures bound { IsBetween (neg_ℤ (pos 4_371_587)) (pos 2_932_896) result }
    {
        self.date().to_plain().to_unix_epoch_day()
    }

    /// The day of the week, from 0 for Monday.
    pub fn weekday(self) -> u8
        ensures value { result ≡ weekday_of self }
        ensures bound { result < 7 }
    {
        self.date().weekday().to_monday_zero_offset() as u8
    }

    /// The day of a date of the library.
    fn of(date: Date) -> Day
        requires { pos 1 ≤ℤ date.year }
        ensures year { pos result.year ≡ date.year }
        ensures month { result.month ≡ date.month }
        ensures day { result.day ≡ date.day }
        ensures valid { IsDay result }
    {
        Day {
            year: date.year() as u16,
            month: date.month() as u8,
            day: date.day() as u8,
        }
    }

    /// That many days later, if the year is not past 9999.
    pub fn plus_days(self, days: u64) -> Option<Day>
        requires { days < 2 ^ 60 }
        ensures value { result ≡ to_year_9999 (days_after self days) }
        ensures valid { IfSome result IsDay }
    {
        match self.date().to_plain().checked_add(days as i64) {
            Ok(date) => Some(Day::of(Date::from_plain(date))),
            Err(_) => None,
        }
    }

    /// That many months later, on the month's last day where the day is missing, if the year is not
    /// past 9999.
    pub fn plus_months(self, months: u64) -> Option<Day>
        requires { months < 2 ^ 60 }
        ensures value { result ≡ to_year_9999 (months_after self months) }
        ensures valid { IfSome result IsDay }
    {
        let Ok(span) = Span::new().try_months(months as i64) else {
            return None;
        };
        match self.date().checked_add(span) {
            Ok(date) => Some(Day::of(date)),
            Err(_) => None,
        }
    }

    /// Months since January of the year 0.
    pub fn month_number(self) -> u64
        ensures value { result ≡ month_number self }
        ensures valid { IsDay self }
    {
        self.year as u64 * 12 + (self.month as u64 - 1)
    }
}
