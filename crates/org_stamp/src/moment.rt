//! Moments: minutes of the civil calendar, in no time zone.
//!
//! A moment is valid from its making on. Seconds, and changes of a clock, are none of its matters.
ghost use Rattle.std.specs.Prelude.{◌≡◌, ◌<◌, ◌+◌, ◌*◌, neg_ℤ, pos};
ghost use Rattle.std.specs.Option.{SomeIff};
ghost use Rattle.jiff_core.specs.Calendar.{IsBetween};
ghost use Rattle.org_stamp.specs.Calendar.{IsDay, at_minute, civil_day, minutes_of, weekday_of};

use crate::calendar::Day;
use std::marker::Model;

/// A minute of the civil calendar, in no time zone, from 0001-01-01 0:00 to 9999-12-31 23:59.
///
/// A clause sees its day and the minute of the day (specs/Calendar.antt).
#[derive(Clone, Copy)]
pub struct Moment {
    day: Day,
    minute: u16,
}

impl Model for Moment {
    ghost use Rattle.std.specs.Prelude.{◌<◌};
    ghost use Rattle.org_stamp.specs.Calendar.{Moment, IsDay};

    ghost Value = { Moment };

    ghost view = { λ m. record { day = m.day; minute = m.minute } };

    ghost invariant = { λ m. IsDay m.day × (m.minute < 1440) };

    ghost inverse = { λ m. record { day = m.day; minute = m.minute } };
}

impl Moment {
    /// The moment with these parts, exactly where the calendar has the date, in a year from 1 to
    /// 9999, and the time lies from 0:00 to 23:59.
    pub fn new(year: u16, month: u8, day: u8, hour: u8, minute: u8) -> Option<Moment>
        ensures { SomeIff result (IsDay (civil_day year month day) × (hour < 24) × (minute < 60))
            (at_minute (civil_day year month day) (hour * 60 + minute)) }
    {
        let day = Day::new(year, u16::from(month), u16::from(day))?;
        if hour >= 24 || minute >= 60 {
            return None;
        }
        let minute = u16::from(hour) * 60 + u16::from(minute);
        Some(Moment { day, minute })
    }

    /// That minute of the day.
    pub(crate) fn of(day: Day, minute: u16) -> Moment
        requires day { IsDay day }
        requires minute { minute < 1440 }
        ensures { result ≡ at_minute day minute }
    {
        Moment { day, minute }
    }

    /// The day.
    pub(crate) fn date(self) -> Day
        ensures value { result ≡ self.day }
        ensures valid { IsDay result }
    {
        self.day
    }

    /// The minutes since 0:00.
    pub(crate) fn minute_of_day(self) -> u16
        ensures value { result ≡ self.minute }
        ensures bound { result < 1440 }
    {
        self.minute
    }

    /// The number of minutes since 1970-01-01 0:00, negative before it.
    pub fn minutes(self) -> i64
        ensures value { result ≡ minutes_of self }
        ensures bound { IsBetween (neg_ℤ (pos 6_295_085_280)) (pos 4_223_371_679) result }
    {
        self.day.number() as i64 * 1440 + self.minute as i64
    }

    /// The year, from 1 to 9999.
    pub fn year(self) -> u16
        ensures value { result ≡ self.day.year }
        ensures valid { IsDay self.day }
    {
        self.day.year()
    }

    /// The month, from 1 to 12.
    pub fn month(self) -> u8
        ensures value { result ≡ self.day.month }
        ensures valid { IsDay self.day }
    {
        self.day.month()
    }

    /// The day of the month, from 1.
    pub fn day(self) -> u8
        ensures value { result ≡ self.day.day }
        ensures valid { IsDay self.day }
    {
        self.day.day()
    }

    /// The day of the week, from 0 for Monday to 6 for Sunday.
    pub fn weekday(self) -> u8
        ensures value { result ≡ weekday_of self.day }
        ensures bound { result < 7 }
    {
        self.day.weekday()
    }
}
