//! Moments of the calendar.
use org_stamp::Moment;

/// A year, month, day, hour and minute, and where the calendar has that moment, the minutes from
/// 1970-01-01 00:00 to it, and how many days after Monday its day is.
type Row = (u16, u8, u8, u8, u8, Option<(i64, u8)>);

const ROWS: &[Row] = &[
    (1970, 1, 1, 0, 0, Some((0, 3))),
    (1969, 12, 31, 23, 59, Some((-1, 2))),
    (2000, 1, 1, 0, 1, Some((10957 * 1440 + 1, 5))),
    (1, 1, 1, 0, 0, Some((-719162 * 1440, 0))),
    (9999, 12, 31, 23, 59, Some((2932896 * 1440 + 1439, 4))),
    (2026, 7, 1, 9, 5, Some((20635 * 1440 + 545, 2))),
    (2005, 10, 3, 9, 5, Some((13059 * 1440 + 545, 0))),
    (2024, 2, 29, 9, 5, Some((19782 * 1440 + 545, 3))),
    (9999, 12, 31, 9, 5, Some((2932896 * 1440 + 545, 4))),
    (2000, 2, 29, 23, 59, Some((11016 * 1440 + 1439, 1))),
    // What no calendar has.
    (0, 1, 1, 0, 0, None),
    (10000, 1, 1, 0, 0, None),
    (2026, 0, 1, 0, 0, None),
    (2026, 13, 1, 0, 0, None),
    (2026, 1, 0, 0, 0, None),
    (2026, 4, 31, 0, 0, None),
    (2026, 2, 29, 0, 0, None),
    (2100, 2, 29, 0, 0, None),
    (2026, 1, 1, 24, 0, None),
    (2026, 1, 1, 23, 60, None),
];

/// Whether a row is right.
fn is_right(row: &Row) -> bool {
    let (year, month, day, hour, minute, counted) = row;
    let Some(moment) = Moment::new(*year, *month, *day, *hour, *minute) else {
        return counted.is_none();
    };
    let date = (moment.year(), moment.month(), moment.day());
    let found = Some((moment.minutes(), moment.weekday()));
    date == (*year, *month, *day) && found == *counted
}

#[test]
fn moments_of_the_calendar(rt: HostRuntime) {
    for (i, row) in ROWS.iter().enumerate() {
        assert!(rt; is_right(row), "row {i}");
    }
}
