//! What is read of timestamps.
use org_stamp::Stamp;

/// How long a timestamp is, the minutes from 1970-01-01 00:00 to its moment, and whether it is
/// active, has a time, has cookies, and repeats.
type Read = (usize, i64, bool, bool, bool, bool);

/// 2026-07-01 00:00, in minutes from 1970-01-01 00:00.
const DAY: i64 = 20635 * 1440;

/// Texts, and the timestamp that each begins with, if it does.
const ROWS: &[(&str, Option<Read>)] = &[
    // The front of a range.
    (
        "[2026-07-01 Wed 10:00]--[2026-07-01 Wed 11:30]",
        Some((22, DAY + 600, false, true, false, false)),
    ),
    (
        "<2026-07-01 -3d>",
        Some((16, DAY, true, false, true, false)),
    ),
    (
        "<2026-07-01 ++0y>",
        Some((17, DAY, true, false, true, false)),
    ),
    (
        "<2026-07-01 -3d ++1y>",
        Some((21, DAY, true, false, true, true)),
    ),
    (
        "<2026-07-01 10:00-11:00>",
        Some((24, DAY + 600, true, false, false, false)),
    ),
    // No timestamps.
    ("", None),
    ("2026-07-01", None),
    ("<2026-07-01", None),
    ("<2026-07-01]", None),
    ("<2026-07-01 a]>", None),
    ("<2026-07-01 >", None),
    ("<2026-07-01Wed>", None),
    ("< 2026-07-01>", None),
    ("<2026-07-01 Wed Thu>", None),
    ("<2026-07-01 10:00 11:00>", None),
    ("<2026-07-01 +1d ++1d>", None),
    ("<2026-07-01 -1d --1d>", None),
    ("<2026-07-01 24:00>", None),
    ("<2026-07-01 10:60>", None),
    ("<2026-07-01 10:00->", None),
    ("<2026-07-01 +12345d>", None),
    ("<2026-07-01 +d>", None),
    ("<2026-07-01 +1x>", None),
    ("<2026-07-01 +1d/>", None),
    ("<2026-07-01 -1d/2d>", None),
    ("<2026-07-01 Wed\n10:00>", None),
    ("<2100-02-29>", None),
    ("<0000-01-01>", None),
    ("<10000-01-01>", None),
    ("<2026-7-01>", None),
];

/// What is read of a text.
fn read(text: &str) -> Option<Read> {
    let (stamp, length) = Stamp::read(text.as_bytes())?;
    let (has_time, has_cookies) = (stamp.has_time(), stamp.has_cookies());
    let minutes = stamp.moment().minutes();
    Some((
        length,
        minutes,
        stamp.is_active(),
        has_time,
        has_cookies,
        stamp.repeats(),
    ))
}

#[test]
fn timestamps_read(rt: HostRuntime) {
    for (text, wanted) in ROWS {
        assert!(rt; read(text) == *wanted, "{text}");
    }
}
