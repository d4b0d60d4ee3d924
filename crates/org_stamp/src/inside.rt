//! What stands after the date of a timestamp: a day's name, a time, a repeater, a delay.
//!
//! Each may stand once, in any order, with blanks between. The bytes of cookies are kept, since
//! they are printed again as they were.
ghost use Rattle.std.specs.Prelude.{◌≡◌, Some, None, if◌then◌else◌};
ghost use Rattle.std.specs.Option.{option_map};
ghost use Rattle.std.specs.List.{slice_split};
ghost use Rattle.org_stamp.specs.Parts.{is_blank};
ghost use Rattle.org_stamp.specs.Stamp.{are_apart, is_cookie};
ghost use Rattle.org_stamp.specs.Reading.{nothing, part_of, parts_of, gathered, cookies_with, found_with, piece_with, pieces_with, tail_of};

use crate::kind::{Kind, Times};
use crate::part::{is_blank, read_kind};
use std::mem;

/// A repeater or a delay, with its bytes.
#[derive(Clone, Copy)]
pub struct Cookie<'a> {
    /// The bytes that were read, which are printed again.
    pub run: &'a [u8],
    /// A repeater or a delay.
    pub kind: Kind,
}

/// The repeater and the delay, in the order in which they stand.
#[derive(Clone, Copy)]
pub enum Cookies<'a> {
    Empty,
    One(Cookie<'a>),
    /// A repeater and a delay, in either order.
    Two(Cookie<'a>, Cookie<'a>),
}

/// What was found so far.
#[derive(Clone, Copy)]
pub struct Found<'a> {
    /// Whether a day name stood there.
    pub named: bool,
    pub time: Option<Times>,
    pub cookies: Cookies<'a>,
}

// Whether the two are a repeater and a delay, in either order.
fn are_apart(first: Kind, second: Kind) -> bool
    ensures { result ≡ are_apart first second }
{
    matches!(
        (first, second),
        (Kind::Repeat(_), Kind::Delay) | (Kind::Delay, Kind::Repeat(_))
    )
}

impl<'a> Cookies<'a> {
    // Takes a first cookie, or a second of the other kind; false where it is neither.
    fn add(&mut self, cookie: Cookie<'a>) -> bool
        ensures { (if result then Some (parts_of self.new) else None)
            ≡ cookies_with (parts_of self.old) (part_of cookie.entry) }
    {
        match *self {
            Cookies::Empty => {
                *self = Cookies::One(cookie);
                true
            }
            Cookies::One(first) if are_apart(first.kind, cookie.kind) => {
                *self = Cookies::Two(first, cookie);
                true
            }
            _ => false,
        }
    }
}

impl<'a> Found<'a> {
    // Takes one part more; false where one of its kind was found before.
    fn add(&mut self, run: &'a [u8], kind: Kind) -> bool
        ensures { (if result then Some (gathered self.new) else None)
            ≡ found_with (gathered self.old) run.now kind }
    {
        match kind {
            Kind::Name => !mem::replace(&mut self.named, true),
            Kind::Clock(times) => self.time.replace(times).is_none(),
            Kind::Repeat(_) | Kind::Delay => self.cookies.add(Cookie { run, kind }),
        }
    }

    // Takes what lies between two blanks: nothing, or a part; false where it is neither, or where
    // one of its kind was found before.
    fn add_piece(&mut self, run: &'a [u8]) -> bool
        ensures { (if result then Some (gathered self.new) else None)
            ≡ piece_with (gathered self.old) run.now }
    {
        if run.is_empty() {
            return true;
        }
        match read_kind(run) {
            Some(kind) => self.add(run, kind),
            None => false,
        }
    }
}

// The parts in the bytes: runs between blanks, at most one of each kind.
fn read_pieces(tail: &[u8]) -> Option<Found<'_>>
    ensures { option_map gathered result ≡ pieces_with nothing (slice_split is_blank tail.now) }
{
    let mut found = Found {
        named: false,
        time: None,
        cookies: Cookies::Empty,
    };
    let mut start = 0;
    for (at, byte) in tail.iter().enumerate() {
        if is_blank(*byte) {
            if !found.add_piece(&tail[start..at]) {
                return None;
            }
            start = at + 1;
        }
    }
    found.add_piece(&tail[start..]).then_some(found)
}

/// What the bytes after a date say: nothing, or parts with blanks before each.
pub fn read_tail(tail: &[u8]) -> Option<Found<'_>>
    ensures { option_map gathered result ≡ tail_of tail.now }
{
    match tail {
        [] => Some(Found {
            named: false,
            time: None,
            cookies: Cookies::Empty,
        }),
        [first, .., last] if is_blank(*first) && !is_blank(*last) => read_pieces(tail),
        _ => None,
    }
}
