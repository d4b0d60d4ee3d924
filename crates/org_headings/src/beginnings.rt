//! Which titles a heading line may have.
//!
//! The title, or a priority before it, stands after the gap, or after the first word there, which
//! may be a keyword. A fingerprint of the title that each place would give is kept with the heading,
//! so that a look-up by title reads few lines, however alike the titles begin.
ghost use Rattle.std.specs.Prelude.{◌≡◌, ◌<◌, ◌≤◌, ◌+◌, ◌^◌, ◌||◌, IsFalse, not, true, drop, length};
ghost use Rattle.std.specs.List.{prefix_len};
ghost use Rattle.org_headings.specs.Beginnings.{beginning_of, beginnings_of, hash_from, is_of_word, may_begin, may_begin_date, may_have, sought_of, with_byte};
ghost use Rattle.org_headings.specs.Text.{line_at};

use org_splice::blanks::{behind_blanks, is_blank};

/// The fingerprint of a title, or of what stands at a place where one can begin: its hash, and in
/// the lowest bit whether it begins with a digit; 1 at a bracket, after which any title may stand.
#[derive(Clone, Copy)]
pub struct Beginning {
    pub fingerprint: u16,
}

/// What stands at the two places of a heading line.
#[derive(Clone, Copy)]
pub struct Beginnings {
    /// After the gap.
    pub first: Beginning,
    /// After the first word there.
    pub second: Beginning,
}

/// A title that is looked for.
#[derive(Clone, Copy)]
pub struct Sought {
    /// Any heading line may have none.
    empty: bool,
    beginning: Beginning,
}

/// How many bytes of its line a text begins with that are no blanks: a word, which is short.
fn word_len(text: &[u8]) -> usize
    ensures count { result ≡ prefix_len is_of_word text.now }
    ensures within { result ≤ length text.now }
{
    for (count, byte) in text.iter().enumerate() {
        if is_blank(*byte) || *byte == b'\n' {
            return count;
        }
    }
    text.len()
}

/// The fingerprint at a bracket.
const ANY: u16 = 1;

/// A hash with one byte more.
fn with_byte(hash: u16, byte: u8) -> u16
    ensures value { result ≡ with_byte hash byte }
    ensures small { result < 2 ^ 15 }
{
    let sum = 31 * hash as u32 + byte as u32;
    (sum % 32768) as u16
}

/// The hash of the title that a text begins with, or may begin with: blanks are left out, and tags
/// aren't read.
fn title_hash(text: &[u8]) -> u16
    ensures value { result ≡ hash_from 0 true text.now }
    ensures small { result < 2 ^ 15 }
{
    let mut hash = 0;
    let mut apart = true;
    for byte in text {
        if *byte == b'\n' || (apart && *byte == b':') {
            return hash;
        }
        apart = is_blank(*byte) || *byte == b'\r';
        if !apart {
            hash = with_byte(hash, *byte);
        }
    }
    hash
}

impl Beginning {
    /// The fingerprint of the title that these bytes are, or that may stand at their front.
    fn of(text: &[u8]) -> Beginning
        ensures { result ≡ beginning_of text.now }
    {
        let first = if text.is_empty() { 0 } else { text[0] };
        let fingerprint = if first == b'[' {
            ANY
        } else {
            2 * title_hash(text) + first.is_ascii_digit() as u16
        };
        Beginning { fingerprint }
    }

    /// Whether a title with this fingerprint may stand at a place, or after a priority there.
    fn may_begin(self, place: Beginning) -> bool
        ensures { result ≡ may_begin self place }
    {
        (place.fingerprint == ANY) | (place.fingerprint == self.fingerprint)
    }

    /// Whether a title that begins with a digit may stand at this place, or after a priority
    /// there.
    fn may_begin_date(self) -> bool
        ensures { result ≡ may_begin_date self }
    {
        self.fingerprint % 2 == 1
    }
}

impl Sought {
    /// What a heading line is asked of a title.
    pub fn of(title: &[u8]) -> Sought
        ensures { result ≡ sought_of title.now }
    {
        Sought {
            empty: title.is_empty(),
            beginning: Beginning::of(title),
        }
    }
}

impl Beginnings {
    /// The beginnings of a heading line, by what stands after its stars and all that follows it.
    pub(crate) fn of_line(tail: &[u8]) -> Beginnings
        ensures { result ≡ beginnings_of (line_at tail.now) }
    {
        let place = behind_blanks(tail);
        let word = place.split_at(word_len(place)).1;
        Beginnings {
            first: Beginning::of(place),
            second: Beginning::of(behind_blanks(word)),
        }
    }

    /// Whether the line may have a title. No answer is left out for another, so that several lines
    /// can be compared at once.
    pub fn allow(self, title: Sought) -> bool
        ensures { result ≡ may_have title self }
    {
        title.empty
            | (title.beginning.may_begin(self.first) | title.beginning.may_begin(self.second))
    }

    /// Whether it may have a title that begins with a digit.
    pub fn allow_digit(self) -> bool
        ensures { result ≡ (may_begin_date self.first || may_begin_date self.second) }
    {
        self.first.may_begin_date() || self.second.may_begin_date()
    }
}

/// How many lines are asked together.
const RUN: usize = 32;

/// Whether any of these lines may have a title. All are asked, since the processor compares several
/// of them at once where no answer ends the loop.
fn any_allows(lines: &[Beginnings], title: Sought) -> bool
    ensures { IsFalse result
        → prefix_len (λ line. not (may_have title line)) lines.now ≡ length lines.now }
{
    let mut any = false;
    for line in lines {
        any = any | line.allow(title);
    }
    any
}

/// How many of these lines, from the first on, can't have a title, as far as whole runs tell.
fn count_in_runs(lines: &[Beginnings], title: Sought) -> usize
    ensures passed { result
        + prefix_len (λ line. not (may_have title line)) (drop result lines.now)
        ≡ prefix_len (λ line. not (may_have title line)) lines.now }
    ensures within { result ≤ length lines.now }
{
    let mut count = 0;
    while lines.len() - count >= RUN && !any_allows(&lines[count..count + RUN], title) {
        count += RUN;
    }
    count
}

/// The same, line by line.
fn count_singly(lines: &[Beginnings], title: Sought) -> usize
    ensures count { result ≡ prefix_len (λ line. not (may_have title line)) lines.now }
    ensures within { result ≤ length lines.now }
{
    for (count, line) in lines.iter().enumerate() {
        if line.allow(title) {
            return count;
        }
    }
    lines.len()
}

/// How many of these lines, from the first on, can't have a title.
pub fn count_others(lines: &[Beginnings], title: Sought) -> usize
    ensures count { result ≡ prefix_len (λ line. not (may_have title line)) lines.now }
    ensures within { result ≤ length lines.now }
{
    // Where most lines may have it, no run is asked in vain.
    if !lines.is_empty() && lines[0].allow(title) {
        return 0;
    }
    let count = count_in_runs(lines, title);
    count + count_singly(lines.split_at(count).1, title)
}
