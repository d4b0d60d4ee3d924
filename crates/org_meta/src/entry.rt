//! The entries of planning lines (Org Syntax, "Planning"): a word, blanks, a stamp, blanks.
//!
//! Entries borrow their bytes, so that what isn't changed is written as it was read.
ghost use Rattle.std.specs.Prelude.{◌≡◌, ◌≤◌, ◌⊎◌, length, None, Some, IfSome, IfOk, IfErr, OnOk, ◌++◌};
ghost use Rattle.std.specs.Option.{option_map};
ghost use Rattle.std.specs.List.{list_all, list_any};
ghost use Rattle.org_splice.specs.Blanks.{is_blank, is_trailing, front, behind};
ghost use Rattle.org_meta.specs.Planning.{word_text, word_at, entry_at, entries_at, is_word, is_once, each_once, planning_of, is_closed, has_closed, has_others};

use org_splice::blanks::{blank_count, trimmed_end};
use org_stamp::Stamp;
use std::alloc::{AllocError, Global};
use std::marker::Model;

/// What a planning entry says of its stamp.
#[derive(Clone, Copy)]
pub(crate) enum Word {
    Closed,
    Deadline,
    Scheduled,
}

/// A planning entry: its word, blanks, a stamp and blanks.
#[derive(Drop)]
pub(crate) struct Entry<'a> {
    pub word: Word,
    pub gap: &'a [u8],
    pub stamp: Stamp<'a>,
    /// The stamp's bytes.
    pub text: &'a [u8],
    pub after: &'a [u8],
}

impl<'a> Model for Entry<'a> {
    ghost use Rattle.org_meta.specs.Planning.{PlanningEntry};

    ghost Value = { PlanningEntry };

    ghost view = { λ e. record {
      word = e.word;
      gap = e.gap.now;
      stamp = e.stamp;
      text = e.text.now;
      after = e.after.now;
    } };
}

/// A well formed planning line.
#[derive(Drop)]
pub(crate) struct Planning<'a> {
    pub indentation: &'a [u8],
    pub entries: Vec<Entry<'a>>,
    /// The blanks at the line's end, from a carriage return on.
    pub tail: &'a [u8],
}

impl<'a> Model for Planning<'a> {
    ghost use Rattle.org_meta.specs.Planning.{PlanningLine};

    ghost Value = { PlanningLine };

    ghost view = { λ p. record {
      indentation = p.indentation.now;
      entries = p.entries.items;
      tail = p.tail.now;
    } };
}

/// The word's text, with its colon.
pub(crate) fn word_text(word: Word) -> &'static [u8]
    ensures { result.now ≡ word_text word }
{
    match word {
        Word::Closed => b"CLOSED:",
        Word::Deadline => b"DEADLINE:",
        Word::Scheduled => b"SCHEDULED:",
    }
}

/// The word that the text begins with.
fn word_at(text: &[u8]) -> Option<Word>
    ensures value { result ≡ word_at text.now }
    ensures within { IfSome result (λ word. length (word_text word) ≤ length text.now) }
{
    if text.starts_with(b"CLOSED:") {
        Some(Word::Closed)
    } else if text.starts_with(b"DEADLINE:") {
        Some(Word::Deadline)
    } else if text.starts_with(b"SCHEDULED:") {
        Some(Word::Scheduled)
    } else {
        None
    }
}

/// The blanks that the text begins with, and what follows them.
pub(crate) fn split_blanks(text: &[u8]) -> (&[u8], &[u8])
    ensures blanks { result.0.now ≡ front is_blank text.now }
    ensures rest { result.1.now ≡ behind is_blank text.now }
{
    text.split_at(blank_count(text))
}

/// The entry that the text begins with, and what follows it.
pub(crate) fn entry_at(text: &[u8]) -> Option<(Entry<'_>, &[u8])>
    ensures { option_map (λ r. (r.0, r.1.now)) result ≡ entry_at text.now }
{
    let word = word_at(text)?;
    let (gap, bytes) = split_blanks(text.split_at(word_text(word).len()).1);
    let (stamp, size) = Stamp::read(bytes)?;
    let (text, tail) = bytes.split_at(size);
    let (after, rest) = split_blanks(tail);
    let entry = Entry {
        word,
        gap,
        stamp,
        text,
        after,
    };
    Some((entry, rest))
}

/// Whether only blanks and carriage returns are left of the line.
pub(crate) fn is_line_end(text: &[u8]) -> bool
    ensures { result ≡ list_all is_trailing text.now }
{
    trimmed_end(text).is_empty()
}

fn is_word(word: Word, other: Word) -> bool
    ensures { result ≡ is_word word other }
{
    matches!(
        (word, other),
        (Word::Closed, Word::Closed)
            | (Word::Deadline, Word::Deadline)
            | (Word::Scheduled, Word::Scheduled)
    )
}

/// Whether the word stands at most once.
pub(crate) fn is_once(word: Word, entries: &[Entry]) -> bool
    ensures { result ≡ is_once word entries.now }
{
    entries
        .iter()
        .filter(|entry| is_word(word, entry.word))
        .count()
        <= 1
}

pub(crate) fn is_closed(entry: &Entry) -> bool
    ensures { result ≡ is_closed entry.now }
{
    is_word(Word::Closed, entry.word)
}

/// Whether there is a CLOSED entry.
pub(crate) fn has_closed(entries: &[Entry]) -> bool
    ensures { result ≡ has_closed entries.now }
{
    entries.iter().any(is_closed)
}

/// Whether there are other entries than CLOSED.
pub(crate) fn has_others(entries: &[Entry]) -> bool
    ensures { result ≡ has_others entries.now }
{
    !entries.iter().all(is_closed)
}
