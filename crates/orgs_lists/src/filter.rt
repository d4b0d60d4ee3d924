//! What is asked of the headings of a list.
//!
//! A filter that asks nothing lets each heading through. All that it asks has to hold; of several
//! states or priorities one is enough.
ghost use Rattle.std.specs.Prelude.{◌≡◌};
ghost use Rattle.org_outline.specs.States.{has_word};
ghost use Rattle.orgs_lists.specs.Filters.{has_state, is_of_kind, is_one_of, letter_of};

use org_outline::States;
use org_splice::Bytes;

/// A property that is asked for.
#[derive(Drop)]
pub struct Property {
    /// Its name; ASCII case doesn't count.
    pub name: Bytes,
    /// Its value; without one the name is enough.
    pub value: Option<Bytes>,
}

/// What is asked of a heading.
#[derive(Drop)]
pub struct Filter {
    /// A state that is to be done; beside `done`, one of the two kinds.
    pub active: bool,
    /// A state that is done.
    pub done: bool,
    /// One of these states, where there are some.
    pub states: Vec<Bytes>,
    /// One of these priorities, each a letter or a digit, where there are some.
    pub priorities: Vec<Bytes>,
    /// All of these tags, its own or inherited.
    pub tags: Vec<Bytes>,
    /// None of these tags.
    pub without: Vec<Bytes>,
    /// All of these properties.
    pub properties: Vec<Property>,
}

/// Whether a word is one of these.
pub(crate) fn has_word(words: &[Bytes], word: &[u8]) -> bool
    ensures { result ≡ has_word words.now word.now }
{
    for other in words {
        if word == other.as_slice() {
            return true;
        }
    }
    false
}

// Whether a word is one of these, where there are some.
fn is_one_of(words: &[Bytes], word: &[u8]) -> bool
    ensures { result ≡ is_one_of words.now word.now }
{
    words.is_empty() || has_word(words, word)
}

// The letter or digit of `[#A]`.
fn letter_of(priority: &[u8]) -> &[u8]
    ensures { result.now ≡ letter_of priority.now }
{
    match priority {
        [_, _, letter @ .., _] if letter.len() == 1 => letter,
        _ => &[],
    }
}

impl Filter {
    // Whether a state is of a kind that is asked for, if a kind is.
    fn is_of_kind(&self, states: &States, state: &[u8]) -> bool
        ensures { result ≡ is_of_kind self.now states.now state.now }
    {
        if !self.active && !self.done {
            return true;
        }
        (self.active && states.is_active(state)) || (self.done && states.is_done(state))
    }

    /// Whether a state is asked for.
    pub(crate) fn has_state(&self, states: &States, state: &[u8]) -> bool
        ensures { result ≡ has_state self.now states.now state.now }
    {
        self.is_of_kind(states, state) && is_one_of(&self.states, state)
    }

    /// Whether a priority is asked for.
    pub(crate) fn has_priority(&self, priority: &[u8]) -> bool
        ensures { result ≡ is_one_of self.now.priorities.items (letter_of priority.now) }
    {
        is_one_of(&self.priorities, letter_of(priority))
    }
}
