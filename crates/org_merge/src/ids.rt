//! Numbers for what a merge compares, the same for the three folders: so titles, texts and places
//! are compared as numbers.
use std::alloc::{AllocError, Global};
use std::collections::HashMap;

/// Bytes by number.
#[derive(Drop)]
pub(crate) struct ByteIds<'a> {
    known: HashMap<&'a [u8], usize>,
}

impl<'a> ByteIds<'a> {
    pub(crate) fn new(alloc: Global) -> ByteIds<'a> {
        ByteIds {
            known: HashMap::new(alloc),
        }
    }

    /// The number of these bytes.
    pub(crate) fn id(&mut self, bytes: &'a [u8]) -> Result<usize, AllocError> {
        let next = self.known.len();
        Ok(*self.known.entry(bytes)?.or_insert(next))
    }

    /// How many numbers there are.
    pub(crate) fn count(&self) -> usize {
        self.known.len()
    }
}

/// Pairs of numbers by number.
#[derive(Drop)]
pub(crate) struct PairIds {
    known: HashMap<(usize, usize), usize>,
}

impl PairIds {
    pub(crate) fn new(alloc: Global) -> PairIds {
        PairIds {
            known: HashMap::new(alloc),
        }
    }

    /// The number of this pair.
    pub(crate) fn id(&mut self, pair: (usize, usize)) -> Result<usize, AllocError> {
        let next = self.known.len();
        Ok(*self.known.entry(pair)?.or_insert(next))
    }

    /// The number of this pair, if it has one.
    pub(crate) fn find(&self, pair: (usize, usize)) -> Option<usize> {
        self.known.get(&pair).copied()
    }

    /// How many numbers there are.
    pub(crate) fn count(&self) -> usize {
        self.known.len()
    }
}

/// Who has something: none, one, or several.
#[derive(Clone, Copy, PartialEq, Eq)]
pub(crate) enum Owner {
    Nobody,
    One(usize),
    Several,
}

impl Owner {
    /// The same with one more owner.
    pub(crate) fn with(self, entry: usize) -> Owner {
        match self {
            Owner::Nobody => Owner::One(entry),
            Owner::One(other) if other == entry => self,
            _ => Owner::Several,
        }
    }
}

/// Adds an owner to the one with this number.
pub(crate) fn add_owner(owners: &mut Vec<Owner>, id: usize, entry: usize) {
    if let Some(owner) = owners.get_mut(id) {
        *owner = owner.with(entry);
    }
}

/// The value at a place; none past the end.
pub(crate) fn at<T: Copy>(list: &[Option<T>], index: usize) -> Option<T> {
    match list.get(index) {
        Some(value) => *value,
        None => None,
    }
}

/// Sets the value at a place.
pub(crate) fn set<T: Copy + Drop>(list: &mut Vec<T>, index: usize, value: T) {
    if let Some(slot) = list.get_mut(index) {
        *slot = value;
    }
}
