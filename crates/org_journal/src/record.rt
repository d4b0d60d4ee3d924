//! What a commit makes of its files, entry by entry, as a value.
//!
//! It knows no bytes: `encoding` and `decoding` do.
ghost use Rattle.std.specs.Prelude.{◌≡◌};

use org_disk::FileName;
use org_splice::{Bytes, Patch};
use std::marker::Model;

/// A vector, which a clause sees as the list of its items.
#[derive(Drop)]
pub struct Items<T> {
    items: Vec<T>,
}

impl<T> Model for Items<T> {
    ghost use Rattle.std.specs.Prelude.{List};

    ghost Value = { List T };

    ghost view = { λ held. held.items.items };
}

impl<T> Items<T> {
    /// The items of a vector. Takes no memory.
    pub fn new(items: Vec<T>) -> Items<T>
        ensures { result ≡ items.items }
    {
        Items { items }
    }

    /// The items as a slice.
    pub fn as_slice(&self) -> &[T]
        ensures { result.now ≡ self.now }
    {
        self.items.as_slice()
    }
}

/// The patches of one file.
pub type Patches = Items<Patch>;

/// The most bytes of a context.
pub const MOST_CONTEXT: u8 = 32;

/// What a file was before its entry was made. By this an opening sees whether another program has
/// changed the file since.
#[derive(Drop)]
pub struct Before {
    /// How many bytes the file had.
    pub length: u64,
    /// The bytes just before the first patch, at most `MOST_CONTEXT` in a record.
    pub leading: Bytes,
    /// The bytes just after the last patch, at most `MOST_CONTEXT` in a record. There are none if
    /// the length changes.
    pub trailing: Bytes,
}

/// What becomes of one file: its patches are applied to it in order, and then it is cut to `length`
/// bytes if it was longer before.
#[derive(Drop)]
pub struct Entry {
    /// The name of the file.
    pub name: FileName,
    /// How many bytes the file has in the end, at most `GREATEST_LENGTH` in a record.
    pub length: u64,
    /// What the file was before, which a record of version 3 says.
    pub before: Option<Before>,
    /// What is applied to it, each patch after the one before, at most 1,000 in a record.
    pub patches: Patches,
}

/// The entries of all files of a commit.
pub type Record = Items<Entry>;

/// The version of a journal's format.
#[derive(Clone, Copy)]
pub enum Version {
    /// An entry has one patch, and its file at most 16,777,216 bytes. It is read, and never
    /// written.
    One,
    /// An entry has up to 1,000 patches, and its file at most 67,108,864 bytes. It is read, and
    /// never written.
    Two,
    /// An entry also says what its file was before.
    Three,
}
