//! What a command changes: edits of one text or of two, as a value.
//!
//! The first text is written first. Nothing is edited yet.
ghost use Rattle.std.specs.Prelude.{◌≡◌, ◌∷◌};

use org_disk::FileName;
use org_splice::Edit;
use std::borrow::Cow;
use std::marker::Model;

/// The name of a file that a command changes: one that was given with it, which isn't copied, or
/// one that was made for it.
///
/// A clause sees its bytes.
#[derive(Drop)]
pub struct NameOf<'a> {
    name: Cow<'a, FileName>,
}

impl<'a> Model for NameOf<'a> {
    ghost use Rattle.std.specs.Prelude.{List, ℕ};
    ghost use Rattle.std.specs.Cow.{cow_value};

    ghost Value = { List ℕ };

    ghost view = { λ n. cow_value n.name };
}

impl<'a> NameOf<'a> {
    /// A name that was given. Takes no memory.
    pub fn given(name: &'a FileName) -> NameOf<'a>
        ensures { result ≡ name.now }
    {
        NameOf {
            name: Cow::Borrowed(name),
        }
    }

    /// A name that was made.
    pub fn made(name: FileName) -> NameOf<'a>
        ensures { result ≡ name }
    {
        NameOf {
            name: Cow::Owned(name),
        }
    }

    /// The name.
    pub fn name(&self) -> &FileName
        ensures { result.now ≡ self.now }
    {
        &self.name
    }
}

/// Edits in order, of which there is one at least: each is one of the text that those before it
/// leave. A single one takes no memory of its own.
///
/// A clause sees them as a list.
#[derive(Drop)]
pub struct Edits {
    first: Edit,
    rest: Vec<Edit>,
}

impl Model for Edits {
    ghost use Rattle.std.specs.Prelude.{◌∷◌};
    ghost use Rattle.org_texts.specs.Edits.{EditList};

    ghost Value = { EditList };

    ghost view = { λ e. record { items = e.first ∷ e.rest.items } };
}

impl Edits {
    /// An edit, and those after it. Takes no memory.
    pub fn new(first: Edit, rest: Vec<Edit>) -> Edits
        ensures { result.items ≡ first ∷ rest.items }
    {
        Edits { first, rest }
    }

    /// The first edit, and those after it.
    pub fn parts(&self) -> (&Edit, &[Edit])
        ensures { self.now.items ≡ result.0.now ∷ result.1.now }
    {
        (&self.first, self.rest.as_slice())
    }
}

/// The edits of one file.
#[derive(Drop)]
pub struct FileEdits<'a> {
    pub file: NameOf<'a>,
    pub edits: Edits,
}

/// What a command changes: one file, or two. The second file's edits are made after the first's.
#[derive(Drop)]
pub struct Plan<'a> {
    pub first: FileEdits<'a>,
    pub second: Option<FileEdits<'a>>,
    /// Whether all edits are edits of lines: of a terminated text, and each leaves one.
    pub of_lines: bool,
}
