//! The place to which a subtree is archived: a file, and a heading in it, or its top level.
//!
//! A location is valid from its making on: its title is one that a heading line can have.
use org_disk::FileName;
use org_splice::Bytes;
use std::marker::Model;

/// Where an archived subtree goes: a file, and the heading in it below which the subtree is put,
/// which need not be there; or the file's top level (Org manual, "Moving a tree to an archive
/// file").
#[derive(Drop)]
pub struct Location {
    pub(crate) file: FileName,
    pub(crate) level: usize,
    pub(crate) title: Bytes,
}

impl Model for Location {
    ghost use Rattle.std.specs.Prelude.{◌+◌, ◌<◌, ◌^◌};
    ghost use Rattle.org_move.specs.Location.{Destination};

    ghost Value = { Destination };

    ghost view = { λ l. record { file = l.file; level = l.level; title = l.title } };

    ghost invariant = { λ l. l.level + 1 < 2 ^ 63 };
}

impl Location {
    ghost use Rattle.std.specs.Prelude.{◌≡◌, ◌+◌, ◌<◌, ◌^◌};

    /// The file.
    pub fn file(&self) -> &FileName
        ensures { result.now ≡ self.now.file }
    {
        &self.file
    }

    /// The level of the heading; 0 is the top level of the file.
    pub fn level(&self) -> usize
        ensures value { result ≡ self.now.level }
        ensures room { result + 1 < 2 ^ 63 }
    {
        self.level
    }

    /// The title of the heading, which has no keyword, priority and tags; empty at the top level.
    pub fn title(&self) -> &[u8]
        ensures { result.now ≡ self.now.title }
    {
        self.title.as_slice()
    }
}
