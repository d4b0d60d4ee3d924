//! Texts under edit, as changes of a commit.
ghost use Rattle.std.specs.Prelude.{◌≡◌, [], OnOk};
ghost use Rattle.org_disk_tests.specs.Edited.{with_text};

use indexmap::IndexMap;
use org_disk::FileName;
use org_splice::{Changes, Editing};
use std::alloc::{AllocError, Global};
use std::marker::Model;

/// Texts by the names of their files, in the order in which the names were first put.
#[derive(Drop)]
pub struct Edited {
    texts: IndexMap<FileName, Editing>,
}

impl Model for Edited {
    ghost use Rattle.std.specs.Prelude.{ℕ, List, map};
    ghost use Rattle.org_splice.specs.Texts.{EditedText};

    ghost Value = { List (List ℕ × EditedText) };

    ghost view = { λ edited. map (λ e. (e.0, e.1.text)) edited.texts.entries };
}

impl Edited {
    /// No text.
    pub fn new(alloc: Global) -> Edited
        ensures { result ≡ [] }
    {
        Edited {
            texts: IndexMap::new(alloc),
        }
    }

    /// Puts a text under a name, in the place of one that is there.
    pub fn put(&mut self, name: FileName, text: Editing) -> Result<(), AllocError>
        ensures { OnOk result (self.new ≡ with_text self.old name text.text) }
    {
        self.texts.insert(name, text)?;
        Ok(())
    }
}

impl Changes<FileName> for Edited {
    ghost pairs = { λ edited. edited };

    fn len(&self) -> usize {
        self.texts.len()
    }

    fn pair(&self, index: usize) -> (&FileName, &Editing) {
        match self.texts.get_index(index) {
            Some(pair) => pair,
            None => unreachable!(),
        }
    }
}
