//! The table of a merge.
ghost use Rattle.std.specs.Prelude.{◌≡◌};
ghost use Rattle.org_account.specs.Table.{named};

/// One of the four folders of a merge.
#[derive(Clone, Copy)]
pub enum Folder {
    Base,
    Ours,
    Theirs,
    Merged,
}

/// A unit of the merge: its number in each folder that has it, by the order of `read_units`.
#[derive(Clone, Copy)]
pub struct Row<'t> {
    pub base: Option<usize>,
    pub ours: Option<usize>,
    pub theirs: Option<usize>,
    pub merged: Option<usize>,
    /// The lines of the report that are about it.
    pub told: &'t [u8],
}

impl Row<'_> {
    /// The unit that it names of a folder.
    pub fn named(&self, folder: Folder) -> Option<usize>
        ensures { result ≡ named folder self.now }
    {
        match folder {
            Folder::Base => self.base,
            Folder::Ours => self.ours,
            Folder::Theirs => self.theirs,
            Folder::Merged => self.merged,
        }
    }
}
