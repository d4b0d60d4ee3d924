//! Files: as they are merged, as a merge makes them, and as it reads them.
ghost use Rattle.std.specs.Prelude.{◌≡◌};
ghost use Rattle.org_splice.specs.Lines.{terminated};

/// A file that is merged: its name and its bytes.
#[derive(Clone, Copy)]
pub struct Source<'a> {
    pub name: &'a [u8],
    pub text: &'a [u8],
}

/// A file of the result.
#[derive(Drop)]
pub struct Made {
    pub name: Vec<u8>,
    pub text: Vec<u8>,
}

/// A file with its text as a merge reads it.
#[derive(Drop)]
pub(crate) struct ReadFile<'a> {
    pub(crate) name: &'a [u8],
    pub(crate) text: Vec<u8>,
    /// The text is terminated.
    pub(crate) ghost whole: { terminated text.items ≡ text.items },
}
