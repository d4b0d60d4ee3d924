//! What a commit is given of changed texts: names, and edited texts beside them.
//!
//! No name stands twice, and the order is that in which files are written. Nothing is said of
//! disks.
ghost use Rattle.std.specs.Prelude.{◌≡◌, ◌<◌, List, Some, length, slice_get};
ghost use Rattle.std.specs.List.{IsDistinct};
ghost use Rattle.std.specs.Map.{keys_of};
ghost use Rattle.org_splice.specs.Texts.{EditedText};

use crate::editing::Editing;

/// Changed texts by the names of their files, each name once, in the order in which they are to be
/// written. They are lent: a commit copies their patches alone.
pub trait Changes<N: Eq> {
    /// Each name with its text.
    ghost pairs: { Self → List (N × EditedText) };

    /// How many files there are. Takes no memory.
    fn len(&self) -> usize
        ensures len { result ≡ length (pairs self.now) }
        ensures distinct { IsDistinct N.eq (keys_of (pairs self.now)) };

    /// The name and the text at a place, counted from 0. Takes no memory.
    fn pair(&self, index: usize) -> (&N, &Editing)
        requires { index < length (pairs self.now) }
        ensures { slice_get (pairs self.now) index ≡ Some (result.0.now, result.1.now.text) };
}
