//! What is known of a text after a search.
//!
//! What is sought stands in whole lines, as a clock that runs or a line that begins with a word. An
//! edit leaves the bytes before it and after it as they were, and so what is known of them. The
//! next search reads the lines between.
ghost use Rattle.std.specs.Prelude.{Bool, List, ℕ};
ghost use Rattle.org_splice.specs.Searched.{FollowsEdit, IsSearched, StandsInLines, StaysSearched};

use crate::edit::Edit;

/// Where a text is known not to have what was sought.
#[derive(Clone, Copy)]
pub enum Searched {
    /// The text doesn't have it.
    Nowhere,
    /// It isn't in the lines that stand whole within the first `front` bytes, nor in those that
    /// begin within the last `back` bytes, but maybe in the first of these.
    Ends { front: usize, back: usize },
}

impl Searched {
    /// Nothing is known yet.
    pub fn nothing() -> Searched
        ensures { (has : List ℕ → Bool) → StandsInLines has → (text : List ℕ)
            → IsSearched has result text }
    {
        Searched::Ends { front: 0, back: 0 }
    }

    /// What is known after an edit of a text of this size, or of a larger one. It is so of the
    /// text before the edit, too.
    pub fn behind(self, size: usize, edit: &Edit) -> Searched
        ensures edited { FollowsEdit size edit.now self result }
        ensures unedited { StaysSearched self result }
    {
        let end = edit.at.saturating_add(edit.removed);
        let tail = size.saturating_sub(end);
        match self {
            Searched::Nowhere => Searched::Ends {
                front: edit.at,
                back: tail,
            },
            Searched::Ends { front, back } => Searched::Ends {
                front: front.min(edit.at),
                back: back.min(tail),
            },
        }
    }
}
