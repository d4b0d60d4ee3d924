//! What is known of a file's text after searches.
//!
//! The clock that runs, and the line that names a place for archived subtrees, are each searched
//! for where they aren't known to be missing.
ghost use Rattle.std.specs.Prelude.{◌+◌, ◌≤◌, List, ℕ, length};
ghost use Rattle.org_splice.specs.Edits.{applied};
ghost use Rattle.org_commands.specs.Noted.{AreSearched, FollowsEdit, FollowsEdits, StaysKnown};

use org_splice::{Edit, Searched};
use org_texts::Edits;

/// Where a text is known to have no clock that runs, and no `#+ARCHIVE:` line.
#[derive(Clone, Copy)]
pub(crate) struct Searches {
    pub(crate) clocks: Searched,
    pub(crate) archive_lines: Searched,
}

impl Searches {
    /// Nothing is known yet.
    pub(crate) fn nothing() -> Searches
        ensures { (text : List ℕ) → AreSearched result text }
    {
        Searches {
            clocks: Searched::nothing(),
            archive_lines: Searched::nothing(),
        }
    }

    /// What is known after an edit of a text of this size, or of a larger one. It is so of the
    /// text before the edit, too.
    pub(crate) fn behind(self, size: usize, edit: &Edit) -> Searches
        ensures edited { FollowsEdit size edit.now self result }
        ensures unedited { StaysKnown self result }
    {
        Searches {
            clocks: self.clocks.behind(size, edit),
            archive_lines: self.archive_lines.behind(size, edit),
        }
    }

    /// The same after edits, each of the text that those before it leave.
    pub(crate) fn behind_each(self, size: usize, edits: &Edits) -> Searches
        ensures edited { FollowsEdits size edits.now.items self result }
        ensures unedited { StaysKnown self result }
    {
        let (first, rest) = edits.parts();
        let mut searches = self.behind(size, first);
        let mut size = size_behind(size, first);
        for edit in rest {
            searches = searches.behind(size, edit);
            size = size_behind(size, edit);
        }
        searches
    }
}

/// The size of a text after an edit, or a smaller one.
fn size_behind(size: usize, edit: &Edit) -> usize
    ensures { (text : List ℕ) → size ≤ length text
        → edit.now.at + edit.now.removed ≤ length text
        → result ≤ length (applied edit.now text) }
{
    size.saturating_sub(edit.removed)
        .saturating_add(edit.bytes.len())
}
