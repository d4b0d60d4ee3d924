//! The keyword of a heading line.
ghost use Rattle.std.specs.Prelude.{◌≡◌, IfOk};
ghost use Rattle.org_state.specs.Keyword.{is_state, with_keyword};
ghost use Rattle.org_state.specs.Edits.{RewritesRest};

use org_outline::{HeadParts, States};
use org_splice::blanks::blank_count;
use org_splice::{Bytes, Edit};
use std::alloc::{AllocError, Global};

/// Whether the word is one of the states, or empty, which is no state.
pub(crate) fn is_state(states: &States, word: &[u8]) -> bool
    ensures { result ≡ is_state states.now word.now }
{
    word.is_empty() || states.is_active(word) || states.is_done(word)
}

/// The edit of the rest of a heading line that gives it another keyword, or none.
pub(crate) fn set_keyword(
    alloc: Global,
    states: &States,
    rest: &[u8],
    word: &[u8],
) -> Result<Edit, AllocError>
    ensures { IfOk result (λ edit.
        RewritesRest edit rest.now (with_keyword states.now word.now rest.now)) }
{
    let old = HeadParts::of(states, rest).keyword;
    let (gap, text) = rest.split_at(blank_count(rest));
    let mut removed = old.len();
    let mut bytes = Vec::from_slice(alloc, word)?;
    if word.is_empty() {
        removed += blank_count(text.split_at(removed).1);
    } else if old.is_empty() {
        bytes.push(b' ')?;
    }
    Ok(Edit {
        at: gap.len(),
        removed,
        bytes: Bytes::new(bytes),
    })
}
