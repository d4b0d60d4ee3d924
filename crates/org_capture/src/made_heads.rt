//! Entries put below a heading of level 1 that is made, at the end of the text.
//!
//! It is made only where its line reads back as that title and nothing else.
ghost use Rattle.std.specs.Prelude.{◌≡◌, ◌&&◌, ◌==◌, not, IfOk};
ghost use Rattle.std.specs.List.{list_any};
ghost use Rattle.org_outline.specs.Parts.{AreParts, Parts};
ghost use Rattle.org_outline.specs.Tree.{Node as NodeOf, tree};
ghost use Rattle.org_capture.specs.Entry.{IsEntry};
ghost use Rattle.org_capture.specs.Capture.{below_made, can_be_title, is_only_title};
ghost use Rattle.org_capture.specs.Answers.{Makes};

use crate::inserting::push_heading;
use org_outline::{HeadParts, Outline, Place, States, shift};
use org_splice::{Bytes, Edit};
use std::alloc::{AllocError, Global};

// Whether a heading line of these parts has this title, on one line, and no keyword, no priority
// and no tags.
fn has_only_title(title: &[u8], parts: &HeadParts<'_>) -> bool
    ensures { (said : Parts) → AreParts parts.now said
        → result ≡ (is_only_title title.now said && not (list_any (λ b. b == 10) title.now)) }
{
    parts.title == title
        && parts.keyword.is_empty()
        && parts.priority.is_empty()
        && parts.tags.is_empty()
        && !title.contains(&b'\n')
}

/// Whether a heading made with this title has it, and no keyword, no priority and no tags.
pub(crate) fn can_be_title(alloc: Global, title: &[u8], states: &States) -> Result<bool, AllocError>
    ensures { IfOk result (λ can. can ≡ can_be_title states.now title.now) }
{
    let mut rest = Vec::new(alloc);
    rest.push(b' ')?;
    rest.extend_from_slice(title)?;
    let parts = HeadParts::of(states, rest.as_slice());
    Ok(has_only_title(title, &parts))
}

/// The edit that makes a heading of level 1 at the end, with an entry below it.
pub(crate) fn made_head(
    alloc: Global,
    outline: &Outline<'_>,
    title: &[u8],
    place: Place,
    entry: &[u8],
) -> Result<Edit, AllocError>
    requires { (node : NodeOf) × IsEntry entry.now node }
    ensures { (node : NodeOf) → IsEntry entry.now node
        → IfOk result (λ edit.
        Makes edit outline.now.text (below_made place node title.now (tree outline.now.text))) }
{
    let mut bytes = Vec::new(alloc);
    push_heading(&mut bytes, 1, title)?;
    let below = shift(alloc, entry, 2)?;
    bytes.extend_from_slice(below.as_slice())?;
    let at = outline.text().len();
    let bytes = Bytes::new(bytes);
    Ok(Edit {
        at,
        removed: 0,
        bytes,
    })
}
