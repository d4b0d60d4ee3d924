//! A heading line of which each side changed another part, such as the keyword and the tags.
ghost use Rattle.std.specs.Prelude.{◌≡◌, ◌∷◌, ◌<◌, [], ℕ, List, IfSome, IfNone, IsTrue, length};
ghost use Rattle.std.specs.List.{slice_split};
ghost use Rattle.std.specs.Option.{option_map};
ghost use Rattle.org_outline.specs.Parts.{parts_of};
ghost use Rattle.org_account.specs.Table.{Seen as SeenOf};
ghost use Rattle.org_account.specs.Heading.{EachTag, HasParts, IsComposed, IsPart, IsRightTag, has_tag, is_colon, is_due_tag, part};

use crate::lines::{is_conflict, is_told_heading};
use crate::rules::is_taken;
use crate::seen::Seen;
use memchr::memchr;
use org_outline::{HeadParts, States};
use std::marker::Model;

/// The tag of a conflict.
const CONFLICT: &[u8] = b"CONFLICT";

/// The tags of a heading in base, the two sides and the result; what the report tells, and theirs'
/// heading.
#[derive(Drop)]
struct Tags<'t> {
    told: &'t [u8],
    heading: &'t [u8],
    base: &'t [u8],
    ours: &'t [u8],
    theirs: &'t [u8],
    merged: &'t [u8],
}

impl<'t> Model for Tags<'t> {
    ghost use Rattle.std.specs.Prelude.{◌∷◌};
    ghost use Rattle.org_account.specs.Heading.{Part};

    ghost Value = { Part };

    ghost view = { λ t. record {
      told = t.told.now;
      heading = 42 ∷ t.heading.now;
      base = t.base.now;
      ours = t.ours.now;
      theirs = t.theirs.now;
      merged = t.merged.now;
    } };
}

/// Whether a part is as the side has it that changed it; or ours', and the report tells the other
/// heading.
fn is_part(
    told: &[u8],
    heading: &[u8],
    base: &[u8],
    ours: &[u8],
    theirs: &[u8],
    merged: &[u8],
) -> bool
    ensures { IsTrue result → IsPart
        (part told.now (42 ∷ heading.now) base.now ours.now theirs.now merged.now) }
{
    if is_taken(base, ours, theirs, merged) {
        return true;
    }
    merged == ours && is_told_heading(told, heading)
}

/// The first word of some tags, and what follows its colon.
fn first_word(tags: &[u8]) -> Option<(&[u8], &[u8])>
    ensures some { IfSome result (λ cut. slice_split is_colon tags.now
        ≡ cut.0.now ∷ slice_split is_colon cut.1.now) }
    ensures less { IfSome result (λ cut. length cut.1.now < length tags.now) }
    ensures none { IfNone result (slice_split is_colon tags.now ≡ tags.now ∷ []) }
{
    match memchr(b':', tags) {
        None => None,
        Some(end) => {
            let (word, rest) = tags.split_at(end);
            Some((word, rest.split_at(1).1))
        }
    }
}

/// Whether tags have this one.
fn has_tag(tag: &[u8], tags: &[u8]) -> bool
    ensures { result ≡ has_tag tag.now tags.now }
{
    let mut left = tags;
    while let Some((word, rest)) = first_word(left) {
        if tag == word {
            return true;
        }
        left = rest;
    }
    tag == left
}

/// Whether a tag is due, by who has it.
fn is_due_tag(base: bool, ours: bool, theirs: bool) -> bool
    ensures { result ≡ is_due_tag base ours theirs }
{
    ours && theirs || !base && (ours || theirs)
}

/// Whether a tag is there as it is due.
fn is_right_tag(tags: &Tags<'_>, tag: &[u8]) -> bool
    ensures { IsTrue result → IsRightTag tags.now tag.now }
{
    let base = has_tag(tag, tags.base);
    let ours = has_tag(tag, tags.ours);
    let theirs = has_tag(tag, tags.theirs);
    let merged = has_tag(tag, tags.merged);
    if merged == is_due_tag(base, ours, theirs) {
        return true;
    }
    tag == CONFLICT && merged && is_conflict(tags.told)
}

/// Whether each of these tags is.
fn are_right(tags: &Tags<'_>, of: &[u8]) -> bool
    ensures { IsTrue result → EachTag (IsRightTag tags.now) of.now }
{
    let mut left = of;
    while let Some((tag, rest)) = first_word(left) {
        if !is_right_tag(tags, tag) {
            return false;
        }
        left = rest;
    }
    is_right_tag(tags, left)
}

/// Whether all tags are.
fn has_right_tags(tags: &Tags<'_>) -> bool
    ensures { IsTrue result → (tag : List ℕ) → IsRightTag tags.now tag }
{
    if !are_right(tags, tags.merged) {
        return false;
    }
    if !are_right(tags, tags.ours) {
        return false;
    }
    are_right(tags, tags.theirs)
}

/// Whether a heading has each part as it should.
fn has_parts(
    states: &States,
    told: &[u8],
    base: &[u8],
    ours: &[u8],
    theirs: &[u8],
    merged: &[u8],
) -> bool
    ensures { IsTrue result → HasParts told.now (42 ∷ theirs.now) (parts_of states.now base.now)
        (parts_of states.now ours.now) (parts_of states.now theirs.now)
        (parts_of states.now merged.now) }
{
    let b = HeadParts::of(states, base);
    let o = HeadParts::of(states, ours);
    let t = HeadParts::of(states, theirs);
    let r = HeadParts::of(states, merged);
    if !is_part(told, theirs, b.keyword, o.keyword, t.keyword, r.keyword) {
        return false;
    }
    if !is_part(told, theirs, b.priority, o.priority, t.priority, r.priority) {
        return false;
    }
    if !is_part(told, theirs, b.title, o.title, t.title, r.title) {
        return false;
    }
    let tags = Tags {
        told,
        heading: theirs,
        base: b.tags,
        ours: o.tags,
        theirs: t.tags,
        merged: r.tags,
    };
    has_right_tags(&tags)
}

/// Whether a heading of base, which stands below the unit of row `above`, has each part as it should.
pub(crate) fn is_composed(
    states: &States,
    told: &[u8],
    above: Option<usize>,
    base: &Option<Seen<'_>>,
    ours: &[u8],
    theirs: &[u8],
    merged: &[u8],
) -> bool
    ensures { IsTrue result → IsComposed states.now told.now above
        (option_map (λ (s : SeenOf). s.line) base.now) ours.now theirs.now merged.now }
{
    if above.is_none() {
        return false;
    }
    match base {
        None => false,
        Some(base) => has_parts(states, told, base.line(), ours, theirs, merged),
    }
}
