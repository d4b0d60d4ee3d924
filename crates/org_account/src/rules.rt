//! The rules of a row: what the result may have of a unit.
ghost use Rattle.std.specs.Prelude.{◌≡◌, ◌⊎◌, List, ℕ, IfOk, IfSome, IsTrue, Some, None};
ghost use Rattle.std.specs.Option.{option_map};
ghost use Rattle.org_account.specs.Table.{Seen};
ghost use Rattle.org_account.specs.Text.{IsTaken};
ghost use Rattle.org_account.specs.Heading.{IsComposed};
ghost use Rattle.org_account.specs.Account.{IsKept, IsToldKept, IsToldLevel, IsToldMove, IsToldOrder, IsPlaced, IsStepped, IsChosen, IsLined, IsMarked, IsPlainLine, MayUnite, IsWritten, IsMerged, IsRight};

use crate::heading::is_composed;
use crate::lines::{is_conflict, is_told_heading, is_told_of};
use crate::seen::Seen;
use crate::union::{Texts, is_union};
use org_outline::States;
use std::alloc::{AllocError, Global};

/// The tag of a conflict, after a line without tags.
const MARK: &[u8] = b" :CONFLICT:";

/// The same after other tags.
const MORE: &[u8] = b"CONFLICT:";

/// What tags end with.
const COLON: &[u8] = b":";

/// The fields of the report that tell of choices.
const KEPT: &[u8] = b"\tkept against a deletion\t";

const TWO_PLACES: &[u8] = b"\tmoved to two places, ours taken\t";

const BELOW_ITSELF: &[u8] = b"\tmoved below itself, ours taken\t";

const TWO_LEVELS: &[u8] = b"\ttwo levels, ours taken\t";

const TWO_ORDERS: &[u8] = b"\tsorted in two ways, ours taken\t";

/// Whether the report tells that a unit was kept.
fn is_told_kept(told: &[u8]) -> bool
    ensures { IsTrue result → IsToldKept told.now }
{
    is_told_of(told, KEPT)
}

/// Whether it tells that ours' place was taken.
fn is_told_move(told: &[u8]) -> bool
    ensures { IsTrue result → IsToldMove told.now }
{
    is_told_of(told, TWO_PLACES) || is_told_of(told, BELOW_ITSELF)
}

/// Whether it tells that ours' level was taken.
fn is_told_level(told: &[u8]) -> bool
    ensures { IsTrue result → IsToldLevel told.now }
{
    is_told_of(told, TWO_LEVELS)
}

/// Whether it tells that ours' order was taken.
pub(crate) fn is_told_order(told: &[u8]) -> bool
    ensures { IsTrue result → IsToldOrder told.now }
{
    is_told_of(told, TWO_ORDERS)
}

/// Whether a number is as the one side has it that alone changed it, or both did.
fn is_taken_number(was: usize, ours: usize, theirs: usize, merged: usize) -> bool
    ensures { IsTrue result → IsTaken (Some was) ours theirs merged }
{
    was == theirs && merged == ours
        || was == ours && merged == theirs
        || ours == theirs && merged == ours
}

/// The same of a place.
fn is_taken_place(
    was: Option<usize>,
    ours: Option<usize>,
    theirs: Option<usize>,
    merged: Option<usize>,
) -> bool
    ensures { IsTrue result → IsTaken (Some was) ours theirs merged }
{
    was == theirs && merged == ours
        || was == ours && merged == theirs
        || ours == theirs && merged == ours
}

/// The same of bytes.
pub(crate) fn is_taken(base: &[u8], ours: &[u8], theirs: &[u8], merged: &[u8]) -> bool
    ensures { IsTrue result → IsTaken (Some base.now) ours.now theirs.now merged.now }
{
    base == theirs && merged == ours
        || base == ours && merged == theirs
        || ours == theirs && merged == ours
}

/// The same of bytes that base doesn't have.
fn is_taken_new(ours: &[u8], theirs: &[u8], merged: &[u8]) -> bool
    ensures { IsTrue result → IsTaken None ours.now theirs.now merged.now }
{
    ours == theirs && merged == ours
}

/// Whether a unit stands below what the sides allow.
fn is_placed(
    told: &[u8],
    base: &Option<Seen<'_>>,
    ours: &Seen<'_>,
    theirs: &Seen<'_>,
    merged: &Seen<'_>,
) -> bool
    ensures { IsTrue result → IsPlaced told.now (option_map (λ (s : Seen). s.above) base.now)
        ours.now.above theirs.now.above merged.now.above }
{
    let above = merged.above();
    let taken = match base {
        None => ours.above() == theirs.above() && above == ours.above(),
        Some(base) => is_taken_place(base.above(), ours.above(), theirs.above(), above),
    };
    taken || above == ours.above() && is_told_move(told)
}

/// Whether a unit is as much deeper as the sides allow.
fn is_stepped(
    told: &[u8],
    base: &Option<Seen<'_>>,
    ours: &Seen<'_>,
    theirs: &Seen<'_>,
    merged: &Seen<'_>,
) -> bool
    ensures { IsTrue result → IsStepped told.now (option_map (λ (s : Seen). s.step) base.now)
        ours.now.step theirs.now.step merged.now.step }
{
    let step = merged.step();
    let taken = match base {
        None => ours.step() == theirs.step() && step == ours.step(),
        Some(base) => is_taken_number(base.step(), ours.step(), theirs.step(), step),
    };
    taken || step == ours.step() && is_told_level(told)
}

/// Whether a line is one side's, and the other's is told.
fn is_chosen(told: &[u8], ours: &[u8], theirs: &[u8], line: &[u8]) -> bool
    ensures { IsTrue result → IsChosen told.now ours.now theirs.now line.now }
{
    line == ours && is_told_heading(told, theirs) || line == theirs && is_told_heading(told, ours)
}

/// The line of a unit, without the tag CONFLICT.
fn is_plain_line(
    told: &[u8],
    base: &Option<Seen<'_>>,
    ours: &[u8],
    theirs: &[u8],
    line: &[u8],
) -> bool
    ensures { IsTrue result → IsPlainLine told.now (option_map (λ (s : Seen). s.line) base.now)
        ours.now theirs.now line.now }
{
    let taken = match base {
        None => is_taken_new(ours, theirs, line),
        Some(base) => is_taken(base.line(), ours, theirs, line),
    };
    taken || is_chosen(told, ours, theirs, line)
}

/// A line without the tag CONFLICT that stands after other tags.
fn more_unmarked(line: &[u8]) -> Option<&[u8]>
    ensures { IfSome result (λ plain. IsMarked plain.now line.now) }
{
    match line.strip_suffix(MORE) {
        Some(plain) => {
            if plain.ends_with(COLON) {
                Some(plain)
            } else {
                None
            }
        }
        None => None,
    }
}

/// A line without the tag CONFLICT that stands last.
fn unmarked(line: &[u8]) -> Option<&[u8]>
    ensures { IfSome result (λ plain. IsMarked plain.now line.now) }
{
    match line.strip_suffix(MARK) {
        Some(plain) => Some(plain),
        None => more_unmarked(line),
    }
}

/// The line of a unit.
fn is_lined(told: &[u8], base: &Option<Seen<'_>>, ours: &[u8], theirs: &[u8], line: &[u8]) -> bool
    ensures { IsTrue result → IsLined told.now (option_map (λ (s : Seen). s.line) base.now)
        ours.now theirs.now line.now }
{
    if is_plain_line(told, base, ours, theirs, line) {
        return true;
    }
    match unmarked(line) {
        None => false,
        Some(plain) => is_conflict(told) && is_plain_line(told, base, ours, theirs, plain),
    }
}

/// The line of a unit, whole or by its parts.
fn is_headed(
    states: &States,
    told: &[u8],
    base: &Option<Seen<'_>>,
    ours: &Seen<'_>,
    theirs: &Seen<'_>,
    merged: &Seen<'_>,
) -> bool
    ensures { IsTrue result
        → IsLined told.now (option_map (λ (s : Seen). s.line) base.now) ours.now.line
        theirs.now.line merged.now.line
        ⊎ IsComposed states.now told.now merged.now.above
        (option_map (λ (s : Seen). s.line) base.now) ours.now.line theirs.now.line
        merged.now.line }
{
    let mine = ours.line();
    let other = theirs.line();
    let line = merged.line();
    if is_lined(told, base, mine, other, line) {
        return true;
    }
    is_composed(states, told, merged.above(), base, mine, other, line)
}

/// Whether a text may be a union: both sides changed it, each otherwise than the other, or it is
/// told.
fn may_unite(told: &[u8], base: &[u8], ours: &[u8], theirs: &[u8]) -> bool
    ensures { IsTrue result → MayUnite told.now (Some base.now) ours.now theirs.now }
{
    if is_conflict(told) {
        return true;
    }
    base != ours && base != theirs && ours != theirs
}

/// The same of a text that base doesn't have.
fn may_unite_new(told: &[u8], ours: &[u8], theirs: &[u8]) -> bool
    ensures { IsTrue result → MayUnite told.now None ours.now theirs.now }
{
    if is_conflict(told) {
        return true;
    }
    ours != theirs
}

/// The text of a unit that base has.
fn is_written_over(
    alloc: Global,
    told: &[u8],
    base: &Seen<'_>,
    ours: &Seen<'_>,
    theirs: &Seen<'_>,
    merged: &[u8],
) -> Result<bool, AllocError>
    ensures { IfOk result (λ is. IsTrue is
        → IsWritten told.now (Some base.now) ours.now theirs.now merged.now) }
{
    let was = base.section();
    let mine = ours.section();
    let other = theirs.section();
    if is_taken(was, mine, other, merged) {
        return Ok(true);
    }
    if !may_unite(told, was, mine, other) {
        return Ok(false);
    }
    let texts = Texts {
        told,
        ours_line: ours.line(),
        theirs_line: theirs.line(),
        base: was,
        ours: mine,
        theirs: other,
        merged,
    };
    Ok(is_union(alloc, &texts)?)
}

/// The text of a unit that both sides added.
fn is_written_new(
    alloc: Global,
    told: &[u8],
    ours: &Seen<'_>,
    theirs: &Seen<'_>,
    merged: &[u8],
) -> Result<bool, AllocError>
    ensures { IfOk result (λ is. IsTrue is
        → IsWritten told.now None ours.now theirs.now merged.now) }
{
    let mine = ours.section();
    let other = theirs.section();
    if is_taken_new(mine, other, merged) {
        return Ok(true);
    }
    if !may_unite_new(told, mine, other) {
        return Ok(false);
    }
    let texts = Texts {
        told,
        ours_line: ours.line(),
        theirs_line: theirs.line(),
        base: &[],
        ours: mine,
        theirs: other,
        merged,
    };
    Ok(is_union(alloc, &texts)?)
}

/// The text of a unit.
fn is_written(
    alloc: Global,
    told: &[u8],
    base: &Option<Seen<'_>>,
    ours: &Seen<'_>,
    theirs: &Seen<'_>,
    merged: &[u8],
) -> Result<bool, AllocError>
    ensures { IfOk result (λ is. IsTrue is
        → IsWritten told.now base.now ours.now theirs.now merged.now) }
{
    match base {
        None => Ok(is_written_new(alloc, told, ours, theirs, merged)?),
        Some(base) => Ok(is_written_over(alloc, told, base, ours, theirs, merged)?),
    }
}

/// What both sides have.
fn is_merged(
    alloc: Global,
    states: &States,
    told: &[u8],
    base: &Option<Seen<'_>>,
    ours: &Seen<'_>,
    theirs: &Seen<'_>,
    merged: &Seen<'_>,
) -> Result<bool, AllocError>
    ensures { IfOk result (λ is. IsTrue is
        → IsMerged states.now told.now base.now ours.now theirs.now merged.now) }
{
    if !is_placed(told, base, ours, theirs, merged) {
        return Ok(false);
    }
    if !is_stepped(told, base, ours, theirs, merged) {
        return Ok(false);
    }
    if !is_headed(states, told, base, ours, theirs, merged) {
        return Ok(false);
    }
    let section = merged.section();
    Ok(is_written(alloc, told, base, ours, theirs, section)?)
}

/// Whether a unit is there as a side has it.
fn is_there(side: &Seen<'_>, merged: &Option<Seen<'_>>) -> bool
    ensures { IsTrue result → merged.now ≡ Some side.now }
{
    match merged {
        None => false,
        Some(merged) => merged.is(side),
    }
}

/// What one side alone has.
fn is_kept(told: &[u8], base: &Option<Seen<'_>>, side: &Seen<'_>, merged: &Option<Seen<'_>>) -> bool
    ensures { IsTrue result → IsKept told.now base.now side.now merged.now }
{
    match base {
        None => is_there(side, merged),
        Some(base) => {
            side.is(base) && merged.is_none() || is_there(side, merged) && is_told_kept(told)
        }
    }
}

/// Whether a row is right, by what the four folders have of it.
pub(crate) fn is_right(
    alloc: Global,
    states: &States,
    told: &[u8],
    base: &Option<Seen<'_>>,
    ours: &Option<Seen<'_>>,
    theirs: &Option<Seen<'_>>,
    merged: &Option<Seen<'_>>,
) -> Result<bool, AllocError>
    ensures { IfOk result (λ is. IsTrue is
        → IsRight states.now told.now base.now ours.now theirs.now merged.now) }
{
    match ours {
        None => match theirs {
            None => Ok(merged.is_none()),
            Some(theirs) => Ok(is_kept(told, base, theirs, merged)),
        },
        Some(ours) => match theirs {
            None => Ok(is_kept(told, base, ours, merged)),
            Some(theirs) => match merged {
                None => Ok(false),
                Some(merged) => Ok(is_merged(alloc, states, told, base, ours, theirs, merged)?),
            },
        },
    }
}
