//! The order of what stands below a place of the merge.
//!
//! What both sides have there leads, in the order of the side that changed it. Each other item
//! stands after the one that it follows on its own side; at one place ours' come first.
use crate::event::What;
use crate::ids::at;
use crate::items::Item;
use crate::lists::Side;
use crate::merged::{Merging, date_of};
use std::alloc::AllocError;

/// Whether a side, or base, has an item where the merge has it.
fn stands(merging: &Merging<'_, '_>, item: usize, there: Option<usize>) -> bool {
    let stays = merging.stays.as_slice().get(item).copied() == Some(true);
    stays && there.is_some() && there == at(merging.place.as_slice(), item)
}

/// Whether a side has an item where the merge has it.
fn stands_on(merging: &Merging<'_, '_>, number: usize, side: Side) -> bool {
    match merging.items.item(number) {
        Some(item) => stands(merging, number, merging.over(&item, side)),
        None => false,
    }
}

/// Whether both sides do.
fn is_shared(merging: &Merging<'_, '_>, number: usize) -> bool {
    stands_on(merging, number, Side::Ours) && stands_on(merging, number, Side::Theirs)
}

/// Whether base does too.
fn is_old(merging: &Merging<'_, '_>, number: usize) -> bool {
    match merging.items.item(number) {
        Some(item) => {
            is_shared(merging, number) && stands(merging, number, merging.over_base(&item))
        }
        None => false,
    }
}

/// What a side has below a place, as items.
fn list_below(
    merging: &Merging<'_, '_>,
    place: usize,
    side: Side,
) -> Result<Vec<usize>, AllocError> {
    let mut out = Vec::new(merging.alloc);
    let folder = merging.three.side(side);
    let Some(here) = place_on(merging, place, side) else {
        return Ok(out);
    };
    for entry in folder.kids.below(here) {
        if let Some(item) = at(merging.items.of(side), *entry) {
            if stands_on(merging, item, side) {
                out.push(item)?;
            }
        }
    }
    Ok(out)
}

/// A place of the merge in a side's folder.
fn place_on(merging: &Merging<'_, '_>, place: usize, side: Side) -> Option<usize> {
    match merging.item_at(place) {
        None => Some(place),
        Some(number) => {
            let item: Item = merging.items.item(number)?;
            Some(merging.three.side(side).place_of(item.of(side)?))
        }
    }
}

/// What base has below a place, as items that both sides have there too.
fn listed_old(merging: &Merging<'_, '_>, place: usize) -> Result<Vec<usize>, AllocError> {
    let mut out = Vec::new(merging.alloc);
    let here = match merging.item_at(place) {
        None => place,
        Some(number) => match merging.items.item(number) {
            Some(
                Item {
                    base: Some(entry),
                    ..
                },
            ) => merging.three.base.place_of(entry),
            _ => return Ok(out),
        },
    };
    for entry in merging.three.base.kids.below(here) {
        if let Some(item) = at(merging.items.of_base.as_slice(), *entry) {
            if is_shared(merging, item) {
                out.push(item)?;
            }
        }
    }
    Ok(out)
}

/// Those of a list that base has there too.
fn old_of(merging: &Merging<'_, '_>, list: &[usize]) -> Result<Vec<usize>, AllocError> {
    let mut out = Vec::new(merging.alloc);
    for item in list {
        if is_old(merging, *item) {
            out.push(*item)?;
        }
    }
    Ok(out)
}

/// Where a run of items begins that one side alone has: at the front, or after a shared one.
#[derive(Clone, Copy)]
struct Run {
    start: usize,
    end: usize,
}

/// The runs of a side's list: the one at the front, and after each shared item its own.
#[derive(Drop)]
struct Runs {
    front: Run,
    /// For each item in a shared place its run.
    after: Vec<(usize, Run)>,
}

/// The end of the run that begins at a place of a list.
fn run_from(merging: &Merging<'_, '_>, list: &[usize], start: usize) -> Run {
    let rest = list.get(start..).unwrap_or(&[]);
    let mut end = start;
    for item in rest {
        if is_shared(merging, *item) {
            break;
        }
        end = end.saturating_add(1);
    }
    Run { start, end }
}

fn runs_of(merging: &Merging<'_, '_>, list: &[usize]) -> Result<Runs, AllocError> {
    let mut after = Vec::new(merging.alloc);
    for (place, item) in list.iter().enumerate() {
        if is_shared(merging, *item) {
            after.push((*item, run_from(merging, list, place.saturating_add(1))))?;
        }
    }
    after.sort_by_key(|(item, _)| *item)?;
    Ok(Runs {
        front: run_from(merging, list, 0),
        after,
    })
}

impl Runs {
    /// The run after a shared item.
    fn after(&self, item: usize) -> Run {
        let after = self.after.as_slice();
        match after.binary_search_by_key(&item, |(other, _)| *other) {
            Ok(place) => match after.get(place) {
                Some((_, run)) => *run,
                None => Run { start: 0, end: 0 },
            },
            Err(_) => Run { start: 0, end: 0 },
        }
    }
}

/// A side's list with its runs.
#[derive(Drop)]
struct Listed {
    list: Vec<usize>,
    runs: Runs,
}

impl Listed {
    fn of(merging: &Merging<'_, '_>, list: Vec<usize>) -> Result<Listed, AllocError> {
        let runs = runs_of(merging, list.as_slice())?;
        Ok(Listed { list, runs })
    }

    fn run(&self, run: Run) -> &[usize] {
        self.list.as_slice().get(run.start..run.end).unwrap_or(&[])
    }
}

/// The date of an item, if its title is that of a date tree.
fn date_at<'a>(merging: &Merging<'_, 'a>, number: usize) -> Option<&'a [u8]> {
    let item = merging.items.item(number)?;
    date_of(merging.three.any(&item)?.title)
}

/// Whether each of these items has a date.
fn are_dates(merging: &Merging<'_, '_>, list: &[usize]) -> bool {
    list.iter().all(|item| date_at(merging, *item).is_some())
}

/// Puts the runs of both sides at one place after others. Dates stand by date.
fn push_runs(
    merging: &Merging<'_, '_>,
    out: &mut Vec<usize>,
    mine: &[usize],
    other: &[usize],
) -> Result<(), AllocError> {
    let mut both = Vec::from_slice(merging.alloc, mine)?;
    both.extend_from_slice(other)?;
    if !mine.is_empty() && !other.is_empty() && are_dates(merging, both.as_slice()) {
        both.sort_by(|one, two| date_at(merging, *one).cmp(&date_at(merging, *two)))?;
    }
    out.extend_from_slice(both.as_slice())
}

/// Whose order leads: theirs if it alone changed base's, else ours; and whether both did.
fn leading(
    merging: &Merging<'_, '_>,
    place: usize,
    ours: &[usize],
    theirs: &[usize],
) -> Result<(Side, bool), AllocError> {
    let old = listed_old(merging, place)?;
    let was = old_of(merging, old.as_slice())?;
    let mine = old_of(merging, ours)?;
    let other = old_of(merging, theirs)?;
    let (was, mine, other) = (was.as_slice(), mine.as_slice(), other.as_slice());
    if other == was || mine == other {
        return Ok((Side::Ours, false));
    }
    if mine == was {
        return Ok((Side::Theirs, false));
    }
    Ok((Side::Ours, true))
}

/// What stands below a place, in order.
pub(crate) fn ordered(
    merging: &mut Merging<'_, '_>,
    place: usize,
) -> Result<Vec<usize>, AllocError> {
    let ours = list_below(merging, place, Side::Ours)?;
    let theirs = list_below(merging, place, Side::Theirs)?;
    if ours.is_empty() && theirs.is_empty() {
        return Ok(ours);
    }
    let ours = Listed::of(merging, ours)?;
    let theirs = Listed::of(merging, theirs)?;
    let (side, is_sorted_twice) = leading(
        merging,
        place,
        ours.list.as_slice(),
        theirs.list.as_slice(),
    )?;
    if is_sorted_twice {
        merging.note(place, What::SortedInTwoWays, &[])?;
    }
    let lead = match side {
        Side::Ours => &ours,
        Side::Theirs => &theirs,
    };
    let mut out = Vec::new(merging.alloc);
    let (mine, other) = (ours.run(ours.runs.front), theirs.run(theirs.runs.front));
    push_runs(merging, &mut out, mine, other)?;
    for item in &lead.list {
        if is_shared(merging, *item) {
            out.push(*item)?;
            let mine = ours.run(ours.runs.after(*item));
            let other = theirs.run(theirs.runs.after(*item));
            push_runs(merging, &mut out, mine, other)?;
        }
    }
    Ok(out)
}
