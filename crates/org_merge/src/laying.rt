//! The files of the merge, laid out: each heading, what stands below it, and so on.
use crate::event::What;
use crate::folder::Entry;
use crate::ids::at;
use crate::items::Item;
use crate::lists::Side;
use crate::merged::Merging;
use crate::order::ordered;
use crate::own::{Own, Owns, merge_own};
use crate::text::push_line;
use crate::texts::{Texts, merge_texts};
use crate::three::{Taken, chosen};
use org_outline::States;
use std::alloc::{AllocError, Global};

/// A heading that is to be written, with its level.
#[derive(Clone, Copy)]
struct Next {
    item: usize,
    level: usize,
}

/// How much deeper an item stands than what it stands below.
fn step_of(merging: &mut Merging<'_, '_>, number: usize) -> Result<usize, AllocError> {
    let Some(item) = merging.items.item(number) else {
        return Ok(1);
    };
    let ours = merging.three.in_side(&item, Side::Ours);
    let theirs = merging.three.in_side(&item, Side::Theirs);
    let (mine, other) = match (ours, theirs) {
        (Some(ours), Some(theirs)) => (ours.step, theirs.step),
        (Some(entry), None) | (None, Some(entry)) => return Ok(entry.step),
        (None, None) => return Ok(1),
    };
    let base = match merging.three.in_base(&item) {
        Some(entry) => Some(entry.step),
        None => None,
    };
    match chosen(base == Some(other), base == Some(mine), mine == other) {
        Taken::Ours => Ok(mine),
        Taken::Theirs => Ok(other),
        Taken::Either => {
            let place = merging.place_of(number);
            merging.note(place, What::TwoLevels, &[])?;
            Ok(mine)
        }
    }
}

/// Puts what stands below a place before what else is to be written. No sibling is deeper than the
/// one before it.
fn push_below(
    merging: &mut Merging<'_, '_>,
    left: &mut Vec<Next>,
    place: usize,
    level: usize,
) -> Result<(), AllocError> {
    let mut below = Vec::new(merging.alloc);
    let mut most = usize::MAX;
    for item in &ordered(merging, place)? {
        let step = step_of(merging, *item)?;
        most = most.min(level.saturating_add(step));
        below.push(Next {
            item: *item,
            level: most,
        })?;
    }
    for next in below.iter().rev() {
        left.push(*next)?;
    }
    Ok(())
}

/// Whether two entries have one text.
fn have_one_text(one: &Entry<'_>, other: &Entry<'_>) -> bool {
    one.text_id == other.text_id
}

/// Whether a value of a list is true.
fn is_set(list: &[bool], index: usize) -> bool {
    list.get(index).copied() == Some(true)
}

/// An entry's own text as it is.
fn own_of(alloc: Global, entry: &Entry<'_>) -> Result<Own, AllocError> {
    Ok(Own {
        line: Vec::from_slice(alloc, entry.line)?,
        section: Vec::from_slice(alloc, entry.section)?,
    })
}

/// Whether two entries have the same own text, with the same ends of lines.
fn are_same(one: &Entry<'_>, other: &Entry<'_>) -> bool {
    one.line == other.line && one.section == other.section
}

/// The entry whose own text is taken as it is: the one that changed it, or that of both.
fn agreed<'a>(base: Option<Entry<'a>>, ours: Entry<'a>, theirs: Entry<'a>) -> Option<Entry<'a>> {
    let (is_theirs_old, is_ours_old) = match base {
        Some(base) => (are_same(&theirs, &base), are_same(&ours, &base)),
        None => (false, false),
    };
    match chosen(is_theirs_old, is_ours_old, are_same(&ours, &theirs)) {
        Taken::Ours => Some(ours),
        Taken::Theirs => Some(theirs),
        Taken::Either => None,
    }
}

/// Tells of an entry that is known by its title alone, and that both sides changed.
fn tell_title(
    merging: &mut Merging<'_, '_>,
    number: usize,
    base: &Entry<'_>,
    ours: &Entry<'_>,
    theirs: &Entry<'_>,
) -> Result<(), AllocError> {
    if have_one_text(base, ours) || have_one_text(base, theirs) || have_one_text(ours, theirs) {
        return Ok(());
    }
    let place = merging.place_of(number);
    merging.note(place, What::KnownByTitle, &[])
}

/// The own text of an item that both sides have.
fn own_of_both<'a>(
    merging: &mut Merging<'_, 'a>,
    states: &States,
    number: usize,
    item: &Item,
    ours: Entry<'a>,
    theirs: Entry<'a>,
) -> Result<Own, AllocError> {
    let alloc = merging.alloc;
    let base = merging.three.in_base(item);
    let entry = item.base.unwrap_or(usize::MAX);
    if let Some(base) = base {
        if is_set(merging.items.by_title.as_slice(), entry) {
            tell_title(merging, number, &base, &ours, &theirs)?;
        }
    }
    if let Some(entry) = agreed(base, ours, theirs) {
        return own_of(alloc, &entry);
    }
    let owns = Owns {
        base_line: match base {
            Some(base) => Some(base.bare_line),
            None => None,
        },
        ours_line: ours.bare_line,
        theirs_line: theirs.bare_line,
        sections: Texts {
            base: match base {
                Some(base) => base.bare_section,
                None => &[],
            },
            ours: ours.bare_section,
            theirs: theirs.bare_section,
        },
    };
    let is_unsure = is_set(merging.items.by_place.as_slice(), entry) && ours.title != theirs.title;
    let mut events = Vec::new(alloc);
    let own = merge_own(alloc, states, &owns, is_unsure, &mut events)?;
    let place = merging.place_of(number);
    merging.tell(place, events)?;
    Ok(own)
}

/// The own text of an item.
fn merged_own(
    merging: &mut Merging<'_, '_>,
    states: &States,
    number: usize,
) -> Result<Own, AllocError> {
    let alloc = merging.alloc;
    let none = Own {
        line: Vec::new(alloc),
        section: Vec::new(alloc),
    };
    let Some(item) = merging.items.item(number) else {
        return Ok(none);
    };
    let ours = merging.three.in_side(&item, Side::Ours);
    let theirs = merging.three.in_side(&item, Side::Theirs);
    match (ours, theirs) {
        (Some(ours), Some(theirs)) => { own_of_both(merging, states, number, &item, ours, theirs) }
        (Some(entry), None) | (None, Some(entry)) => own_of(alloc, &entry),
        (None, None) => Ok(none),
    }
}

/// Puts a heading of this level with its section at a text's end.
fn write_entry(text: &mut Vec<u8>, level: usize, own: &Own) -> Result<(), AllocError> {
    for _ in 0..level {
        text.push(b'*')?;
    }
    push_line(text, own.line.as_slice())?;
    text.extend_from_slice(own.section.as_slice())
}

/// The preamble of a file: that of the side that changed it, or what both make of it.
fn merged_preamble(merging: &mut Merging<'_, '_>, file: usize) -> Result<Vec<u8>, AllocError> {
    let alloc = merging.alloc;
    let three = &merging.three;
    let texts = Texts {
        base: at(three.base.preambles.as_slice(), file).unwrap_or(&[]),
        ours: at(three.ours.preambles.as_slice(), file).unwrap_or(&[]),
        theirs: at(three.theirs.preambles.as_slice(), file).unwrap_or(&[]),
    };
    let mut events = Vec::new(alloc);
    let text = merge_texts(alloc, &texts, &mut events)?;
    merging.tell(file, events)?;
    Ok(text)
}

/// A file of the merge.
#[derive(Drop)]
pub(crate) struct Laid {
    pub(crate) text: Vec<u8>,
    /// The items that stand in it, in document order.
    pub(crate) items: Vec<usize>,
}

/// Lays out a file.
pub(crate) fn lay_file(
    merging: &mut Merging<'_, '_>,
    states: &States,
    file: usize,
) -> Result<Laid, AllocError> {
    let alloc = merging.alloc;
    let mut text = merged_preamble(merging, file)?;
    let mut items = Vec::new(alloc);
    let mut left = Vec::new(alloc);
    push_below(merging, &mut left, file, 0)?;
    for _ in 0..merging.items.list.len() {
        let Some(next) = left.pop() else {
            break;
        };
        let own = merged_own(merging, states, next.item)?;
        write_entry(&mut text, next.level, &own)?;
        items.push(next.item)?;
        let place = merging.place_of(next.item);
        push_below(merging, &mut left, place, next.level)?;
    }
    Ok(Laid { text, items })
}
