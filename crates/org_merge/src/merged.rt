//! Where each item goes in the merge, and which stay.
use crate::event::{Event, Events, What, note};
use crate::folder::Entry;
use crate::ids::{at, set};
use crate::items::{Item, Items, Three, place_in};
use crate::lists::Side;
use crate::three::{Taken, chosen};
use std::alloc::{AllocError, Global};
use std::collections::HashMap;

/// The merge of three folders, while it is made.
#[derive(Drop)]
pub(crate) struct Merging<'f, 'a> {
    pub(crate) alloc: Global,
    pub(crate) three: Three<'f, 'a>,
    pub(crate) items: Items,
    /// The place of each item.
    pub(crate) place: Vec<Option<usize>>,
    /// Whether each item stays.
    pub(crate) stays: Vec<bool>,
    /// What is told of each place.
    pub(crate) told: Vec<Events>,
}

/// A list of empty lists.
fn no_events(alloc: Global, count: usize) -> Result<Vec<Events>, AllocError> {
    let mut out = Vec::with_capacity(alloc, count)?;
    for _ in 0..count {
        out.push(Vec::new(alloc))?;
    }
    Ok(out)
}

impl<'f, 'a> Merging<'f, 'a> {
    pub(crate) fn new(
        alloc: Global,
        three: Three<'f, 'a>,
        items: Items,
    ) -> Result<Merging<'f, 'a>, AllocError> {
        let count = items.list.len();
        Ok(Merging {
            alloc,
            three,
            items,
            place: vec![in alloc; None; count]?,
            stays: vec![in alloc; false; count]?,
            told: no_events(alloc, count.saturating_add(three.files()))?,
        })
    }

    /// The place that an item is.
    pub(crate) fn place_of(&self, item: usize) -> usize {
        item.saturating_add(self.three.files())
    }

    /// The item that a place is; none of a file.
    pub(crate) fn item_at(&self, place: usize) -> Option<usize> {
        if place < self.three.files() {
            None
        } else {
            Some(place.saturating_sub(self.three.files()))
        }
    }

    /// Where base has an item.
    pub(crate) fn over_base(&self, item: &Item) -> Option<usize> {
        let entry = self.three.in_base(item)?;
        place_in(self.three.base, self.items.of_base.as_slice(), &entry)
    }

    /// Where a side has an item.
    pub(crate) fn over(&self, item: &Item, side: Side) -> Option<usize> {
        let entry = self.three.in_side(item, side)?;
        place_in(self.three.side(side), self.items.of(side), &entry)
    }

    /// Adds a note of a place.
    pub(crate) fn note(&mut self, place: usize, what: What, text: &[u8]) -> Result<(), AllocError> {
        match self.told.get_mut(place) {
            Some(events) => note(self.alloc, events, what, text),
            None => Ok(()),
        }
    }

    /// Moves events to the end of those of a place.
    pub(crate) fn tell(&mut self, place: usize, more: Vec<Event>) -> Result<(), AllocError> {
        if let Some(events) = self.told.get_mut(place) {
            for event in more {
                events.push(event)?;
            }
        }
        Ok(())
    }
}

/// Whether a title is that of a year, a month or a day of a date tree.
pub(crate) fn date_of(title: &[u8]) -> Option<&[u8]> {
    let day = dashed(title, 10);
    let month = dashed(title, 7);
    match title {
        [a, b, c, d] if are_digits(&[*a, *b, *c, *d]) => Some(title),
        _ => day.or(month),
    }
}

/// Whether all are digits.
fn are_digits(bytes: &[u8]) -> bool {
    bytes.iter().all(|byte| byte.is_ascii_digit())
}

/// The date of this size that a title begins with, alone or before a space.
fn dashed(title: &[u8], size: usize) -> Option<&[u8]> {
    let date = title.get(..size)?;
    let is_whole = match title.get(size) {
        None => true,
        Some(byte) => *byte == b' ',
    };
    for (at, byte) in date.iter().enumerate() {
        let is_right = if at == 4 || at == 7 {
            *byte == b'-'
        } else {
            byte.is_ascii_digit()
        };
        if !is_right {
            return None;
        }
    }
    if is_whole { Some(date) } else { None }
}

/// The titles of what ours alone added.
fn new_titles<'a>(
    alloc: Global,
    three: &Three<'_, 'a>,
    items: &Items,
) -> Result<HashMap<&'a [u8], ()>, AllocError> {
    let mut titles = HashMap::new(alloc);
    for item in &items.list {
        if item.base.is_none() && item.theirs.is_none() {
            if let Some(entry) = three.in_side(item, Side::Ours) {
                if !entry.title.is_empty() {
                    titles.insert(entry.title, ())?;
                }
            }
        }
    }
    Ok(titles)
}

/// Tells of what theirs alone added with the title of something that ours did.
pub(crate) fn tell_titles(merging: &mut Merging<'_, '_>) -> Result<(), AllocError> {
    let titles = new_titles(merging.alloc, &merging.three, &merging.items)?;
    for number in 0..merging.items.list.len() {
        let Some(item) = merging.items.item(number) else {
            continue;
        };
        if item.base.is_some() || item.ours.is_some() {
            continue;
        }
        if let Some(entry) = merging.three.in_side(&item, Side::Theirs) {
            if titles.contains_key(&entry.title) && date_of(entry.title).is_none() {
                let place = merging.place_of(number);
                merging.note(place, What::BothAddedTitle, &[])?;
            }
        }
    }
    Ok(())
}

/// Whose place is taken of an item that both sides have.
fn taken_place(base: Option<usize>, ours: Option<usize>, theirs: Option<usize>) -> Taken {
    chosen(theirs == base, ours == base, ours == theirs)
}

/// The path of an entry of theirs: its file's name and titles, with slashes.
fn path_of<'a>(
    merging: &Merging<'_, 'a>,
    entry: &Entry<'a>,
    names: &[&[u8]],
) -> Result<Vec<u8>, AllocError> {
    let alloc = merging.alloc;
    let folder = merging.three.theirs;
    let mut titles = vec![in alloc; entry.title]?;
    let mut place = entry.place;
    for _ in 0..folder.entries.len() {
        let Some(above) = folder.entry_at(place) else {
            break;
        };
        if let Some(above) = folder.entry(above) {
            titles.push(above.title)?;
            place = above.place;
        }
    }
    let mut out = Vec::from_slice(alloc, names.get(entry.file).copied().unwrap_or(&[]))?;
    for title in titles.iter().rev() {
        out.push(b'/')?;
        out.extend_from_slice(*title)?;
    }
    Ok(out)
}

/// The place of an item that both sides have.
fn place_both(
    merging: &mut Merging<'_, '_>,
    number: usize,
    item: &Item,
    names: &[&[u8]],
) -> Result<Option<usize>, AllocError> {
    let ours = merging.over(item, Side::Ours);
    let theirs = merging.over(item, Side::Theirs);
    match taken_place(merging.over_base(item), ours, theirs) {
        Taken::Ours => Ok(ours),
        Taken::Theirs => Ok(theirs),
        Taken::Either => {
            if let Some(entry) = merging.three.in_side(item, Side::Theirs) {
                let path = path_of(merging, &entry, names)?;
                let place = merging.place_of(number);
                merging.note(place, What::MovedToTwoPlaces, path.as_slice())?;
            }
            Ok(ours)
        }
    }
}

/// Sets the place of each item: that of the side that changed it.
pub(crate) fn set_places(merging: &mut Merging<'_, '_>, names: &[&[u8]]) -> Result<(), AllocError> {
    for number in 0..merging.items.list.len() {
        let Some(item) = merging.items.item(number) else {
            continue;
        };
        let place = match (item.ours, item.theirs) {
            (Some(_), Some(_)) => place_both(merging, number, &item, names)?,
            (Some(_), None) => merging.over(&item, Side::Ours),
            (None, _) => merging.over(&item, Side::Theirs),
        };
        set(&mut merging.place, number, place);
    }
    Ok(())
}

/// What is known of the way from an item up.
#[derive(Clone, Copy, PartialEq, Eq)]
enum Way {
    Unknown,
    /// It reaches no file, as far as is known.
    Open,
    /// It reaches a file.
    Done,
}

/// The items on the way from one up to a place that is known, and whether that reaches a file.
fn way_up(
    merging: &Merging<'_, '_>,
    ways: &mut Vec<Way>,
    number: usize,
) -> Result<(Vec<usize>, bool), AllocError> {
    let mut way = Vec::new(merging.alloc);
    let mut item = number;
    for _ in 0..=merging.items.list.len() {
        match ways.as_slice().get(item).copied() {
            Some(Way::Unknown) => {}
            known => return Ok((way, known == Some(Way::Done))),
        }
        set(ways, item, Way::Open);
        way.push(item)?;
        let Some(place) = at(merging.place.as_slice(), item) else {
            return Ok((way, false));
        };
        match merging.item_at(place) {
            Some(above) => item = above,
            None => return Ok((way, true)),
        }
    }
    Ok((way, false))
}

/// Which items' ways up reach a file.
fn ways_of(merging: &Merging<'_, '_>) -> Result<Vec<Way>, AllocError> {
    let alloc = merging.alloc;
    let mut ways = vec![in alloc; Way::Unknown; merging.items.list.len()]?;
    for number in 0..merging.items.list.len() {
        let (way, is_done) = way_up(merging, &mut ways, number)?;
        if is_done {
            close(&mut ways, way.as_slice());
        }
    }
    Ok(ways)
}

/// Notes that these reach a file.
fn close(ways: &mut Vec<Way>, way: &[usize]) {
    for item in way {
        set(ways, *item, Way::Done);
    }
}

/// Has each item whose way up reaches no file go where ours has it.
pub(crate) fn break_circles(merging: &mut Merging<'_, '_>) -> Result<(), AllocError> {
    let ways = ways_of(merging)?;
    for number in 0..merging.items.list.len() {
        let Some(item) = merging.items.item(number) else {
            continue;
        };
        let is_done = ways.as_slice().get(number).copied() == Some(Way::Done);
        if is_done || item.ours.is_none() {
            continue;
        }
        let ours = merging.over(&item, Side::Ours);
        if at(merging.place.as_slice(), number) != ours {
            let place = merging.place_of(number);
            merging.note(place, What::MovedBelowItself, &[])?;
            set(&mut merging.place, number, ours);
        }
    }
    Ok(())
}

/// The trees of what one side deleted and the other has: for each item the number of its tree.
#[derive(Drop)]
struct Deleted {
    tree_of: Vec<Option<usize>>,
    trees: Vec<Vec<usize>>,
}

/// Lists what the other side deleted of a side's entries. Headings come before what stands below.
fn list_deleted(
    merging: &Merging<'_, '_>,
    side: Side,
    other: Side,
    deleted: &mut Deleted,
) -> Result<(), AllocError> {
    for (number, entry) in merging.three.side(side).entries.iter().enumerate() {
        let Some(found) = at(merging.items.of(side), number) else {
            continue;
        };
        let Some(item) = merging.items.item(found) else {
            continue;
        };
        if item.base.is_none() || item.of(other).is_some() {
            continue;
        }
        let above = match merging.three.side(side).entry_at(entry.place) {
            Some(parent) => at(merging.items.of(side), parent),
            None => None,
        };
        let tree = match above {
            Some(above) => at(deleted.tree_of.as_slice(), above),
            None => None,
        };
        deleted.push(merging.alloc, found, tree)?;
    }
    Ok(())
}

impl Deleted {
    /// Puts an item into a tree, or into a new one.
    fn push(&mut self, alloc: Global, item: usize, tree: Option<usize>) -> Result<(), AllocError> {
        let number = match tree {
            Some(number) => number,
            None => {
                self.trees.push(Vec::new(alloc))?;
                self.trees.len().saturating_sub(1)
            }
        };
        if let Some(tree) = self.trees.get_mut(number) {
            tree.push(item)?;
        }
        set(&mut self.tree_of, item, Some(number));
        Ok(())
    }

    /// The items of the tree of an item.
    fn tree(&self, item: usize) -> &[usize] {
        match at(self.tree_of.as_slice(), item) {
            Some(number) => match self.trees.as_slice().get(number) {
                Some(tree) => tree.as_slice(),
                None => &[],
            },
            None => &[],
        }
    }
}

/// What one side deleted and the other has.
fn deleted_of(merging: &Merging<'_, '_>) -> Result<Deleted, AllocError> {
    let alloc = merging.alloc;
    let mut deleted = Deleted {
        tree_of: vec![in alloc; None; merging.items.list.len()]?,
        trees: Vec::new(alloc),
    };
    list_deleted(merging, Side::Ours, Side::Theirs, &mut deleted)?;
    list_deleted(merging, Side::Theirs, Side::Ours, &mut deleted)?;
    Ok(deleted)
}

/// Keeps the tree of an item that one side deleted, and tells it of each of its items.
fn keep(merging: &mut Merging<'_, '_>, deleted: &Deleted, item: usize) -> Result<(), AllocError> {
    for kept in deleted.tree(item) {
        set(&mut merging.stays, *kept, true);
        let place = merging.place_of(*kept);
        merging.note(place, What::Kept, &[])?;
    }
    Ok(())
}

/// Whether an item stays.
fn stays(merging: &Merging<'_, '_>, item: usize) -> bool {
    merging.stays.as_slice().get(item).copied() == Some(true)
}

/// Whether the side that has an item changed it: its own text, or the place.
fn is_changed(merging: &Merging<'_, '_>, item: &Item) -> bool {
    let side = if item.ours.is_some() {
        Side::Ours
    } else {
        Side::Theirs
    };
    match (
        merging.three.in_base(item),
        merging.three.in_side(item, side),
    ) {
        (Some(was), Some(is)) => {
            was.text_id != is.text_id || merging.over_base(item) != merging.over(item, side)
        }
        _ => false,
    }
}

/// Keeps what both sides have, and each addition.
fn keep_known(merging: &mut Merging<'_, '_>) {
    for number in 0..merging.items.list.len() {
        if let Some(item) = merging.items.item(number) {
            let is_there = match (item.base, item.ours, item.theirs) {
                (_, Some(_), Some(_)) | (None, _, _) => true,
                _ => false,
            };
            set(&mut merging.stays, number, is_there);
        }
    }
}

/// Keeps what one side deleted and the other changed, with the tree that it stands in.
fn keep_changed(merging: &mut Merging<'_, '_>, deleted: &Deleted) -> Result<(), AllocError> {
    for number in 0..merging.items.list.len() {
        let Some(item) = merging.items.item(number) else {
            continue;
        };
        let is_deleted = at(deleted.tree_of.as_slice(), number).is_some();
        if is_deleted && !stays(merging, number) && is_changed(merging, &item) {
            keep(merging, deleted, number)?;
        }
    }
    Ok(())
}

/// Keeps each heading above an item that stays.
fn keep_above(
    merging: &mut Merging<'_, '_>,
    deleted: &Deleted,
    number: usize,
) -> Result<(), AllocError> {
    let mut item = number;
    for _ in 0..merging.items.list.len() {
        let Some(place) = at(merging.place.as_slice(), item) else {
            return Ok(());
        };
        let Some(above) = merging.item_at(place) else {
            return Ok(());
        };
        if stays(merging, above) {
            return Ok(());
        }
        keep(merging, deleted, above)?;
        item = above;
    }
    Ok(())
}

/// Decides which items stay.
pub(crate) fn set_staying(merging: &mut Merging<'_, '_>) -> Result<(), AllocError> {
    let deleted = deleted_of(merging)?;
    keep_known(merging);
    keep_changed(merging, &deleted)?;
    for number in 0..merging.items.list.len() {
        if stays(merging, number) {
            keep_above(merging, &deleted, number)?;
        }
    }
    Ok(())
}
