//! The entries of the three folders, each once, and the places of the merge.
//!
//! A place of the merge is the file with that number, or else the item whose number follows the
//! files'.
use crate::folder::{Entry, Folder, Known};
use crate::ids::{at, set};
use crate::lists::Side;
use crate::pairs::{Pairs, pair_additions, pair_side};
use std::alloc::{AllocError, Global};
use std::collections::HashMap;

/// An entry, as the three folders have it.
#[derive(Clone, Copy)]
pub(crate) struct Item {
    pub(crate) base: Option<usize>,
    pub(crate) ours: Option<usize>,
    pub(crate) theirs: Option<usize>,
}

impl Item {
    /// Its number in a side.
    pub(crate) fn of(&self, side: Side) -> Option<usize> {
        match side {
            Side::Ours => self.ours,
            Side::Theirs => self.theirs,
        }
    }
}

/// The three folders of a merge.
#[derive(Clone, Copy)]
pub(crate) struct Three<'f, 'a> {
    pub(crate) base: &'f Folder<'a>,
    pub(crate) ours: &'f Folder<'a>,
    pub(crate) theirs: &'f Folder<'a>,
}

impl<'f, 'a> Three<'f, 'a> {
    /// A side's folder.
    pub(crate) fn side(&self, side: Side) -> &'f Folder<'a> {
        match side {
            Side::Ours => self.ours,
            Side::Theirs => self.theirs,
        }
    }

    /// How many files there are.
    pub(crate) fn files(&self) -> usize {
        self.base.files
    }

    /// An item as base has it.
    pub(crate) fn in_base(&self, item: &Item) -> Option<Entry<'a>> {
        self.base.entry(item.base?)
    }

    /// An item as a side has it.
    pub(crate) fn in_side(&self, item: &Item, side: Side) -> Option<Entry<'a>> {
        self.side(side).entry(item.of(side)?)
    }

    /// An item as ours has it, or else theirs, or else base.
    pub(crate) fn any(&self, item: &Item) -> Option<Entry<'a>> {
        self.in_side(item, Side::Ours)
            .or(self.in_side(item, Side::Theirs))
            .or(self.in_base(item))
    }
}

/// The items, and those that the entries of each folder are.
#[derive(Drop)]
pub(crate) struct Items {
    pub(crate) list: Vec<Item>,
    pub(crate) of_base: Vec<Option<usize>>,
    pub(crate) of_ours: Vec<Option<usize>>,
    pub(crate) of_theirs: Vec<Option<usize>>,
    /// Which entries of base are known by their places alone.
    pub(crate) by_place: Vec<bool>,
    /// Which are known by their titles alone.
    pub(crate) by_title: Vec<bool>,
}

impl Items {
    /// Which items the entries of a side are.
    pub(crate) fn of(&self, side: Side) -> &[Option<usize>] {
        match side {
            Side::Ours => self.of_ours.as_slice(),
            Side::Theirs => self.of_theirs.as_slice(),
        }
    }

    /// The item with a number.
    pub(crate) fn item(&self, number: usize) -> Option<Item> {
        self.list.as_slice().get(number).copied()
    }

    /// Puts an item after the others.
    fn push(&mut self, item: Item) -> Result<usize, AllocError> {
        let number = self.list.len();
        self.list.push(item)?;
        if let Some(entry) = item.base {
            set(&mut self.of_base, entry, Some(number));
        }
        if let Some(entry) = item.ours {
            set(&mut self.of_ours, entry, Some(number));
        }
        if let Some(entry) = item.theirs {
            set(&mut self.of_theirs, entry, Some(number));
        }
        Ok(number)
    }

    /// Has an item that ours added be one that theirs added.
    fn join(&mut self, number: usize, theirs: usize) {
        if let Some(item) = self.list.get_mut(number) {
            item.theirs = Some(theirs);
            set(&mut self.of_theirs, theirs, Some(number));
        }
    }
}

/// The place of the merge that an entry stands below, where its folder's entries are these items.
pub(crate) fn place_in(
    folder: &Folder<'_>,
    items: &[Option<usize>],
    entry: &Entry<'_>,
) -> Option<usize> {
    match folder.entry_at(entry.place) {
        None => Some(entry.file),
        Some(parent) => Some(folder.place_of(at(items, parent)?)),
    }
}

/// Each entry of base, with its partners.
fn push_base(items: &mut Items, ours: &Pairs, theirs: &Pairs) -> Result<(), AllocError> {
    for (number, partner) in ours.to.iter().enumerate() {
        items.push(Item {
            base: Some(number),
            ours: *partner,
            theirs: theirs.second(number),
        })?;
    }
    Ok(())
}

/// What ours added.
fn push_ours(items: &mut Items, ours: &Pairs) -> Result<(), AllocError> {
    for (number, partner) in ours.back.iter().enumerate() {
        if partner.is_none() {
            items.push(Item {
                base: None,
                ours: Some(number),
                theirs: None,
            })?;
        }
    }
    Ok(())
}

/// The place and the text of an entry.
type Addition = (usize, usize);

/// What ours added, by place and text: for each the first that isn't taken, and after each the next
/// one.
#[derive(Drop)]
struct Waiting {
    first: HashMap<Addition, usize>,
    next: Vec<Option<usize>>,
}

impl Waiting {
    /// Lists the items after the first `from`, of which each is an addition of ours.
    fn of(
        alloc: Global,
        items: &Items,
        three: &Three<'_, '_>,
        from: usize,
    ) -> Result<Waiting, AllocError> {
        let mut waiting = Waiting {
            first: HashMap::new(alloc),
            next: vec![in alloc; None; items.list.len()]?,
        };
        for number in (from..items.list.len()).rev() {
            if let Some(addition) = addition_of(items, three, number) {
                let after = waiting.first.insert(addition, number)?;
                set(&mut waiting.next, number, after);
            }
        }
        Ok(waiting)
    }

    /// Takes the first one.
    fn take(&mut self, addition: Addition) -> Option<usize> {
        let number = *self.first.get(&addition)?;
        match at(self.next.as_slice(), number) {
            Some(after) => {
                if let Some(first) = self.first.get_mut(&addition) {
                    *first = after;
                }
            }
            None => {
                let _ = self.first.remove(&addition);
            }
        }
        Some(number)
    }
}

/// The place and the text of what ours added.
fn addition_of(items: &Items, three: &Three<'_, '_>, number: usize) -> Option<Addition> {
    let item = items.item(number)?;
    let entry = three.in_side(&item, Side::Ours)?;
    let place = place_in(three.ours, items.of_ours.as_slice(), &entry)?;
    Some((place, entry.text_id))
}

/// What theirs added: one with ours if it has the same text below the same heading.
fn push_theirs(
    items: &mut Items,
    theirs: &Pairs,
    three: &Three<'_, '_>,
    waiting: &mut Waiting,
) -> Result<(), AllocError> {
    for (number, entry) in three.theirs.entries.iter().enumerate() {
        if theirs.first(number).is_some() {
            continue;
        }
        let place = place_in(three.theirs, items.of_theirs.as_slice(), entry);
        let same = match place {
            Some(place) => waiting.take((place, entry.text_id)),
            None => None,
        };
        match same {
            Some(item) => items.join(item, number),
            None => {
                items.push(Item {
                    base: None,
                    ours: None,
                    theirs: Some(number),
                })?;
            }
        }
    }
    Ok(())
}

/// The pairs of ours and theirs that are one item so far.
fn joined_pairs(alloc: Global, items: &Items, three: &Three<'_, '_>) -> Result<Pairs, AllocError> {
    let mut pairs = Pairs::none(alloc, three.ours.entries.len(), three.theirs.entries.len())?;
    for item in &items.list {
        if let (Some(ours), Some(theirs)) = (item.ours, item.theirs) {
            pairs.pair(ours, theirs);
        }
    }
    Ok(pairs)
}

/// Whether an item is an addition.
fn is_new(items: &Items, number: usize) -> bool {
    match items.item(number) {
        Some(item) => item.base.is_none(),
        None => false,
    }
}

/// Joins what is one addition by ID or by text; answers which items are then another one.
fn join_additions(
    alloc: Global,
    items: &mut Items,
    pairs: &Pairs,
) -> Result<Vec<bool>, AllocError> {
    let mut gone = vec![in alloc; false; items.list.len()]?;
    for (ours, partner) in pairs.to.iter().enumerate() {
        let Some(theirs) = partner else {
            continue;
        };
        let one = at(items.of_ours.as_slice(), ours);
        let other = at(items.of_theirs.as_slice(), *theirs);
        if let (Some(one), Some(other)) = (one, other) {
            if one != other && is_new(items, one) && is_new(items, other) {
                items.join(one, *theirs);
                set(&mut gone, other, true);
            }
        }
    }
    Ok(gone)
}

/// The items but for those that are another one.
fn without_gone(
    alloc: Global,
    items: Items,
    gone: &[bool],
    three: &Three<'_, '_>,
) -> Result<Items, AllocError> {
    let mut out = empty(alloc, three)?;
    out.by_place = items.by_place;
    out.by_title = items.by_title;
    for (item, is_gone) in items.list.iter().zip(gone) {
        if !*is_gone {
            out.push(*item)?;
        }
    }
    Ok(out)
}

/// No items yet.
fn empty(alloc: Global, three: &Three<'_, '_>) -> Result<Items, AllocError> {
    Ok(Items {
        list: Vec::new(alloc),
        of_base: vec![in alloc; None; three.base.entries.len()]?,
        of_ours: vec![in alloc; None; three.ours.entries.len()]?,
        of_theirs: vec![in alloc; None; three.theirs.entries.len()]?,
        by_place: Vec::new(alloc),
        by_title: Vec::new(alloc),
    })
}

/// Which of both lists have a true value.
fn either(alloc: Global, one: &[bool], other: &[bool]) -> Result<Vec<bool>, AllocError> {
    one.iter()
        .zip(other)
        .map(|(one, other)| *one || *other)
        .collect(alloc)
}

/// The items of three folders.
pub(crate) fn items_of<'a>(
    alloc: Global,
    three: &Three<'_, 'a>,
    known: &Known<'a>,
) -> Result<Items, AllocError> {
    let ours = pair_side(alloc, three.base, three.ours, known)?;
    let theirs = pair_side(alloc, three.base, three.theirs, known)?;
    let mut items = empty(alloc, three)?;
    items.by_place = either(alloc, ours.by_place.as_slice(), theirs.by_place.as_slice())?;
    items.by_title = either(alloc, ours.by_title.as_slice(), theirs.by_title.as_slice())?;
    push_base(&mut items, &ours, &theirs)?;
    push_ours(&mut items, &ours)?;
    let old = three.base.entries.len();
    let mut waiting = Waiting::of(alloc, &items, three, old)?;
    push_theirs(&mut items, &theirs, three, &mut waiting)?;
    let mut pairs = joined_pairs(alloc, &items, three)?;
    pair_additions(alloc, three.ours, three.theirs, known, &mut pairs)?;
    let gone = join_additions(alloc, &mut items, &pairs)?;
    without_gone(alloc, items, gone.as_slice(), three)
}
