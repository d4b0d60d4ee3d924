//! Which entries of two folders are one.
//!
//! The rules come in turn. Each pairs an entry of the first folder with one of the second where
//! both are the only ones left that fit.
use crate::folder::{Entry, Folder, Known};
use crate::ids::{ByteIds, Owner, add_owner, at, set};
use crate::keys::{are_akin, text_keys, unarchived, words_of};
use std::alloc::{AllocError, Global};
use std::collections::HashMap;

/// The pairs of two folders' entries: each entry stands in at most one.
#[derive(Drop)]
pub(crate) struct Pairs {
    /// For each entry of the first folder that of the second.
    pub(crate) to: Vec<Option<usize>>,
    /// For each entry of the second folder that of the first.
    pub(crate) back: Vec<Option<usize>>,
    /// Which entries of the first folder are known by their places alone.
    pub(crate) by_place: Vec<bool>,
    /// Which are known by their titles alone.
    pub(crate) by_title: Vec<bool>,
}

impl Pairs {
    pub(crate) fn none(alloc: Global, first: usize, second: usize) -> Result<Pairs, AllocError> {
        Ok(Pairs {
            to: vec![in alloc; None; first]?,
            back: vec![in alloc; None; second]?,
            by_place: vec![in alloc; false; first]?,
            by_title: vec![in alloc; false; first]?,
        })
    }

    /// Pairs two entries, if neither is paired.
    pub(crate) fn pair(&mut self, first: usize, second: usize) {
        if self.second(first).is_none() && self.first(second).is_none() {
            set(&mut self.to, first, Some(second));
            set(&mut self.back, second, Some(first));
        }
    }

    /// The partner of an entry of the first folder.
    pub(crate) fn second(&self, first: usize) -> Option<usize> {
        at(self.to.as_slice(), first)
    }

    /// The partner of an entry of the second folder.
    pub(crate) fn first(&self, second: usize) -> Option<usize> {
        at(self.back.as_slice(), second)
    }

    fn pair_all(&mut self, pairs: &[(usize, usize)]) {
        for (first, second) in pairs {
            self.pair(*first, *second);
        }
    }
}

/// Who has each key, of those that are not paired yet.
fn owners_of(
    alloc: Global,
    keys: &[Option<usize>],
    done: &[Option<usize>],
    count: usize,
) -> Result<Vec<Owner>, AllocError> {
    let mut owners = vec![in alloc; Owner::Nobody; count]?;
    for (entry, (key, partner)) in keys.iter().zip(done).enumerate() {
        if let (Some(key), None) = (key, partner) {
            add_owner(&mut owners, *key, entry);
        }
    }
    Ok(owners)
}

/// The pairs of those that are alone in having a key.
fn alone(
    alloc: Global,
    pairs: &Pairs,
    first: &[Option<usize>],
    second: &[Option<usize>],
    count: usize,
) -> Result<Vec<(usize, usize)>, AllocError> {
    let mine = owners_of(alloc, first, pairs.to.as_slice(), count)?;
    let other = owners_of(alloc, second, pairs.back.as_slice(), count)?;
    let mut out = Vec::new(alloc);
    for (one, two) in mine.iter().zip(&other) {
        if let (Owner::One(one), Owner::One(two)) = (one, two) {
            out.push((*one, *two))?;
        }
    }
    Ok(out)
}

/// A key of each entry.
fn keys_by<F: Fn(&Entry<'_>) -> Option<usize>>(
    alloc: Global,
    folder: &Folder<'_>,
    key: F,
) -> Result<Vec<Option<usize>>, AllocError>
    requires { F.IsAlwaysCallable key }
{
    let mut out = Vec::with_capacity(alloc, folder.entries.len())?;
    for entry in &folder.entries {
        out.push(key(entry))?;
    }
    Ok(out)
}

/// The first and the second folder of a pairing.
#[derive(Clone, Copy)]
struct Two<'f, 'a> {
    first: &'f Folder<'a>,
    second: &'f Folder<'a>,
}

/// Pairs those with one ID.
fn pair_by_id(
    alloc: Global,
    two: &Two<'_, '_>,
    known: &Known<'_>,
    pairs: &mut Pairs,
) -> Result<(), AllocError> {
    let first = keys_by(alloc, two.first, |entry| entry.id)?;
    let second = keys_by(alloc, two.second, |entry| entry.id)?;
    let found = alone(
        alloc,
        pairs,
        first.as_slice(),
        second.as_slice(),
        known.properties.count(),
    )?;
    pairs.pair_all(found.as_slice());
    Ok(())
}

/// Pairs those that stand in their places unchanged.
fn pair_in_place(
    alloc: Global,
    two: &Two<'_, '_>,
    known: &Known<'_>,
    pairs: &mut Pairs,
) -> Result<(), AllocError> {
    let first = keys_by(alloc, two.first, |entry| Some(entry.path))?;
    let second = keys_by(alloc, two.second, |entry| Some(entry.path))?;
    let found = alone(
        alloc,
        pairs,
        first.as_slice(),
        second.as_slice(),
        known.paths.count(),
    )?;
    for (one, other) in &found {
        if let (Some(mine), Some(theirs)) = (two.first.entry(*one), two.second.entry(*other)) {
            if mine.text_id == theirs.text_id {
                pairs.pair(*one, *other);
            }
        }
    }
    Ok(())
}

/// Pairs those with one text.
fn pair_by_text(
    alloc: Global,
    two: &Two<'_, '_>,
    known: &Known<'_>,
    pairs: &mut Pairs,
) -> Result<(), AllocError> {
    let first = keys_by(alloc, two.first, |entry| Some(entry.text_id))?;
    let second = keys_by(alloc, two.second, |entry| Some(entry.text_id))?;
    let found = alone(
        alloc,
        pairs,
        first.as_slice(),
        second.as_slice(),
        known.texts.count(),
    )?;
    pairs.pair_all(found.as_slice());
    Ok(())
}

/// The texts of those that aren't paired, without what an archiving puts there.
fn unarchived_texts(
    alloc: Global,
    folder: &Folder<'_>,
    done: &[Option<usize>],
) -> Result<Vec<Option<Vec<u8>>>, AllocError> {
    let mut out = Vec::with_capacity(alloc, folder.entries.len())?;
    for (entry, partner) in folder.entries.iter().zip(done) {
        let text = match partner {
            Some(_) => None,
            None => Some(unarchived(alloc, entry)?),
        };
        out.push(text)?;
    }
    Ok(out)
}

/// The numbers of texts.
fn numbers_of<'t>(
    alloc: Global,
    ids: &mut ByteIds<'t>,
    texts: &'t [Option<Vec<u8>>],
) -> Result<Vec<Option<usize>>, AllocError> {
    let mut out = Vec::with_capacity(alloc, texts.len())?;
    for text in texts {
        let number = match text {
            Some(text) => Some(ids.id(text.as_slice())?),
            None => None,
        };
        out.push(number)?;
    }
    Ok(out)
}

/// Pairs those with one text but for what an archiving puts there.
fn pair_archived(alloc: Global, two: &Two<'_, '_>, pairs: &mut Pairs) -> Result<(), AllocError> {
    let first = unarchived_texts(alloc, two.first, pairs.to.as_slice())?;
    let second = unarchived_texts(alloc, two.second, pairs.back.as_slice())?;
    let mut ids = ByteIds::new(alloc);
    let mine = numbers_of(alloc, &mut ids, first.as_slice())?;
    let other = numbers_of(alloc, &mut ids, second.as_slice())?;
    let found = alone(alloc, pairs, mine.as_slice(), other.as_slice(), ids.count())?;
    pairs.pair_all(found.as_slice());
    Ok(())
}

/// Whether two entries may be one by their titles: their texts don't differ in all.
fn may_be_one(
    alloc: Global,
    two: &Two<'_, '_>,
    first: usize,
    second: usize,
) -> Result<bool, AllocError> {
    match (two.first.entry(first), two.second.entry(second)) {
        (Some(mine), Some(other)) => are_akin(alloc, &mine, &other),
        _ => Ok(false),
    }
}

/// The place of the path, in the second folder, that an entry of the first one stands below: its
/// file, or the partner of its parent.
fn path_above(
    two: &Two<'_, '_>,
    known: &Known<'_>,
    pairs: &Pairs,
    entry: &Entry<'_>,
) -> Option<usize> {
    match two.first.entry_at(entry.place) {
        None => Some(entry.file),
        Some(parent) => {
            let partner = two.second.entry(pairs.second(parent)?)?;
            Some(known.place_of(partner.path))
        }
    }
}

/// The entry of the second folder that has the title of one of the first below the same heading,
/// where both are the only ones.
fn below_the_same(
    two: &Two<'_, '_>,
    known: &Known<'_>,
    pairs: &Pairs,
    mine: &[Owner],
    other: &[Owner],
    entry: &Entry<'_>,
) -> Option<usize> {
    let there = path_above(two, known, pairs, entry)?;
    let group = known.groups.find((there, entry.title_id))?;
    match (mine.get(entry.group), other.get(group)) {
        (Some(Owner::One(_)), Some(Owner::One(second))) => Some(*second),
        _ => None,
    }
}

/// Pairs those with one title below the same heading. A heading comes before what stands below it.
fn pair_below(
    alloc: Global,
    two: &Two<'_, '_>,
    known: &Known<'_>,
    pairs: &mut Pairs,
) -> Result<(), AllocError> {
    let count = known.groups.count();
    let first = keys_by(alloc, two.first, |entry| Some(entry.group))?;
    let second = keys_by(alloc, two.second, |entry| Some(entry.group))?;
    let mine = owners_of(alloc, first.as_slice(), pairs.to.as_slice(), count)?;
    let other = owners_of(alloc, second.as_slice(), pairs.back.as_slice(), count)?;
    for (number, entry) in two.first.entries.iter().enumerate() {
        if pairs.second(number).is_some() || entry.title.is_empty() {
            continue;
        }
        let there = below_the_same(two, known, pairs, mine.as_slice(), other.as_slice(), entry);
        if let Some(second) = there {
            if may_be_one(alloc, two, number, second)? {
                pairs.pair(number, second);
            }
        }
    }
    Ok(())
}

/// Pairs those with one title.
fn pair_by_title(
    alloc: Global,
    two: &Two<'_, '_>,
    known: &Known<'_>,
    pairs: &mut Pairs,
) -> Result<(), AllocError> {
    let first = keys_by(alloc, two.first, title_key)?;
    let second = keys_by(alloc, two.second, title_key)?;
    let found = alone(
        alloc,
        pairs,
        first.as_slice(),
        second.as_slice(),
        known.titles.count(),
    )?;
    for (one, other) in &found {
        if may_be_one(alloc, two, *one, *other)? {
            pairs.pair(*one, *other);
            set(&mut pairs.by_title, *one, true);
        }
    }
    Ok(())
}

/// The number of an entry's title, if it has one.
fn title_key(entry: &Entry<'_>) -> Option<usize> {
    if entry.title.is_empty() {
        None
    } else {
        Some(entry.title_id)
    }
}

/// Who has a line in each folder.
#[derive(Clone, Copy)]
struct LineOwners {
    first: Owner,
    second: Owner,
}

/// How many marks lines have.
const MARKS: usize = 1 << 14;

/// The mark of a line, by its size and three of its bytes.
fn mark_of(line: &[u8]) -> usize {
    let first = line.first().copied().unwrap_or(0);
    let middle = line.get(line.len() / 2).copied().unwrap_or(0);
    let last = line.last().copied().unwrap_or(0);
    let ends = usize::from(first).wrapping_mul(7) ^ usize::from(last).wrapping_mul(67);
    (line.len().wrapping_mul(577) ^ usize::from(middle).wrapping_mul(31) ^ ends) % MARKS
}

/// The lines that are listed, and their owners. The others aren't looked up, but for those that have
/// the mark of one that is listed.
#[derive(Drop)]
struct ByLine<'a> {
    owners: HashMap<&'a [u8], LineOwners>,
    marks: Vec<bool>,
}

impl<'a> ByLine<'a> {
    fn new(alloc: Global) -> Result<ByLine<'a>, AllocError> {
        Ok(ByLine {
            owners: HashMap::new(alloc),
            marks: vec![in alloc; false; MARKS]?,
        })
    }

    /// Whether a line may be listed.
    fn may_have(&self, line: &[u8]) -> bool {
        self.marks.as_slice().get(mark_of(line)).copied() == Some(true)
    }

    /// The owners of a line, if it is listed.
    fn owners(&self, line: &'a [u8]) -> Option<LineOwners> {
        if self.may_have(line) {
            self.owners.get(&line).copied()
        } else {
            None
        }
    }
}

/// Lists the lines of those that aren't paired.
fn list_lines<'a>(
    alloc: Global,
    lines: &mut ByLine<'a>,
    folder: &Folder<'a>,
    done: &[Option<usize>],
) -> Result<(), AllocError> {
    for (entry, partner) in folder.entries.iter().zip(done) {
        if partner.is_none() {
            list_keys(lines, text_keys(alloc, entry)?.as_slice())?;
        }
    }
    Ok(())
}

fn list_keys<'a>(lines: &mut ByLine<'a>, keys: &[&'a [u8]]) -> Result<(), AllocError> {
    for key in keys {
        let nobody = LineOwners {
            first: Owner::Nobody,
            second: Owner::Nobody,
        };
        lines.owners.entry(*key)?.or_insert(nobody);
        set(&mut lines.marks, mark_of(*key), true);
    }
    Ok(())
}

/// Notes an entry of the first folder as an owner of its lines.
fn own_first<'a>(lines: &mut ByLine<'a>, keys: &[&'a [u8]], entry: usize) {
    for key in keys {
        if lines.may_have(*key) {
            if let Some(owners) = lines.owners.get_mut(key) {
                owners.first = owners.first.with(entry);
            }
        }
    }
}

/// Notes an entry of the second folder as an owner of its lines.
fn own_second<'a>(lines: &mut ByLine<'a>, keys: &[&'a [u8]], entry: usize) {
    for key in keys {
        if lines.may_have(*key) {
            if let Some(owners) = lines.owners.get_mut(key) {
                owners.second = owners.second.with(entry);
            }
        }
    }
}

/// Who has each of the listed lines.
fn own_lines<'a>(
    alloc: Global,
    lines: &mut ByLine<'a>,
    two: &Two<'_, 'a>,
) -> Result<(), AllocError> {
    for (number, entry) in two.first.entries.iter().enumerate() {
        own_first(lines, text_keys(alloc, entry)?.as_slice(), number);
    }
    for (number, entry) in two.second.entries.iter().enumerate() {
        own_second(lines, text_keys(alloc, entry)?.as_slice(), number);
    }
    Ok(())
}

/// The one entry of the second folder that has lines which an entry has alone.
fn second_by_lines<'a>(lines: &ByLine<'a>, keys: &[&'a [u8]]) -> Owner {
    let mut found = Owner::Nobody;
    for key in keys {
        if let Some(owners) = lines.owners(*key) {
            if let (Owner::One(_), Owner::One(second)) = (owners.first, owners.second) {
                found = found.with(second);
            }
        }
    }
    found
}

/// The one entry of the first folder that has lines which an entry has alone.
fn first_by_lines<'a>(lines: &ByLine<'a>, keys: &[&'a [u8]]) -> Owner {
    let mut found = Owner::Nobody;
    for key in keys {
        if let Some(owners) = lines.owners(*key) {
            if let (Owner::One(first), Owner::One(_)) = (owners.first, owners.second) {
                found = found.with(first);
            }
        }
    }
    found
}

/// The entry that has lines with this one which nobody else has.
fn partner_by_lines<'a>(
    alloc: Global,
    lines: &ByLine<'a>,
    two: &Two<'_, 'a>,
    number: usize,
    entry: &Entry<'a>,
) -> Result<Option<usize>, AllocError> {
    let Owner::One(second) = second_by_lines(lines, text_keys(alloc, entry)?.as_slice()) else {
        return Ok(None);
    };
    let Some(other) = two.second.entry(second) else {
        return Ok(None);
    };
    let back = first_by_lines(lines, text_keys(alloc, &other)?.as_slice());
    Ok(if back == Owner::One(number) {
        Some(second)
    } else {
        None
    })
}

/// Whether all are paired.
fn are_paired(partners: &[Option<usize>]) -> bool {
    partners.iter().all(|partner| partner.is_some())
}

/// Pairs those with lines that nobody else has.
fn pair_by_lines<'a>(
    alloc: Global,
    two: &Two<'_, 'a>,
    pairs: &mut Pairs,
) -> Result<(), AllocError> {
    if are_paired(pairs.to.as_slice()) || are_paired(pairs.back.as_slice()) {
        return Ok(());
    }
    let mut lines = ByLine::new(alloc)?;
    list_lines(alloc, &mut lines, two.first, pairs.to.as_slice())?;
    list_lines(alloc, &mut lines, two.second, pairs.back.as_slice())?;
    own_lines(alloc, &mut lines, two)?;
    for (number, entry) in two.first.entries.iter().enumerate() {
        if pairs.second(number).is_none() {
            if let Some(second) = partner_by_lines(alloc, &lines, two, number, entry)? {
                pairs.pair(number, second);
            }
        }
    }
    Ok(())
}

/// The one place in the second folder of the partners of what stands below an entry.
fn place_of_kids(two: &Two<'_, '_>, pairs: &Pairs, entry: usize) -> Owner {
    let mut found = Owner::Nobody;
    for kid in two.first.kids.below(two.first.place_of(entry)) {
        if let Some(second) = pairs.second(*kid) {
            if let Some(other) = two.second.entry(second) {
                found = found.with(other.place);
            }
        }
    }
    found
}

/// Whether what stands below an entry of the second folder, and has a partner, has it below this
/// place of the first.
fn are_kids_of(two: &Two<'_, '_>, pairs: &Pairs, second: usize, place: usize) -> bool {
    for kid in two.second.kids.below(two.second.place_of(second)) {
        if let Some(first) = pairs.first(*kid) {
            match two.first.entry(first) {
                Some(entry) if entry.place == place => {}
                _ => return false,
            }
        }
    }
    true
}

/// Pairs headings over the same entries. What stands below a heading comes before it.
fn pair_by_kids(two: &Two<'_, '_>, pairs: &mut Pairs) {
    for number in (0..two.first.entries.len()).rev() {
        if pairs.second(number).is_some() {
            continue;
        }
        if let Owner::One(place) = place_of_kids(two, pairs, number) {
            if let Some(second) = two.second.entry_at(place) {
                let here = two.first.place_of(number);
                if pairs.first(second).is_none() && are_kids_of(two, pairs, second, here) {
                    pairs.pair(number, second);
                }
            }
        }
    }
}

/// A gap between paired entries: the place, in the first folder, that it is below, and the entry of
/// the first folder that it follows, as a place.
type Gap = (usize, usize);

/// For each place below which the first entry of the other folder stands, the gap of each entry that
/// isn't paired.
fn gaps_below(
    kids: &[usize],
    partners: &[Option<usize>],
    place: usize,
    gaps: &mut Vec<Option<Gap>>,
) {
    let mut before = usize::MAX;
    for kid in kids {
        match at(partners, *kid) {
            Some(partner) => before = partner,
            None => set(gaps, *kid, Some((place, before))),
        }
    }
}

/// The gaps of the entries of the first folder.
fn first_gaps(
    alloc: Global,
    two: &Two<'_, '_>,
    pairs: &Pairs,
) -> Result<Vec<Option<Gap>>, AllocError> {
    let folder = two.first;
    let selves = selves_of(alloc, pairs.to.as_slice())?;
    let mut gaps = vec![in alloc; None; folder.entries.len()]?;
    for place in 0..folder.files.saturating_add(folder.entries.len()) {
        let is_known = match folder.entry_at(place) {
            Some(entry) => pairs.second(entry).is_some(),
            None => true,
        };
        if is_known {
            gaps_below(
                folder.kids.below(place),
                selves.as_slice(),
                place,
                &mut gaps,
            );
        }
    }
    Ok(gaps)
}

/// For each entry that has a partner the entry itself.
fn selves_of(alloc: Global, to: &[Option<usize>]) -> Result<Vec<Option<usize>>, AllocError> {
    let mut out = Vec::with_capacity(alloc, to.len())?;
    for (number, partner) in to.iter().enumerate() {
        out.push(match partner {
            Some(_) => Some(number),
            None => None,
        })?;
    }
    Ok(out)
}

/// The gaps of the entries of the second folder.
fn second_gaps(
    alloc: Global,
    two: &Two<'_, '_>,
    pairs: &Pairs,
) -> Result<Vec<Option<Gap>>, AllocError> {
    let folder = two.second;
    let mut gaps = vec![in alloc; None; folder.entries.len()]?;
    for place in 0..folder.files.saturating_add(folder.entries.len()) {
        let known = match folder.entry_at(place) {
            Some(entry) => match pairs.first(entry) {
                Some(first) => Some(two.first.place_of(first)),
                None => None,
            },
            None => Some(place),
        };
        if let Some(known) = known {
            let partners = pairs.back.as_slice();
            gaps_below(folder.kids.below(place), partners, known, &mut gaps);
        }
    }
    Ok(gaps)
}

/// Who has a word of a title in each gap.
type ByWord<'a> = HashMap<(usize, usize, &'a [u8]), LineOwners>;

/// The owners of a word in a gap.
fn owners_at<'a>(words: &ByWord<'a>, gap: Gap, word: &'a [u8]) -> LineOwners {
    match words.get(&(gap.0, gap.1, word)) {
        Some(owners) => *owners,
        None => LineOwners {
            first: Owner::Nobody,
            second: Owner::Nobody,
        },
    }
}

/// Notes an owner of each word of a title.
fn own_words<'a>(
    words: &mut ByWord<'a>,
    gap: Gap,
    title: &[&'a [u8]],
    entry: usize,
    is_first: bool,
) -> Result<(), AllocError> {
    for word in title {
        let mut owners = owners_at(words, gap, *word);
        if is_first {
            owners.first = owners.first.with(entry);
        } else {
            owners.second = owners.second.with(entry);
        }
        words.insert((gap.0, gap.1, *word), owners)?;
    }
    Ok(())
}

/// Notes the owners of the words of a folder's titles.
fn own_titles<'a>(
    alloc: Global,
    words: &mut ByWord<'a>,
    folder: &Folder<'a>,
    gaps: &[Option<Gap>],
    is_first: bool,
) -> Result<(), AllocError> {
    for (number, (entry, gap)) in folder.entries.iter().zip(gaps).enumerate() {
        if let Some(gap) = gap {
            let title = words_of(alloc, entry.title)?;
            own_words(words, *gap, title.as_slice(), number, is_first)?;
        }
    }
    Ok(())
}

/// The entries of the second folder that have a word of a title in its gap.
fn second_by_words<'a>(words: &ByWord<'a>, gap: Gap, title: &[&'a [u8]]) -> Owner {
    let mut found = Owner::Nobody;
    for word in title {
        match owners_at(words, gap, *word).second {
            Owner::Nobody => {}
            Owner::One(second) => found = found.with(second),
            Owner::Several => return Owner::Several,
        }
    }
    found
}

/// The entries of the first folder that do.
fn first_by_words<'a>(words: &ByWord<'a>, gap: Gap, title: &[&'a [u8]]) -> Owner {
    let mut found = Owner::Nobody;
    for word in title {
        match owners_at(words, gap, *word).first {
            Owner::Nobody => {}
            Owner::One(first) => found = found.with(first),
            Owner::Several => return Owner::Several,
        }
    }
    found
}

/// The entry in the same gap that alone has a word of the title of this one, which is alone in that
/// too.
fn partner_by_words<'a>(
    alloc: Global,
    words: &ByWord<'a>,
    two: &Two<'_, 'a>,
    gap: Gap,
    number: usize,
    entry: &Entry<'a>,
) -> Result<Option<usize>, AllocError> {
    let title = words_of(alloc, entry.title)?;
    let Owner::One(second) = second_by_words(words, gap, title.as_slice()) else {
        return Ok(None);
    };
    let Some(other) = two.second.entry(second) else {
        return Ok(None);
    };
    let title = words_of(alloc, other.title)?;
    let back = first_by_words(words, gap, title.as_slice());
    Ok(if back == Owner::One(number) {
        Some(second)
    } else {
        None
    })
}

/// Pairs those in one gap with a word of their titles in common.
fn pair_by_words<'a>(
    alloc: Global,
    two: &Two<'_, 'a>,
    pairs: &mut Pairs,
) -> Result<(), AllocError> {
    let first = first_gaps(alloc, two, pairs)?;
    let second = second_gaps(alloc, two, pairs)?;
    let mut words: ByWord<'a> = HashMap::new(alloc);
    own_titles(alloc, &mut words, two.first, first.as_slice(), true)?;
    own_titles(alloc, &mut words, two.second, second.as_slice(), false)?;
    for (number, (entry, gap)) in two.first.entries.iter().zip(&first).enumerate() {
        if let Some(gap) = gap {
            if let Some(second) = partner_by_words(alloc, &words, two, *gap, number, entry)? {
                pairs.pair(number, second);
                set(&mut pairs.by_place, number, true);
            }
        }
    }
    Ok(())
}

/// Pairs the entries of base with those of a side.
pub(crate) fn pair_side<'a>(
    alloc: Global,
    base: &Folder<'a>,
    side: &Folder<'a>,
    known: &Known<'a>,
) -> Result<Pairs, AllocError> {
    let two = Two {
        first: base,
        second: side,
    };
    let mut pairs = Pairs::none(alloc, base.entries.len(), side.entries.len())?;
    pair_by_id(alloc, &two, known, &mut pairs)?;
    pair_in_place(alloc, &two, known, &mut pairs)?;
    pair_by_text(alloc, &two, known, &mut pairs)?;
    pair_archived(alloc, &two, &mut pairs)?;
    pair_below(alloc, &two, known, &mut pairs)?;
    pair_by_title(alloc, &two, known, &mut pairs)?;
    pair_by_lines(alloc, &two, &mut pairs)?;
    pair_by_kids(&two, &mut pairs);
    pair_below(alloc, &two, known, &mut pairs)?;
    pair_by_words(alloc, &two, &mut pairs)?;
    Ok(pairs)
}

/// Pairs what both sides added, by what it is: its place doesn't count.
pub(crate) fn pair_additions<'a>(
    alloc: Global,
    ours: &Folder<'a>,
    theirs: &Folder<'a>,
    known: &Known<'a>,
    pairs: &mut Pairs,
) -> Result<(), AllocError> {
    let two = Two {
        first: ours,
        second: theirs,
    };
    pair_by_id(alloc, &two, known, pairs)?;
    pair_by_lines(alloc, &two, pairs)
}
