//! The merge of three folders, before its account.
use crate::event::{Event, What, has_conflict};
use crate::file::{Made, Source};
use crate::folder::{FileText, Folder, Known};
use crate::items::{Item, Items, Three, items_of};
use crate::laying::{Laid, lay_file};
use crate::merged::{Merging, break_circles, set_places, set_staying, tell_titles};
use crate::reading::{as_merged, has_returns, turned};
use crate::text::{bare_text, is_bare};
use org_outline::States;
use std::alloc::{AllocError, Global};

/// The numbers of a unit in the folders, and its lines of the report.
#[derive(Clone, Copy)]
pub(crate) struct Numbers {
    pub(crate) base: Option<usize>,
    pub(crate) ours: Option<usize>,
    pub(crate) theirs: Option<usize>,
    pub(crate) merged: Option<usize>,
    /// Where its lines begin in the report, and where they end.
    pub(crate) told: (usize, usize),
}

/// A merge that isn't accounted for.
#[derive(Drop)]
pub(crate) struct Draft {
    pub(crate) files: Vec<Made>,
    pub(crate) report: Vec<u8>,
    pub(crate) table: Vec<Numbers>,
    pub(crate) has_conflict: bool,
}

/// The names of all files, in byte order.
pub(crate) fn names_of<'a>(
    alloc: Global,
    base: &[Source<'a>],
    ours: &[Source<'a>],
    theirs: &[Source<'a>],
) -> Result<Vec<&'a [u8]>, AllocError> {
    let mut names = Vec::new(alloc);
    for file in base.iter().chain(ours).chain(theirs) {
        names.push(file.name)?;
    }
    names.sort()?;
    names.dedup();
    Ok(names)
}

/// A file as it is read.
fn read_file(alloc: Global, text: &[u8]) -> Result<FileText, AllocError> {
    let read = as_merged(alloc, text)?;
    let bare = if is_bare(read.as_slice()) {
        None
    } else {
        Some(bare_text(alloc, read.as_slice())?)
    };
    Ok(FileText {
        bare,
        text: read,
        has_returns: has_returns(text),
        is_ended: text.is_empty() || text.ends_with(b"\n"),
    })
}

/// The file of a folder with a name.
fn file_named<'a>(files: &[Source<'a>], name: &[u8]) -> Option<Source<'a>> {
    for file in files {
        if file.name == name {
            return Some(*file);
        }
    }
    None
}

/// A folder's files by the numbers of their names.
fn read_files(
    alloc: Global,
    files: &[Source<'_>],
    names: &[&[u8]],
) -> Result<Vec<Option<FileText>>, AllocError> {
    let mut out = Vec::with_capacity(alloc, names.len())?;
    for name in names {
        let file = match file_named(files, *name) {
            Some(file) => Some(read_file(alloc, file.text)?),
            None => None,
        };
        out.push(file)?;
    }
    Ok(out)
}

/// The files of the three folders.
#[derive(Drop)]
struct Files {
    base: Vec<Option<FileText>>,
    ours: Vec<Option<FileText>>,
    theirs: Vec<Option<FileText>>,
}

/// A habit of a file in a folder: none of a file that isn't there.
fn habit(files: &[Option<FileText>], number: usize, ends: bool) -> Option<bool> {
    match files.get(number) {
        Some(Some(file)) => Some(if ends {
            file.is_ended
        } else {
            file.has_returns
        }),
        _ => None,
    }
}

/// The habit of the merged file: that of the side that changed it.
fn merged_habit(files: &Files, number: usize, ends: bool) -> Option<bool> {
    let base = habit(files.base.as_slice(), number, ends);
    let ours = habit(files.ours.as_slice(), number, ends);
    let theirs = habit(files.theirs.as_slice(), number, ends);
    match (ours, theirs) {
        (None, other) => other,
        (mine, None) => mine,
        (Some(mine), Some(other)) if mine == other || theirs == base => Some(mine),
        (Some(mine), Some(other)) if ours == base => {
            let _ = mine;
            Some(other)
        }
        _ => Some(true),
    }
}

/// Whether a folder has a file.
fn has_file(files: &[Option<FileText>], number: usize) -> bool {
    match files.get(number) {
        Some(file) => file.is_some(),
        None => false,
    }
}

/// Whether a merged file without text is there.
fn is_there(files: &Files, number: usize) -> bool {
    let base = has_file(files.base.as_slice(), number);
    let ours = has_file(files.ours.as_slice(), number);
    let theirs = has_file(files.theirs.as_slice(), number);
    if ours == base { theirs } else { ours }
}

/// A merged text as its file is written: with its ends of lines, and without its last newline if
/// the file has none.
fn as_written(
    alloc: Global,
    files: &Files,
    number: usize,
    text: &[u8],
) -> Result<Vec<u8>, AllocError> {
    let is_ended = merged_habit(files, number, true) != Some(false);
    let mut out = if merged_habit(files, number, false) == Some(true) {
        turned(alloc, text)?
    } else {
        Vec::from_slice(alloc, text)?
    };
    if !is_ended && !text.ends_with(b"\n\n") && text != b"\n".as_slice() {
        let _ = out.pop();
    }
    Ok(out)
}

/// The numbers of a folder's units: those of each file and of its entries.
#[derive(Drop)]
struct Units {
    /// For each file its number, if it is there.
    files: Vec<Option<usize>>,
    /// For each entry its number.
    entries: Vec<usize>,
}

/// How many entries each file has.
fn counts_of(alloc: Global, folder: &Folder<'_>) -> Result<Vec<usize>, AllocError> {
    let mut counts = vec![in alloc; 0usize; folder.files]?;
    for entry in &folder.entries {
        if let Some(count) = counts.get_mut(entry.file) {
            *count = count.saturating_add(1);
        }
    }
    Ok(counts)
}

impl Units {
    fn of(alloc: Global, folder: &Folder<'_>) -> Result<Units, AllocError> {
        let mut units = Units {
            files: Vec::new(alloc),
            entries: Vec::new(alloc),
        };
        let mut next: usize = 0;
        for (count, preamble) in counts_of(alloc, folder)?.iter().zip(&folder.preambles) {
            if preamble.is_none() {
                units.files.push(None)?;
                continue;
            }
            units.files.push(Some(next))?;
            units.push_entries(next.saturating_add(1), *count)?;
            next = next.saturating_add(1).saturating_add(*count);
        }
        Ok(units)
    }

    fn push_entries(&mut self, first: usize, count: usize) -> Result<(), AllocError> {
        for number in 0..count {
            self.entries.push(first.saturating_add(number))?;
        }
        Ok(())
    }

    /// The number of a file.
    fn file(&self, number: usize) -> Option<usize> {
        match self.files.as_slice().get(number) {
            Some(unit) => *unit,
            None => None,
        }
    }

    /// The number of an entry.
    fn entry(&self, number: Option<usize>) -> Option<usize> {
        self.entries.as_slice().get(number?).copied()
    }
}

/// The units of the three folders.
#[derive(Drop)]
struct AllUnits {
    base: Units,
    ours: Units,
    theirs: Units,
}

impl AllUnits {
    fn of(alloc: Global, three: &Three<'_, '_>) -> Result<AllUnits, AllocError> {
        Ok(AllUnits {
            base: Units::of(alloc, three.base)?,
            ours: Units::of(alloc, three.ours)?,
            theirs: Units::of(alloc, three.theirs)?,
        })
    }
}

/// Puts a field after the others of a line of the report, with a tab.
fn push_field(report: &mut Vec<u8>, field: &[u8]) -> Result<(), AllocError> {
    report.push(b'\t')?;
    report.extend_from_slice(field)
}

/// Puts the line of an event at the end of the report.
fn push_event(
    report: &mut Vec<u8>,
    event: &Event,
    file: &[u8],
    title: &[u8],
) -> Result<(), AllocError> {
    if event.is_conflict {
        report.extend_from_slice(b"conflict")?;
    } else {
        report.extend_from_slice(b"note")?;
    }
    push_field(report, file)?;
    push_field(report, title)?;
    push_field(report, event.what.text())?;
    push_field(report, event.text.as_slice())?;
    report.push(b'\n')?;
    Ok(())
}

/// Puts the lines of a unit's events at the end of the report.
fn push_events(
    report: &mut Vec<u8>,
    events: &[Event],
    file: &[u8],
    title: &[u8],
) -> Result<(), AllocError> {
    for event in events {
        push_event(report, event, file, title)?;
    }
    Ok(())
}

/// While the files, the report and the table are written.
#[derive(Drop)]
struct Writing<'n> {
    names: &'n [&'n [u8]],
    units: AllUnits,
    draft: Draft,
    /// How many units the result has so far.
    next: usize,
    /// Which items have a row.
    written: Vec<bool>,
}

impl<'n> Writing<'n> {
    fn name(&self, file: usize) -> &'n [u8] {
        self.names.get(file).copied().unwrap_or(&[])
    }

    /// The number of the next unit of the result.
    fn number(&mut self) -> usize {
        let number = self.next;
        self.next = number.saturating_add(1);
        number
    }

    /// Puts the lines of a place at the end of the report; answers where they stand.
    fn tell(
        &mut self,
        events: &[Event],
        file: usize,
        title: &[u8],
    ) -> Result<(usize, usize), AllocError> {
        let start = self.draft.report.len();
        let name = self.name(file);
        push_events(&mut self.draft.report, events, name, title)?;
        if has_conflict(events) {
            self.draft.has_conflict = true;
        }
        Ok((start, self.draft.report.len()))
    }

    /// The row of a file.
    fn push_file(&mut self, events: &[Event], file: usize, stays: bool) -> Result<(), AllocError> {
        let told = self.tell(events, file, &[])?;
        let merged = if stays { Some(self.number()) } else { None };
        let row = Numbers {
            base: self.units.base.file(file),
            ours: self.units.ours.file(file),
            theirs: self.units.theirs.file(file),
            merged,
            told,
        };
        self.draft.table.push(row)?;
        Ok(())
    }

    /// The row of an item.
    fn push_item(
        &mut self,
        merging: &Merging<'_, '_>,
        number: usize,
        item: &Item,
        stays: bool,
    ) -> Result<(), AllocError> {
        let events = events_of(merging, merging.place_of(number));
        let told = match merging.three.any(item) {
            Some(entry) => self.tell(events, entry.file, entry.title)?,
            None => self.tell(events, usize::MAX, &[])?,
        };
        let merged = if stays { Some(self.number()) } else { None };
        let row = Numbers {
            base: self.units.base.entry(item.base),
            ours: self.units.ours.entry(item.ours),
            theirs: self.units.theirs.entry(item.theirs),
            merged,
            told,
        };
        self.draft.table.push(row)?;
        Ok(())
    }

    /// The rows of items that stand in a file of the result, one after the other.
    fn push_items(&mut self, merging: &Merging<'_, '_>, items: &[usize]) -> Result<(), AllocError> {
        for number in items {
            if let Some(item) = merging.items.item(*number) {
                self.push_item(merging, *number, &item, true)?;
                if let Some(is_written) = self.written.get_mut(*number) {
                    *is_written = true;
                }
            }
        }
        Ok(())
    }

    /// The rows of items that aren't in the result.
    fn push_others(&mut self, merging: &Merging<'_, '_>) -> Result<(), AllocError> {
        for (number, item) in merging.items.list.iter().enumerate() {
            if self.written.as_slice().get(number).copied() != Some(true) {
                self.push_item(merging, number, item, false)?;
            }
        }
        Ok(())
    }

    /// Writes a file.
    fn write(
        &mut self,
        merging: &mut Merging<'_, '_>,
        states: &States,
        files: &Files,
        file: usize,
    ) -> Result<(), AllocError> {
        let alloc = merging.alloc;
        let Laid { text, items } = lay_file(merging, states, file)?;
        let stays = !text.is_empty() || is_there(files, file);
        if stays {
            if is_kept(files, file) {
                merging.note(file, What::Kept, &[])?;
            }
            let name = Vec::from_slice(alloc, self.name(file))?;
            let text = as_written(alloc, files, file, text.as_slice())?;
            self.draft.files.push(Made { name, text })?;
        }
        self.push_file(events_of(merging, file), file, stays)?;
        self.push_items(merging, items.as_slice())
    }
}

/// Whether a side deleted a file.
fn is_kept(files: &Files, number: usize) -> bool {
    let base = has_file(files.base.as_slice(), number);
    let ours = has_file(files.ours.as_slice(), number);
    let theirs = has_file(files.theirs.as_slice(), number);
    base && ours != theirs
}

/// The events of a place.
fn events_of<'m>(merging: &'m Merging<'_, '_>, place: usize) -> &'m [Event] {
    match merging.told.as_slice().get(place) {
        Some(events) => events.as_slice(),
        None => &[],
    }
}

/// The merge of folders, laid out, with its report and its table.
fn write_all(
    alloc: Global,
    mut merging: Merging<'_, '_>,
    states: &States,
    files: &Files,
    names: &[&[u8]],
) -> Result<Draft, AllocError> {
    let mut writing = Writing {
        names,
        units: AllUnits::of(alloc, &merging.three)?,
        draft: Draft {
            files: Vec::new(alloc),
            report: Vec::new(alloc),
            table: Vec::new(alloc),
            has_conflict: false,
        },
        next: 0,
        written: vec![in alloc; false; merging.items.list.len()]?,
    };
    for file in 0..names.len() {
        writing.write(&mut merging, states, files, file)?;
    }
    writing.push_others(&merging)?;
    let Writing { draft, .. } = writing;
    Ok(draft)
}

/// The merge of folders whose files are read.
fn merge_files(
    alloc: Global,
    files: &Files,
    names: &[&[u8]],
    states: &States,
) -> Result<Draft, AllocError> {
    let mut known = Known::new(alloc, names.len());
    let base = Folder::read(alloc, files.base.as_slice(), states, &mut known)?;
    let ours = Folder::read(alloc, files.ours.as_slice(), states, &mut known)?;
    let theirs = Folder::read(alloc, files.theirs.as_slice(), states, &mut known)?;
    let three = Three {
        base: &base,
        ours: &ours,
        theirs: &theirs,
    };
    let items: Items = items_of(alloc, &three, &known)?;
    let mut merging = Merging::new(alloc, three, items)?;
    tell_titles(&mut merging)?;
    set_places(&mut merging, names)?;
    break_circles(&mut merging)?;
    set_staying(&mut merging)?;
    write_all(alloc, merging, states, files, names)
}

/// The merge of three folders.
pub(crate) fn draft_of(
    alloc: Global,
    base: &[Source<'_>],
    ours: &[Source<'_>],
    theirs: &[Source<'_>],
    states: &States,
) -> Result<Draft, AllocError> {
    let names = names_of(alloc, base, ours, theirs)?;
    let files = Files {
        base: read_files(alloc, base, names.as_slice())?,
        ours: read_files(alloc, ours, names.as_slice())?,
        theirs: read_files(alloc, theirs, names.as_slice())?,
    };
    merge_files(alloc, &files, names.as_slice(), states)
}
