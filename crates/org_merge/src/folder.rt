//! A folder as its entries.
//!
//! Files have numbers, the same in the three folders. A *place* is what an entry stands below: the
//! file with that number, or else the entry whose number follows the files'.
use crate::ids::{ByteIds, PairIds};
use crate::kids::Kids;
use crate::text::{cut, cut_from, may_have_parts};
use org_headings::is_terminated;
use org_meta::{Lines, property};
use org_outline::{HeadParts, Node, Outline, States};
use std::alloc::{AllocError, Global};
use std::collections::HashMap;

/// A file of a folder: its text as it is read, and the same without carriage returns at the ends of
/// lines.
#[derive(Drop)]
pub(crate) struct FileText {
    pub(crate) text: Vec<u8>,
    /// None where it is the same.
    pub(crate) bare: Option<Vec<u8>>,
    /// The first line ends in a carriage return.
    pub(crate) has_returns: bool,
    /// The last line ends in a newline.
    pub(crate) is_ended: bool,
}

/// What an entry is compared by.
#[derive(Clone, Copy)]
pub(crate) struct Entry<'a> {
    /// What it stands below.
    pub(crate) place: usize,
    pub(crate) file: usize,
    /// How much deeper it stands than its parent.
    pub(crate) step: usize,
    /// What follows the stars of its heading.
    pub(crate) line: &'a [u8],
    pub(crate) section: &'a [u8],
    /// The same without carriage returns at the ends of lines.
    pub(crate) bare_line: &'a [u8],
    pub(crate) bare_section: &'a [u8],
    pub(crate) title: &'a [u8],
    /// Its own text, by number.
    pub(crate) text_id: usize,
    pub(crate) title_id: usize,
    /// The ID property, by number.
    pub(crate) id: Option<usize>,
    /// Its title among those below its place, by number.
    pub(crate) group: usize,
    /// Its path, by number.
    pub(crate) path: usize,
}

/// The numbers of what is compared.
#[derive(Drop)]
pub(crate) struct Known<'a> {
    pub(crate) texts: ByteIds<'a>,
    pub(crate) titles: ByteIds<'a>,
    pub(crate) properties: ByteIds<'a>,
    pub(crate) groups: PairIds,
    pub(crate) paths: PairIds,
    /// How many files there are.
    pub(crate) files: usize,
}

impl<'a> Known<'a> {
    pub(crate) fn new(alloc: Global, files: usize) -> Known<'a> {
        Known {
            texts: ByteIds::new(alloc),
            titles: ByteIds::new(alloc),
            properties: ByteIds::new(alloc),
            groups: PairIds::new(alloc),
            paths: PairIds::new(alloc),
            files,
        }
    }

    /// The number of the place of a path.
    pub(crate) fn place_of(&self, path: usize) -> usize {
        path.saturating_add(self.files)
    }
}

/// A folder's entries in document order.
#[derive(Drop)]
pub(crate) struct Folder<'a> {
    pub(crate) files: usize,
    pub(crate) entries: Vec<Entry<'a>>,
    pub(crate) kids: Kids,
    /// The lines before the first heading of each file; None of a file that isn't there.
    pub(crate) preambles: Vec<Option<&'a [u8]>>,
}

/// A heading on the way to the one that is read.
#[derive(Clone, Copy)]
struct Above {
    level: usize,
    place: usize,
    /// The place of its path.
    path: usize,
}

/// While a folder is read.
#[derive(Drop)]
struct Reading<'k, 'a> {
    known: &'k mut Known<'a>,
    entries: Vec<Entry<'a>>,
    /// The headings above the next one, each deeper than the one before.
    above: Vec<Above>,
    /// How many entries each group has so far.
    seen: HashMap<usize, usize>,
    file: usize,
}

/// The ID property of a section.
fn id_of(section: &[u8]) -> Option<&[u8]> {
    if !may_have_parts(section) || !is_terminated(section) {
        return None;
    }
    let value = property(Lines { bytes: section }, b"ID")?;
    if value.is_empty() { None } else { Some(value) }
}

/// Where a heading of an outline begins and ends, without its stars and with its section.
fn own_text<'a>(outline: &Outline<'a>, index: usize) -> (&'a [u8], &'a [u8], &'a [u8]) {
    if index >= outline.count() {
        return (&[], &[], &[]);
    }
    let node: Node = outline.node(index);
    let text = outline.text();
    let line = outline.rest(node);
    let section = outline.section(node);
    let start = outline.start(node).saturating_add(outline.level(node));
    (
        line,
        cut(text, section.start, section.end),
        cut(text, start, section.end),
    )
}

/// The level of a heading of an outline.
fn level_of(outline: &Outline<'_>, index: usize) -> usize {
    if index < outline.count() {
        outline.level(outline.node(index))
    } else {
        0
    }
}

impl<'k, 'a> Reading<'k, 'a> {
    /// The heading that one of this level stands below: none, or what is open then.
    fn open(&mut self, level: usize) -> Above {
        let count = self
            .above
            .as_slice()
            .partition_point(|above| above.level < level);
        self.above.truncate(count);
        match self.above.as_slice().last() {
            Some(above) => *above,
            None => Above {
                level: 0,
                place: self.file,
                path: self.file,
            },
        }
    }

    /// The group of an entry with this title below a path, and its own path.
    fn path_of(&mut self, above: usize, title: usize) -> Result<(usize, usize), AllocError> {
        let group = self.known.groups.id((above, title))?;
        let count = self.seen.entry(group)?.or_insert(0);
        let number = *count;
        *count = number.saturating_add(1);
        Ok((group, self.known.paths.id((group, number))?))
    }

    /// Puts the entry of a heading after the others.
    fn push(
        &mut self,
        outline: &Outline<'a>,
        bare: &Outline<'a>,
        states: &States,
        index: usize,
    ) -> Result<(), AllocError> {
        let level = level_of(outline, index);
        let above = self.open(level);
        let (line, section, _) = own_text(outline, index);
        let (bare_line, bare_section, text) = own_text(bare, index);
        let title = HeadParts::of(states, line).title;
        let title_id = self.known.titles.id(title)?;
        let (group, path) = self.path_of(above.path, title_id)?;
        let id = match id_of(section) {
            Some(id) => Some(self.known.properties.id(id)?),
            None => None,
        };
        let place = self.entries.len().saturating_add(self.known.files);
        self.entries.push(Entry {
            place: above.place,
            file: self.file,
            step: level.saturating_sub(above.level),
            line,
            section,
            bare_line,
            bare_section,
            title,
            text_id: self.known.texts.id(text)?,
            title_id,
            id,
            group,
            path,
        })?;
        self.above.push(Above {
            level,
            place,
            path: self.known.place_of(path),
        })?;
        Ok(())
    }

    /// Puts the entries of a file after the others, and answers its preamble.
    fn push_file(
        &mut self,
        alloc: Global,
        file: &'a FileText,
        states: &'a States,
    ) -> Result<&'a [u8], AllocError> {
        self.above.clear();
        let outline = read(alloc, file.text.as_slice(), states)?;
        match &file.bare {
            Some(bare) => {
                let bare = read(alloc, bare.as_slice(), states)?;
                self.push_all(&outline, &bare, states)?;
            }
            None => self.push_all(&outline, &outline, states)?,
        }
        Ok(preamble(&outline))
    }

    /// Puts the entries of an outline after the others.
    fn push_all(
        &mut self,
        outline: &Outline<'a>,
        bare: &Outline<'a>,
        states: &States,
    ) -> Result<(), AllocError> {
        for index in 0..outline.count() {
            self.push(outline, bare, states, index)?;
        }
        Ok(())
    }
}

/// The outline of a text; of none if the text isn't terminated.
fn read<'a>(alloc: Global, text: &'a [u8], states: &'a States) -> Result<Outline<'a>, AllocError> {
    if is_terminated(text) {
        Outline::read(alloc, text, states)
    } else {
        Outline::read(alloc, &[], states)
    }
}

/// The lines of a text before its first heading.
fn preamble<'a>(outline: &Outline<'a>) -> &'a [u8] {
    let text = outline.text();
    if outline.count() == 0 {
        return text;
    }
    cut(text, 0, outline.start(outline.node(0)))
}

/// The places of entries.
fn places_of(alloc: Global, entries: &[Entry<'_>]) -> Result<Vec<usize>, AllocError> {
    let mut out = Vec::with_capacity(alloc, entries.len())?;
    for entry in entries {
        out.push(entry.place)?;
    }
    Ok(out)
}

impl<'a> Folder<'a> {
    /// The entries of a folder's files, of which some aren't there.
    pub(crate) fn read(
        alloc: Global,
        files: &'a [Option<FileText>],
        states: &'a States,
        known: &mut Known<'a>,
    ) -> Result<Folder<'a>, AllocError> {
        let count = files.len();
        let mut preambles = Vec::with_capacity(alloc, count)?;
        let mut reading = Reading {
            known,
            entries: Vec::new(alloc),
            above: Vec::new(alloc),
            seen: HashMap::new(alloc),
            file: 0,
        };
        for (number, file) in files.iter().enumerate() {
            reading.file = number;
            let preamble = match file {
                Some(file) => Some(reading.push_file(alloc, file, states)?),
                None => None,
            };
            preambles.push(preamble)?;
        }
        let Reading { entries, .. } = reading;
        let above = places_of(alloc, entries.as_slice())?;
        let kids = Kids::new(alloc, count.saturating_add(entries.len()), above.as_slice())?;
        Ok(Folder {
            files: count,
            entries,
            kids,
            preambles,
        })
    }

    /// The entry with a number.
    pub(crate) fn entry(&self, number: usize) -> Option<Entry<'a>> {
        self.entries.as_slice().get(number).copied()
    }

    /// The entry that a place is; none of a file.
    pub(crate) fn entry_at(&self, place: usize) -> Option<usize> {
        if place < self.files {
            None
        } else {
            Some(place.saturating_sub(self.files))
        }
    }

    /// The place that an entry is.
    pub(crate) fn place_of(&self, entry: usize) -> usize {
        entry.saturating_add(self.files)
    }
}
