//! The merge of an entry's text, or of a file's lines before its first heading: line by line. A
//! LOGBOOK drawer that both sides have is one piece of it, with a merge of its own.
use crate::clock::{clock_of, compare, logged_of};
use crate::event::{Events, QUOTE, What, note, quoted_conflict};
use crate::lists::{Chunk, merge_lists};
use crate::pieces::{Clocks, Numbers, Piece, Split, clocks_of, pieces_of, split_log, with_clocks};
use crate::text::{framed, lines_of, push_line};
use crate::three::{Taken, taken_bytes, taken_some};
use std::alloc::{AllocError, Global};
use std::cmp::Ordering;
use std::collections::HashSet;

/// A piece of a merged text.
#[derive(Clone, Copy)]
enum Made<'a> {
    /// One of the pieces, by its number.
    Piece(usize),
    /// A line that gave way.
    Quote(&'a [u8]),
    /// A line of a log.
    Line(&'a [u8]),
}

/// A text of base, ours and theirs.
#[derive(Clone, Copy)]
pub(crate) struct Texts<'a> {
    pub(crate) base: &'a [u8],
    pub(crate) ours: &'a [u8],
    pub(crate) theirs: &'a [u8],
}

impl<'a> Texts<'a> {
    /// The text that a side alone changed, or that both have.
    pub(crate) fn agreed(&self) -> Option<&'a [u8]> {
        match taken_bytes(self.base, self.ours, self.theirs) {
            Taken::Ours => Some(self.ours),
            Taken::Theirs => Some(self.theirs),
            Taken::Either => None,
        }
    }
}

/// The clock lines of the three texts.
#[derive(Drop)]
struct AllClocks<'a> {
    base: Clocks<'a>,
    ours: Clocks<'a>,
    theirs: Clocks<'a>,
}

/// A clock line with this start.
fn line_with<'a>(clocks: &Clocks<'a>, start: &[u8]) -> Option<&'a [u8]> {
    match clocks.get(&start) {
        Some(found) => Some(found.line),
        None => None,
    }
}

/// When a clock line ends; a clock that runs ends last.
fn end_of(line: &[u8]) -> i64 {
    match clock_of(line) {
        Some(clock) => clock.end.unwrap_or(i64::MAX),
        None => i64::MAX,
    }
}

/// The line of a clock. If both sides closed it, it is the one that ends first.
fn clock_line<'a>(
    alloc: Global,
    clocks: &AllClocks<'a>,
    start: &[u8],
    events: &mut Events,
) -> Result<&'a [u8], AllocError> {
    let base = line_with(&clocks.base, start);
    let ours = line_with(&clocks.ours, start);
    let theirs = line_with(&clocks.theirs, start);
    let mine = ours.unwrap_or(&[]);
    let other = theirs.unwrap_or(&[]);
    match taken_some(base, ours, theirs) {
        Taken::Ours => Ok(mine),
        Taken::Theirs => Ok(other),
        Taken::Either if end_of(other) < end_of(mine) => {
            note(alloc, events, What::ClosedTwice, mine)?;
            Ok(other)
        }
        Taken::Either => {
            note(alloc, events, What::ClosedTwice, other)?;
            Ok(mine)
        }
    }
}

/// The line by which a piece of a log is ordered.
fn line_of<'a>(piece: Piece<'a>) -> Option<&'a [u8]> {
    match piece {
        Piece::Line(line) | Piece::Clock(line) => Some(line),
        Piece::Log | Piece::Drawer(_) => None,
    }
}

/// Whether each of these pieces is a line of a log.
fn are_logged(numbers: &Numbers<'_>, list: &[usize]) -> bool {
    for number in list {
        match line_of(numbers.piece(*number)) {
            Some(line) if logged_of(line).is_some() => {}
            _ => return false,
        }
    }
    true
}

/// The later one first, and of two of one moment the first.
fn later_first(one: &[u8], other: &[u8]) -> Ordering {
    match (logged_of(one), logged_of(other)) {
        (Some(one), Some(other)) => compare(other, one),
        _ => Ordering::Equal,
    }
}

/// A piece of a log at its place among those that are to be sorted.
#[derive(Clone, Copy)]
struct Sorted<'a> {
    line: &'a [u8],
    number: usize,
}

/// Pieces of a log by time, the latest first.
fn by_time(alloc: Global, numbers: &Numbers<'_>, list: &[usize]) -> Result<Vec<usize>, AllocError> {
    let mut sorted = Vec::with_capacity(alloc, list.len())?;
    for number in list {
        sorted.push(Sorted {
            line: line_of(numbers.piece(*number)).unwrap_or(&[]),
            number: *number,
        })?;
    }
    sorted.sort_by(|one, other| later_first(one.line, other.line))?;
    sorted.iter().map(|piece| piece.number).collect(alloc)
}

/// Those of a list that don't stand in the other one.
fn without(alloc: Global, list: &[usize], other: &[usize]) -> Result<Vec<usize>, AllocError> {
    let known = set_of(alloc, other)?;
    let mut out = Vec::new(alloc);
    for number in list {
        if !known.contains(number) {
            out.push(*number)?;
        }
    }
    Ok(out)
}

fn set_of(alloc: Global, list: &[usize]) -> Result<HashSet<usize>, AllocError> {
    let mut out = HashSet::new(alloc);
    for number in list {
        out.insert(*number)?;
    }
    Ok(out)
}

/// Where a piece first stands in a list.
fn place_of(numbers: &Numbers<'_>, list: &[usize], piece: Piece<'_>) -> Option<usize> {
    list.iter()
        .position(|number| numbers.piece(*number) == piece)
}

/// Those of a list that aren't the drawer.
fn without_log(
    alloc: Global,
    numbers: &Numbers<'_>,
    list: &[usize],
) -> Result<Vec<usize>, AllocError> {
    let mut out = Vec::new(alloc);
    for number in list {
        if numbers.piece(*number) != Piece::Log {
            out.push(*number)?;
        }
    }
    Ok(out)
}

/// What both sides added at one place: ours comes first, and lines of a log stand by time.
fn both(
    alloc: Global,
    numbers: &Numbers<'_>,
    mine: Vec<usize>,
    other: Vec<usize>,
) -> Result<Vec<usize>, AllocError> {
    let mut out = mine;
    let more = if place_of(numbers, out.as_slice(), Piece::Log).is_some() {
        without_log(alloc, numbers, other.as_slice())?
    } else {
        other
    };
    if are_logged(numbers, out.as_slice()) && are_logged(numbers, more.as_slice()) {
        let new = without(alloc, more.as_slice(), out.as_slice())?;
        out.extend_from_slice(new.as_slice())?;
        return by_time(alloc, numbers, out.as_slice());
    }
    out.extend_from_slice(more.as_slice())?;
    Ok(out)
}

/// What is made of both sides' texts.
#[derive(Drop)]
struct Making<'a> {
    made: Vec<Made<'a>>,
    /// The lines are those of a log.
    is_log: bool,
}

impl<'a> Making<'a> {
    fn push_all(&mut self, list: &[usize]) -> Result<(), AllocError> {
        for number in list {
            self.made.push(Made::Piece(*number))?;
        }
        Ok(())
    }

    /// A line of theirs that ours changed otherwise: of a log it stays one, else it is quoted.
    fn push_other(
        &mut self,
        alloc: Global,
        line: &'a [u8],
        events: &mut Events,
    ) -> Result<(), AllocError> {
        if self.is_log && logged_of(line).is_some() {
            self.made.push(Made::Line(line))?;
            return Ok(());
        }
        quoted_conflict(alloc, events, What::Text, line)?;
        self.made.push(Made::Quote(line))?;
        Ok(())
    }

    fn push_others(
        &mut self,
        alloc: Global,
        text: &'a [u8],
        events: &mut Events,
    ) -> Result<(), AllocError> {
        for line in &lines_of(alloc, text)? {
            self.push_other(alloc, *line, events)?;
        }
        Ok(())
    }

    /// What both sides changed: ours stays, and theirs is quoted.
    fn push_clash(
        &mut self,
        alloc: Global,
        numbers: &Numbers<'a>,
        mine: &[usize],
        other: &[usize],
        events: &mut Events,
    ) -> Result<(), AllocError> {
        self.push_all(mine)?;
        let mut known = set_of(alloc, mine)?;
        for number in other {
            match numbers.piece(*number) {
                Piece::Line(line) => self.push_other(alloc, line, events)?,
                Piece::Drawer(text) => self.push_others(alloc, text, events)?,
                Piece::Log | Piece::Clock(_) => {
                    if !known.contains(number) {
                        known.insert(*number)?;
                        self.made.push(Made::Piece(*number))?;
                    }
                }
            }
        }
        Ok(())
    }

    fn push_chunk(
        &mut self,
        alloc: Global,
        numbers: &Numbers<'a>,
        chunk: Chunk,
        events: &mut Events,
    ) -> Result<(), AllocError> {
        match chunk {
            Chunk::Plain(list) => self.push_all(list.as_slice()),
            Chunk::Both(mine, other) => {
                note(alloc, events, What::AddedAtOnePlace, &[])?;
                self.push_all(both(alloc, numbers, mine, other)?.as_slice())
            }
            Chunk::Clash(mine, other) if mine.is_empty() || other.is_empty() => {
                note(alloc, events, What::Kept, &[])?;
                self.push_all(mine.as_slice())?;
                self.push_all(other.as_slice())
            }
            Chunk::Clash(mine, other) => {
                self.push_clash(alloc, numbers, mine.as_slice(), other.as_slice(), events)
            }
        }
    }
}

/// Where a merged drawer stands: at its first place, or at the front.
fn log_place(numbers: &Numbers<'_>, made: &[Made<'_>]) -> usize {
    made.iter()
        .position(|part| match part {
            Made::Piece(number) => numbers.piece(*number) == Piece::Log,
            _ => false,
        })
        .unwrap_or(0)
}

/// A merged text, written line by line.
#[derive(Drop)]
struct Writing {
    text: Vec<u8>,
    /// The clocks that are written.
    seen: HashSet<usize>,
}

impl Writing {
    fn write<'a>(
        &mut self,
        alloc: Global,
        numbers: &Numbers<'a>,
        clocks: &AllClocks<'a>,
        part: &Made<'a>,
        events: &mut Events,
    ) -> Result<(), AllocError> {
        match part {
            Made::Quote(line) => {
                self.text.extend_from_slice(QUOTE)?;
                push_line(&mut self.text, *line)
            }
            Made::Line(line) => push_line(&mut self.text, *line),
            Made::Piece(number) => match numbers.piece(*number) {
                Piece::Line(line) => push_line(&mut self.text, line),
                Piece::Drawer(text) => self.text.extend_from_slice(text),
                Piece::Log => Ok(()),
                Piece::Clock(start) => {
                    if self.seen.contains(number) {
                        return Ok(());
                    }
                    self.seen.insert(*number)?;
                    push_line(&mut self.text, clock_line(alloc, clocks, start, events)?)
                }
            },
        }
    }
}

/// The pieces of the three texts, by number, and their clocks.
fn numbered<'a>(
    alloc: Global,
    splits: &[Split<'a>; 3],
    is_shared: bool,
    numbers: &mut Numbers<'a>,
) -> Result<(AllClocks<'a>, [Vec<usize>; 3]), AllocError> {
    let base = pieces_of(alloc, &splits[0], is_shared)?;
    let ours = pieces_of(alloc, &splits[1], is_shared)?;
    let theirs = pieces_of(alloc, &splits[2], is_shared)?;
    let clocks = AllClocks {
        base: clocks_of(alloc, base.as_slice())?,
        ours: clocks_of(alloc, ours.as_slice())?,
        theirs: clocks_of(alloc, theirs.as_slice())?,
    };
    let lists = [
        keyed(alloc, base.as_slice(), &clocks, numbers)?,
        keyed(alloc, ours.as_slice(), &clocks, numbers)?,
        keyed(alloc, theirs.as_slice(), &clocks, numbers)?,
    ];
    Ok((clocks, lists))
}

/// The numbers of pieces, whose shared clocks are known by their starts.
fn keyed<'a>(
    alloc: Global,
    pieces: &[Piece<'a>],
    clocks: &AllClocks<'a>,
    numbers: &mut Numbers<'a>,
) -> Result<Vec<usize>, AllocError> {
    let known = with_clocks(alloc, pieces, &clocks.base, &clocks.ours, &clocks.theirs)?;
    numbers.numbers(alloc, known.as_slice())
}

/// What becomes of the pieces of three texts.
#[derive(Drop)]
struct Plan<'a> {
    numbers: Numbers<'a>,
    clocks: AllClocks<'a>,
    made: Vec<Made<'a>>,
}

impl<'a> Plan<'a> {
    fn new(
        alloc: Global,
        splits: &[Split<'a>; 3],
        is_shared: bool,
        is_log: bool,
        events: &mut Events,
    ) -> Result<Plan<'a>, AllocError> {
        let mut numbers = Numbers::new(alloc);
        let (clocks, lists) = numbered(alloc, splits, is_shared, &mut numbers)?;
        let [base, ours, theirs] = lists;
        let chunks = merge_lists(alloc, base.as_slice(), ours.as_slice(), theirs.as_slice())?;
        let mut making = Making {
            made: Vec::new(alloc),
            is_log,
        };
        for chunk in chunks {
            making.push_chunk(alloc, &numbers, chunk, events)?;
        }
        let Making { made, is_log: _ } = making;
        Ok(Plan {
            numbers,
            clocks,
            made,
        })
    }

    /// The lines, with a drawer at its place if there is one.
    fn write(
        &self,
        alloc: Global,
        log: Option<&[u8]>,
        events: &mut Events,
    ) -> Result<Vec<u8>, AllocError> {
        let made = self.made.as_slice();
        let place = log_place(&self.numbers, made);
        let drawer = log.unwrap_or(&[]);
        let mut writing = Writing {
            text: Vec::new(alloc),
            seen: HashSet::new(alloc),
        };
        if made.is_empty() {
            writing.text.extend_from_slice(drawer)?;
        }
        for (at, part) in made.iter().enumerate() {
            if at == place {
                writing.text.extend_from_slice(drawer)?;
            }
            writing.write(alloc, &self.numbers, &self.clocks, part, events)?;
        }
        let Writing { text, seen: _ } = writing;
        Ok(text)
    }
}

/// A text without a drawer of its own.
fn unsplit(text: &[u8]) -> Split<'_> {
    Split {
        before: text,
        log: &[],
        after: &[],
    }
}

/// The merge of lines of a log.
fn merge_log_lines(
    alloc: Global,
    texts: &Texts<'_>,
    events: &mut Events,
) -> Result<Vec<u8>, AllocError> {
    if let Some(text) = texts.agreed() {
        return Vec::from_slice(alloc, text);
    }
    let splits = [
        unsplit(texts.base),
        unsplit(texts.ours),
        unsplit(texts.theirs),
    ];
    Plan::new(alloc, &splits, false, true, events)?.write(alloc, None, events)
}

/// Which line of a drawer's frame is taken. Base may have no drawer.
fn frame_line<'a>(base: &[u8], ours: &'a [u8], theirs: &'a [u8]) -> &'a [u8] {
    let was = if base.is_empty() { None } else { Some(base) };
    match taken_some(was, Some(ours), Some(theirs)) {
        Taken::Theirs => theirs,
        Taken::Ours | Taken::Either => ours,
    }
}

/// The merge of LOGBOOK drawers, which both sides have.
fn merge_logs(alloc: Global, logs: &Texts<'_>, events: &mut Events) -> Result<Vec<u8>, AllocError> {
    let base = framed(logs.base);
    let ours = framed(logs.ours);
    let theirs = framed(logs.theirs);
    let inner = Texts {
        base: base.1,
        ours: ours.1,
        theirs: theirs.1,
    };
    let mut out = Vec::from_slice(alloc, frame_line(base.0, ours.0, theirs.0))?;
    let lines = merge_log_lines(alloc, &inner, events)?;
    out.extend_from_slice(lines.as_slice())?;
    out.extend_from_slice(frame_line(base.2, ours.2, theirs.2))?;
    Ok(out)
}

/// The merge of texts.
pub(crate) fn merge_texts(
    alloc: Global,
    texts: &Texts<'_>,
    events: &mut Events,
) -> Result<Vec<u8>, AllocError> {
    if let Some(text) = texts.agreed() {
        return Vec::from_slice(alloc, text);
    }
    let splits = [
        split_log(texts.base),
        split_log(texts.ours),
        split_log(texts.theirs),
    ];
    let logs = Texts {
        base: splits[0].log,
        ours: splits[1].log,
        theirs: splits[2].log,
    };
    let is_shared = !logs.ours.is_empty() && !logs.theirs.is_empty();
    let plan = Plan::new(alloc, &splits, is_shared, false, events)?;
    if !is_shared {
        return plan.write(alloc, None, events);
    }
    let log = merge_logs(alloc, &logs, events)?;
    plan.write(alloc, Some(log.as_slice()), events)
}
