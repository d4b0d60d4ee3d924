//! A text as the pieces that its merge moves: lines, clocks and drawers.
use crate::clock::clock_of;
use crate::text::{first_line, is_mark, lines_of};
use org_splice::blanks::trimmed;
use std::alloc::{AllocError, Global};
use std::collections::HashMap;

/// A piece of a text.
#[derive(Clone, Copy, PartialEq, Eq, Hash)]
pub(crate) enum Piece<'a> {
    /// A line.
    Line(&'a [u8]),
    /// The clock line with this start, whether it was closed or not.
    Clock(&'a [u8]),
    /// The LOGBOOK drawer, which both sides have.
    Log,
    /// The LOGBOOK drawer of one side: its lines.
    Drawer(&'a [u8]),
}

/// Each different piece has a number.
#[derive(Drop)]
pub(crate) struct Numbers<'a> {
    known: HashMap<Piece<'a>, usize>,
    pieces: Vec<Piece<'a>>,
}

impl<'a> Numbers<'a> {
    pub(crate) fn new(alloc: Global) -> Numbers<'a> {
        Numbers {
            known: HashMap::new(alloc),
            pieces: Vec::new(alloc),
        }
    }

    /// The number of a piece.
    fn number(&mut self, piece: Piece<'a>) -> Result<usize, AllocError> {
        if let Some(number) = self.known.get(&piece) {
            return Ok(*number);
        }
        let number = self.pieces.len();
        self.known.insert(piece, number)?;
        self.pieces.push(piece)?;
        Ok(number)
    }

    /// The numbers of pieces.
    pub(crate) fn numbers(
        &mut self,
        alloc: Global,
        pieces: &[Piece<'a>],
    ) -> Result<Vec<usize>, AllocError> {
        let mut out = Vec::with_capacity(alloc, pieces.len())?;
        for piece in pieces {
            out.push(self.number(*piece)?)?;
        }
        Ok(out)
    }

    /// The piece with a number.
    pub(crate) fn piece(&self, number: usize) -> Piece<'a> {
        match self.pieces.as_slice().get(number) {
            Some(piece) => *piece,
            None => Piece::Line(&[]),
        }
    }
}

/// A text with the LOGBOOK drawer that it has.
#[derive(Clone, Copy)]
pub(crate) struct Split<'a> {
    pub(crate) before: &'a [u8],
    /// The drawer, from its first line to `:END:`; or nothing.
    pub(crate) log: &'a [u8],
    pub(crate) after: &'a [u8],
}

/// What follows the first line that is this mark.
fn after_mark<'a>(text: &'a [u8], mark: &[u8]) -> Option<&'a [u8]> {
    let mut left = text;
    while !left.is_empty() {
        let (line, rest) = first_line(left);
        left = rest;
        if is_mark(line, mark) {
            return Some(left);
        }
    }
    None
}

/// The text from its first line that is this mark on.
fn from_mark<'a>(text: &'a [u8], mark: &[u8]) -> Option<&'a [u8]> {
    let mut left = text;
    while !left.is_empty() {
        let (line, rest) = first_line(left);
        if is_mark(line, mark) {
            return Some(left);
        }
        left = rest;
    }
    None
}

/// A text at the LOGBOOK drawer that it has.
pub(crate) fn split_log(text: &[u8]) -> Split<'_> {
    let none = Split {
        before: text,
        log: &[],
        after: &[],
    };
    let Some(from) = from_mark(text, b":LOGBOOK:") else {
        return none;
    };
    let Some(after) = after_mark(from, b":END:") else {
        return none;
    };
    let start = text.len().saturating_sub(from.len());
    let end = text.len().saturating_sub(after.len());
    Split {
        before: text.get(..start).unwrap_or(&[]),
        log: text.get(start..end).unwrap_or(&[]),
        after,
    }
}

/// Puts the lines of a text after pieces.
fn push_lines<'a>(
    alloc: Global,
    pieces: &mut Vec<Piece<'a>>,
    text: &'a [u8],
) -> Result<(), AllocError> {
    for line in &lines_of(alloc, text)? {
        pieces.push(Piece::Line(*line))?;
    }
    Ok(())
}

/// The pieces of a text. If both sides have a LOGBOOK drawer, it is `Log`.
pub(crate) fn pieces_of<'a>(
    alloc: Global,
    split: &Split<'a>,
    is_shared: bool,
) -> Result<Vec<Piece<'a>>, AllocError> {
    let mut pieces = Vec::new(alloc);
    push_lines(alloc, &mut pieces, split.before)?;
    if !split.log.is_empty() {
        let log = if is_shared {
            Piece::Log
        } else {
            Piece::Drawer(split.log)
        };
        pieces.push(log)?;
    }
    push_lines(alloc, &mut pieces, split.after)?;
    Ok(pieces)
}

/// The clock lines of a text, by their starts.
pub(crate) type Clocks<'a> = HashMap<&'a [u8], Found<'a>>;

/// The first clock line with a start.
#[derive(Clone, Copy)]
pub(crate) struct Found<'a> {
    pub(crate) line: &'a [u8],
    /// No other line has this start.
    pub(crate) is_only: bool,
}

/// The start that a clock line is known by.
fn start_of<'a>(piece: &Piece<'a>) -> Option<(&'a [u8], &'a [u8])> {
    match piece {
        Piece::Line(line) => {
            let clock = clock_of(*line)?;
            Some((trimmed(clock.head), *line))
        }
        _ => None,
    }
}

/// The clock lines among pieces.
pub(crate) fn clocks_of<'a>(alloc: Global, pieces: &[Piece<'a>]) -> Result<Clocks<'a>, AllocError> {
    let mut clocks: Clocks<'a> = HashMap::new(alloc);
    for piece in pieces {
        if let Some((start, line)) = start_of(piece) {
            let found = match clocks.get(&start) {
                Some(first) => Found {
                    line: first.line,
                    is_only: false,
                },
                None => Found {
                    line,
                    is_only: true,
                },
            };
            clocks.insert(start, found)?;
        }
    }
    Ok(clocks)
}

/// Whether a text has one clock line with this start.
fn has_one(clocks: &Clocks<'_>, start: &[u8]) -> bool {
    match clocks.get(&start) {
        Some(found) => found.is_only,
        None => false,
    }
}

/// Each clock line that each side has once, and base at most once, as a clock.
pub(crate) fn with_clocks<'a>(
    alloc: Global,
    pieces: &[Piece<'a>],
    base: &Clocks<'a>,
    ours: &Clocks<'a>,
    theirs: &Clocks<'a>,
) -> Result<Vec<Piece<'a>>, AllocError> {
    let mut out = Vec::with_capacity(alloc, pieces.len())?;
    for piece in pieces {
        let known = match start_of(piece) {
            Some((start, _)) if has_one(ours, start) && has_one(theirs, start) => {
                if base.get(&start).is_none() || has_one(base, start) {
                    Piece::Clock(start)
                } else {
                    *piece
                }
            }
            _ => *piece,
        };
        out.push(known)?;
    }
    Ok(out)
}
