//! The merge of heading lines: part by part (Org Syntax, "Headings").
use crate::event::{Events, What, conflict};
use crate::text::{cut, cut_from};
use crate::three::{Taken, taken_some};
use org_outline::{HeadParts, States};
use org_splice::blanks::{blank_count, trimmed_end};
use std::alloc::{AllocError, Global};

/// The tag of an entry with a conflict.
const TAG: &[u8] = b"CONFLICT";

/// What follows the stars of a heading, by its parts and what separates them.
#[derive(Drop)]
pub(crate) struct Pieces<'a> {
    gap: &'a [u8],
    keyword: &'a [u8],
    after_keyword: &'a [u8],
    priority: &'a [u8],
    after_priority: &'a [u8],
    title: &'a [u8],
    before_tags: &'a [u8],
    tags: Vec<&'a [u8]>,
    end: &'a [u8],
}

/// The tags between colons.
fn tags_of(alloc: Global, tags: &[u8]) -> Result<Vec<&[u8]>, AllocError> {
    let mut out = Vec::new(alloc);
    for tag in tags.split(|byte| *byte == b':') {
        if !tag.is_empty() {
            out.push(tag)?;
        }
    }
    Ok(out)
}

/// The blanks that a text begins with, if something stands before it.
fn separator<'a>(before: &[u8], text: &'a [u8]) -> &'a [u8] {
    if before.is_empty() {
        return &[];
    }
    cut(text, 0, blank_count(text))
}

impl<'a> Pieces<'a> {
    /// The pieces of a line.
    pub(crate) fn of(
        alloc: Global,
        states: &States,
        line: &'a [u8],
    ) -> Result<Pieces<'a>, AllocError> {
        let parts = HeadParts::of(states, line);
        let body = cut_from(line, parts.gap.len());
        let content = trimmed_end(body);
        let left = cut_from(content, parts.keyword.len());
        let after_keyword = separator(parts.keyword, left);
        let left = cut_from(
            left,
            after_keyword.len().saturating_add(parts.priority.len()),
        );
        let after_priority = separator(parts.priority, left);
        let left = cut_from(left, after_priority.len().saturating_add(parts.title.len()));
        Ok(Pieces {
            gap: parts.gap,
            keyword: parts.keyword,
            after_keyword,
            priority: parts.priority,
            after_priority,
            title: parts.title,
            before_tags: cut(left, 0, left.len().saturating_sub(parts.tags.len())),
            tags: tags_of(alloc, parts.tags)?,
            end: cut_from(body, content.len()),
        })
    }

    /// Whether both have the same keyword, priority, title and tags.
    fn says(&self, other: &Pieces<'_>) -> bool {
        self.keyword == other.keyword
            && self.priority == other.priority
            && self.title == other.title
            && are_same(self.tags.as_slice(), other.tags.as_slice())
    }

    /// Writes what stands before the tags.
    fn write_front(&self, out: &mut Vec<u8>) -> Result<(), AllocError> {
        out.extend_from_slice(self.gap)?;
        if !self.keyword.is_empty() {
            out.extend_from_slice(self.keyword)?;
            if !self.after_keyword.is_empty() {
                out.extend_from_slice(self.after_keyword)?;
            } else if !self.priority.is_empty() || !self.title.is_empty() || !self.tags.is_empty() {
                out.push(b' ')?;
            }
        }
        if !self.priority.is_empty() {
            out.extend_from_slice(self.priority)?;
            out.extend_from_slice(self.after_priority)?;
        }
        out.extend_from_slice(self.title)?;
        Ok(())
    }

    /// Writes the tags, and what separates them from the title.
    fn write_tags(&self, out: &mut Vec<u8>) -> Result<(), AllocError> {
        if !self.before_tags.is_empty() {
            out.extend_from_slice(self.before_tags)?;
        } else if !matches!(out.as_slice(), [.., b' ' | b'\t']) {
            out.push(b' ')?;
        }
        out.push(b':')?;
        for tag in &self.tags {
            out.extend_from_slice(*tag)?;
            out.push(b':')?;
        }
        Ok(())
    }

    /// The line with these pieces.
    fn composed(&self, alloc: Global) -> Result<Vec<u8>, AllocError> {
        let mut out = Vec::new(alloc);
        self.write_front(&mut out)?;
        if !self.tags.is_empty() {
            self.write_tags(&mut out)?;
        }
        out.extend_from_slice(self.end)?;
        Ok(out)
    }

    /// The line with these pieces, if it is read as them.
    fn readable(&self, alloc: Global, states: &States) -> Result<Option<Vec<u8>>, AllocError> {
        let line = self.composed(alloc)?;
        let is_read = Pieces::of(alloc, states, line.as_slice())?.says(self);
        Ok(if is_read { Some(line) } else { None })
    }
}

/// Whether two lists have the same tags in the same order.
fn are_same(tags: &[&[u8]], other: &[&[u8]]) -> bool {
    if tags.len() != other.len() {
        return false;
    }
    for (one, two) in tags.iter().zip(other) {
        if *one != *two {
            return false;
        }
    }
    true
}

/// Whether a tag is among these.
fn has_tag(tags: &[&[u8]], tag: &[u8]) -> bool {
    tags.iter().any(|other| *other == tag)
}

/// The tags that ours keeps or adds.
fn push_ours<'a>(
    out: &mut Vec<&'a [u8]>,
    base: &[&[u8]],
    ours: &[&'a [u8]],
    theirs: &[&[u8]],
) -> Result<(), AllocError> {
    for tag in ours {
        if has_tag(theirs, *tag) || !has_tag(base, *tag) {
            out.push(*tag)?;
        }
    }
    Ok(())
}

/// The tags that theirs adds.
fn push_theirs<'a>(
    out: &mut Vec<&'a [u8]>,
    base: &[&[u8]],
    ours: &[&[u8]],
    theirs: &[&'a [u8]],
) -> Result<(), AllocError> {
    for tag in theirs {
        if !has_tag(ours, *tag) && !has_tag(base, *tag) {
            out.push(*tag)?;
        }
    }
    Ok(())
}

/// The tags of the merged line.
fn merge_tags<'a>(
    alloc: Global,
    base: &[&[u8]],
    ours: &[&'a [u8]],
    theirs: &[&'a [u8]],
) -> Result<Vec<&'a [u8]>, AllocError> {
    if are_same(ours, base) {
        return Vec::from_slice(alloc, theirs);
    }
    let mut out = Vec::new(alloc);
    push_ours(&mut out, base, ours, theirs)?;
    push_theirs(&mut out, base, ours, theirs)?;
    Ok(out)
}

/// A part of the merged line, and what separates it from the next one.
#[derive(Clone, Copy)]
struct Part<'a> {
    text: &'a [u8],
    separator: &'a [u8],
    /// Both sides changed it otherwise.
    is_conflict: bool,
}

/// A part of a line, and what separates it from the next one.
type Piece<'a> = (&'a [u8], &'a [u8]);

/// What is taken of a part.
fn merge_part<'a>(base: Option<Piece<'a>>, ours: Piece<'a>, theirs: Piece<'a>) -> Part<'a> {
    let (was, was_separator) = match base {
        Some((was, separator)) => (Some(was), Some(separator)),
        None => (None, None),
    };
    let which = taken_some(was, Some(ours.0), Some(theirs.0));
    let text = if which == Taken::Theirs {
        theirs.0
    } else {
        ours.0
    };
    let is_theirs = theirs.0 == ours.0 && was_separator == Some(ours.1);
    let separator = if text == ours.0 && !is_theirs {
        ours.1
    } else {
        theirs.1
    };
    Part {
        text,
        separator,
        is_conflict: which == Taken::Either,
    }
}

/// The pieces of three lines.
#[derive(Clone, Copy)]
struct Lines<'p, 'a> {
    base: &'p Pieces<'a>,
    /// Base has the line.
    has_base: bool,
    ours: &'p Pieces<'a>,
    theirs: &'p Pieces<'a>,
}

/// A merged heading line.
#[derive(Drop)]
pub(crate) struct Line {
    pub(crate) text: Vec<u8>,
    /// The keyword is ours, though theirs changed it otherwise.
    pub(crate) is_ours_keyword: bool,
}

/// What is taken of a part, which base may not have.
fn part_of<'a>(has_base: bool, base: Piece<'a>, ours: Piece<'a>, theirs: Piece<'a>) -> Part<'a> {
    if has_base {
        merge_part(Some(base), ours, theirs)
    } else {
        merge_part(None, ours, theirs)
    }
}

/// The keyword of the merged line.
fn keyword_of<'a>(lines: &Lines<'_, 'a>) -> Part<'a> {
    let (base, ours, theirs) = (lines.base, lines.ours, lines.theirs);
    part_of(
        lines.has_base,
        (base.keyword, base.after_keyword),
        (ours.keyword, ours.after_keyword),
        (theirs.keyword, theirs.after_keyword),
    )
}

/// Its priority.
fn priority_of<'a>(lines: &Lines<'_, 'a>) -> Part<'a> {
    let (base, ours, theirs) = (lines.base, lines.ours, lines.theirs);
    part_of(
        lines.has_base,
        (base.priority, base.after_priority),
        (ours.priority, ours.after_priority),
        (theirs.priority, theirs.after_priority),
    )
}

/// A part of the merged line that no blanks separate from the next one.
fn plain_part<'a>(has_base: bool, base: &'a [u8], ours: &'a [u8], theirs: &'a [u8]) -> Part<'a> {
    part_of(has_base, (base, &[]), (ours, &[]), (theirs, &[]))
}

/// What separates the tags of the merged line from what stands before them.
fn before_tags<'a>(lines: &Lines<'_, 'a>, tags: &[&[u8]]) -> &'a [u8] {
    let (ours, theirs) = (lines.ours.tags.as_slice(), lines.theirs.tags.as_slice());
    if are_same(tags, theirs) && !are_same(ours, theirs) {
        lines.theirs.before_tags
    } else {
        lines.ours.before_tags
    }
}

/// The pieces of the merged line, whether a part is in conflict, and whether the keyword is.
fn merged_pieces<'a>(
    alloc: Global,
    lines: &Lines<'_, 'a>,
) -> Result<(Pieces<'a>, bool, bool), AllocError> {
    let (base, ours, theirs) = (lines.base, lines.ours, lines.theirs);
    let gap = plain_part(lines.has_base, base.gap, ours.gap, theirs.gap);
    let keyword = keyword_of(lines);
    let priority = priority_of(lines);
    let title = plain_part(lines.has_base, base.title, ours.title, theirs.title);
    let end = plain_part(lines.has_base, base.end, ours.end, theirs.end);
    let tags = merge_tags(
        alloc,
        base.tags.as_slice(),
        ours.tags.as_slice(),
        theirs.tags.as_slice(),
    )?;
    let before_tags = before_tags(lines, tags.as_slice());
    let pieces = Pieces {
        gap: gap.text,
        keyword: keyword.text,
        after_keyword: keyword.separator,
        priority: priority.text,
        after_priority: priority.separator,
        title: title.text,
        before_tags,
        tags,
        end: end.text,
    };
    let is_conflict = keyword.is_conflict || priority.is_conflict || title.is_conflict;
    Ok((pieces, is_conflict, keyword.is_conflict))
}

/// The merged heading line that isn't as one side has it. If a part is in conflict, or the parts of
/// both aren't read back, ours' stays, and theirs' line is to be quoted.
fn merge_parts(
    alloc: Global,
    states: &States,
    base: Option<&[u8]>,
    ours: &[u8],
    theirs: &[u8],
    events: &mut Events,
) -> Result<Line, AllocError> {
    let was = Pieces::of(alloc, states, base.unwrap_or(&[]))?;
    let mine = Pieces::of(alloc, states, ours)?;
    let other = Pieces::of(alloc, states, theirs)?;
    let lines = Lines {
        base: &was,
        has_base: base.is_some(),
        ours: &mine,
        theirs: &other,
    };
    let (pieces, is_conflict, is_ours_keyword) = merged_pieces(alloc, &lines)?;
    let readable = pieces.readable(alloc, states)?;
    if is_conflict || readable.is_none() {
        let mut heading = Vec::from_slice(alloc, b"*")?;
        heading.extend_from_slice(theirs)?;
        conflict(alloc, events, What::Heading, heading.as_slice())?;
    }
    let text = match readable {
        Some(text) => text,
        None => Vec::from_slice(alloc, ours)?,
    };
    Ok(Line {
        text,
        is_ours_keyword,
    })
}

/// The merged heading line, by what follows its stars.
pub(crate) fn merge_headings(
    alloc: Global,
    states: &States,
    base: Option<&[u8]>,
    ours: &[u8],
    theirs: &[u8],
    events: &mut Events,
) -> Result<Line, AllocError> {
    let text = match taken_some(base, Some(ours), Some(theirs)) {
        Taken::Either => return merge_parts(alloc, states, base, ours, theirs, events),
        Taken::Ours => ours,
        Taken::Theirs => theirs,
    };
    Ok(Line {
        text: Vec::from_slice(alloc, text)?,
        is_ours_keyword: false,
    })
}

/// A heading line with the tag CONFLICT, if it is read as before.
pub(crate) fn with_conflict(
    alloc: Global,
    states: &States,
    line: &[u8],
) -> Result<Vec<u8>, AllocError> {
    let mut pieces = Pieces::of(alloc, states, line)?;
    if !has_tag(pieces.tags.as_slice(), TAG) {
        pieces.tags.push(TAG)?;
        if let Some(tagged) = pieces.readable(alloc, states)? {
            return Ok(tagged);
        }
    }
    Vec::from_slice(alloc, line)
}
