//! The merge of property drawers: property by property (Org Syntax, "Property Drawers").
use crate::event::{Events, What, conflict, note};
use crate::text::{by_digits, digits, framed, lines_of, property_of, push_line};
use crate::texts::Texts;
use crate::three::{Taken, taken_some};
use org_splice::blanks::trimmed;
use std::alloc::{AllocError, Global};
use std::collections::HashMap;

/// What a property of a drawer is known by: its name in capitals, and how many of that name come
/// before it.
type Key = (Vec<u8>, usize);

/// The properties of a drawer, in order.
#[derive(Drop)]
struct Properties<'a> {
    list: Vec<(Vec<u8>, usize, &'a [u8])>,
    places: HashMap<Key, usize>,
}

impl<'a> Properties<'a> {
    /// The line of a property.
    fn line(&self, key: &Key) -> Option<&'a [u8]> {
        let place = self.places.get(key)?;
        let (_, _, line) = self.list.as_slice().get(*place)?;
        Some(*line)
    }
}

/// A name in capitals.
fn capitals(alloc: Global, name: &[u8]) -> Result<Vec<u8>, AllocError> {
    name.iter()
        .map(|byte| byte.to_ascii_uppercase())
        .collect(alloc)
}

/// The properties between the first and the last line of a drawer.
fn properties_of(alloc: Global, drawer: &[u8]) -> Result<Properties<'_>, AllocError> {
    let mut properties = Properties {
        list: Vec::new(alloc),
        places: HashMap::new(alloc),
    };
    let mut seen: HashMap<Vec<u8>, usize> = HashMap::new(alloc);
    for line in &lines_of(alloc, framed(drawer).1)? {
        let (name, _) = property_of(*line).unwrap_or((&[], &[]));
        let name = capitals(alloc, name)?;
        let count = seen.get(&name).copied().unwrap_or(0);
        seen.insert(name.clone()?, count.saturating_add(1))?;
        let place = properties.list.len();
        properties.places.insert((name.clone()?, count), place)?;
        properties.list.push((name, count, *line))?;
    }
    Ok(properties)
}

/// Whether the later of two values of a property is the right one.
fn is_moment(name: &[u8]) -> bool {
    name == b"LAST_REPEAT".as_slice() || name == b"ARCHIVE_TIME".as_slice()
}

/// The value of a property line.
fn value_of(line: &[u8]) -> &[u8] {
    match property_of(line) {
        Some((_, value)) => value,
        None => &[],
    }
}

/// What is taken of two lines of one property that both sides changed.
fn either<'a>(
    alloc: Global,
    name: &[u8],
    mine: &'a [u8],
    other: &'a [u8],
    events: &mut Events,
) -> Result<&'a [u8], AllocError> {
    if value_of(mine) == value_of(other) {
        return Ok(mine);
    }
    let ours = digits(alloc, value_of(mine))?;
    let theirs = digits(alloc, value_of(other))?;
    if !is_moment(name) || ours.is_empty() || theirs.is_empty() {
        conflict(alloc, events, What::Property, trimmed(other))?;
        return Ok(mine);
    }
    let (last, first) = by_digits(alloc, mine, other)?;
    note(alloc, events, What::LaterMoment, first)?;
    Ok(last)
}

/// The line of a property in the merged drawer.
fn line_of<'a>(
    alloc: Global,
    key: &Key,
    all: &[Properties<'a>; 3],
    events: &mut Events,
) -> Result<Option<&'a [u8]>, AllocError> {
    let base = all[0].line(key);
    let ours = all[1].line(key);
    let theirs = all[2].line(key);
    match (taken_some(base, ours, theirs), ours, theirs) {
        (Taken::Ours, _, _) => Ok(ours),
        (Taken::Theirs, _, _) => Ok(theirs),
        (Taken::Either, Some(mine), Some(other)) => {
            Ok(Some(either(alloc, key.0.as_slice(), mine, other, events)?))
        }
        (Taken::Either, _, _) => {
            let line = ours.or(theirs);
            note(alloc, events, What::Kept, line.unwrap_or(&[]))?;
            Ok(line)
        }
    }
}

/// Puts the lines of a side's properties after others. `known` is the side whose properties are
/// there.
fn push_side(
    alloc: Global,
    out: &mut Vec<u8>,
    all: &[Properties<'_>; 3],
    side: &Properties<'_>,
    known: Option<&Properties<'_>>,
    events: &mut Events,
) -> Result<(), AllocError> {
    for (name, count, _) in &side.list {
        let key = (name.clone()?, *count);
        let is_known = match known {
            Some(known) => known.line(&key).is_some(),
            None => false,
        };
        if !is_known {
            if let Some(line) = line_of(alloc, &key, all, events)? {
                push_line(out, line)?;
            }
        }
    }
    Ok(())
}

/// The merged drawer; nothing if there is none.
pub(crate) fn merge_drawers(
    alloc: Global,
    drawers: &Texts<'_>,
    events: &mut Events,
) -> Result<Vec<u8>, AllocError> {
    if let Some(drawer) = drawers.agreed() {
        return Vec::from_slice(alloc, drawer);
    }
    let all = [
        properties_of(alloc, drawers.base)?,
        properties_of(alloc, drawers.ours)?,
        properties_of(alloc, drawers.theirs)?,
    ];
    let mut lines = Vec::new(alloc);
    push_side(alloc, &mut lines, &all, &all[1], None, events)?;
    push_side(alloc, &mut lines, &all, &all[2], Some(&all[1]), events)?;
    if lines.is_empty() && (drawers.ours.is_empty() || drawers.theirs.is_empty()) {
        return Ok(Vec::new(alloc));
    }
    let (first, _, last) = framed(if drawers.ours.is_empty() {
        drawers.theirs
    } else {
        drawers.ours
    });
    let mut out = Vec::from_slice(alloc, first)?;
    out.extend_from_slice(lines.as_slice())?;
    out.extend_from_slice(last)?;
    Ok(out)
}
