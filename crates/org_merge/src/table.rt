//! The table of a merge as a text: a line a row. It has the numbers of the unit in base, ours,
//! theirs and the result, or `-`, and how many lines of the report are about it, with tabs between.
use crate::merging::Numbers;
use crate::text::{cut_from, lines_of};
use memchr::memchr;
use std::alloc::{AllocError, Global};

/// The number that a field says; `-` is none.
fn number_of(field: &[u8]) -> Option<Option<usize>> {
    if field == b"-".as_slice() {
        return Some(None);
    }
    Some(Some(count_of(field)?))
}

/// A decimal number.
fn count_of(field: &[u8]) -> Option<usize> {
    let mut number: usize = 0;
    for byte in field {
        if !byte.is_ascii_digit() {
            return None;
        }
        let digit = usize::from(byte.wrapping_sub(b'0'));
        number = number.checked_mul(10)?.checked_add(digit)?;
    }
    if field.is_empty() { None } else { Some(number) }
}

/// The size of this many lines at the front of a text; None if it has fewer.
fn size_of_lines(text: &[u8], count: usize) -> Option<usize> {
    if count > text.len() {
        return None;
    }
    let mut size: usize = 0;
    for _ in 0..count {
        let end = memchr(b'\n', cut_from(text, size))?;
        size = size.saturating_add(end).saturating_add(1);
    }
    Some(size)
}

/// The row that a line of the table says, whose lines begin at `start` in the report.
fn row_of(line: &[u8], report: &[u8], start: usize) -> Option<Numbers> {
    let mut fields = line.split(|byte| *byte == b'\t');
    let base = number_of(fields.next()?)?;
    let ours = number_of(fields.next()?)?;
    let theirs = number_of(fields.next()?)?;
    let merged = number_of(fields.next()?)?;
    let count = count_of(fields.next()?)?;
    let size = size_of_lines(cut_from(report, start), count)?;
    if fields.next().is_some() {
        return None;
    }
    Some(Numbers {
        base,
        ours,
        theirs,
        merged,
        told: (start, start.saturating_add(size)),
    })
}

/// The rows that a table says.
pub(crate) fn read_table(
    alloc: Global,
    table: &[u8],
    report: &[u8],
) -> Result<Option<Vec<Numbers>>, AllocError> {
    let mut rows = Vec::new(alloc);
    let mut start: usize = 0;
    for line in &lines_of(alloc, table)? {
        let Some(row) = row_of(*line, report, start) else {
            return Ok(None);
        };
        start = row.told.1;
        rows.push(row)?;
    }
    Ok(Some(rows))
}

/// Puts a number at a text's end, or `-`, and a tab.
fn push_number(out: &mut String, number: Option<usize>) -> Result<(), AllocError> {
    match number {
        Some(number) => write!(out, "{number}\t"),
        None => out.push_str("-\t"),
    }
}

/// How many lines a text has.
fn line_count(text: &[u8]) -> usize {
    text.iter().filter(|byte| **byte == b'\n').count()
}

/// The table of these rows.
pub(crate) fn print_table(
    alloc: Global,
    rows: &[Numbers],
    report: &[u8],
) -> Result<Vec<u8>, AllocError> {
    let mut out = String::new(alloc);
    for row in rows {
        push_number(&mut out, row.base)?;
        push_number(&mut out, row.ours)?;
        push_number(&mut out, row.theirs)?;
        push_number(&mut out, row.merged)?;
        let (start, end) = row.told;
        let count = line_count(report.get(start..end).unwrap_or(&[]));
        writeln!(out, "{count}")?;
    }
    Ok(out.into_bytes())
}
