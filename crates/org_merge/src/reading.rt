//! A text as it is merged: where its first line ends in a carriage return, its usual lines have none.
use crate::text::{cut, lines_of, push_line};
use memchr::memchr;
use std::alloc::{AllocError, Global};

/// Whether a text's first line ends in a carriage return.
pub(crate) fn has_returns(text: &[u8]) -> bool {
    match memchr(b'\n', text) {
        Some(end) => cut(text, 0, end).ends_with(b"\r"),
        None => text.ends_with(b"\r"),
    }
}

/// Puts a line at a text's end: without its carriage return if it ends in one, as it is if it ends
/// in several, and else with one.
fn push_turned(text: &mut Vec<u8>, line: &[u8]) -> Result<(), AllocError> {
    match line.strip_suffix(b"\r") {
        Some(front) if !front.ends_with(b"\r") => push_line(text, front),
        Some(_) => push_line(text, line),
        None => {
            text.extend_from_slice(line)?;
            push_line(text, b"\r")
        }
    }
}

/// A text with the ends of its lines turned; twice is as before.
pub(crate) fn turned(alloc: Global, text: &[u8]) -> Result<Vec<u8>, AllocError> {
    let mut out = Vec::with_capacity(alloc, text.len())?;
    for line in &lines_of(alloc, text)? {
        push_turned(&mut out, *line)?;
    }
    Ok(out)
}

/// A text with a newline at its end.
fn terminated(alloc: Global, text: &[u8]) -> Result<Vec<u8>, AllocError> {
    let mut out = Vec::from_slice(alloc, text)?;
    if !text.is_empty() && !text.ends_with(b"\n") {
        out.push(b'\n')?;
    }
    Ok(out)
}

/// A text as it is merged: terminated, and with the ends of its lines turned if its first line ends
/// in a carriage return.
pub(crate) fn as_merged(alloc: Global, text: &[u8]) -> Result<Vec<u8>, AllocError> {
    if has_returns(text) {
        turned(alloc, text)
    } else {
        terminated(alloc, text)
    }
}
