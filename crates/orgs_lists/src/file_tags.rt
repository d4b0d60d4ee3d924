//! The tags of a file's `#+FILETAGS:` lines, which all its headings inherit (Org manual, "Tag
//! Inheritance").
use org_splice::Bytes;
use org_splice::blanks::behind_blanks;
use std::alloc::{AllocError, Global};

const FILETAGS: &[u8] = b"#+FILETAGS:";

// What stands after the keyword, where the line has it.
fn after_keyword(line: &[u8]) -> Option<&[u8]> {
    let line = behind_blanks(line);
    if line.len() < FILETAGS.len() {
        return None;
    }
    let (keyword, value) = line.split_at(FILETAGS.len());
    if keyword.eq_ignore_ascii_case(FILETAGS) {
        Some(value)
    } else {
        None
    }
}

// Puts the tags of a line's value after others.
fn push_tags(tags: &mut Vec<Bytes>, value: &[u8]) -> Result<(), AllocError> {
    let alloc = *tags.allocator();
    for tag in value.split(|byte| *byte == b':' || byte.is_ascii_whitespace()) {
        if !tag.is_empty() {
            tags.push(Bytes::new(tag.to_vec(alloc)?))?;
        }
    }
    Ok(())
}

/// The tags of a text's `#+FILETAGS:` lines, with colons or blanks between them.
///
/// # Errors
///
/// `AllocError`.
pub fn read_file_tags(alloc: Global, text: &[u8]) -> Result<Vec<Bytes>, AllocError> {
    let mut tags = Vec::new(alloc);
    for line in text.split(|byte| *byte == b'\n') {
        if let Some(value) = after_keyword(line) {
            push_tags(&mut tags, value)?;
        }
    }
    Ok(tags)
}
