//! Paths of headings as lists print them and as command lines take them: titles with slashes
//! between, each with its number where another heading below the same parent has it too.
ghost use Rattle.std.specs.Prelude.{◌<◌, IfOk};
ghost use Rattle.std.specs.List.{All};
ghost use Rattle.org_outline.specs.Tree.{node_count, tree};

use orgs_entries::Entries;
use std::alloc::{AllocError, Global};

// How a byte of a title is written in a path, where it isn't written as it is.
fn escape(byte: u8) -> Option<&'static [u8]> {
    match byte {
        b'\\' => Some(b"\\\\"),
        b'\t' => Some(b"\\t"),
        b'\n' => Some(b"\\n"),
        b'/' => Some(b"\\s"),
        _ => None,
    }
}

// Puts a title as a path has it after other bytes.
fn push_escaped(out: &mut Vec<u8>, title: &[u8]) -> Result<(), AllocError> {
    for byte in title {
        match escape(*byte) {
            Some(escaped) => out.extend_from_slice(escaped)?,
            None => out.push(*byte)?,
        }
    }
    Ok(())
}

/// Puts a number in decimal digits after other bytes.
pub(crate) fn push_number(out: &mut Vec<u8>, number: usize) -> Result<(), AllocError> {
    match format!(in *out.allocator(); "{number}") {
        Ok(digits) => out.extend_from_slice(digits.as_bytes()),
        Err(_) => Err(AllocError),
    }
}

/// Puts a heading's number among its twins after other bytes, as `\#2`; nothing where it has none.
pub(crate) fn push_twin(
    out: &mut Vec<u8>,
    entries: &Entries<'_>,
    index: usize,
) -> Result<(), AllocError>
    requires { index < node_count (tree entries.now.text) }
{
    if entries.has_twins(index) {
        out.extend_from_slice(b"\\#")?;
        push_number(out, entries.number(index))?;
    }
    Ok(())
}

// The headings above a heading and itself, from itself upward.
fn chain(alloc: Global, entries: &Entries<'_>, index: usize) -> Result<Vec<usize>, AllocError>
    requires { index < node_count (tree entries.now.text) }
    ensures { IfOk result (λ chain.
        All (λ i. i < node_count (tree entries.now.text)) chain.items) }
{
    let mut chain = Vec::new(alloc);
    let mut next = Some(index);
    while let Some(at) = next {
        chain.push(at)?;
        next = entries.parent(at);
    }
    Ok(chain)
}

/// Puts the path of a heading after other bytes.
///
/// # Errors
///
/// `AllocError`.
pub fn push_path(out: &mut Vec<u8>, entries: &Entries<'_>, index: usize) -> Result<(), AllocError>
    requires { index < node_count (tree entries.now.text) }
{
    let chain = chain(*out.allocator(), entries, index)?;
    for depth in (0..chain.len()).rev() {
        push_escaped(out, entries.title(chain[depth]))?;
        push_twin(out, entries, chain[depth])?;
        if depth > 0 {
            out.push(b'/')?;
        }
    }
    Ok(())
}
