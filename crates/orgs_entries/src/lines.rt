//! The lines of headings, counted from 1 as editors count them.
ghost use Rattle.std.specs.Prelude.{◌≡◌, ◌+◌, ◌≤◌, IfOk, length, count_by, slice_range};
ghost use Rattle.orgs_entries.specs.Lines.{is_newline, lines_of_headings};

use org_outline::Outline;
use std::alloc::{AllocError, Global};

/// How many newlines stand between two places of a text.
fn newlines(text: &[u8], from: usize, to: usize) -> usize
    requires ordered { from ≤ to }
    requires within { to ≤ length text.now }
    ensures count { result ≡ count_by is_newline (slice_range text.now from to) }
    ensures within { result + from ≤ to }
{
    text[from..to].iter().filter(|byte| **byte == b'\n').count()
}

/// The line of each heading, in document order. The text is walked over once.
///
/// # Errors
///
/// `AllocError`.
pub(crate) fn read_lines(alloc: Global, outline: &Outline<'_>) -> Result<Vec<usize>, AllocError>
    ensures { IfOk result (λ lines. lines.items ≡ lines_of_headings outline.now.text) }
{
    let text = outline.text();
    let mut lines = Vec::new(alloc);
    let (mut line, mut counted) = (1, 0);
    for index in 0..outline.count() {
        let start = outline.start(outline.node(index));
        line += newlines(text, counted, start);
        counted = start;
        lines.push(line)?;
    }
    Ok(lines)
}
