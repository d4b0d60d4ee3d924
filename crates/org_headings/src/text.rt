//! Lines and stars.
ghost use Rattle.std.specs.Prelude.{◌≡◌, ◌↔◌, ◌⊎◌, Bool, slice_range, ◌==◌, ℕ, ◌+◌, ◌≤◌, ◌++◌, ◌∷◌, List, IsTrue, true, length, drop, take, slice_index};
ghost use Rattle.org_splice.specs.Lines.{terminated, IsLine};
ghost use Rattle.org_headings.specs.Text.{stars, level_of as level_in};
ghost use Rattle.org_headings.specs.Headings.{ends_line};

use memchr::{memchr, memrchr};

/// Whether the text is empty or ends with a newline, so that each line has its own.
pub fn is_terminated(text: &[u8]) -> bool
    ensures { IsTrue result ↔ (terminated text.now ≡ text.now) }
{
    text.is_empty() || text[text.len() - 1] == b'\n'
}

/// How many stars the text begins with.
pub fn star_count(text: &[u8]) -> usize
    ensures { result ≡ stars text.now }
{
    for (count, byte) in text.iter().enumerate() {
        if *byte != b'*' {
            return count;
        }
    }
    text.len()
}

/// Whether a line begins at this position.
pub(crate) fn is_line_start(text: &[u8], at: usize) -> bool
    requires { at ≤ length text.now }
    ensures { result ≡ ends_line true (take at text.now) }
{
    at == 0 || text[at - 1] == b'\n'
}

/// Whether a space stands at this position.
pub(crate) fn has_space(text: &[u8], at: usize) -> bool
    ensures { result ≡ (slice_index text.now at == 32) }
{
    at < text.len() && text[at] == b' '
}

/// The level of the heading line that the text begins with: its stars, where a space follows them
/// directly.
pub fn heading_level(text: &[u8]) -> Option<usize>
    ensures { result ≡ level_in text.now }
{
    let stars = star_count(text);
    if stars > 0 && has_space(text, stars) {
        Some(stars)
    } else {
        None
    }
}

/// Where the line begins that holds the position, or that it ends.
pub(crate) fn line_start(text: &[u8], at: usize) -> usize
    requires { at ≤ length text.now }
    ensures within { result ≤ at }
    ensures begins { ends_line true (take result text.now) ≡ true }
    ensures line { IsLine (slice_range text.now result at) }
{
    match memrchr(b'\n', &text[..at]) {
        Some(newline) => newline + 1,
        None => 0,
    }
}

/// Where the line that begins at `start` ends, its newline included.
pub fn line_end(text: &[u8], start: usize) -> usize
    requires { start ≤ length text.now }
    ensures line { (line more : List ℕ) → IsLine line → drop start text.now ≡ line ++ 10 ∷ more
        → result ≡ start + length line + 1 }
    ensures within { (start ≤ result) × (result ≤ length text.now) }
    ensures ends { (result ≡ length text.now)
        ⊎ ((before : Bool) → ends_line before (slice_range text.now start result) ≡ true) }
{
    match memchr(b'\n', &text[start..]) {
        Some(length) => start + length + 1,
        None => text.len(),
    }
}
