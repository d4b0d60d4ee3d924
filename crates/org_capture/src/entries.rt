//! Entries: texts of one heading with what lies below it.
//!
//! What a template gave is looked at line by line; nothing is changed but for the last newline.
ghost use Rattle.std.specs.Prelude.{◌≡◌, ◌↔◌, ◌<◌, ◌∷◌, [], true, nat_lt, is_some, length, IsTrue, IfOk, IfSome, MatchOption, OnOk};
ghost use Rattle.std.specs.Option.{option_map_or};
ghost use Rattle.org_splice.specs.Lines.{lines_of, terminated};
ghost use Rattle.org_headings.specs.Text.{level_of};
ghost use Rattle.org_outline.specs.Tree.{Empty, Node as NodeOf, others, tree};
ghost use Rattle.org_capture.specs.Entry.{IsEntry, entry_in, entry_text};
ghost use Rattle.org_capture.specs.Answers.{AnswersBytes};

use memchr::memchr;
use org_fault::{Fault, Refusal};
use org_headings::{heading_level, is_terminated};
use std::alloc::AllocError;

/// The first line of a terminated text, without its newline, and the text after it; none where the
/// text is empty.
fn first_line(text: &[u8]) -> Option<(&[u8], &[u8])>
    requires { terminated text.now ≡ text.now }
    ensures lines { MatchOption result (text.now ≡ [])
        (λ cut. lines_of text.now ≡ cut.0.now ∷ lines_of cut.1.now) }
    ensures terminated { IfSome result (λ cut. terminated cut.1.now ≡ cut.1.now) }
    ensures shorter { IfSome result (λ cut. length cut.1.now < length text.now) }
{
    let (line, rest) = text.split_at(memchr(b'\n', text)?);
    Some((line, rest.split_at(1).1))
}

/// Whether a line is no heading line, or one with more stars than this.
fn lies_deeper(line: &[u8], level: usize) -> bool
    ensures { result ≡ option_map_or (nat_lt level) (level_of line.now) true }
{
    match heading_level(line) {
        Some(stars) => stars > level,
        None => true,
    }
}

/// Whether each heading line of a terminated text has more stars than this, so that no tree is left
/// after the deeper ones.
fn are_deeper(text: &[u8], level: usize) -> bool
    requires { terminated text.now ≡ text.now }
    ensures { IsTrue result ↔ (others level (tree text.now).forest ≡ Empty) }
{
    let mut rest = text;
    while let Some((line, behind)) = first_line(rest) {
        if !lies_deeper(line, level) {
            return false;
        }
        rest = behind;
    }
    true
}

/// Whether a terminated text is one heading with what lies below it, and nothing stands before it,
/// by all of its lines.
fn has_one_root(text: &[u8]) -> bool
    requires { terminated text.now ≡ text.now }
    ensures { result ≡ is_some (entry_in text.now) }
{
    let Some((line, behind)) = first_line(text) else {
        return false;
    };
    match heading_level(line) {
        Some(level) => are_deeper(behind, level),
        None => false,
    }
}

/// Whether a terminated text is one heading with what lies below it, and nothing stands before it.
fn is_one_heading(text: &[u8]) -> bool
    requires { terminated text.now ≡ text.now }
    ensures { result ≡ is_some (entry_in text.now) }
{
    // Most entries are one line.
    match text {
        [line @ .., b'\n'] if !line.contains(&b'\n') => heading_level(line).is_some(),
        _ => has_one_root(text),
    }
}

/// Puts a newline after the text where it ends without one.
fn terminate(text: &mut Vec<u8>) -> Result<(), AllocError>
    ensures { OnOk result (text.new.items ≡ terminated text.old.items) }
{
    if !is_terminated(text.as_slice()) {
        text.push(b'\n')?;
    }
    Ok(())
}

/// The terminated text of an entry: one heading, of any level, with what lies below it (Org manual,
/// "Template elements": type `entry`). The text is terminated in place.
///
/// # Errors
///
/// - `BadEntry`: the text has something before its first heading, or not exactly one root.
/// - `OutOfMemory`.
pub fn entry(mut text: Vec<u8>) -> Result<Vec<u8>, Fault<Refusal>>
    ensures value { AnswersBytes (entry_text text.items) result }
    ensures one { IfOk result (λ entry. (node : NodeOf) × IsEntry entry.items node) }
{
    terminate(&mut text)?;
    if !is_one_heading(text.as_slice()) {
        return Err(Fault::Refused(Refusal::BadEntry));
    }
    Ok(text)
}
