//! Templates filled in (Org manual, "Template expansion").
//!
//! What was put in isn't read for escapes again.
ghost use Rattle.std.specs.Prelude.{◌≡◌, ℕ, List, ◌++◌, ◌+◌, ◌<◌, ◌≤◌, ◌^◌, count_by, length, not, ◌==◌, MatchResult, OnOk};
ghost use Rattle.std.specs.List.{suffix_len};
ghost use Rattle.org_stamp.specs.Calendar.{Moment};
ghost use Rattle.org_capture.specs.Template.{expanded, filled, last_line, pieces_of, text_of, with_prefix};
ghost use Rattle.org_capture.specs.Answers.{Adds, AnswersBytes};

use crate::piece::{Piece, first_piece};
use memchr::{memchr, memchr_iter, memrchr};
use org_fault::{Fault, Refusal};
use org_stamp::{Moment, Stamp};
use std::alloc::{AllocError, Global};

/// How many bytes stand after the last newline.
fn last_line_len(text: &[u8]) -> usize
    ensures count { result ≡ suffix_len (λ b. not (b == 10)) text.now }
    ensures within { result ≤ length text.now }
{
    match memrchr(b'\n', text) {
        Some(last) => text.len() - last - 1,
        None => text.len(),
    }
}

/// What stands after the last newline.
fn last_line(text: &[u8]) -> &[u8]
    ensures { result.now ≡ last_line text.now }
{
    text.split_at(text.len() - last_line_len(text)).1
}

/// What stands before the first percent sign, and what begins with it: the first stays as it is.
fn split_plain(template: &[u8]) -> (&[u8], &[u8])
    ensures plain { (moment : Moment) (initial text : List ℕ)
        → filled moment initial text (pieces_of template.now)
        ≡ filled moment initial (text ++ result.0.now) (pieces_of result.1.now) }
    ensures within { length result.1.now ≤ length template.now }
{
    let end = memchr(b'%', template).unwrap_or(template.len());
    template.split_at(end)
}

/// Puts bytes after a text, with a prefix repeated after each newline of theirs.
fn push_with_prefix(text: &mut Vec<u8>, prefix: &[u8], bytes: &[u8]) -> Result<(), AllocError>
    ensures { OnOk result (text.new.items ≡ text.old.items ++ with_prefix prefix.now bytes.now) }
{
    for byte in bytes {
        text.push(*byte)?;
        if *byte == b'\n' {
            text.extend_from_slice(prefix)?;
        }
    }
    Ok(())
}

/// The most bytes that a filled template has, twice those of the largest file. A line with many
/// initial texts, of which each repeats those before it, would make some hundred thousand times as
/// many as it has.
const MOST: usize = 1 << 27;

/// Whether so many bytes more are too many for a filled template: then there is no memory for them.
fn check_room(text: &[u8], more: usize) -> Result<(), AllocError>
    ensures { MatchResult result (λ _. length text.now + more ≤ 2 ^ 27)
        (λ _. 2 ^ 27 < length text.now + more) }
{
    if text.len().saturating_add(more) > MOST {
        return Err(AllocError);
    }
    Ok(())
}

/// How many newlines the text has.
fn newlines(text: &[u8]) -> usize
    ensures { result ≡ count_by (λ b. b == 10) text.now }
{
    memchr_iter(b'\n', text).count()
}

/// Puts the initial text after a text, each line of it but the first after what stands on the
/// text's last one.
fn push_initial(alloc: Global, text: &mut Vec<u8>, initial_text: &[u8]) -> Result<(), AllocError>
    ensures { OnOk result (text.new.items
        ≡ text.old.items ++ with_prefix (last_line text.old.items) initial_text.now) }
{
    let line = last_line(text.as_slice());
    let prefixes = newlines(initial_text).saturating_mul(line.len());
    check_room(text.as_slice(), prefixes.saturating_add(initial_text.len()))?;
    let prefix = line.to_vec(alloc)?;
    push_with_prefix(text, prefix.as_slice(), initial_text)
}

/// Puts what a piece stands for after the text.
fn push_piece(
    alloc: Global,
    text: &mut Vec<u8>,
    piece: Piece,
    moment: Moment,
    initial_text: &[u8],
) -> Result<(), Fault<Refusal>>
    ensures { Adds (text_of moment initial_text.now (last_line text.old.items) piece)
        text.old.items text.new.items result }
{
    match piece {
        Piece::Byte(byte) => text.extend_from_slice(&[byte])?,
        Piece::Stamp { active, timed } => {
            let stamp = Stamp::at(moment, active, timed).print(alloc)?;
            text.extend_from_slice(stamp.as_slice())?;
        }
        // Without a newline no prefix is looked for, so that many of them on one line are put in at
        // once.
        Piece::Initial if !initial_text.contains(&b'\n') => {
            check_room(text.as_slice(), initial_text.len())?;
            text.extend_from_slice(initial_text)?;
        }
        Piece::Initial => push_initial(alloc, text, initial_text)?,
        Piece::Cursor => {}
        Piece::Unknown => return Err(Fault::Refused(Refusal::BadTemplate)),
    }
    Ok(())
}

/// What a template stands for at a moment (Org manual, "Template expansion"): `%t` and `%T` are the
/// moment's active timestamp without and with the time, `%u` and `%U` the inactive one, `%i` is the
/// initial text, with what stands before it on its line repeated before each further line, and
/// `%?`, the place of the cursor, is left out. A percent sign before another byte stays, but for
/// those below. What was put in isn't read for escapes.
///
/// # Errors
///
/// - `BadTemplate`: a percent sign before another letter, or before one of `( [ < ^ : * \`.
/// - `OutOfMemory`, also where it stands for more than 2^27 bytes.
pub fn expand(
    alloc: Global,
    template: &[u8],
    moment: Moment,
    initial_text: &[u8],
) -> Result<Vec<u8>, Fault<Refusal>>
    ensures { AnswersBytes (expanded template.now moment initial_text.now) result }
{
    // The newline that a last line may lack finds room too.
    let mut text = Vec::with_capacity(alloc, template.len().saturating_add(1))?;
    // Most templates have no escape, and stand for themselves.
    if !template.contains(&b'%') {
        text.extend_from_slice(template)?;
        return Ok(text);
    }
    let mut rest = template;
    loop {
        let (plain, behind) = split_plain(rest);
        text.extend_from_slice(plain)?;
        let Some((piece, behind)) = first_piece(behind) else {
            return Ok(text);
        };
        push_piece(alloc, &mut text, piece, moment, initial_text)?;
        rest = behind;
    }
}
