//! Text without the difference of capital and small letters (The Unicode Standard, "Default
//! Caseless Matching"), and texts that stand in others.
//!
//! A title that isn't UTF-8 can still be looked for: of its letters only the ASCII ones are folded.
ghost use Rattle.std.specs.Prelude.{◌≡◌, true, false, map, IfOk, MatchOption};
ghost use Rattle.std.specs.Char.{to_ascii_lowercase};
ghost use Rattle.std.specs.Str.{is_utf8};
ghost use Rattle.orgs_folding.specs.Folding.{contains, folded};

use caseless::default_case_fold_str;
use memchr::memmem;
use std::alloc::{AllocError, Global};

/// The text that these bytes are, if they are UTF-8.
#[tactic(auto, using(crate::proofs::Utf8::is_no_utf8, crate::proofs::Utf8::is_some_utf8))]
fn utf8(bytes: &[u8]) -> Option<&str>
    ensures { MatchOption result (is_utf8 bytes.now ≡ false)
        (λ text. (is_utf8 bytes.now ≡ true) × (text.now ≡ bytes.now)) }
{
    match str::from_utf8(bytes) {
        Ok(text) => Some(text),
        Err(_) => None,
    }
}

/// Bytes with small letters for the capital ones of ASCII.
fn lowered(alloc: Global, bytes: &[u8]) -> Result<Vec<u8>, AllocError>
    ensures { IfOk result (λ lowered. lowered.items ≡ map to_ascii_lowercase bytes.now) }
{
    let mut lowered = Vec::from_slice(alloc, bytes)?;
    lowered.as_mut_slice().make_ascii_lowercase();
    Ok(lowered)
}

/// The text with its case folded: two texts that differ in case alone are folded to one. Bytes that
/// aren't UTF-8 have the letters of ASCII folded.
///
/// # Errors
///
/// `AllocError`.
#[tactic(auto, unfolding(crate::specs::Folding::folded))]
pub fn folded(alloc: Global, text: &[u8]) -> Result<Vec<u8>, AllocError>
    ensures { IfOk result (λ made. made.items ≡ folded text.now) }
{
    match utf8(text) {
        Some(text) => Ok(default_case_fold_str(alloc, text)?.into_bytes()),
        None => lowered(alloc, text),
    }
}

/// Whether a text has another one in it, byte for byte; the empty one is in each.
pub fn contains(text: &[u8], part: &[u8]) -> bool
    ensures { result ≡ contains text.now part.now }
{
    memmem::find(text, part).is_some()
}
