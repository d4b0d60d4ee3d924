//! Bytes put in the place of others, in one move of what stands after them.
//!
//! It is a splice of a vector, without an iterator; nothing is noted of what changed. The tail is
//! turned by the difference of the lengths, which moves it at once where that is small.
ghost use Rattle.std.specs.Prelude.{◌≡◌, ◌+◌, ◌-◌, ◌≤◌, ◌++◌, length, take, drop, vec_len, vec_capacity, IsOk, OnOk, OnErr};

use std::alloc::AllocError;

/// Puts bytes in the place of `removed` bytes from `at` on. Where the text has room for them it
/// takes no memory.
pub(crate) fn replace(
    text: &mut Vec<u8>,
    at: usize,
    removed: usize,
    bytes: &[u8],
) -> Result<(), AllocError>
    requires { at + removed ≤ vec_len text.old }
    ensures ok { OnOk result (text.new.items
        ≡ take at text.old.items ++ bytes.now ++ drop (at + removed) text.old.items) }
    ensures err { OnErr result (text.new.items ≡ text.old.items) }
    ensures capacity { vec_capacity text.old ≤ vec_capacity text.new }
    ensures room { vec_len text.old - removed + length bytes.now ≤ vec_capacity text.old
        → IsOk result }
{
    if bytes.len() < removed {
        let size = text.len() - (removed - bytes.len());
        let end = at + bytes.len();
        text[at..end].copy_from_slice(bytes);
        text[end..].rotate_left(removed - bytes.len());
        text.truncate(size);
        return Ok(());
    }
    let (over, more) = bytes.split_at(removed);
    insert(text, at + removed, more)?;
    text[at..at + removed].copy_from_slice(over);
    Ok(())
}

// Bytes come to the end, and are turned to their place: one move of the tail, without memory.
fn insert(text: &mut Vec<u8>, at: usize, bytes: &[u8]) -> Result<(), AllocError>
    requires { at ≤ vec_len text.old }
    ensures ok { OnOk result (text.new.items
        ≡ take at text.old.items ++ bytes.now ++ drop at text.old.items) }
    ensures err { OnErr result (text.new.items ≡ text.old.items) }
    ensures capacity { vec_capacity text.old ≤ vec_capacity text.new }
    ensures room { vec_len text.old + length bytes.now ≤ vec_capacity text.old → IsOk result }
{
    text.extend_from_slice(bytes)?;
    text[at..].rotate_right(bytes.len());
    Ok(())
}
