//! Looks that are made again if a signal interrupts them.
//!
//! std repeats opens, reads, writes and syncs by itself, but not looks at a file or at the entries
//! of a folder.
use std::io;
use std::io::ErrorKind;

// A bound, so that a system that interrupts each look doesn't keep the program for ever.
const MOST_REPEATS: u32 = 1_000_000;

/// The first answer of the call other than that a signal interrupted it, or the last such one.
pub(super) fn again<T: Drop, F: Fn() -> io::Result<T>>(call: F) -> io::Result<T>
    requires { F.IsAlwaysCallable call }
{
    for _ in 0..MOST_REPEATS {
        match call() {
            Err(error) if error.kind() == ErrorKind::Interrupted => {}
            answer => return answer,
        }
    }
    call()
}
