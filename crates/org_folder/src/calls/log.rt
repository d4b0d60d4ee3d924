//! The record of the calls of the operating system, which stands in proofs alone and takes no
//! memory.
//!
//! `new` and `note` are proved by hand, since no code can set it: it is to be read, and no other
//! proof by hand may set a record. A program that prints its calls prints what `note` is handed.
ghost use Rattle.std.specs.Prelude.{◌≡◌, List, [], ◌∷◌};
ghost use Rattle.std.specs.Borrow.{ftrue};
ghost use Rattle.org_folder.specs.Raw.{Raw};
ghost use Rattle.org_folder.specs.Raw.Raw.{Call};

use super::{HostCalls, SystemCall};
use std::fs::Files;
use std::marker::{Model, PhantomData};

/// The calls so far, the newest first. It has no bytes; the marker makes it a type that a proof can
/// own.
#[derive(Drop)]
pub struct Log {
    marker: PhantomData<u8>,
    pub ghost calls: { List Raw },
}

impl Model for Log {
    ghost also_owns = { λ _. ftrue };
}

impl Log {
    pub(super) fn new() -> Log
        ensures { result.calls ≡ [] }
    {
        Log {
            marker: PhantomData,
        }
    }

    // Notes a call with this path, or on the file that was opened under it, which read or wrote
    // these bytes.
    pub(super) fn note(&mut self, _call: SystemCall, _path: &[u8], _bytes: &[u8])
        ensures { self.new.calls ≡ Call _call _path.now _bytes.now ∷ self.old.calls }
    {}
}

impl<R: Files> HostCalls<R> {
    // Notes a call which read or wrote no bytes.
    pub(super) fn note(&mut self, call: SystemCall, path: &str)
        ensures { self.new.log.calls ≡ Call call path.now [] ∷ self.old.log.calls }
    {
        self.note_bytes(call, path, &[]);
    }

    // Notes a call which read, wrote or answered these bytes.
    pub(super) fn note_bytes(&mut self, call: SystemCall, path: &str, bytes: &[u8])
        ensures { self.new.log.calls ≡ Call call path.now bytes.now ∷ self.old.log.calls }
    {
        self.log.note(call, path.as_bytes(), bytes);
    }
}
