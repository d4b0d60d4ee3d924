//! The record of the calls, which stands in proofs alone and takes no memory.
//!
//! `new` and `note` are proved by hand, since no code can set it: it is to be read, and no other
//! proof by hand may set a record.
ghost use Rattle.std.specs.Prelude.{◌≡◌, List, [], ◌∷◌};
ghost use Rattle.std.specs.Borrow.{ftrue};
ghost use Rattle.org_folder.specs.Calls.{Event};
ghost use Rattle.org_folder.specs.Note.{event_of};

use org_disk::FileName;
use std::marker::{Model, PhantomData};

/// A call with its answer, but for the file's name and the bytes. A write, a cut and a sync say
/// whether they succeeded.
#[derive(Clone, Copy)]
pub enum Call {
    Filled,
    Locked,
    Entry,
    Listed(bool),
    Folder(bool),
    Above,
    Alone,
    There(u64, u64, bool, bool),
    // its bytes are the path at which it ends
    Led,
    Unseen,
    Absent,
    Length(u64),
    Read(u64),
    Write(u64, bool),
    Again(u64, bool),
    Cut(u64, bool),
    Sync(bool),
    Made(bool),
    MadeFolder(bool),
    // its bytes are the path of the folder that was to be synced
    Entered(bool),
    Failed,
}

/// The calls so far, the newest first. It has no bytes; the marker makes it a type that a proof can
/// own.
#[derive(Drop)]
pub struct Record {
    marker: PhantomData<u8>,
    pub ghost events: { List Event },
}

impl Model for Record {
    ghost also_owns = { λ _. ftrue };
}

impl Record {
    pub(crate) fn new() -> Record
        ensures { result.events ≡ [] }
    {
        Record {
            marker: PhantomData,
        }
    }

    // Notes a call on this name or path, which read or wrote these bytes.
    pub(crate) fn note(&mut self, _call: Call, _name: &[u8], _bytes: &[u8])
        ensures { self.new.events ≡ event_of _call _name.now _bytes.now ∷ self.old.events }
    {}

    // Notes a call on the file of this name, which read or wrote these bytes.
    pub(crate) fn note_file(&mut self, call: Call, name: &FileName, bytes: &[u8])
        ensures { self.new.events ≡ event_of call name.now bytes.now ∷ self.old.events }
    {
        self.note(call, name.as_str().as_bytes(), bytes);
    }
}
