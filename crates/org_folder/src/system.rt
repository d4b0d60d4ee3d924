//! The calls of a system on the folder of a store, on those below and on their files: all that the
//! program makes, and their record.
//!
//! Code that is generic over `System` has no other way to the folder. The record stands in proofs
//! alone. Whether its answers were right is the premise under which a folder is an honest disk.
ghost use Rattle.std.specs.Prelude.{◌≡◌, List, ◌∷◌, true, false, is_ok, map, string_bytes, IsTrue, IsFalse, IfOk, IfSome, IfNone, OnOk, OnErr};
ghost use Rattle.org_folder.specs.Calls.{Enters, Event, HasAbsent, HasEntered, IsWithin, Makes, World, has_failed, is_filled, is_held, with_entries, StandIn};
ghost use Rattle.org_folder.specs.Calls.Event.{Above, Absent, Again, Alone, Cut, Failed, Filled, Folder, Length, Listed, Locked, Read, Sync, There, Unseen, Write};

use crate::aliases::Node;
use crate::calls::Handle;
use crate::list::ListFault;
use crate::lock;
use org_disk::{DiskFault, FileName, Standing};
use org_fault::Fault;
use seen::{Change, Seen};
use std::alloc::AllocError;
use std::cell::Cell;

mod access;
mod calls_system;
mod looks;
mod reach;
mod seen;
mod standing;
mod way;

pub use calls_system::CallsSystem;

// A file of the system, as it was found or made.
#[derive(Drop)]
struct Reached<F> {
    handle: Handle<F>,
    is_writable: bool,
    // no link led to it, and it wasn't made
    is_own: bool,
    seen: Seen,
}

/// A file that was opened under a name. Its parts are seen by the calls of the system alone, so
/// that no other code can take the file's entry in the folder for synced.
#[derive(Drop)]
pub struct Opened<F> {
    name: FileName,
    handle: Handle<F>,
    // it was opened for writing too
    is_writable: bool,
    // its entry stands in the folder that its name leads through: no link led to it, and it wasn't
    // made
    is_own: bool,
    // its entry and those of the folders that lead to it are known to be on the device
    is_entered: bool,
    // what the system last said of it
    seen: Cell<Seen>,
    // the folder's last change when this was found in it, where any later one shows
    found: Cell<Option<Change>>,
    // the system opened it under this name
    ghost reached: { string_bytes handle.path ≡ name },
}

impl<F: Drop> Opened<F> {
    fn new(name: &FileName, file: Reached<F>) -> Result<Opened<F>, DiskFault>
        requires { string_bytes file.handle.path ≡ name.now }
        ensures name { IfOk result (λ opened. opened.name ≡ name.now) }
        ensures entry { IfOk result (λ opened. IsFalse opened.is_entered) }
    {
        match name.clone() {
            Ok(name) => Ok(Opened {
                name,
                handle: file.handle,
                is_writable: file.is_writable,
                is_own: file.is_own,
                is_entered: false,
                seen: Cell::new(file.seen),
                found: Cell::new(None),
            }),
            Err(_) => Err(DiskFault),
        }
    }

    /// The name under which it was opened.
    pub fn name(&self) -> &FileName
        ensures { result.now ≡ self.now.name }
    {
        &self.name
    }

    // Whether its name still leads to it, as far as the last change of the store's folder shows.
    fn is_found(&self, folder: &Change) -> bool {
        match self.found.get() {
            Some(before) => before.is_still(folder),
            None => false,
        }
    }

    /// Whether its entry is known to be on the device, and those of the folders that lead to it.
    pub fn is_entered(&self) -> bool
        ensures { result ≡ self.now.is_entered }
    {
        self.is_entered
    }
}

/// What a name leads to: a file, which is a plain one, or a folder, a pipe, a socket or a device,
/// and whether a link stands there. In the journal's place a link is no plain one.
#[derive(Clone, Copy)]
pub struct Found {
    pub node: Node,
    pub is_plain: bool,
    pub is_link: bool,
}

/// The calls of a system on one folder and on its files: code that is generic over it has no other
/// way to the folder. A call that fails may have gone any part of its way.
///
/// A record that stands in proofs alone has, each with its answer: the folder's lock and its list,
/// each look at a name, a name without a file, each length and read that succeeded, each write, cut
/// and sync, each file that was made and each entry that was synced, and each other call on a file
/// that failed. To open a file that is there leaves it as it is. Whether the answers were right
/// (`AreRight`) is no clause: that a length and a read gave what the calls before made of the file,
/// that a name without a file stands for the empty file, after a crash too, and that a call that
/// failed left what a crash within it may leave. It is the premise under which a `CallsDisk` is an
/// honest disk. That the list is right is a premise of its own (`IsRightList`).
pub trait System {
    /// A file of the system, open for reading and, where that is permitted, for writing.
    type File;

    /// What no call shows of the files: each as it was at first, and what calls that failed left.
    ghost world: { World };

    /// The calls so far, the newest first.
    ghost history: { Self → List Event };

    /// Opens the folder at a path so often that where standard streams are closed their numbers are
    /// the folder's, as long as this is kept. What can't be opened isn't held.
    fn fill_streams(&mut self, path: &str) -> Result<(), AllocError>
        requires { IsFalse (is_filled (history self.old)) }
        ensures ok { OnOk result (history self.new ≡ Filled path.now ∷ history self.old) }
        ensures err { OnErr result (history self.new ≡ history self.old) };

    /// Locks the folder at a path, as far as the system locks it, until this is dropped or its
    /// process ends. It is the folder of all calls that follow: no other one is locked after it.
    fn lock(&mut self, path: &str) -> Result<(), Fault<lock::Locked>>
        requires { IsFalse (is_held (history self.old)) }
        ensures ok { OnOk result (history self.new ≡ Locked path.now ∷ history self.old) }
        ensures err { OnErr result (history self.new ≡ history self.old) };

    /// The path of the store's folder that is the nearest above the folder that was locked, if that
    /// store would list a file in it. There is none where the folder is a store itself.
    fn store_above(&mut self) -> Result<Option<String>, ListFault>
        ensures above { IfOk result (λ found. IfSome found (λ store.
            history self.new ≡ Above (string_bytes store) ∷ history self.old)) }
        ensures alone { IfOk result (λ found. IfNone found
            (history self.new ≡ Alone ∷ history self.old)) }
        ensures err { OnErr result (history self.new ≡ history self.old) };

    /// The names of the entries of a folder: the one that was locked, or one below it, by its path
    /// with a slash at its end. None where it may not be read, or isn't there.
    fn list(&mut self, folder: &str) -> Result<Option<Vec<String>>, ListFault>
        ensures listed { IfOk result (λ found. IfSome found (λ names. history self.new
            ≡ Listed folder.now true
            ∷ with_entries (map string_bytes names.items) (history self.old))) }
        ensures closed { IfOk result (λ found. IfNone found
            (history self.new ≡ Listed folder.now false ∷ history self.old)) }
        ensures err { OnErr result (history self.new ≡ history self.old) };

    /// Whether the folder at a path belongs to the store: it is a folder itself, on the file system
    /// of the one that was locked, of the same owner, and has no entry `orgstore.journal`.
    fn is_own_folder(&mut self, folder: &str) -> Result<bool, ListFault>
        ensures ok { IfOk result (λ own.
            history self.new ≡ Folder folder.now own ∷ history self.old) }
        ensures err { OnErr result (history self.new ≡ history self.old) };

    /// Looks where a name leads. Links are followed, but for the journal's: a link is no plain file.
    fn look(&mut self, name: &FileName) -> Result<Option<Found>, ListFault>
        ensures there { IfOk result (λ found. IfSome found (λ found. history self.new
            ≡ There name.now found.node.device found.node.number found.is_plain found.is_link
            ∷ history self.old)) }
        ensures absent { IfOk result (λ found. IfNone found
            (history self.new ≡ Absent name.now ∷ history self.old)) }
        ensures err { OnErr result (history self.new ≡ Unseen name.now ∷ history self.old) };

    /// Opens the file of a name, where there is one.
    fn open(&mut self, name: &FileName) -> Result<Option<Opened<Self::File>>, DiskFault>
        ensures name { IfOk result (λ found. IfSome found (λ opened. opened.name ≡ name.now)) }
        ensures entry { IfOk result (λ found. IfSome found (λ opened.
            IsFalse opened.is_entered)) }
        ensures found { IfOk result (λ found. IfSome found (λ _.
            history self.new ≡ history self.old)) }
        ensures absent { IfOk result (λ found. IfNone found
            (history self.new ≡ Absent name.now ∷ history self.old)) }
        ensures err { OnErr result (history self.new ≡ Failed name.now ∷ history self.old) };

    /// Gives up a file that was opened: there is no memory to keep it.
    fn give_up(&mut self, opened: Opened<Self::File>) -> DiskFault
        ensures { history self.new ≡ Failed opened.name ∷ history self.old };

    /// Notes that a file that was found absent was to hold bytes.
    fn miss(&mut self, name: &FileName) -> DiskFault
        requires { HasAbsent name.now (history self.old) }
        ensures { history self.new ≡ Failed name.now ∷ history self.old };

    /// Opens the file of a name, which is made where there is none. Its content stays as it is. It
    /// was found absent before. The folders that lead to it are made first, where they aren't there,
    /// and the entry of each is put on the device before anything is made in it.
    fn make(&mut self, name: &FileName) -> Result<Opened<Self::File>, DiskFault>
        requires { HasAbsent name.now (history self.old) }
        ensures name { IfOk result (λ opened. opened.name ≡ name.now) }
        ensures entry { IfOk result (λ opened. IsFalse opened.is_entered) }
        ensures made { Makes name.now (is_ok result) (history self.old) (history self.new) };

    /// The length of a file in bytes. While the files of a record are being written, it fails where
    /// another program is seen to have written this one since these calls looked at it.
    fn length(&mut self, opened: &Opened<Self::File>) -> Result<u64, DiskFault>
        ensures ok { IfOk result (λ n.
            history self.new ≡ Length opened.now.name n ∷ history self.old) }
        ensures err { OnErr result (history self.new ≡ Failed opened.now.name
            ∷ history self.old) };

    /// Fills the buffer with the bytes of a file from `from` on.
    fn read_at(
        &mut self,
        opened: &Opened<Self::File>,
        from: u64,
        into: &mut [u8],
    ) -> Result<(), DiskFault>
        ensures ok { OnOk result
            (history self.new ≡ Read opened.now.name from into.new ∷ history self.old) }
        ensures err { OnErr result (history self.new ≡ Failed opened.now.name
            ∷ history self.old) };

    /// Writes bytes over a file from `from` on, which is at most its length. A write of no bytes
    /// changes nothing: it tries the file. It fails where the file can't be written, or where
    /// another program is seen to have changed or replaced it since these calls looked at it.
    fn write_at(
        &mut self,
        opened: &Opened<Self::File>,
        from: u64,
        bytes: &[u8],
    ) -> Result<(), DiskFault>
        requires { IsWithin world (history self.old) opened.now.name from }
        ensures { history self.new
            ≡ Write opened.now.name from bytes.now (is_ok result) ∷ history self.old };

    /// Writes bytes over a file where they stand already, if it may be written. So they are put on
    /// the device by the next sync, also where an earlier one failed to, and the system forgot them.
    fn write_again(
        &mut self,
        opened: &Opened<Self::File>,
        from: u64,
        bytes: &[u8],
    ) -> Result<(), DiskFault>
        requires { StandIn world (history self.old) opened.now.name from bytes.now }
        ensures { history self.new
            ≡ Again opened.now.name from bytes.now (is_ok result) ∷ history self.old };

    /// Takes away the bytes of a file from `to` on, which is at most its length.
    fn cut(&mut self, opened: &Opened<Self::File>, to: u64) -> Result<(), DiskFault>
        requires { IsWithin world (history self.old) opened.now.name to }
        ensures { history self.new ≡ Cut opened.now.name to (is_ok result) ∷ history self.old };

    /// Puts a file on the device. Its entry in its folder was put there before, and so were the
    /// entries of the folders that lead to it. Once a sync has failed, of whichever file or entry,
    /// none succeeds: systems forget what they failed to put there.
    fn sync(&mut self, opened: &Opened<Self::File>) -> Result<(), DiskFault>
        requires this { IsTrue opened.now.is_entered }
        requires named { HasEntered opened.now.name (history self.old) }
        ensures once { OnOk result (IsFalse (has_failed (history self.old))) }
        ensures synced { history self.new
            ≡ Sync opened.now.name (is_ok result) ∷ history self.old };

    /// Puts the entry of a file in its folder on the device, and before that the entries of the
    /// folders that lead to it. A call that fails leaves it as little known as before; and once a
    /// sync has failed, none succeeds.
    fn sync_entry(&mut self, opened: &mut Opened<Self::File>) -> Result<(), DiskFault>
        ensures name { opened.new.name ≡ opened.old.name }
        ensures ok { OnOk result (IsTrue opened.new.is_entered) }
        ensures once { OnOk result (IsFalse (has_failed (history self.old))) }
        ensures err { OnErr result (opened.new ≡ opened.old) }
        ensures failed { OnErr result (IsTrue (has_failed (history self.new))) }
        ensures entered { Enters opened.old.name (is_ok result)
            (history self.old) (history self.new) };

    /// Reads a file back. It fails where that doesn't hold these bytes, or where another program is
    /// seen to have changed or replaced it since these calls looked at it. Only a failure is noted:
    /// nothing that is said of the files depends on an answer.
    fn confirm(&mut self, opened: &Opened<Self::File>, bytes: &[u8]) -> Result<(), DiskFault>
        ensures ok { OnOk result (history self.new ≡ history self.old) }
        ensures err { OnErr result (history self.new ≡ Failed opened.now.name
            ∷ history self.old) };

    /// How the file of a name stands beside the journal, by what the system says of both. Only a
    /// failure is noted: nothing that is said of the files depends on an answer.
    fn standing(&mut self, name: &FileName) -> Result<Standing, DiskFault>
        ensures ok { OnOk result (history self.new ≡ history self.old) }
        ensures err { OnErr result (history self.new ≡ Failed name.now ∷ history self.old) };
}
