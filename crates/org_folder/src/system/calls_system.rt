//! The trait `System` over the calls of the operating system.
//!
//! It decides which calls a step takes: how a file is reached, who may use it, what is tried, which
//! folder is synced. Its invariant says that the record of steps goes with the record of calls: each
//! write, cut, sync, file made and entry synced is noted exactly where it was called for, and no
//! other call of such a kind was made (`GoesWith`, `AreOwnModes`). All names lead from the folder
//! that was locked, since no other one was entered.
ghost use Rattle.std.specs.Prelude.{◌≡◌, ℕ, List, [], ◌∷◌, map, is_ok, string_bytes, IfOk, IfSome, OnErr, OnOk, Some, IsFalse, IsTrue, false, true};
ghost use Rattle.std.specs.Path.{path_buf_bytes, path_parent};
ghost use Rattle.org_disk.specs.Names.{folder_of, folders_on};
ghost use Rattle.org_folder.specs.Calls.{AreOwnFolders, EntersFile, EntersWay, MakesFolders, OnlyEntries, StandsIn, with_entries, has_failed as has_failed_in};
ghost use Rattle.org_folder.specs.Calls.Event.{Entered, Failed, Listed, Made, MadeFolder};
ghost use Rattle.org_folder.specs.Raw.{AreFoldersSynced, AreOwnModes, CutsOff, GoesWith, IsFolderSynced, IsMadeAt, IsPathOf, OnlyAsks, PutsEntry, Raw, SyncsContent, SyncsFolder, acts, effects};

use super::access::is_shared;
use super::looks::{Base, last_change, length_of, look_again, read_back, same_in};
use super::reach::{find, find_or_make, found, is_journal, narrow};
use super::standing::{Times, stands};
use super::way::{Ways, is_foreign, store_above, store_over};
use super::{Found, Opened, System};
use crate::calls::{Calls, Handle, HostCalls, How, Locks, Status};
use crate::list::ListFault;
use crate::lock::{Locked, held};
use crate::record::{Call, Record};
use crate::start::Start;
use indexmap::IndexSet;
use org_disk::{DiskFault, FileName, Standing, folder_of};
use org_fault::Fault;
use std::alloc::{AllocError, Global};
use std::fs::Files;
use std::io;
use std::io::{Error, ErrorKind};
use std::marker::PhantomData;
use std::os::fd::AsRawFd;
use std::os::unix::fs::FileExt;
use std::path::PathBuf;

// The first byte of a journal whose gate is open.
const OPEN: u8 = 1;

/// The files of a folder, over the calls of the operating system. They held what `S` says at first.
///
/// Their record takes no memory. No contract says what a real file gives, so that each answer in it
/// was right can only be supposed.
#[derive(Drop)]
pub struct CallsSystem<C: Calls, S: Start> {
    alloc: Global,
    calls: C,
    base: Base<C::File>,
    // the folder again, so that no closed stream's number is a file's
    streams: [Option<Handle<C::File>>; 3],
    // what the system said of the folders below
    ways: Ways,
    // the folders that were synced, by their paths, since this made a file or a folder
    synced: IndexSet<String>,
    // a sync failed, of a file or of an entry
    has_failed: bool,
    // the times of the journal when it was opened
    journal: Option<Times>,
    // more than those whom it is for may use the journal
    is_wide: bool,
    // the journal's gate was read or left open: the files of its record are being written
    is_open: bool,
    pub(crate) log: Record,
    start: PhantomData<S>,
    ghost failing: { IsFalse has_failed → IsFalse (has_failed_in log.events) },
    ghost accounts: { GoesWith log.events (C.made calls) },
    ghost modes: { AreOwnModes (C.made calls) },
    // each entry was put on the device by the sync of its own folder
    ghost folders: { AreOwnFolders log.events },
    ghost are_synced: { AreFoldersSynced (map string_bytes synced.keys) (C.made calls) },
}

impl<C: Calls + Drop, S: Start> CallsSystem<C, S> {
    /// The calls on a folder that is still to be locked. None was made.
    pub fn over(alloc: Global, calls: C) -> CallsSystem<C, S>
        requires { effects (C.made calls) ≡ [] }
        ensures empty { result.log.events ≡ [] }
        ensures calls { result.calls ≡ calls }
    {
        CallsSystem {
            alloc,
            calls,
            base: Base::new(None),
            streams: [None, None, None],
            ways: Ways::new(alloc),
            synced: IndexSet::new(alloc),
            has_failed: false,
            journal: None,
            is_wide: false,
            is_open: false,
            log: Record::new(),
            start: PhantomData,
        }
    }

    // Narrows the journal once, where it is wide and that is due.
    fn narrow(&mut self, opened: &Opened<C::File>, is_due: bool)
        ensures acts { acts (effects (C.made self.new.calls))
            ≡ acts (effects (C.made self.old.calls)) }
        ensures log { self.new.log ≡ self.old.log }
        ensures failed { self.new.has_failed ≡ self.old.has_failed }
    {
        if is_due && self.is_wide && is_journal(&opened.name) {
            self.is_wide = false;
            narrow(&mut self.calls, &opened.handle);
        }
    }

    // Notes whether the gate is open, where it was read or is written.
    fn note_gate(&mut self, opened: &Opened<C::File>, from: u64, bytes: &[u8])
        ensures calls { self.new.calls ≡ self.old.calls }
        ensures log { self.new.log ≡ self.old.log }
        ensures failed { self.new.has_failed ≡ self.old.has_failed }
    {
        if from == 0 && is_journal(&opened.name) {
            self.is_open = bytes.first() == Some(&OPEN);
        }
    }

    // Keeps what the system said of the journal that was opened.
    fn keep(&mut self, name: &FileName, status: &Status)
        ensures calls { self.new.calls ≡ self.old.calls }
        ensures log { self.new.log ≡ self.old.log }
    {
        if is_journal(name) {
            self.journal = Some(Times::of(status));
            self.is_wide = is_shared(status);
        }
    }

    // A file that may be written, and to which its name leads, through folders of the store; it is as
    // the calls so far left it. Where the journal's name leads to it still, the journal isn't looked
    // at: many systems note times at greater cost where these were looked at. Its try begins a commit,
    // and looks at the folder again: the last command may be long past.
    fn try_file(&mut self, opened: &Opened<C::File>) -> io::Result<()>
        ensures asks { OnlyAsks (C.made self.old.calls) (C.made self.new.calls) }
        ensures log { self.new.log ≡ self.old.log }
    {
        if !opened.is_writable {
            return Err(Error::from(ErrorKind::PermissionDenied));
        }
        self.ways.try_again(&mut self.calls, &opened.name)?;
        let is_journal = is_journal(&opened.name);
        if is_journal {
            self.base.forget();
        }
        let folder = last_change(&mut self.calls, &self.base)?;
        if is_journal && opened.is_found(&folder) {
            return Ok(());
        }
        same_in(&mut self.calls, &folder, opened)?;
        Ok(())
    }

    // Makes the folders on a way, where they aren't there.
    fn make_way(&mut self, path: &str) -> Result<(), DiskFault>
        ensures { MakesFolders (folders_on path.now) (is_ok result)
            self.old.log.events self.new.log.events }
    {
        for (at, byte) in path.as_bytes().iter().enumerate() {
            if *byte == b'/' {
                self.make_folder(&path[..at])?;
            }
        }
        Ok(())
    }

    // Makes a folder where it isn't there, and puts its entry on the device.
    fn make_folder(&mut self, folder: &str) -> Result<(), DiskFault>
        ensures { MakesFolders (folder.now ∷ []) (is_ok result)
            self.old.log.events self.new.log.events }
    {
        match self.ways.check_folder(&mut self.calls, folder) {
            Err(error) if error.kind() == ErrorKind::NotFound => {}
            answer => return answered(answer),
        }
        self.make_one(folder)?;
        self.enter(folder_of(folder), folder)?;
        answered(self.ways.check_folder(&mut self.calls, folder))
    }

    fn make_one(&mut self, folder: &str) -> Result<(), DiskFault>
        ensures { self.new.log.events
            ≡ MadeFolder folder.now (is_ok result) ∷ self.old.log.events }
    {
        let made = answered(self.calls.make_folder(folder));
        self.synced.clear();
        self.log
            .note(Call::MadeFolder(made.is_ok()), folder.as_bytes(), &[]);
        made
    }

    // Makes a file, where the folders that lead to it are there.
    fn make_file(&mut self, name: &FileName, is_reached: bool) -> Result<Opened<C::File>, DiskFault>
        ensures name { IfOk result (λ opened. opened.name ≡ name.now) }
        ensures entry { IfOk result (λ opened. IsFalse opened.is_entered) }
        ensures reached { OnOk result (IsTrue is_reached) }
        ensures made { self.new.log.events
            ≡ Made name.now (is_ok result) ∷ self.old.log.events }
    {
        self.synced.clear();
        let answer = made(self.alloc, &mut self.calls, name, is_reached);
        self.log.note_file(Call::Made(answer.is_ok()), name, &[]);
        answer
    }

    // Puts the entries of the folders on a way on the device.
    fn enter_way(&mut self, path: &str) -> Result<(), DiskFault>
        ensures failed { IsFalse self.new.has_failed → IsFalse self.old.has_failed }
        ensures err { OnErr result (IsTrue (has_failed_in self.new.log.events)) }
        ensures entered { EntersWay path.now (is_ok result)
            self.old.log.events self.new.log.events }
    {
        for (at, byte) in path.as_bytes().iter().enumerate() {
            if *byte == b'/' {
                self.enter(folder_of(&path[..at]), &path[..at])?;
            }
        }
        Ok(())
    }

    // Puts the entry of a file or folder, which stands in this folder, on the device.
    fn enter(&mut self, folder: &str, name: &str) -> Result<(), DiskFault>
        requires { StandsIn name.now folder.now self.old.log.events }
        ensures once { OnOk result (IsFalse self.old.has_failed) }
        ensures failed { IsFalse self.new.has_failed → IsFalse self.old.has_failed }
        ensures entered { self.new.log.events
            ≡ Entered folder.now name.now (is_ok result) ∷ self.old.log.events }
    {
        let answer = put_entry(
            self.alloc,
            &mut self.calls,
            &mut self.synced,
            folder,
            self.has_failed,
        );
        self.has_failed = answer.is_err();
        self.log.note(
            Call::Entered(answer.is_ok()),
            name.as_bytes(),
            folder.as_bytes(),
        );
        answer
    }

    // Notes that the entry of a file isn't put on the device, since its folder isn't known.
    fn lose(&mut self, name: &FileName)
        ensures { self.new.log.events
            ≡ Entered (folder_of name.now) name.now false ∷ self.old.log.events }
    {
        self.has_failed = true;
        self.log
            .note_file(Call::Entered(false), name, name.folder().as_bytes());
    }

    // Puts the entries of a file, and of the folders that lead to it, on the device. A file that was
    // found in a folder itself was there when that folder was synced: nobody else makes any.
    fn enter_file(&mut self, opened: &Opened<C::File>) -> Result<(), DiskFault>
        ensures once { OnOk result (IsFalse (has_failed_in self.old.log.events)) }
        ensures failed { OnErr result (IsTrue (has_failed_in self.new.log.events)) }
        ensures entered { EntersFile opened.now.name (is_ok result)
            self.old.log.events self.new.log.events }
    {
        self.enter_way(opened.name.folder())?;
        match self.entry_folder(opened) {
            Ok(folder) => self.enter(&folder, opened.name.as_str())?,
            Err(_) => {
                self.lose(&opened.name);
                return Err(DiskFault);
            }
        }
        Ok(())
    }

    // Notes a call on the file of this name, if it failed.
    fn noted<T: Drop>(
        &mut self,
        name: &FileName,
        answer: Result<T, DiskFault>,
    ) -> Result<T, DiskFault>
        ensures same { result ≡ answer }
        ensures calls { self.new.calls ≡ self.old.calls }
        ensures ok { OnOk answer (self.new.log ≡ self.old.log) }
        ensures err { OnErr answer (self.new.log.events ≡ Failed name.now ∷ self.old.log.events) }
    {
        if answer.is_err() {
            self.log.note_file(Call::Failed, name, &[]);
        }
        answer
    }

    // The path of the folder in which the entry of a file stands: the one that its name leads
    // through, or, where a link may stand, the one in which its path ends.
    fn entry_folder(&mut self, opened: &Opened<C::File>) -> io::Result<String>
        ensures stands { IfOk result (λ folder.
            StandsIn opened.now.name (string_bytes folder) self.new.log.events) }
        ensures failed { self.new.has_failed ≡ self.old.has_failed }
        ensures looks { OnlyEntries (opened.now.name ∷ [])
            self.old.log.events self.new.log.events }
    {
        if opened.is_own {
            return Ok(String::from_str(self.alloc, opened.name.folder())?);
        }
        self.end_folder(&opened.name)
    }

    // The folder in which the path of a name ends, all links on it followed.
    fn end_folder(&mut self, name: &FileName) -> io::Result<String>
        ensures stands { IfOk result (λ folder.
            StandsIn name.now (string_bytes folder) self.new.log.events) }
        ensures failed { self.new.has_failed ≡ self.old.has_failed }
        ensures looks { OnlyEntries (name.now ∷ []) self.old.log.events self.new.log.events }
    {
        let end = self.calls.real_path(name.as_str())?;
        self.log
            .note_file(Call::Led, name, end.as_path().as_str().as_bytes());
        parent_of(self.alloc, &end)
    }
}

// Makes a file. A journal isn't made below a store that would list files beside it: another program
// may have made that store meanwhile.
fn made<C: Calls>(
    alloc: Global,
    calls: &mut C,
    name: &FileName,
    is_reached: bool,
) -> Result<Opened<C::File>, DiskFault>
    ensures name { IfOk result (λ opened. opened.name ≡ name.now) }
    ensures entry { IfOk result (λ opened. IsFalse opened.is_entered) }
    ensures reached { OnOk result (IsTrue is_reached) }
    ensures made { IsMadeAt name.now (C.made calls.old) (C.made calls.new) (is_ok result) }
{
    if !is_reached {
        return Err(DiskFault);
    }
    let file = answered(find_or_make(calls, name))?;
    if is_journal(name) && answered(store_over(alloc, calls))?.is_some() {
        return Err(DiskFault);
    }
    Opened::new(name, file)
}

fn note_entries(log: &mut Record, folder: &str, names: &[String])
    ensures { log.new.events
        ≡ Listed folder.now true ∷ with_entries (map string_bytes names.now) log.old.events }
{
    for name in names {
        log.note(Call::Entry, name.as_bytes(), &[]);
    }
    log.note(Call::Listed(true), folder.as_bytes(), &[]);
}

impl<R: Files + AllocGlobal + Clone + Drop, S: Start> CallsSystem<HostCalls<R>, S>
where
    R::File: FileExt + Locks + AsRawFd,
{
    /// The operating system's calls on a folder that is still to be locked. None was made.
    pub fn new(rt: R) -> CallsSystem<HostCalls<R>, S>
        ensures empty { result.log.events ≡ [] }
    {
        CallsSystem::over(rt.alloc(), HostCalls::new(rt))
    }
}

// A path that ends in a slash opens a folder or nothing: a pipe would wait for its writer.
fn folder_path(alloc: Global, path: &str) -> Result<String, AllocError>
    ensures { IfOk result (λ folder. IsPathOf path.now (string_bytes folder)) }
{
    let mut folder = String::from_str(alloc, path)?;
    if !path.is_empty() && !path.ends_with('/') {
        folder.push('/')?;
    }
    Ok(folder)
}

// The folder at a path, where the system opens and locks it.
fn locked<C: Calls>(
    alloc: Global,
    calls: &mut C,
    path: &str,
) -> Result<Option<Handle<C::File>>, Fault<Locked>>
    ensures path { IfOk result (λ found. IfSome found (λ folder.
        IsPathOf path.now (string_bytes folder.path))) }
    ensures asks { OnlyAsks (C.made calls.old) (C.made calls.new) }
{
    let path = folder_path(alloc, path)?;
    match calls.open(path.as_str(), How::Read) {
        Ok(folder) => {
            let tried = calls.lock(&folder);
            held(folder, tried)
        }
        Err(_) => Ok(None),
    }
}

// Puts the entries of a folder on the device, unless a sync failed before. It needs no call where the
// folder was synced since a file or folder was made.
fn put_entry<C: Calls>(
    alloc: Global,
    calls: &mut C,
    synced: &mut IndexSet<String>,
    folder: &str,
    has_failed: bool,
) -> Result<(), DiskFault>
    requires { AreFoldersSynced (map string_bytes synced.old.keys) (C.made calls.old) }
    ensures once { OnOk result (IsFalse has_failed) }
    ensures puts { PutsEntry folder.now (C.made calls.old) (C.made calls.new) (is_ok result) }
    ensures synced { AreFoldersSynced (map string_bytes synced.new.keys) (C.made calls.new) }
{
    if has_failed {
        return Err(DiskFault);
    }
    if synced.contains(folder) {
        return Ok(());
    }
    answered(sync_folder(calls, folder))?;
    put(alloc, folder, synced);
    Ok(())
}

// Puts a path with others. Without memory for it its folder is synced again.
fn put(alloc: Global, path: &str, paths: &mut IndexSet<String>)
    ensures { (calls : List Raw) → IsFolderSynced path.now calls
        → AreFoldersSynced (map string_bytes paths.old.keys) calls
        → AreFoldersSynced (map string_bytes paths.new.keys) calls }
{
    if let Ok(path) = String::from_str(alloc, path) {
        let _ = paths.insert(path);
    }
}

// Puts a file on the device, unless a sync failed before.
fn put_content<C: Calls>(
    calls: &mut C,
    opened: &Opened<C::File>,
    failed_before: bool,
) -> Result<(), DiskFault>
    ensures once { OnOk result (IsFalse failed_before) }
    ensures syncs { SyncsContent opened.now.name (C.made calls.old) (C.made calls.new)
        (is_ok result) }
{
    if failed_before {
        return Err(DiskFault);
    }
    answered(calls.data_sync(&opened.handle))
}

// Puts the entries of a folder on the device.
fn sync_folder<C: Calls>(calls: &mut C, path: &str) -> io::Result<()>
    ensures { SyncsFolder path.now (C.made calls.old) (C.made calls.new) (is_ok result) }
{
    let folder = calls.open(path, How::Read)?;
    calls.sync(&folder)
}

fn parent_of(alloc: Global, path: &PathBuf) -> io::Result<String>
    ensures { IfOk result (λ folder.
        path_parent (path_buf_bytes path.now) ≡ Some (string_bytes folder)) }
{
    match path.parent() {
        Some(folder) => Ok(String::from_str(alloc, folder.as_str())?),
        None => Err(Error::from(ErrorKind::NotFound)),
    }
}

// Whether a folder may not be read, or is gone.
fn is_closed(kind: ErrorKind) -> bool {
    kind == ErrorKind::PermissionDenied || kind == ErrorKind::NotFound
}

// Notes how a write leaves a file: as long as it was, or to where the bytes end.
fn note_write<F>(opened: &Opened<F>, from: u64, bytes: &[u8], is_written: bool) {
    let before = opened.seen.get();
    opened.seen.set(if is_written {
        before.written_to(from.saturating_add(bytes.len() as u64))
    } else {
        before.left(None)
    });
}

fn cut_off<C: Calls>(
    calls: &mut C,
    base: &Base<C::File>,
    opened: &Opened<C::File>,
    to: u64,
) -> io::Result<()>
    ensures { CutsOff opened.now.name to (C.made calls.old) (C.made calls.new) (is_ok result) }
{
    let before = opened.seen.get();
    opened.seen.set(before.left(None));
    base.forget();
    calls.truncate(&opened.handle, to)?;
    opened.seen.set(before.left(Some(to)));
    look_again(calls, base, opened)?;
    Ok(())
}

// A fault says no more than that the call failed.
fn answered<T: Drop>(answer: io::Result<T>) -> Result<T, DiskFault>
    ensures ok { is_ok result ≡ is_ok answer }
    ensures value { (x : T) → answer ≡ Ok x → result ≡ Ok x }
{
    match answer {
        Ok(value) => Ok(value),
        Err(_) => Err(DiskFault),
    }
}

impl<C: Calls + Drop, S: Start> System for CallsSystem<C, S> {
    type File = C::File;

    ghost world = { S.world };

    ghost history = { λ system. system.log.events };

    fn fill_streams(&mut self, path: &str) -> Result<(), AllocError> {
        let folder = folder_path(self.alloc, path)?;
        self.streams = [
            self.calls.open(folder.as_str(), How::Read).ok(),
            self.calls.open(folder.as_str(), How::Read).ok(),
            self.calls.open(folder.as_str(), How::Read).ok(),
        ];
        self.log.note(Call::Filled, path.as_bytes(), &[]);
        Ok(())
    }

    fn lock(&mut self, path: &str) -> Result<(), Fault<Locked>> {
        let folder = locked(self.alloc, &mut self.calls, path)?;
        self.calls.enter(path, folder.as_ref())?;
        self.base = Base::new(folder);
        self.log.note(Call::Locked, path.as_bytes(), &[]);
        Ok(())
    }

    fn store_above(&mut self) -> Result<Option<String>, ListFault> {
        let above = store_above(self.alloc, &mut self.calls)?;
        match &above {
            Some(store) => self.log.note(Call::Above, store.as_bytes(), &[]),
            None => self.log.note(Call::Alone, &[], &[]),
        }
        Ok(above)
    }

    fn list(&mut self, folder: &str) -> Result<Option<Vec<String>>, ListFault> {
        match self.calls.list(folder) {
            Ok(names) => {
                note_entries(&mut self.log, folder, &names);
                Ok(Some(names))
            }
            Err(error) if is_closed(error.kind()) => {
                self.log.note(Call::Listed(false), folder.as_bytes(), &[]);
                Ok(None)
            }
            Err(error) => Err(ListFault::from(error)),
        }
    }

    fn is_own_folder(&mut self, folder: &str) -> Result<bool, ListFault> {
        let is_own = match self.ways.check_folder(&mut self.calls, folder) {
            Ok(()) => true,
            Err(error) if is_closed(error.kind()) || is_foreign(&error) => false,
            Err(error) => return Err(ListFault::from(error)),
        };
        self.log.note(Call::Folder(is_own), folder.as_bytes(), &[]);
        Ok(is_own)
    }

    fn look(&mut self, name: &FileName) -> Result<Option<Found>, ListFault> {
        match found(&mut self.ways, &mut self.calls, name) {
            Ok(found) => {
                let node = &found.node;
                let call = Call::There(node.device(), node.number(), found.is_plain, found.is_link);
                self.log.note_file(call, name, &[]);
                Ok(Some(found))
            }
            Err(error) if error.kind() == ErrorKind::NotFound => {
                self.log.note_file(Call::Absent, name, &[]);
                Ok(None)
            }
            Err(error) => {
                self.log.note_file(Call::Unseen, name, &[]);
                Err(ListFault::from(error))
            }
        }
    }

    fn open(&mut self, name: &FileName) -> Result<Option<Opened<C::File>>, DiskFault> {
        match find(&mut self.ways, &mut self.calls, name) {
            Ok((file, status)) => {
                self.keep(name, &status);
                let opened = Opened::new(name, file);
                Ok(Some(self.noted(name, opened)?))
            }
            Err(error) if error.kind() == ErrorKind::NotFound => {
                self.log.note_file(Call::Absent, name, &[]);
                Ok(None)
            }
            Err(_) => {
                self.log.note_file(Call::Failed, name, &[]);
                Err(DiskFault)
            }
        }
    }

    fn give_up(&mut self, opened: Opened<C::File>) -> DiskFault
        ensures { self.new.log.events ≡ Failed opened.name ∷ self.old.log.events }
    {
        self.log.note_file(Call::Failed, &opened.name, &[]);
        DiskFault
    }

    fn miss(&mut self, name: &FileName) -> DiskFault {
        self.log.note_file(Call::Failed, name, &[]);
        DiskFault
    }

    fn make(&mut self, name: &FileName) -> Result<Opened<C::File>, DiskFault> {
        self.base.forget();
        let is_reached = self.make_way(name.folder()).is_ok();
        self.make_file(name, is_reached)
    }

    fn length(&mut self, opened: &Opened<C::File>) -> Result<u64, DiskFault> {
        let length = if self.is_open {
            answered(look_again(&mut self.calls, &self.base, opened))
        } else {
            answered(length_of(&mut self.calls, opened))
        };
        let length = self.noted(&opened.name, length)?;
        self.log.note_file(Call::Length(length), &opened.name, &[]);
        Ok(length)
    }

    fn read_at(
        &mut self,
        opened: &Opened<C::File>,
        from: u64,
        into: &mut [u8],
    ) -> Result<(), DiskFault> {
        self.base.forget();
        let read = answered(self.calls.read(&opened.handle, from, into));
        self.noted(&opened.name, read)?;
        self.note_gate(opened, from, into);
        self.narrow(opened, from == 0 && !self.is_open);
        self.log.note_file(Call::Read(from), &opened.name, into);
        Ok(())
    }

    fn write_at(
        &mut self,
        opened: &Opened<C::File>,
        from: u64,
        bytes: &[u8],
    ) -> Result<(), DiskFault> {
        if bytes.is_empty() {
            let answer = answered(self.try_file(opened));
            self.log
                .note_file(Call::Write(from, answer.is_ok()), &opened.name, bytes);
            return answer;
        }
        self.base.forget();
        self.note_gate(opened, from, bytes);
        self.narrow(opened, true);
        let answer = answered(self.calls.write(&opened.handle, from, bytes));
        note_write(opened, from, bytes, answer.is_ok());
        self.log
            .note_file(Call::Write(from, answer.is_ok()), &opened.name, bytes);
        answer
    }

    fn write_again(
        &mut self,
        opened: &Opened<C::File>,
        from: u64,
        bytes: &[u8],
    ) -> Result<(), DiskFault> {
        if !opened.is_writable {
            self.log
                .note_file(Call::Again(from, true), &opened.name, bytes);
            return Ok(());
        }
        self.base.forget();
        self.narrow(opened, true);
        let written = answered(self.calls.write(&opened.handle, from, bytes));
        note_write(opened, from, bytes, written.is_ok());
        self.log
            .note_file(Call::Again(from, written.is_ok()), &opened.name, bytes);
        written
    }

    fn cut(&mut self, opened: &Opened<C::File>, to: u64) -> Result<(), DiskFault> {
        let answer = answered(cut_off(&mut self.calls, &self.base, opened, to));
        self.log
            .note_file(Call::Cut(to, answer.is_ok()), &opened.name, &[]);
        answer
    }

    fn sync(&mut self, opened: &Opened<C::File>) -> Result<(), DiskFault> {
        self.base.forget();
        let answer = put_content(&mut self.calls, opened, self.has_failed);
        self.has_failed = answer.is_err();
        self.log
            .note_file(Call::Sync(answer.is_ok()), &opened.name, &[]);
        answer
    }

    fn sync_entry(&mut self, opened: &mut Opened<C::File>) -> Result<(), DiskFault> {
        self.base.forget();
        let entered = self.enter_file(opened);
        self.noted(&opened.name, entered)?;
        opened.is_entered = true;
        Ok(())
    }

    fn confirm(&mut self, opened: &Opened<C::File>, bytes: &[u8]) -> Result<(), DiskFault> {
        let is_there = answered(read_back(&mut self.calls, &self.base, opened, bytes));
        self.noted(&opened.name, is_there)
    }

    fn standing(&mut self, name: &FileName) -> Result<Standing, DiskFault> {
        let standing = answered(stands(&mut self.ways, &mut self.calls, name, self.journal));
        self.noted(name, standing)
    }
}
