//! The files of a folder, each opened once and kept open.
//!
//! The opened files stand in byte order of their names, each name once. That a file isn't there is
//! kept for the next call on it, which doesn't look again. A name that was found absent before the
//! first call is believed twice so. Files are made by their first write, and never removed or
//! renamed.
ghost use Rattle.std.specs.Prelude.{◌≡◌, ◌⊎◌, ◌≤◌, [], ◌∷◌, length, take, drop, is_ok, IfOk, IfSome, IfNone, IfErr, IsErr, IsFalse, IsTrue, List, ℕ, OnErr, OnOk};
ghost use Rattle.std.specs.List.{list_any};
ghost use Rattle.std.specs.Str.{bytes_eq};
ghost use Rattle.org_disk.specs.Disk.{cut, stable, sync, write};
ghost use Rattle.org_folder.specs.Calls.{AreFoundAbsent, HasAbsent, HasEntered, IsHeld};
ghost use Rattle.org_folder.specs.Calls.Event.{Failed};
ghost use Rattle.org_folder.specs.Right.{content_of, file_of, AreEntered, DoesRight, HasBeenRight, HaveNoFiles, HoldsThere, LiesWithin, LooksRight, NotesFailure, StandsAt};

use crate::system::{Opened, System};
use indexmap::IndexSet;
use org_disk::{DiskFault, FileName, Standing};
use std::alloc::Global;

#[derive(Drop)]
pub struct Folder<S: System> {
    system: S,
    files: Vec<Opened<S::File>>,
    absent: IndexSet<FileName>,
    // absent before the first call on each
    absent_at_first: IndexSet<FileName>,
    // found absent by some call: what is there since was put there by another program or name
    missing: IndexSet<FileName>,
    ghost held: { IsHeld (S.history system) },
    ghost known: { HaveNoFiles S.System system absent.keys },
    ghost known_at_first: { HaveNoFiles S.System system absent_at_first.keys },
    ghost looked: { AreFoundAbsent (S.history system) missing.keys },
    ghost entered: { AreEntered (S.history system) files.items },
}

impl<S: System + Drop> Folder<S>
where
    S::File: Drop,
{
    pub fn new(alloc: Global, system: S, absent: IndexSet<FileName>) -> Folder<S>
        requires held { IsHeld (S.history system) }
        requires absent { HaveNoFiles S.System system absent.keys }
        ensures { result.system ≡ system }
    {
        Folder {
            system,
            files: Vec::new(alloc),
            absent: IndexSet::new(alloc),
            absent_at_first: absent,
            missing: IndexSet::new(alloc),
        }
    }

    pub fn length(&mut self, name: &FileName) -> Result<u64, DiskFault>
        ensures value { HasBeenRight S.System self.new.system →
            IfOk result (λ n. n ≡ length (content_of S.System self.old.system name.now)) }
        ensures looks { LooksRight S.System self.old.system self.new.system }
        ensures failures { NotesFailure S.System self.old.system self.new.system result }
    {
        match self.find(name)? {
            Some(at) => self.system.length(&self.files[at]),
            None => Ok(0),
        }
    }

    pub fn read(&mut self, name: &FileName, from: u64, into: &mut [u8]) -> Result<(), DiskFault>
        ensures bytes { HasBeenRight S.System self.new.system → OnOk result (into.new
            ≡ take (length into.old) (drop from (content_of S.System self.old.system name.now))) }
        ensures looks { LooksRight S.System self.old.system self.new.system }
        ensures failures { NotesFailure S.System self.old.system self.new.system result }
    {
        match self.find(name)? {
            Some(at) => self.system.read_at(&self.files[at], from, into),
            None if into.is_empty() => Ok(()),
            None => Err(self.system.miss(name)),
        }
    }

    // A write of no bytes tries the file, and makes it where there is none.
    pub fn write(&mut self, name: &FileName, from: u64, bytes: &[u8]) -> Result<(), DiskFault>
        requires { LiesWithin S.System self.old.system name.now from }
        ensures does { DoesRight S.System (write from bytes.now) name.now
            self.old.system self.new.system result }
        ensures failures { NotesFailure S.System self.old.system self.new.system result }
    {
        let at = self.find_or_make(name)?;
        self.system.write_at(&self.files[at], from, bytes)
    }

    pub fn write_again(&mut self, name: &FileName, from: u64, bytes: &[u8]) -> Result<(), DiskFault>
        requires { HoldsThere S.System self.old.system name.now from bytes.now }
        ensures looks { LooksRight S.System self.old.system self.new.system }
        ensures failures { NotesFailure S.System self.old.system self.new.system result }
    {
        match self.find(name)? {
            Some(at) => self.system.write_again(&self.files[at], from, bytes),
            None if bytes.is_empty() => Ok(()),
            None => Err(self.system.miss(name)),
        }
    }

    pub fn cut(&mut self, name: &FileName, to: u64) -> Result<(), DiskFault>
        requires { LiesWithin S.System self.old.system name.now to }
        ensures does { DoesRight S.System (cut to) name.now
            self.old.system self.new.system result }
        ensures failures { NotesFailure S.System self.old.system self.new.system result }
    {
        match self.find(name)? {
            Some(at) => self.system.cut(&self.files[at], to),
            None if to == 0 => Ok(()),
            None => Err(self.system.miss(name)),
        }
    }

    // The first sync of a file takes its entry in the folder along.
    pub fn sync(&mut self, name: &FileName) -> Result<(), DiskFault>
        ensures does { DoesRight S.System sync name.now self.old.system self.new.system result }
        ensures failures { NotesFailure S.System self.old.system self.new.system result }
    {
        match self.find(name)? {
            Some(at) => sync_opened(&mut self.system, &mut self.files[at]),
            None => Ok(()),
        }
    }

    pub fn confirm(&mut self, name: &FileName, bytes: &[u8]) -> Result<(), DiskFault>
        ensures looks { LooksRight S.System self.old.system self.new.system }
        ensures failures { NotesFailure S.System self.old.system self.new.system result }
    {
        match self.find(name)? {
            Some(at) => self.system.confirm(&self.files[at], bytes),
            None if bytes.is_empty() => Ok(()),
            None => Err(self.system.miss(name)),
        }
    }

    pub fn standing(&mut self, name: &FileName) -> Result<Standing, DiskFault>
        ensures looks { LooksRight S.System self.old.system self.new.system }
        ensures failures { NotesFailure S.System self.old.system self.new.system result }
    {
        self.system.standing(name)
    }

    // Where the file of a name stands among those that are open, if there is one.
    fn find(&mut self, name: &FileName) -> Result<Option<usize>, DiskFault>
        ensures place { IfOk result (λ found. IfSome found
            (StandsAt name.now self.new.files.items)) }
        ensures absent { HasBeenRight S.System self.new.system → IfOk result (λ found.
            IfNone found (file_of S.System self.old.system name.now ≡ stable [])) }
        ensures there { IfOk result (λ found. IfSome found (λ _.
            IsFalse (list_any (bytes_eq name.now) self.new.absent.keys)
            × IsFalse (list_any (bytes_eq name.now) self.new.absent_at_first.keys))) }
        ensures found { IfOk result (λ found. IfSome found (λ _.
            S.history self.new.system ≡ S.history self.old.system)) }
        ensures looked { IfOk result (λ found. IfNone found
            (HasAbsent name.now (S.history self.new.system))) }
        ensures looks { LooksRight S.System self.old.system self.new.system }
        ensures failures { NotesFailure S.System self.old.system self.new.system result }
    {
        // It is believed once: another program may make the file meanwhile.
        if self.absent.swap_remove(name) {
            return Ok(None);
        }
        if self.absent_at_first.swap_remove(name) {
            self.keep_absent(name);
            return Ok(None);
        }
        let place = match self.place(name) {
            Ok(at) => return Ok(Some(at)),
            Err(place) => place,
        };
        match self.system.open(name)? {
            Some(opened) => Ok(Some(self.keep(place, opened)?)),
            None => {
                self.keep_absent(name);
                Ok(None)
            }
        }
    }

    // What is made is no longer absent, and a make that fails may have made it.
    fn find_or_make(&mut self, name: &FileName) -> Result<usize, DiskFault>
        ensures place { IfOk result (StandsAt name.now self.new.files.items) }
        ensures there { OnOk result (IsFalse (list_any (bytes_eq name.now) self.new.absent.keys)
            × IsFalse (list_any (bytes_eq name.now) self.new.absent_at_first.keys)) }
        ensures looks { LooksRight S.System self.old.system self.new.system }
        ensures failures { NotesFailure S.System self.old.system self.new.system result }
    {
        if let Ok(at) = self.place(name) {
            self.absent.swap_remove(name);
            self.absent_at_first.swap_remove(name);
            return Ok(at);
        }
        if self.missing.contains(name) {
            return self.make(name);
        }
        match self.find(name)? {
            Some(at) => Ok(at),
            None => self.make(name),
        }
    }

    // Makes a file that was found absent, and opens it.
    fn make(&mut self, name: &FileName) -> Result<usize, DiskFault>
        requires { HasAbsent name.now (S.history self.old.system) }
        ensures place { IfOk result (StandsAt name.now self.new.files.items) }
        ensures there { IsFalse (list_any (bytes_eq name.now) self.new.absent.keys)
            × IsFalse (list_any (bytes_eq name.now) self.new.absent_at_first.keys) }
        ensures looks { LooksRight S.System self.old.system self.new.system }
        ensures failures { NotesFailure S.System self.old.system self.new.system result }
    {
        self.absent.swap_remove(name);
        self.absent_at_first.swap_remove(name);
        let opened = self.made(name)?;
        match self.place(name) {
            Ok(at) => Ok(at),
            Err(place) => self.keep(place, opened),
        }
    }

    // A file that was found absent, and is made.
    fn made(&mut self, name: &FileName) -> Result<Opened<S::File>, DiskFault>
        requires { HasAbsent name.now (S.history self.old.system) }
        ensures name { IfOk result (λ opened. opened.name ≡ name.now) }
        ensures entry { IfOk result (λ opened. IsFalse opened.is_entered) }
        ensures absent { self.new.absent ≡ self.old.absent }
        ensures at_first { self.new.absent_at_first ≡ self.old.absent_at_first }
        ensures looks { LooksRight S.System self.old.system self.new.system }
        ensures failures { NotesFailure S.System self.old.system self.new.system result }
    {
        self.system.make(name)
    }

    // Where the file of a name stands among those that are open, or where it would.
    fn place(&self, name: &FileName) -> Result<usize, usize>
        ensures found { IfOk result (StandsAt name.now self.now.files.items) }
        ensures place { IfErr result (λ place. place ≤ length self.now.files.items) }
    {
        let place = self
            .files
            .partition_point(|opened| opened.name().as_str() < name.as_str());
        match self.files.get(place) {
            Some(opened) if opened.name() == name => Ok(place),
            _ => Err(place),
        }
    }

    fn keep(&mut self, place: usize, opened: Opened<S::File>) -> Result<usize, DiskFault>
        requires place { place ≤ length self.old.files.items }
        requires entered { IsFalse opened.is_entered }
        ensures place { IfOk result (StandsAt opened.name self.new.files.items) }
        ensures absent { self.new.absent ≡ self.old.absent }
        ensures at_first { self.new.absent_at_first ≡ self.old.absent_at_first }
        ensures kept { OnOk result (self.new.system ≡ self.old.system) }
        ensures given_up { OnErr result (S.history self.new.system
            ≡ Failed opened.name ∷ S.history self.old.system) }
    {
        match self.files.insert(place, opened) {
            Ok(()) => Ok(place),
            Err(failed) => Err(self.system.give_up(failed.value)),
        }
    }

    // Keeps the name of a file that isn't there for the next call on it. Without memory for it,
    // that call looks again.
    fn keep_absent(&mut self, name: &FileName)
        requires empty { HasBeenRight S.System self.old.system
            → file_of S.System self.old.system name.now ≡ stable [] }
        requires looked { HasAbsent name.now (S.history self.old.system) }
        ensures { self.new.system ≡ self.old.system }
    {
        put(name, &mut self.absent);
        put(name, &mut self.missing);
    }
}

// Puts a name with others, where there is memory for it.
fn put(name: &FileName, names: &mut IndexSet<FileName>)
    ensures { (other : List ℕ) → IsTrue (list_any (bytes_eq other) names.new.keys)
        → (other ≡ name.now) ⊎ IsTrue (list_any (bytes_eq other) names.old.keys) }
{
    if let Ok(name) = name.clone() {
        let _ = names.insert(name);
    }
}

// Syncs a file, whose entry in the folder goes along the first time.
fn sync_opened<S: System>(system: &mut S, opened: &mut Opened<S::File>) -> Result<(), DiskFault>
where
    S::File: Drop,
    requires { IsTrue opened.old.is_entered
        → HasEntered opened.old.name (S.history system.old) }
    ensures synced { DoesRight S.System sync opened.old.name system.old system.new result }
    ensures failures { NotesFailure S.System system.old system.new result }
    ensures entered { IsTrue opened.new.is_entered
        → HasEntered opened.new.name (S.history system.new) }
    ensures others { (name : List ℕ) → HasEntered name (S.history system.old)
        → HasEntered name (S.history system.new) }
    ensures absent { (name : List ℕ) → HasAbsent name (S.history system.old)
        → HasAbsent name (S.history system.new) }
    ensures held { IsHeld (S.history system.old) → IsHeld (S.history system.new) }
{
    if opened.is_entered() {
        return sync_entered(system, opened);
    }
    system.sync_entry(opened)?;
    sync_entered(system, opened)
}

// Syncs a file whose entry is on the device.
fn sync_entered<S: System>(system: &mut S, opened: &Opened<S::File>) -> Result<(), DiskFault>
where
    S::File: Drop,
    requires this { IsTrue opened.now.is_entered }
    requires named { HasEntered opened.now.name (S.history system.old) }
    ensures synced { DoesRight S.System sync opened.now.name system.old system.new result }
    ensures failures { NotesFailure S.System system.old system.new result }
    ensures others { (name : List ℕ) → HasEntered name (S.history system.old)
        → HasEntered name (S.history system.new) }
    ensures absent { (name : List ℕ) → HasAbsent name (S.history system.old)
        → HasAbsent name (S.history system.new) }
    ensures held { IsHeld (S.history system.old) → IsHeld (S.history system.new) }
{
    system.sync(opened)
}
