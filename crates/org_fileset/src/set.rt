//! The files of a store as one: read one by one, changed all or none.
//!
//! Between two calls the journal's gate is closed, but after a failure of the disk: from then on
//! the set is broken, and makes no call. It holds no text; what files held is the caller's to keep.
ghost use Rattle.std.specs.Prelude.{◌≡◌, [], true, false, IsFalse, IfOk, IsErr, IsErrOf, IsOk};
ghost use Rattle.std.specs.List.{All};
ghost use Rattle.org_disk.specs.CountsFailures.{CountsFailures, Looks};
ghost use Rattle.org_disk.specs.Names.{IsOrgFile, journal_name};
ghost use Rattle.org_fileset.specs.Opening.{Opens};
ghost use Rattle.org_fileset.specs.Set.{CanCommit, CommitsSet, ReadsBytes, IsOpenedSet, KeepsSet, disk_of};

use crate::commit::commit_entries;
use crate::entries::entries_of;
use crate::fault::SetFault;
use crate::lengths::{note_length, note_lengths};
use crate::open::{OpenFault, OpenRefused, journal_and_names, make_ready};
use org_disk::{Disk, FileName};
use org_journal::{GREATEST_LENGTH, Record};
use org_splice::Changes;
use std::alloc::Global;
use std::marker::Model;

/// The most bytes of a file.
pub const LIMIT: usize = GREATEST_LENGTH as usize;

/// Files of a disk that are read one by one, and changed as one.
#[derive(Drop)]
pub struct FileSet<D: Disk> {
    disk: D,
    journal: FileName,
    names: Vec<FileName>,
    // how long the file of each name is
    lengths: Vec<u64>,
    broken: bool,
}

impl<D: Disk> Model for FileSet<D> {
    ghost use Rattle.org_fileset.specs.Set.{Opened, IsSound};

    ghost Value = { Opened D };

    ghost view = { λ s. record { disk = s.disk; names = s.names.items; broken = s.broken } };

    ghost invariant = { λ s. IsSound s.journal s.names.items s.lengths.items s.broken
        (D.honest s.disk) (D.files s.disk) };
}

impl<D: Disk> FileSet<D> {
    /// A set of the files of the given names and of their archive files. No name is an archive
    /// file's or the journal's; a repeated one counts once. What a crash cut short is finished
    /// first; after Ok a whole journal whose gate was closed is as it was. No file is written but
    /// the journal and those that the record of an open one names.
    ///
    /// On a disk that is recoverable, of which each image recovers to files, every image at every
    /// moment since the call began recovers to what an image at the start recovered to, whatever is
    /// answered; so it may be stopped, and called again. Where the journal is bad, as it reads, or
    /// is whole and its gate is closed, a crash leaves what it might have left before, whatever is
    /// answered.
    ///
    /// # Errors
    ///
    /// The disk is handed back with one of these, in this order; the last two as they are met.
    ///
    /// - `TooManyFiles`: more than 256 different names. No call of the disk was made.
    /// - `BadJournal`: the journal's gate is open over no whole record that fits its files.
    /// - `TooLarge`: the first file in byte order of the names that is past the limit.
    /// - `Device`, `OutOfMemory`.
    pub fn open(alloc: Global, disk: D, names: Vec<FileName>) -> Result<FileSet<D>, OpenRefused<D>>
        requires { All IsOrgFile names.items }
        ensures opened { IfOk result (λ set. IsOpenedSet D.Disk names.items set) }
        ensures opens { Opens D.Disk names.items disk (disk_of result) result }
    {
        let mut disk = disk;
        let (journal, names) = match journal_and_names(alloc, names) {
            Ok(made) => made,
            Err(fault) => return Err(OpenRefused { disk, fault }),
        };
        let mut lengths = Vec::new(alloc);
        match make_ready(alloc, &mut disk, &journal, &names, &mut lengths) {
            Ok(()) => Ok(FileSet {
                disk,
                journal,
                names,
                lengths,
                broken: false,
            }),
            Err(fault) => Err(OpenRefused { disk, fault }),
        }
    }

    /// The names of its files, in byte order: those that it was opened with and those of their
    /// archive files.
    pub fn names(&self) -> &[FileName]
        ensures { result.now ≡ self.now.names }
    {
        &self.names
    }

    /// Whether a call of the disk has failed since the set was opened.
    pub fn is_broken(&self) -> bool
        ensures { result ≡ self.now.broken }
    {
        self.broken
    }

    /// Gives the disk back as it is.
    pub fn into_disk(self) -> D
        ensures { result ≡ self.disk }
    {
        self.disk
    }

    /// The bytes of a file, one of the set's or not.
    ///
    /// # Errors
    ///
    /// - `Broken`: a call of the disk has failed before. No call is made.
    /// - `Device`: a call of the disk failed; the set is broken from then on.
    /// - `OutOfMemory`: the file can be read again.
    pub fn read(&mut self, name: &FileName) -> Result<Vec<u8>, SetFault>
        ensures text { ReadsBytes D.Disk self.old.disk name.now self.new.disk result }
        ensures looks { Looks D.Disk self.old.disk self.new.disk }
        ensures set { KeepsSet self.old self.new result }
        ensures accounts { CountsFailures D.Disk self.old.disk self.new.disk
            (IsErrOf result SetFault.Device) }
    {
        if self.broken {
            return Err(SetFault::Broken);
        }
        let alloc = *self.names.allocator();
        match read_file(alloc, &mut self.disk, name) {
            Ok(bytes) => {
                note_length(&self.names, &mut self.lengths, name, bytes.len() as u64);
                Ok(bytes)
            }
            Err(SetFault::OutOfMemory) => Err(SetFault::OutOfMemory),
            Err(_) => {
                self.broken = true;
                Err(SetFault::Device)
            }
        }
    }

    /// Gives all of the changed files their texts at once. The texts are edits of what the files
    /// hold, and within `LIMIT`; the names are the set's. What is asked and said of what files hold
    /// is so of an honest disk alone.
    ///
    /// Before anything is written, the journal and the changed files are tried by writes of no
    /// bytes. Where one of these fails, each file is as it was, and the gate stays closed. Before
    /// the gate is closed again the files are read back, and after that they are tried: where another
    /// program wrote or replaced one in the same moment, the commit isn't reported as done.
    ///
    /// Where all is on the disk when the call begins, then at every moment since what a crash
    /// leaves recovers to all files as they were, or to all files with the changed texts, and no file
    /// of it is found to be changed by its bytes; after Ok all is on the disk again. No file is
    /// written but the changed ones and the journal, after whose gate the record of the changes
    /// stays. Where nothing was changed, no call of the disk is made.
    ///
    /// # Errors
    ///
    /// - `Broken`: a call of the disk has failed before. No call is made.
    /// - `OutOfMemory`: before the first call of the disk. Nothing was changed.
    /// - `Device`: a call of the disk failed. The set is broken from then on, and the disk, where
    ///   it was at rest before, can be opened anew.
    pub fn commit<C: Changes<FileName>>(&mut self, changes: &C) -> Result<(), SetFault>
        requires { CanCommit D.Disk self.old (C.pairs changes.now) }
        ensures commits { CommitsSet D.Disk self.old (C.pairs changes.now) result self.new }
        ensures nothing { C.pairs changes.now ≡ []
            → (self.new ≡ self.old) × (IsFalse self.old.broken → IsOk result) }
    {
        if self.broken {
            return Err(SetFault::Broken);
        }
        if changes.len() == 0 {
            return Ok(());
        }
        let alloc = *self.names.allocator();
        let entries = entries_of(alloc, changes, &self.names, &self.lengths)?;
        let record = Record::new(entries);
        let body = record.encode(alloc)?;
        match commit_entries(
            &mut self.disk,
            &self.journal,
            record.as_slice(),
            &body,
            changes,
        ) {
            Ok(()) => {
                note_lengths(&self.names, &mut self.lengths, record.as_slice());
                Ok(())
            }
            Err(_) => {
                self.broken = true;
                Err(SetFault::Device)
            }
        }
    }
}

// The bytes of a file of a disk.
pub(crate) fn read_file<D: Disk>(
    alloc: Global,
    disk: &mut D,
    name: &FileName,
) -> Result<Vec<u8>, SetFault>
    ensures text { ReadsBytes D.Disk disk.old name.now disk.new result }
    ensures looks { Looks D.Disk disk.old disk.new }
    ensures not_broken { IsErrOf result SetFault.Broken → ⊥ }
    ensures accounts { CountsFailures D.Disk disk.old disk.new (IsErrOf result SetFault.Device) }
{
    let length = disk.length(name)?;
    let mut bytes = vec![in alloc; 0u8; length as usize]?;
    disk.read_at(name, 0, &mut bytes)?;
    Ok(bytes)
}
