//! The files of a folder, as a disk: org_disk's `Disk` over the calls of a system.
//!
//! It keeps what `folder` opened. Nothing is cached of what files hold, but that they aren't there.
ghost use Rattle.std.specs.Prelude.{◌≡◌, length};
ghost use Rattle.org_folder.specs.Calls.{IsHeld, LeftSince, failed_calls};
ghost use Rattle.org_folder.specs.Right.{file_of, HasBeenRight, HaveNoFiles};

use crate::calls::HostCalls;
use crate::folder::Folder;
use crate::system::{CallsSystem, System};
use indexmap::IndexSet;
use org_disk::{Disk, DiskFault, FileName, Standing};
use std::alloc::Global;

/// The files of a folder, as a disk over the calls of a system. An absent file and an empty one are
/// the same: a file is made by its first write, and none is ever removed or renamed. A write of no
/// bytes is one too; it fails where the file can't be written, or where another program is seen to
/// have changed it. So does a length that is asked for while the journal's gate is open. Where a
/// file isn't there, the next call on it doesn't look again. A file stays open from its first use
/// on; the first sync of a file also puts its entry in the folder on the device. A call of the
/// system that fails is a failure, and so is want of memory. The record of the calls counts them.
///
/// Its files are those that the record of its calls stands for. It is an honest disk as long as
/// each answer in that record was right, and a wrong one ends it for good; no contract says that a
/// system's answers are right.
#[derive(Drop)]
pub struct CallsDisk<S: System> {
    folder: Folder<S>,
    // each file of a record is to be written over, however it stands
    adopts: bool,
}

/// The files of a folder of the operating system, as a disk. Links are followed. A call that a
/// signal interrupted is made again. Files that were found in the folder itself share one sync of
/// it, which the first sync of one of them makes, until a file is made.
///
/// Permissions of files that are there stay, but that a journal which others may use is narrowed. A
/// journal is made for its owner, and for its group where that may write the folder; an archive
/// file for those whom its Org file is for.
///
/// That each answer in its record was right is a premise: no contract says what a real file gives.
/// The record stands in proofs alone and takes no memory. `S` says what the files held at first,
/// which no code can read.
pub type FolderDisk<R, S> = CallsDisk<HostSystem<R, S>>;

/// The calls on a folder of the operating system.
pub type HostSystem<R, S> = CallsSystem<HostCalls<R>, S>;

impl<S: System + Drop> CallsDisk<S>
where
    S::File: Drop,
{
    /// The disk over these calls, of a folder that is locked. It makes none. Of names that were
    /// found absent the first call on each doesn't look again. Where it `adopts`, each file of a
    /// record is to be written over, and it asks the system nothing.
    pub fn over(alloc: Global, system: S, absent: IndexSet<FileName>, adopts: bool) -> CallsDisk<S>
        requires held { IsHeld (S.history system) }
        requires absent { HaveNoFiles S.System system absent.keys }
        ensures system { result.folder.system ≡ system }
        ensures adopts { result.adopts ≡ adopts }
    {
        CallsDisk {
            folder: Folder::new(alloc, system, absent),
            adopts,
        }
    }
}

impl<S: System + Drop> Disk for CallsDisk<S>
where
    S::File: Drop,
{
    ghost use Rattle.org_folder.specs.CallsLaws.{own_image, counts_now, only_now};

    ghost honest = { λ disk. HasBeenRight S.System disk.folder.system };

    ghost truthful = { ⊥ };

    ghost files = { λ disk. file_of S.System disk.folder.system };

    ghost instant = { λ disk. length (S.history disk.folder.system) };

    ghost left_since = { λ disk. LeftSince S.world (S.history disk.folder.system) };

    ghost failures = { λ disk. failed_calls (S.history disk.folder.system) };

    ghost content_is_image = { λ disk name honest.
        own_image S.world (S.history disk.folder.system) honest name };

    ghost counts_now = { λ disk t image _ le now.
        counts_now S.world (S.history disk.folder.system) t image le now };

    ghost only_now = { λ disk image _ left.
        only_now S.world (S.history disk.folder.system) image left };

    fn length(&mut self, name: &FileName) -> Result<u64, DiskFault> {
        self.folder.length(name)
    }

    fn read_at(&mut self, name: &FileName, from: u64, into: &mut [u8]) -> Result<(), DiskFault> {
        self.folder.read(name, from, into)
    }

    fn write_at(&mut self, name: &FileName, from: u64, bytes: &[u8]) -> Result<(), DiskFault> {
        self.folder.write(name, from, bytes)
    }

    fn write_again(&mut self, name: &FileName, from: u64, bytes: &[u8]) -> Result<(), DiskFault> {
        self.folder.write_again(name, from, bytes)
    }

    fn cut(&mut self, name: &FileName, to: u64) -> Result<(), DiskFault> {
        self.folder.cut(name, to)
    }

    fn sync(&mut self, name: &FileName) -> Result<(), DiskFault> {
        self.folder.sync(name)
    }

    fn confirm(&mut self, name: &FileName, bytes: &[u8]) -> Result<(), DiskFault> {
        self.folder.confirm(name, bytes)
    }

    fn standing(&mut self, name: &FileName) -> Result<Standing, DiskFault> {
        if self.adopts {
            return Ok(Standing::Adopted);
        }
        self.folder.standing(name)
    }
}
