//! The files of a store, synced before it is opened over them.
//!
//! So what an editor has just saved counts as stable. Nothing is written.
ghost use Rattle.std.specs.Prelude.{All, IsErr, IsErrOf};
ghost use Rattle.org_disk.specs.CountsFailures.{CountsFailures};
ghost use Rattle.org_disk.specs.Names.{IsOrgFile};
ghost use Rattle.org_fileset.specs.declared.open.OpenFault.TheVariants.{Device};
ghost use Rattle.org_serve.specs.Syncing.{AnswersSync, Syncs, stored};

use crate::names::file_names;
use org_disk::{Disk, DiskFault, FileName};
use org_fileset::OpenFault;
use std::alloc::Global;

/// Syncs the files of a store that is to be opened with these names: its journal, theirs and their
/// archive files.
///
/// Once it answers Ok, all files read as before, and each of the store's is on the disk: a crash
/// leaves its content, and nothing else. Whatever it answers, a crash at any moment since it began
/// leaves what it might have left before.
///
/// # Errors
///
/// - `TooManyFiles`: more names are given than a store may have. No call of the disk was made.
/// - `Device`: a sync failed.
/// - `OutOfMemory`.
pub fn sync_files<D: Disk>(alloc: Global, disk: &mut D, given: &[FileName]) -> Result<(), OpenFault>
    requires { All IsOrgFile given.now }
    ensures syncs { Syncs D.Disk (stored given.now) disk.old disk.new result }
    ensures answers { AnswersSync given.now disk.old disk.new result }
    ensures accounts { CountsFailures D.Disk disk.old disk.new (IsErrOf result Device) }
{
    let Some(names) = file_names(alloc, given)? else {
        return Err(OpenFault::TooManyFiles);
    };
    sync_each(disk, &names)?;
    Ok(())
}

fn sync_each<D: Disk>(disk: &mut D, names: &[FileName]) -> Result<(), DiskFault>
    ensures syncs { Syncs D.Disk names.now disk.old disk.new result }
    ensures accounts { CountsFailures D.Disk disk.old disk.new (IsErr result) }
{
    for name in names {
        disk.sync(name)?;
    }
    Ok(())
}
