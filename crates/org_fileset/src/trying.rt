//! The journal and the files of a record, tried: before anything is written, and once it is done.
//!
//! A try is a write of no bytes: it changes nothing, and it fails where the disk can see that a
//! write would fail, or would go astray.
ghost use Rattle.std.specs.Prelude.{◌≡◌, IsErr};
ghost use Rattle.org_disk.specs.CountsFailures.{CountsFailures};
ghost use Rattle.org_disk.specs.Names.{journal_name};
ghost use Rattle.org_fileset.specs.Writes.{TriesOver};

use org_disk::{Disk, DiskFault, FileName};
use org_journal::Entry;

/// Tries the journal and the files of a record. After Ok all is as it was. After a failure each
/// file that was on the disk is on it still, as it was.
///
/// # Errors
///
/// `DiskFault`: a call of the disk failed.
pub fn try_all<D: Disk>(
    disk: &mut D,
    journal: &FileName,
    entries: &[Entry],
) -> Result<(), DiskFault>
    requires { journal.now ≡ journal_name }
    ensures tries { D.honest disk.new → TriesOver D.Disk entries.now disk.old disk.new result }
    ensures accounts { CountsFailures D.Disk disk.old disk.new (IsErr result) }
{
    disk.write_at(journal, 0, &[])?;
    try_files(disk, entries)
}

/// Tries the files of a record, likewise. Those of which the record holds the whole text are tried
/// last. A file that isn't there is one of them, and a folder makes it by its try: so none is made
/// before the others were tried.
///
/// # Errors
///
/// `DiskFault`: a call of the disk failed.
pub fn try_files<D: Disk>(disk: &mut D, entries: &[Entry]) -> Result<(), DiskFault>
    ensures tries { D.honest disk.new → TriesOver D.Disk entries.now disk.old disk.new result }
    ensures accounts { CountsFailures D.Disk disk.old disk.new (IsErr result) }
{
    try_those(disk, entries, false)?;
    try_those(disk, entries, true)
}

// Tries the files of which the record holds the whole text, or the others.
fn try_those<D: Disk>(disk: &mut D, entries: &[Entry], are_whole: bool) -> Result<(), DiskFault>
    ensures tries { D.honest disk.new → TriesOver D.Disk entries.now disk.old disk.new result }
    ensures accounts { CountsFailures D.Disk disk.old disk.new (IsErr result) }
{
    for entry in entries {
        if is_whole(entry) == are_whole {
            disk.write_at(&entry.name, 0, &[])?;
        }
    }
    Ok(())
}

// Whether an entry holds the whole text of its file, so that nothing of the file stays.
fn is_whole(entry: &Entry) -> bool {
    match entry.patches.as_slice() {
        [patch] => patch.from == 0 && patch.bytes.len() as u64 == entry.length,
        _ => false,
    }
}
