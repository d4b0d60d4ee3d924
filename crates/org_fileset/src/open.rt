//! What is asked of files before a set is opened over them: few enough names, a journal that is no
//! damage, files within the limit.
//!
//! The faults come in the order of `OpenFault`. Only the journal is written, and what its record
//! names.
ghost use Rattle.std.specs.Prelude.{◌≡◌, ◌++◌, ◌∷◌, [], Err, IfOk, IfErr, IsErrOf, OnOk};
ghost use Rattle.std.specs.List.{All};
ghost use Rattle.org_disk.specs.CountsFailures.{CountsFailures, Looks};
ghost use Rattle.org_disk.specs.Names.{journal_name, IsOrgFile};
ghost use Rattle.org_journal.specs.Recovered.{recovered, contents};
ghost use Rattle.org_fileset.specs.Names.{with_archives, AreSorted, AreFew};
ghost use Rattle.org_fileset.specs.Opening.{AreAllNames, AreSetNames, HaveSizes, IsAnswer, fault_of};
ghost use Rattle.org_fileset.specs.Lengths.{AreLengths};
ghost use Rattle.org_fileset.specs.Recovery.{Reopens};
ghost use Rattle.org_fileset.specs.declared.open.OpenFault.TheVariants.{OutOfMemory, Device};

use crate::names::{in_order, with_archives};
use crate::recover::recover;
use crate::set::LIMIT;
use org_disk::{Disk, DiskFault, FileName};
use org_journal::FindFault;
use std::alloc::{AllocError, Global};
use thiserror::Error;

/// How many different names may be given; those of their archive files come on top.
pub const MOST_NAMES: usize = 256;

/// Why a set of files wasn't opened. It prints as the program's line on standard error has it.
#[derive(Debug, Drop, Error)]
pub enum OpenFault {
    /// More than 256 different names were given. The disk wasn't called.
    #[error("TooManyFiles")]
    TooManyFiles,
    /// The journal's gate is open, and what stands after it is no record, or one that doesn't fit
    /// its files. No content was changed.
    #[error("BadJournal")]
    BadJournal,
    /// The journal's gate is open, and the file of this name, which its record names, was put there
    /// or changed since. No content was changed.
    #[error("Changed {0}")]
    Changed(FileName),
    /// .. or leads out of the folder. No content was changed.
    #[error("Outside {0}")]
    Outside(FileName),
    /// The file of this name has more than 67,108,864 bytes: the first such file, in byte order of
    /// the names. What a crash had cut short was finished.
    #[error("TooLarge {0}")]
    TooLarge(FileName),
    /// A call of the disk failed.
    #[error("Device")]
    Device,
    /// Memory ran out.
    #[error("OutOfMemory")]
    OutOfMemory,
}

/// A set of files that wasn't opened: its disk, and why.
#[derive(Drop)]
pub struct OpenRefused<D> {
    /// The disk as the call left it.
    pub disk: D,
    /// Why the set wasn't opened.
    pub fault: OpenFault,
}

impl From<AllocError> for OpenFault {
    ghost from_gives = { λ _ e. e ≡ OutOfMemory };

    fn from(_: AllocError) -> OpenFault {
        OpenFault::OutOfMemory
    }
}

impl From<DiskFault> for OpenFault {
    ghost from_gives = { λ _ e. e ≡ Device };

    fn from(_: DiskFault) -> OpenFault {
        OpenFault::Device
    }
}

impl From<FindFault> for OpenFault {
    ghost from_gives = { λ found e. e ≡ fault_of found };

    fn from(found: FindFault) -> OpenFault {
        match found {
            FindFault::BadJournal => OpenFault::BadJournal,
            FindFault::Device => OpenFault::Device,
            FindFault::OutOfMemory => OpenFault::OutOfMemory,
        }
    }
}

/// The names of a set's files in byte order: the given ones and those of their archive files.
///
/// # Errors
///
/// - `TooManyFiles`: more than 256 different names were given.
/// - `OutOfMemory`.
pub fn all_names(alloc: Global, given: Vec<FileName>) -> Result<Vec<FileName>, OpenFault>
    requires { All IsOrgFile given.items }
    ensures { AreAllNames given.items result }
{
    let given = in_order(given);
    if given.len() > MOST_NAMES {
        return Err(OpenFault::TooManyFiles);
    }
    let names = with_archives(alloc, &given)?;
    Ok(in_order(names))
}

/// The journal's name, and the names of a set's files.
///
/// # Errors
///
/// Those of `all_names`.
pub fn journal_and_names(
    alloc: Global,
    given: Vec<FileName>,
) -> Result<(FileName, Vec<FileName>), OpenFault>
    requires { All IsOrgFile given.items }
    ensures journal { IfOk result (λ made. made.0 ≡ journal_name) }
    ensures names { IfOk result (λ made. AreFew given.items
        × AreSorted (with_archives given.items) made.1.items × AreSetNames made.1.items) }
    ensures refused { IfErr result (λ fault. AreAllNames given.items (Err fault)) }
{
    let names = all_names(alloc, given)?;
    Ok((FileName::journal_name(alloc)?, names))
}

// Puts a length at the end.
fn push_length(lengths: &mut Vec<u64>, length: u64) -> Result<(), AllocError>
    ensures { OnOk result (lengths.new.items ≡ lengths.old.items ++ length ∷ []) }
{
    lengths.push(length)?;
    Ok(())
}

/// Asks for the length of each of these files, and puts them after one another.
///
/// # Errors
///
/// - `TooLarge`: the first of the files that is past the limit.
/// - `Device`, `OutOfMemory`.
pub fn check_sizes<D: Disk>(
    disk: &mut D,
    names: &[FileName],
    lengths: &mut Vec<u64>,
) -> Result<(), OpenFault>
    requires { lengths.old.items ≡ [] }
    ensures lengths { OnOk result (D.honest disk.new
        → AreLengths names.now lengths.new.items (contents (D.files disk.old))) }
    ensures sizes { D.honest disk.new → HaveSizes (contents (D.files disk.old)) names.now result }
    ensures not_too_many { IsErrOf result OpenFault.TooManyFiles → ⊥ }
    ensures not_bad { IsErrOf result OpenFault.BadJournal → ⊥ }
    ensures looks { Looks D.Disk disk.old disk.new }
    ensures accounts { CountsFailures D.Disk disk.old disk.new (IsErrOf result OpenFault.Device) }
{
    for name in names {
        let length = disk.length(name)?;
        if length > LIMIT as u64 {
            return Err(OpenFault::TooLarge(name.clone()?));
        }
        push_length(lengths, length)?;
    }
    Ok(())
}

/// Finishes what a crash cut short, and then asks for the length of each of these files, and puts
/// them after one another.
///
/// # Errors
///
/// Those of `recover`, then those of `check_sizes`.
pub fn make_ready<D: Disk>(
    alloc: Global,
    disk: &mut D,
    journal: &FileName,
    names: &[FileName],
    lengths: &mut Vec<u64>,
) -> Result<(), OpenFault>
    requires journal { journal.now ≡ journal_name }
    requires none { lengths.old.items ≡ [] }
    ensures lengths { OnOk result (D.honest disk.new
        → AreLengths names.now lengths.new.items (contents (D.files disk.new))) }
    ensures reopens { Reopens D.Disk disk.old disk.new result }
    ensures answer { D.honest disk.new → IsAnswer (contents (D.files disk.old))
        (contents (D.files disk.new)) names.now result }
    ensures not_too_many { IsErrOf result OpenFault.TooManyFiles → ⊥ }
    ensures accounts { CountsFailures D.Disk disk.old disk.new (IsErrOf result OpenFault.Device) }
{
    recover(alloc, disk, journal)?;
    check_sizes(disk, names, lengths)
}
