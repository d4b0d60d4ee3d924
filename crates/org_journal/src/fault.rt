//! Why a record was not read, or not found.
//!
//! Faults of memory and of the disk come by `?`.
ghost use Rattle.std.specs.Prelude.{◌≡◌};

use org_disk::DiskFault;
use std::alloc::AllocError;
use thiserror::Error;

/// The bytes don't begin with those of a well-formed record.
#[derive(Clone, Copy, Debug, PartialEq, Eq, Error)]
#[error("malformed record")]
pub struct Malformed;

/// Why nothing can be said of a journal on a disk.
#[derive(Clone, Copy, Debug, Error)]
pub enum FindFault {
    /// The gate is open, but no well-formed record that fits its files stands after it.
    #[error("bad journal")]
    BadJournal,
    /// A call of the disk failed.
    #[error("device failure")]
    Device,
    /// The allocator had no memory.
    #[error("out of memory")]
    OutOfMemory,
}

impl From<DiskFault> for FindFault {
    ghost use Rattle.org_journal.specs.declared.fault.FindFault.TheVariants.{Device};

    ghost from_gives = { λ _ e. e ≡ Device };

    fn from(_e: DiskFault) -> FindFault {
        FindFault::Device
    }
}

impl From<AllocError> for FindFault {
    ghost use Rattle.org_journal.specs.declared.fault.FindFault.TheVariants.{OutOfMemory};

    ghost from_gives = { λ _ e. e ≡ OutOfMemory };

    fn from(_e: AllocError) -> FindFault {
        FindFault::OutOfMemory
    }
}
