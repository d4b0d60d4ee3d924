//! Why a read or a commit of a set failed.
//!
//! Why an opening failed is in `open`.
ghost use Rattle.std.specs.Prelude.{◌≡◌};
ghost use Rattle.org_fileset.specs.declared.fault.SetFault.TheVariants.{OutOfMemory, Device};

use org_disk::DiskFault;
use std::alloc::AllocError;
use thiserror::Error;

/// Why a read or a commit of a set of files failed.
#[derive(Clone, Copy, Debug, PartialEq, Eq, Error)]
pub enum SetFault {
    /// The allocator had no memory. Nothing was changed.
    #[error("out of memory")]
    OutOfMemory,
    /// A call of the disk failed. The set is broken from then on.
    #[error("a call of the disk failed")]
    Device,
    /// An earlier call met a failure of the disk. No call of the disk was made.
    #[error("broken by an earlier failure of the disk")]
    Broken,
}

impl From<AllocError> for SetFault {
    ghost from_gives = { λ _ e. e ≡ OutOfMemory };

    fn from(_: AllocError) -> SetFault {
        SetFault::OutOfMemory
    }
}

impl From<DiskFault> for SetFault {
    ghost from_gives = { λ _ e. e ≡ Device };

    fn from(_: DiskFault) -> SetFault {
        SetFault::Device
    }
}
