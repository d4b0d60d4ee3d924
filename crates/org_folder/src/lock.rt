//! The lock by which one store at a time is open on a folder.
//!
//! It is the system's advisory lock on the folder itself: no file is made, and a process that ends
//! has none. It keeps off this program alone.
ghost use Rattle.std.specs.Prelude.{◌≡◌};
ghost use Rattle.org_folder.specs.Locks.{held};

use org_fault::Fault;
use std::fs::TryLockError;
use thiserror::Error;

/// Another store is open on the folder.
#[derive(Clone, Copy, Debug, PartialEq, Eq, Error)]
#[error("another store is open on the folder")]
pub struct Locked;

// What is held of a folder that was opened, by what the system answered to the try to lock it.
pub(crate) fn held<F: Drop>(
    folder: F,
    tried: Result<(), TryLockError>,
) -> Result<Option<F>, Fault<Locked>>
    ensures { result ≡ held folder tried }
{
    match tried {
        Ok(()) => Ok(Some(folder)),
        Err(TryLockError::WouldBlock) => Err(Fault::Refused(Locked)),
        Err(TryLockError::Error(_)) => Ok(None),
    }
}
