//! Why the program doesn't run to the end of its input: what it says on standard error, and its
//! exit status.
//!
//! The texts are those of FORMATS, byte for byte.
ghost use Rattle.std.specs.Prelude.{◌≡◌};
ghost use Rattle.org_fileset.specs.declared.open.OpenFault.TheVariants.{OutOfMemory};
ghost use Rattle.org_program.specs.Causes.{listing, locking, sharing, stating};
ghost use Rattle.org_program.specs.declared.fault.Fault.TheVariants.{Open};

use org_disk::FileName;
use org_folder::{AliasFault, ListFault, Locked};
use org_outline::BadStates;
use org_serve::ServeEnd;
use org_store::OpenFault;
use std::alloc::{AllocError, AllocFailed};
use thiserror::Error;

/// Why a run of the program didn't end well. It prints as the line that the program writes to
/// standard error, without its newline.
#[derive(Debug, Drop, Error)]
pub enum Fault {
    /// The words of the command line aren't what the program takes, or ask for help: the text that
    /// says so, which may have several lines.
    #[error("{0}")]
    Usage(String),
    /// A name given by `--new` or `--only` is no file name in `.org`.
    #[error("orgstore: bad name {0}")]
    BadName(String),
    /// The states aren't ones that a store can have.
    #[error("orgstore: bad states")]
    BadStates,
    /// Another store is open on the folder.
    #[error("orgstore: open: Locked")]
    Locked,
    /// The folder is inside another store, which would list its files: the path of that one.
    #[error("orgstore: open: Inside {0}")]
    Inside(String),
    /// This name of the store's leads to the file of another one.
    #[error("orgstore: open: SameFile {0}")]
    SameFile(FileName),
    /// The journal's name leads to no plain file of the folder itself.
    #[error("orgstore: open: Linked orgstore.journal")]
    Linked,
    /// The store wasn't opened.
    #[error("orgstore: open: {0}")]
    Open(OpenFault),
    /// Serving didn't end well.
    #[error("orgstore: {0:?}")]
    Ended(ServeEnd),
}

mod status;

impl From<AllocError> for Fault {
    ghost from_gives = { λ _ fault. fault ≡ Open OutOfMemory };

    fn from(_: AllocError) -> Fault {
        Fault::Open(OpenFault::OutOfMemory)
    }
}

impl<T: Drop> From<AllocFailed<T>> for Fault {
    ghost from_gives = { λ _ fault. fault ≡ Open OutOfMemory };

    fn from(_: AllocFailed<T>) -> Fault {
        Fault::Open(OpenFault::OutOfMemory)
    }
}

impl From<ListFault> for Fault {
    ghost from_gives = { λ cause fault. fault ≡ listing cause };

    fn from(fault: ListFault) -> Fault {
        match fault {
            ListFault::Device => Fault::Open(OpenFault::Device),
            ListFault::OutOfMemory => Fault::Open(OpenFault::OutOfMemory),
        }
    }
}

impl From<org_fault::Fault<Locked>> for Fault {
    ghost from_gives = { λ cause fault. fault ≡ locking cause };

    fn from(fault: org_fault::Fault<Locked>) -> Fault {
        match fault {
            org_fault::Fault::Refused(Locked) => Fault::Locked,
            org_fault::Fault::OutOfMemory => Fault::Open(OpenFault::OutOfMemory),
        }
    }
}

impl From<AliasFault> for Fault {
    ghost from_gives = { λ cause fault. fault ≡ sharing cause };

    fn from(fault: AliasFault) -> Fault {
        match fault {
            AliasFault::SameFile(name) => Fault::SameFile(name),
            AliasFault::Linked => Fault::Linked,
            AliasFault::Unseen(cause) => Fault::from(cause),
        }
    }
}

impl From<org_fault::Fault<BadStates>> for Fault {
    ghost from_gives = { λ cause fault. fault ≡ stating cause };

    fn from(fault: org_fault::Fault<BadStates>) -> Fault {
        match fault {
            org_fault::Fault::Refused(BadStates) => Fault::BadStates,
            org_fault::Fault::OutOfMemory => Fault::Open(OpenFault::OutOfMemory),
        }
    }
}
