//! Why nothing was merged: what the program says on standard error.
use org_merge::NotMerged;
use std::alloc::{AllocError, AllocFailed};
use std::io;
use thiserror::Error;

/// Why nothing was merged, or not all was written. It prints as what the program writes to standard
/// error, without its newline.
#[derive(Debug, Drop, Error)]
pub(crate) enum Fault {
    /// The words of the command line aren't what the program takes, or ask for help.
    #[error("{0}")]
    Usage(String),
    /// The states aren't ones that headings can have.
    #[error("orgmerge: bad states")]
    BadStates,
    /// A folder or a file can't be read.
    #[error("orgmerge: {0} can't be read: {1}")]
    Unread(String, io::Error),
    /// The folder of the result holds something.
    #[error("orgmerge: {0} isn't empty")]
    NotEmpty(String),
    /// A file of the result can't be written.
    #[error("orgmerge: {0} can't be written: {1}; the result isn't whole")]
    Unwritten(String, io::Error),
    /// The report can't be written.
    #[error("orgmerge: the report can't be written")]
    Output,
    /// The merge, or the result that is checked, has no account.
    #[error("orgmerge: not merged: {0}")]
    NotMerged(NotMerged),
    /// There is no memory.
    #[error("orgmerge: out of memory")]
    Memory,
}

impl From<AllocError> for Fault {
    fn from(_why: AllocError) -> Fault {
        Fault::Memory
    }
}

impl<T: Drop> From<AllocFailed<T>> for Fault {
    fn from(_why: AllocFailed<T>) -> Fault {
        Fault::Memory
    }
}

impl From<NotMerged> for Fault {
    fn from(why: NotMerged) -> Fault {
        match why {
            NotMerged::Memory => Fault::Memory,
            other => Fault::NotMerged(other),
        }
    }
}
