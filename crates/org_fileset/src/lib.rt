//! The files of a store as one: a commit of several files is all or nothing.
//!
//! What a call asks of a disk's files is asked of an honest disk alone. What is said of the files,
//! of texts read from them, and of what a crash leaves, is said where the disk is honest as the
//! call ends.
#![tactic(auto)]

mod apply;
mod commit;
mod entries;
mod fault;
pub mod laws;
mod lengths;
mod names;
mod open;
mod recover;
mod set;
mod trying;

pub use fault::SetFault;
pub use names::{in_order, with_archives};
pub use open::{MOST_NAMES, OpenFault, OpenRefused};
pub use recover::forget;
pub use set::{FileSet, LIMIT};
