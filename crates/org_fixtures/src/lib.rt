//! What the tests of several crates share: names of files, disks in memory that hold files,
//! journals byte for byte, and the ways in which a crash leaves a disk. No other crate uses it.
#![tactic(auto)]

mod disks;
mod journals;
mod names;

pub use disks::{OUTCOMES, bytes_of, disk_with, two_files};
pub use journals::{NEW, NEWEST, OLD, TEXT};
pub use names::{file_name, numbered_names, org_names};
