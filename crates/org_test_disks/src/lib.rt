//! Disks for tests: one in memory, which can be set to fail or to crash, and one that fails from
//! some call on. No program uses them.
//!
//! `MemoryDisk` keeps a record of its calls, and what it holds is what the record stands for. It is
//! proved to be as the trait `Disk` says, so a test over it finds what a crash leaves of any honest
//! disk. `Fuse` stands over another disk.
#![tactic(auto)]

mod fuse;
mod memory;

pub use fuse::Fuse;
pub use memory::{MemoryDisk, Outcome};
