//! A folder of files as a disk, over the calls of a system.
//!
//! `CallsDisk` meets org_disk's `Disk` over any `System`, and is honest where each answer in their
//! record was right. `FolderDisk` is the one over the operating system's.
//!
//! For a real folder that is a premise, since no contract says what a real file gives. The records
//! of steps and of calls stand in proofs alone and take no memory. Their functions are proved by
//! hand, as no code can set a record; so what each method of `HostCalls` notes has to be read
//! against the call that it makes, and no other proof by hand may set a record.
#![tactic(auto)]

mod aliases;
mod calls;
mod disk;
mod folder;
pub mod laws;
mod list;
mod lock;
mod record;
mod start;
mod system;

pub use aliases::{AliasFault, Node, check_aliases};
pub use calls::{Calls, HostCalls, Locks};
pub use disk::{CallsDisk, FolderDisk, HostSystem};
pub use list::{ListFault, org_file, org_files};
pub use lock::Locked;
pub use start::{Start, Unknown};
pub use system::{CallsSystem, Found, Opened, System};
