//! Disks that hold files by name, and what a crash may leave of them.
//!
//! The trait `Disk` says what each call does to the content of a file, and to its images: what a
//! crash at that moment, or within the call, may leave of it. org_folder has the disk of a real
//! folder, org_test_disks those of tests. What every call over a disk says is said once, in
//! `specs/CountsFailures`. Lemmas for callers are public in `proofs/`: `Moments` (one run after
//! another), `Accounting` (their accounts), `Images` and `Back` (what a call leaves), `Ranges`
//! (what was written), `Names`; bytes written over a text are org_splice's. `laws` has what follows
//! for all values.
#![tactic(auto)]

mod disk;
pub mod laws;
mod name;

pub use disk::{Disk, DiskFault, Standing};
pub use name::{BadName, FileName, folder_of};
