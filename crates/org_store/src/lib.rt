//! A store of Org files: commands over all files, one at a time, each of them one step.
//!
//! What a store has done is a `Session` (org_commands): the texts of all its files, and how
//! many commands were accepted and acknowledged. One relation says what a call does to it: `Step`
//! for `run` and `Settles` for `settle`. `laws` says what one call after another does.
#![tactic(auto)]

mod changing;
pub mod laws;
mod store;

pub use org_commands::{
    Archive, Capture, Change, ClockIn, Command, Edit, Group, Question, Refile, Refusal, Reply,
    RunFault, TextOf, Todo,
};
pub use org_fileset::{OpenFault, OpenRefused};
pub use store::Store;
