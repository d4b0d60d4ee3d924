//! The commands of a store: what each of them does to the texts of its files.
//!
//! What a store has done is a `Session` (specs/Session.antt): the texts of all its files,
//! and how many commands were accepted and acknowledged. A command is a `Change`, a `Question` or
//! the settling: a change of `Files` has a plan (`plan`) of edits in memory, and a question an
//! answer (`answer`). One relation says what each of them does to the session (`Step`,
//! specs/Step.antt).
//!
//! A command reads the files that it names, and is planned on their held texts; the planner of each
//! stands under `commands`. What accepts commands and puts texts on the disk is a store
//! (org_store).
#![tactic(auto)]

mod command;
mod commands;
mod files;
mod notes;
mod searches;
mod tally;

pub use command::{
    Archive, Capture, Change, ClockIn, Command, Edit, Question, Refile, Reply, RunFault, TextOf,
    Todo,
};
pub use commands::{answer, plan};
pub use files::Files;
pub use org_fault::Refusal;
pub use tally::{Group, Tally};
