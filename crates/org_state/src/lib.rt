//! Changes of TODO states, with closing and repeated tasks, and clocks (Org manual, "TODO Items",
//! "Repeated tasks", "Clocking Work Time").
//!
//! A call only says what is to be done: it answers the edits of a text, and changes nothing.
#![tactic(auto)]

mod changing;
mod clocks;
mod keyword;
pub mod laws;
mod own;
mod run;

pub use changing::todo;
pub use clocks::{clock_in, clock_out, clocked, running, search, switch_clock};
pub use run::Running;
