//! The program: its arguments, the names and states that a store is opened with, a whole run over a
//! folder, and what is reported where it doesn't end well.
//!
//! It is a library, and `orgstore` calls its `run`: a program is checked with the code of all
//! libraries that it reaches, so it is to be small.
#![tactic(auto)]

mod arguments;
mod fault;
mod names;
mod program;
mod states;
mod streams;

pub use arguments::{Arguments, Recovery, given_words};
pub use fault::Fault;
pub use org_folder::{HostSystem, Unknown};
pub use program::{Ran, Unserved, run};
pub use streams::{input, output};
