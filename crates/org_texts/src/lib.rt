//! Texts of files, held in memory and edited in place: what a store has of its files. No disk is in
//! it.
//!
//! While a command runs, each text also is what it was before the command. `keep` makes the
//! command's edits the texts', `undo` takes them back; neither takes memory, and neither can fail.
#![tactic(auto)]

mod held;
pub mod laws;
mod plan;
mod texts;

pub use held::Held;
pub use plan::{Edits, FileEdits, NameOf, Plan};
pub use texts::Texts;
