//! New entries: templates filled in, and put into a text (Org manual, "Capture").
#![tactic(auto)]

mod capturing;
mod date_trees;
mod dates;
mod entries;
mod inserting;
pub mod laws;
mod made_heads;
mod piece;
mod target;
mod template;

pub use capturing::capture;
pub use entries::entry;
pub use target::Target;
pub use template::expand;
