//! Text looked at without regard to case, as people type it.
#![tactic(auto)]

mod folding;

pub use folding::{contains, folded};
