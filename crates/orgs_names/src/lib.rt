//! Which heading a name on the command line means.
#![tactic(auto)]

mod choosing;
mod ends;
mod fitting;
mod name;
mod naming;

pub use choosing::{Choice, choose};
pub use fitting::Way;
pub use name::Name;
pub use naming::{Place, named};
