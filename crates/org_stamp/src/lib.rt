//! Moments, and Org's timestamps with their repeaters (Org Syntax, "Timestamps"; Org manual,
//! "Repeated tasks").
#![tactic(auto)]

mod calendar;
mod durations;
mod inside;
mod kind;
pub mod laws;
mod moment;
mod part;
mod stamp;
mod steps;
mod text;

pub use durations::duration;
pub use moment::Moment;
pub use stamp::Stamp;
