//! The headings of a file as people name them: by their lines, and by their paths.
//!
//! [`Entries`] has of each heading what a list or a name needs and org_outline doesn't keep: its
//! line, its parent, and its number among its twins, the headings of one title below one parent.
#![tactic(auto)]

mod entries;
mod lines;
mod parents;
mod twins;

pub use entries::Entries;
