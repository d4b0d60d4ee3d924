//! Subtrees moved to other headings, within a text or from one text into another (Org manual,
//! "Refile and Copy"), and subtrees archived (Org manual, "Archiving").
//!
//! A call only says what is to be done: it answers the edits of the texts, and changes nothing.
#![tactic(auto)]

mod archiving;
mod destination;
mod inherited;
pub mod laws;
mod locating;
mod place;
mod properties;
mod refile;
mod subtree;
mod target;

pub use archiving::{archive, archive_within};
pub use destination::Location;
pub use locating::location_searched;
pub use refile::{refile_across, refile_within};
