//! The account of a merge of folders: whether a table, which says which units are one, and a report
//! show that the merge lost and doubled nothing. Whoever made them and the result need not be
//! trusted. This crate makes no merge, and it may refuse one that is right.
#![tactic(auto)]

mod account;
mod checking;
mod deletions;
mod folders;
mod heading;
mod in_order;
mod lines;
mod order;
mod placed;
mod refused;
mod report;
mod rows;
mod rules;
mod seen;
mod table;
mod union;
mod units;

pub use account::{FourFiles, check_merge};
pub use refused::Refused;
pub use table::{Folder, Row};
pub use units::{File, Unit, read_units};
