//! A three-way merge of folders of Org files, as trees of headings across files.
#![tactic(auto)]

mod accounted;
mod clock;
mod drawer;
mod event;
mod file;
mod folder;
mod heading;
mod identity;
mod ids;
mod items;
mod keys;
mod kids;
mod laying;
mod lists;
mod merged;
mod merging;
mod order;
mod own;
mod pairs;
mod pieces;
mod planning;
mod reading;
mod table;
mod text;
mod texts;
mod three;

pub use accounted::{Merged, NotMerged, check, merge};
pub use file::{Made, Source};
