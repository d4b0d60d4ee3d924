//! Lists of headings: which ones a list has, and the rows that it prints.
#![tactic(auto)]

mod file;
mod file_tags;
mod filter;
mod headings;
mod hits;
mod inherited;
mod listing;
mod paths;
mod properties;
mod rows;

pub use file::File;
pub use file_tags::read_file_tags;
pub use filter::{Filter, Property};
pub use hits::{Hit, find_hit};
pub use listing::wanted;
pub use paths::push_path;
pub use rows::{Look, place_len, push_headline, push_place, push_porcelain, push_row, push_shown};
