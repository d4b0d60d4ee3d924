//! The headings of Org texts as lines: where each begins, its level, and how its title can begin.
//!
//! [`Heads`] has them in document order, and follows the edits of their text. It knows no tree:
//! what lies below what is a matter of org_outline.
#![tactic(auto)]

mod beginnings;
mod heads;
mod text;

pub use beginnings::{Beginning, Beginnings, Sought, count_others};
pub use heads::{
    Heading, Heads, count_before_digit, deeper_count, first_start, last_above, lowest_level,
    next_start, starts_before,
};
pub use text::{heading_level, is_terminated, line_end, star_count};
