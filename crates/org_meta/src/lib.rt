//! What stands below a heading: planning, properties and clocks (Org Syntax, "Headings",
//! "Planning", "Property Drawers"; Org manual, "Clocking Work Time", "Repeated tasks").
#![tactic(auto)]

mod clock;
mod clocking;
mod entry;
pub mod laws;
mod lines;
mod moments;
mod names;
mod notes;
mod parts;
mod planning;
mod properties;
mod split;
mod texts;

pub use clock::{find_open, total};
pub use clocking::{close_clock, open_clock};
pub use lines::Lines;
pub use notes::add_note;
pub use parts::Sections;
pub use planning::{clear_closed, repeat_planning, set_closed};
pub use properties::{property, put_property};
pub use split::sections;
