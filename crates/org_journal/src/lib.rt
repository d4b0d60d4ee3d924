//! The journal of a store: its record, as bytes and as a value, and its gate.
//!
//! What a call asks of a disk's files is asked of an honest disk alone. What is said of the files,
//! of texts read from them, and of what a crash leaves, is said where the disk is honest as the
//! call ends.
#![tactic(auto)]

mod decoding;
mod encoding;
mod fault;
mod fields;
mod finding;
mod gate;
pub mod laws;
mod left;
mod reading;
mod record;

pub use decoding::decode;
pub use fault::{FindFault, Malformed};
pub use fields::GREATEST_LENGTH;
pub use finding::{FRONT, Found, all_fit, find};
pub use gate::{
    arm, close_gate, is_open, mark, open_gate, prepare, write_gate_again, write_record_again,
};
pub use left::is_left;
pub use reading::well_formed;
pub use record::{Before, Entry, MOST_CONTEXT, Patches, Record};
