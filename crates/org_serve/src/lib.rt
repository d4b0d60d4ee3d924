//! Command lines in, replies out: how input is cut into lines, whatever pieces it comes in, and
//! what is written for each line.
#![tactic(auto)]

mod counted;
mod end;
mod fault;
mod field;
pub mod laws;
mod lines;
mod moment;
mod names;
mod pending;
mod pipes;
mod reading;
mod replies;
mod serving;
mod syncing;
mod whole;

pub use counted::Counted;
pub use end::ServeEnd;
pub use fault::BadLine;
pub use names::file_names;
pub use pipes::{PipeFault, Sink, Source};
pub use reading::read_command;
pub use serving::serve;
pub use syncing::sync_files;
pub use whole::{Served, Setup, serve_synced};
