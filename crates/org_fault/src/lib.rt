//! Why a call did nothing: faults of memory, and the refusals of the store.
#![tactic(auto)]

mod fault;
mod refusal;

pub use fault::Fault;
pub use refusal::Refusal;
