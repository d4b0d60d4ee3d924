//! Tests of the crates that know texts and no disk. This crate has nothing else.
#![tactic(auto)]

#[cfg(test)]
mod meta;
#[cfg(test)]
mod outline;
#[cfg(test)]
mod shared;
#[cfg(test)]
mod splice;
#[cfg(test)]
mod stamp;
#[cfg(test)]
mod texts;
