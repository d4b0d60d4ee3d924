//! Tests of the crates that know a store: org_store and org_serve. This crate has nothing else.
#![tactic(auto)]

#[cfg(test)]
mod serve;
#[cfg(test)]
mod shared;
#[cfg(test)]
mod store;
