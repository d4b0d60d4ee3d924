//! Tests of the account of a merge. This crate has nothing else.
#![tactic(auto)]

#[cfg(test)]
mod account;
