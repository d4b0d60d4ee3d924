//! The examples of doc comments. This crate has nothing else.
//!
//! The comment of a test is the path of the function, and the lines after `// Shown:` are those of
//! its example, up to `// Not shown:` or the last `Ok(())`: `tests/repository/doc_examples` compares them. In
//! an example `rt` is the runtime, and `alloc` its allocator. Expected values come from the Org
//! manual, docs/MODEL.md and docs/FORMATS.md.
#![tactic(auto)]

#[cfg(test)]
mod shared;
#[cfg(test)]
mod stores;
#[cfg(test)]
mod texts;
