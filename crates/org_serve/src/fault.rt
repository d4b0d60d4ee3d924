//! The fault of a line.
use thiserror::Error;

/// It is no command line, or longer than 1,048,576 bytes, or its newline is missing.
#[derive(Clone, Copy, Debug, PartialEq, Eq, Error)]
#[error("bad line")]
pub struct BadLine;
