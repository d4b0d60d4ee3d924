//! Edited texts, and their patches.
mod blanks;
mod random;
mod texts;
