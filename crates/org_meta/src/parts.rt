//! What a section is split into: planning line, property drawer, rest.
//!
//! Each part is whole lines, and the three together are the section.

use crate::lines::Lines;

/// The parts of a section, each of whole lines, which begin where the one before ends (Org Syntax,
/// "Headings").
#[derive(Clone, Copy)]
pub struct Sections<'a> {
    /// The planning line, or nothing.
    pub planning: Lines<'a>,
    /// The property drawer, from `:PROPERTIES:` to `:END:`, or nothing.
    pub drawer: Lines<'a>,
    pub rest: Lines<'a>,
}
