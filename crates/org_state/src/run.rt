//! Where a clock runs.
use org_outline::Node;
use org_splice::Span;

/// A clock that runs in a text.
#[derive(Clone, Copy)]
pub struct Running {
    /// The heading in whose section its line stands.
    pub heading: Node,
    /// Its line in the text, with the newline.
    pub line: Span,
}
