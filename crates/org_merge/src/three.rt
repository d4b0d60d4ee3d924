//! Which of three values a merge takes.

/// Whose value is taken.
#[derive(Clone, Copy, PartialEq, Eq)]
pub(crate) enum Taken {
    /// Ours: it alone changed it, or both have the same.
    Ours,
    /// Theirs: it alone changed it.
    Theirs,
    /// Ours, though theirs changed it otherwise.
    Either,
}

/// Whose is taken, by which of them are the same.
pub(crate) fn chosen(theirs_is_base: bool, ours_is_base: bool, sides_agree: bool) -> Taken {
    if sides_agree || theirs_is_base {
        Taken::Ours
    } else if ours_is_base {
        Taken::Theirs
    } else {
        Taken::Either
    }
}

/// Whose bytes are taken.
pub(crate) fn taken_bytes(base: &[u8], ours: &[u8], theirs: &[u8]) -> Taken {
    chosen(theirs == base, ours == base, ours == theirs)
}

/// Whose bytes are taken, where each may have none.
pub(crate) fn taken_some(base: Option<&[u8]>, ours: Option<&[u8]>, theirs: Option<&[u8]>) -> Taken {
    chosen(
        is_same(theirs, base),
        is_same(ours, base),
        is_same(ours, theirs),
    )
}

/// Whether both have the same bytes, or neither has any.
fn is_same(one: Option<&[u8]>, other: Option<&[u8]>) -> bool {
    match (one, other) {
        (Some(one), Some(other)) => one == other,
        (None, None) => true,
        _ => false,
    }
}
