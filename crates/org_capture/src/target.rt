//! Where entries go, as a value: steps and paths, no places.
use org_outline::{Path, Step};

/// What a new entry goes below (Org manual, "Template elements": target).
#[derive(Drop)]
pub enum Target {
    /// Nothing: it is at top level.
    Top,
    /// The heading that this step means, at any level. Where the step has no number and there is no
    /// heading with its title, one is made at level 1 at the file's end.
    Head(Step),
    /// The heading at this path.
    Path(Path),
    /// The heading of the moment's day, in a date tree below the heading at this path, or at top
    /// level where the path is empty (target `file+olp+datetree`). What of it is missing is made.
    Date(Path),
}
