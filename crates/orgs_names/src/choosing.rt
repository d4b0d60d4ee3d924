//! Whether a name denotes a heading.
ghost use Rattle.orgs_names.specs.Naming.{Chooses};

use crate::naming::Place;

/// What a name that means some headings denotes.
#[derive(Debug, Drop)]
pub enum Choice {
    /// Nothing: it means no heading.
    None,
    /// The only heading that it means.
    One(Place),
    /// Nothing: it means all of these, which a caller lists.
    Several(Vec<Place>),
}

/// What a name denotes that means these headings.
pub fn choose(places: Vec<Place>) -> Choice
    ensures { Chooses places.items result }
{
    match places.as_slice() {
        [] => Choice::None,
        [place] => Choice::One(*place),
        _ => Choice::Several(places),
    }
}
