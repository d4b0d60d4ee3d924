//! Paths that values of other types hold: lists of steps.
//!
//! Any title and any number is a step; which heading it means is a matter of the text.
ghost use Rattle.std.specs.Prelude.{◌≡◌};

use org_splice::Bytes;
use std::marker::Model;

/// A step of a path: a title, or a title and which of the headings with it is meant.
#[derive(Drop)]
pub struct Step {
    /// The title of the heading.
    pub title: Bytes,
    /// Where it is n, the n-th heading with that title is meant, in the order of the text and
    /// counted from 1; none has the number 0. Without a number the only one is meant.
    pub number: Option<u32>,
}

/// A path: a list of steps, which a clause sees as such.
#[derive(Drop)]
pub struct Path {
    steps: Vec<Step>,
}

impl Model for Path {
    ghost use Rattle.std.specs.Prelude.{List};
    ghost use Rattle.org_outline.specs.declared.steps.Step.{Step};

    ghost Value = { List Step };

    ghost view = { λ path. path.steps.items };
}

impl Path {
    /// The path of these steps. Takes no memory.
    pub fn new(steps: Vec<Step>) -> Path
        ensures { result ≡ steps.items }
    {
        Path { steps }
    }

    /// The steps, as [`Outline::find`](crate::Outline::find) takes them.
    pub fn as_slice(&self) -> &[Step]
        ensures { result.now ≡ self.now }
    {
        self.steps.as_slice()
    }
}
