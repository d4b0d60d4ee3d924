//! What a user calls a heading: a text, and the path that it may be.
//!
//! The text is folded once, since it is compared with the titles of all headings.
ghost use Rattle.std.specs.Prelude.{◌≡◌, IfOk};
ghost use Rattle.orgs_folding.specs.Folding.{folded};
ghost use Rattle.orgs_names.specs.Called.{folded_titles};

use org_outline::{Path, Step};
use org_splice::Bytes;
use orgs_folding::folded;
use std::alloc::{AllocError, Global};
use std::marker::Model;

/// A name of a heading. A clause sees its text and its path.
#[derive(Drop)]
pub struct Name {
    text: Bytes,
    // the text, folded
    in_any_case: Bytes,
    path: Path,
    // its titles, folded
    titles: Vec<Bytes>,
}

impl Model for Name {
    ghost use Rattle.orgs_names.specs.Called.{Called};

    ghost Value = { Called };

    ghost use Rattle.std.specs.Prelude.{◌≡◌};
    ghost use Rattle.orgs_folding.specs.Folding.{folded};
    ghost use Rattle.orgs_names.specs.Called.{folded_titles};

    ghost view = { λ n. record { text = n.text; path = n.path } };

    ghost invariant = { λ n. (n.in_any_case ≡ folded n.text)
        × (n.titles.items ≡ folded_titles n.path) };
}

/// The titles of steps, folded.
fn folded_titles(alloc: Global, path: &[Step]) -> Result<Vec<Bytes>, AllocError>
    ensures { IfOk result (λ titles. titles.items ≡ folded_titles path.now) }
{
    let mut titles = Vec::new(alloc);
    for step in path {
        titles.push(Bytes::new(folded(alloc, step.title.as_slice())?))?;
    }
    Ok(titles)
}

impl Name {
    /// The name that is this text, and the path that the text is, of no step where it is none.
    ///
    /// # Errors
    ///
    /// `AllocError`.
    pub fn new(alloc: Global, text: Bytes, path: Path) -> Result<Name, AllocError>
        ensures { IfOk result (λ name. name ≡ record { text = text; path = path }) }
    {
        let in_any_case = Bytes::new(folded(alloc, text.as_slice())?);
        let titles = folded_titles(alloc, path.as_slice())?;
        Ok(Name {
            text,
            in_any_case,
            path,
            titles,
        })
    }

    /// The text.
    pub fn text(&self) -> &[u8]
        ensures { result.now ≡ self.now.text }
    {
        self.text.as_slice()
    }

    /// The text, folded.
    pub(crate) fn folded(&self) -> &[u8]
        ensures { result.now ≡ folded self.now.text }
    {
        self.in_any_case.as_slice()
    }

    /// The steps of the path.
    pub(crate) fn path(&self) -> &[Step]
        ensures { result.now ≡ self.now.path }
    {
        self.path.as_slice()
    }

    /// The titles of the path, folded.
    pub(crate) fn titles(&self) -> &[Bytes]
        ensures { result.now ≡ folded_titles self.now.path }
    {
        self.titles.as_slice()
    }
}
