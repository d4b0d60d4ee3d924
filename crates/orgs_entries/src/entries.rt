//! The headings of a text, each with its line, its parent and its number among its twins.
//!
//! All three are read once, each in one pass, since a list asks for them of every heading.
ghost use Rattle.std.specs.Prelude.{◌≡◌, ◌<◌, IfOk, IfSome, Some, reverse};
ghost use Rattle.org_outline.specs.Tree.{node_count, parent_of, tree};
ghost use Rattle.org_outline.specs.declared.steps.Step.{Step};
ghost use Rattle.orgs_entries.specs.Lines.{line_of};
ghost use Rattle.orgs_entries.specs.Paths.{has_step, leads};
ghost use Rattle.orgs_entries.specs.Twins.{has_twins, number_of, title_at};

use crate::lines::read_lines;
use crate::parents::read_parents;
use crate::twins::{Families, number_all, read_twins};
use org_outline::{Node, Outline, Step};
use std::alloc::{AllocError, Global};
use std::marker::Model;

/// The headings of a terminated text. A clause sees the text and the states, as it does of the
/// outline.
///
/// A heading is named by its number in document order, from 0 to one less than
/// [`count`](Entries::count).
#[derive(Drop)]
pub struct Entries<'a> {
    outline: Outline<'a>,
    lines: Vec<usize>,
    parents: Vec<Option<usize>>,
    numbers: Vec<usize>,
    twins: Vec<bool>,
}

impl<'a> Model for Entries<'a> {
    ghost use Rattle.org_outline.specs.Source.{Source};

    ghost Value = { Source };

    ghost use Rattle.std.specs.Prelude.{◌≡◌};
    ghost use Rattle.org_outline.specs.Tree.{tree};
    ghost use Rattle.orgs_entries.specs.Lines.{lines_of_headings};
    ghost use Rattle.orgs_entries.specs.Twins.{numbers_of, parents_of, twins_of};

    ghost view = { λ e. e.outline };

    ghost invariant = { λ e. (e.lines.items ≡ lines_of_headings e.outline.text)
        × (e.parents.items ≡ parents_of (tree e.outline.text))
        × (e.numbers.items ≡ numbers_of e.outline.states (tree e.outline.text))
        × (e.twins.items ≡ twins_of e.outline.states (tree e.outline.text)) };
}

impl<'a> Entries<'a> {
    /// Reads the headings of an outline.
    ///
    /// # Errors
    ///
    /// `AllocError`.
    pub fn read(alloc: Global, outline: Outline<'a>) -> Result<Entries<'a>, AllocError>
        ensures { IfOk result (λ entries. entries ≡ outline.entry) }
    {
        let lines = read_lines(alloc, &outline)?;
        let parents = read_parents(alloc, &outline)?;
        let mut families = Families::new(alloc);
        let numbers = number_all(alloc, &outline, &parents, &mut families)?;
        let twins = read_twins(alloc, &outline, &parents, &families)?;
        Ok(Entries {
            outline,
            lines,
            parents,
            numbers,
            twins,
        })
    }

    /// The outline that they were read from.
    pub fn outline(&self) -> &Outline<'a>
        ensures { result.now ≡ self.now }
    {
        &self.outline
    }

    /// How many headings there are.
    pub fn count(&self) -> usize
        ensures { result ≡ node_count (tree self.now.text) }
    {
        self.outline.count()
    }

    /// The heading with this number, as an outline takes it.
    pub fn node(&self, index: usize) -> Node
        requires { index < node_count (tree self.now.text) }
        ensures { result ≡ index }
    {
        self.outline.node(index)
    }

    /// The title of a heading.
    pub fn title(&self, index: usize) -> &'a [u8]
        requires { index < node_count (tree self.now.text) }
        ensures { result.now ≡ title_at self.now.states (tree self.now.text) index }
    {
        self.outline.parts(self.outline.node(index)).title
    }

    /// The line of a heading in its file, counted from 1 as editors count.
    pub fn line(&self, index: usize) -> usize
        requires { index < node_count (tree self.now.text) }
        ensures { result ≡ line_of self.now.text index }
    {
        self.lines[index]
    }

    /// The heading that a heading is a child of; none at top level.
    pub fn parent(&self, index: usize) -> Option<usize>
        requires { index < node_count (tree self.now.text) }
        ensures value { result ≡ parent_of (tree self.now.text) index }
        ensures within { IfSome result (λ up. up < node_count (tree self.now.text)) }
    {
        self.parents[index]
    }

    /// The number of a heading among its twins, in the order of the text and counted from 1.
    pub fn number(&self, index: usize) -> usize
        requires { index < node_count (tree self.now.text) }
        ensures { result ≡ number_of self.now.states (tree self.now.text) index }
    {
        self.numbers[index]
    }

    /// Whether another heading below the same parent has the same title, so that a path needs the
    /// number.
    pub fn has_twins(&self, index: usize) -> bool
        requires { index < node_count (tree self.now.text) }
        ensures { result ≡ has_twins self.now.states (tree self.now.text) index }
    {
        self.twins[index]
    }

    /// Whether a heading has the title of a step, and its number where it has one.
    fn has_step(&self, step: &Step, index: usize) -> bool
        requires { index < node_count (tree self.now.text) }
        ensures { result ≡ has_step self.now.states (tree self.now.text) step.now index }
    {
        if !self
            .outline
            .has_title(self.outline.node(index), step.title.as_slice())
        {
            return false;
        }
        match step.number {
            Some(number) => self.numbers[index] == number as usize,
            None => true,
        }
    }

    /// Whether a path leads to a heading: its last step is the heading's, the one before it that of
    /// the heading's parent, and so on up to the first, which is that of a heading at top level. A
    /// step without a number is that of each of its twins.
    pub fn is_led_to(&self, path: &[Step], index: usize) -> bool
        requires { index < node_count (tree self.now.text) }
        ensures { result
            ≡ leads self.now.states (tree self.now.text) (reverse path.now) (Some index) }
    {
        let mut left = path.len();
        let mut at = Some(index);
        while left > 0 {
            left -= 1;
            let Some(index) = at else {
                return false;
            };
            if !self.has_step(&path[left], index) {
                return false;
            }
            at = self.parents[index];
        }
        at.is_none()
    }
}
