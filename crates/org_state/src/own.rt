//! A heading's own lines: its line and its section. Edits of them, as edits of its text.
ghost use Rattle.std.specs.Prelude.{◌≡◌, ◌<◌, ◌≤◌, ◌+◌, length, IfOk, []};
ghost use Rattle.org_splice.specs.Lines.{terminated, lines_of, print_lines};
ghost use Rattle.org_meta.specs.Sections.{joined, parts_of};
ghost use Rattle.org_outline.specs.Tree.{node_count, tree};
ghost use Rattle.org_state.specs.Keyword.{with_keyword};
ghost use Rattle.org_state.specs.Edits.{section_start, moved, EditsRest};
ghost use Rattle.org_state.specs.Todo.{own_at};

use crate::keyword::set_keyword;
use org_meta::{Lines, sections};
use org_outline::{Node, Outline};
use org_splice::Edit;
use std::alloc::{AllocError, Global};

/// The own lines of a heading of an outline.
#[derive(Drop)]
pub(crate) struct OwnLines<'o, 't> {
    pub outline: &'o Outline<'t>,
    pub node: Node,
    pub ghost within: { node < node_count (tree outline.now.text) },
}

impl<'t> OwnLines<'_, 't> {
    /// The lines of the section.
    pub(crate) fn section(&self) -> Lines<'t>
        ensures bytes { let own = own_at (tree self.now.outline.now.text) self.now.node in
            result.bytes.now ≡ print_lines own.section }
        ensures lines { let own = own_at (tree self.now.outline.now.text) self.now.node in
            lines_of result.bytes.now ≡ own.section }
        ensures whole { terminated self.now.outline.now.text ≡ self.now.outline.now.text }
    {
        let span = self.outline.section(self.node);
        let bytes = &self.outline.text()[span.start..span.end];
        Lines { bytes }
    }

    /// An edit of the section, as an edit of the text.
    pub(crate) fn in_section(&self, edit: Edit) -> Edit
        requires { let own = own_at (tree self.now.outline.now.text) self.now.node in
            edit.at + edit.removed ≤ length (print_lines own.section) }
        ensures { let d = tree self.now.outline.now.text in
            result ≡ moved (section_start d self.now.node) edit }
    {
        let span = self.outline.section(self.node);
        Edit {
            at: span.start + edit.at,
            removed: edit.removed,
            bytes: edit.bytes,
        }
    }

    /// The edit of the text that gives the heading another keyword, or none.
    pub(crate) fn keyword_edit(&self, alloc: Global, word: &[u8]) -> Result<Edit, AllocError>
        ensures edits { let d = tree self.now.outline.now.text in
            IfOk result (λ edit. EditsRest edit d self.now.node
            (with_keyword self.now.outline.now.states word.now (own_at d self.now.node).rest)) }
        ensures terminated { terminated self.now.outline.now.text ≡ self.now.outline.now.text }
    {
        let rest = self.outline.rest(self.node);
        let start = self.outline.section(self.node).start - 1 - rest.len();
        let end = self.outline.text().len();
        prove!(start < end);
        let edit = set_keyword(alloc, self.outline.states(), rest, word)?;
        Ok(Edit {
            at: start + edit.at,
            removed: edit.removed,
            bytes: edit.bytes,
        })
    }
}

/// The planning line and the property drawer of a section.
pub(crate) fn above_rest(section: Lines<'_>) -> Lines<'_>
    ensures { result.bytes.now
        ≡ print_lines (joined (record (parts_of section.entry.bytes.now) { rest = [] })) }
{
    let rest = sections(section).rest;
    let count = section.bytes.len() - rest.bytes.len();
    Lines {
        bytes: section.bytes.split_at(count).0,
    }
}
