//! What a list reads of a heading: its line and its section.
ghost use Rattle.std.specs.Prelude.{◌≡◌, ◌<◌};
ghost use Rattle.org_splice.specs.Lines.{print_lines};
ghost use Rattle.org_outline.specs.Parts.{AreParts};
ghost use Rattle.org_outline.specs.Tree.{node_at, node_count, tree};
ghost use Rattle.orgs_lists.specs.Filters.{parts_at};

use org_meta::Lines;
use org_outline::{HeadParts, States};
use orgs_entries::Entries;

/// The states of a file.
pub(crate) fn states<'e>(entries: &'e Entries<'_>) -> &'e States
    ensures { result.now ≡ entries.now.states }
{
    entries.outline().states()
}

/// The parts of a heading's line.
pub(crate) fn parts<'a>(entries: &Entries<'a>, index: usize) -> HeadParts<'a>
    requires { index < node_count (tree entries.now.text) }
    ensures { AreParts result (parts_at entries.now.states (tree entries.now.text) index) }
{
    let outline = entries.outline();
    outline.parts(outline.node(index))
}

/// The lines between a heading and the next one.
pub(crate) fn section<'a>(entries: &Entries<'a>, index: usize) -> Lines<'a>
    requires { index < node_count (tree entries.now.text) }
    ensures { result.bytes.now
        ≡ print_lines (node_at (tree entries.now.text) index).node.section }
{
    let outline = entries.outline();
    let span = outline.section(outline.node(index));
    let bytes = &outline.text()[span.start..span.end];
    Lines { bytes }
}
