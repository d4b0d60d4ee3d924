//! The units of a folder.
ghost use Rattle.std.specs.Prelude.{◌≡◌, ◌++◌, ◌+◌, ◌^◌, IfOk, OnOk, ◌<◌, map, vec_len};
ghost use Rattle.std.specs.List.{range_with_len};
ghost use Rattle.org_splice.specs.Lines.{terminated, print_lines};
ghost use Rattle.org_outline.specs.Tree.{tree, node_at, node_count};
ghost use Rattle.org_account.specs.Units.{units_of, entry_unit};

use org_outline::{Node, Outline, States};
use std::alloc::{AllocError, Global};
use std::marker::Model;

/// A file of a folder. A clause sees its name and its text, which is terminated.
#[derive(Drop)]
pub struct File<'a> {
    name: &'a [u8],
    text: &'a [u8],
}

impl<'a> Model for File<'a> {
    ghost use Rattle.org_account.specs.Units.{File};

    ghost Value = { File };

    ghost use Rattle.std.specs.Prelude.{◌≡◌};
    ghost use Rattle.org_splice.specs.Lines.{terminated};

    ghost view = { λ f. record { name = f.name.now; text = f.text.now } };

    ghost invariant = { λ f. terminated f.text.now ≡ f.text.now };
}

/// A file or an entry. A clause sees what it stands below and how much deeper, its line and its
/// section.
#[derive(Drop)]
pub struct Unit<'a> {
    above: Option<usize>,
    step: usize,
    line: &'a [u8],
    section: &'a [u8],
}

impl<'a> Model for Unit<'a> {
    ghost use Rattle.org_account.specs.Units.{Unit};

    ghost Value = { Unit };

    ghost view = { λ u. record {
      above = u.above;
      step = u.step;
      line = u.line.now;
      section = u.section.now;
    } };
}

impl<'a> File<'a> {
    /// A file with a terminated text.
    pub fn new(name: &'a [u8], text: &'a [u8]) -> File<'a>
        requires { terminated text.now ≡ text.now }
        ensures { (result.name ≡ name.now) × (result.text ≡ text.now) }
    {
        File { name, text }
    }

    /// Its text.
    fn text(&self) -> &'a [u8]
        ensures value { result.now ≡ self.now.text }
        ensures terminated { terminated self.now.text ≡ self.now.text }
    {
        self.text
    }

    /// Its name.
    fn name(&self) -> &'a [u8]
        ensures { result.now ≡ self.now.name }
    {
        self.name
    }
}

impl<'a> Unit<'a> {
    /// The unit that it stands below.
    pub fn above(&self) -> Option<usize>
        ensures { result ≡ self.now.above }
    {
        self.above
    }

    /// How much deeper it stands than its parent.
    pub fn step(&self) -> usize
        ensures { result ≡ self.now.step }
    {
        self.step
    }

    /// Its line.
    pub fn line(&self) -> &'a [u8]
        ensures { result.now ≡ self.now.line }
    {
        self.line
    }

    /// Its section.
    pub fn section(&self) -> &'a [u8]
        ensures { result.now ≡ self.now.section }
    {
        self.section
    }
}

/// The lines of a text before its first heading.
fn preamble<'a>(outline: &Outline<'a>) -> &'a [u8]
    ensures { result.now ≡ print_lines (tree outline.now.text).preamble }
{
    let text = outline.text();
    if outline.count() == 0 {
        return text;
    }
    &text[..outline.start(outline.node(0))]
}

/// The lines of an entry's section.
fn section<'a>(outline: &Outline<'a>, node: Node) -> &'a [u8]
    requires { node < node_count (tree outline.now.text) }
    ensures { result.now ≡ print_lines (node_at (tree outline.now.text) node).node.section }
{
    let span = outline.section(node);
    let text = outline.text();
    &text[span.start..span.end]
}

/// An entry of a file whose own unit has the number `at`.
fn entry<'a>(outline: &Outline<'a>, node: Node, at: usize) -> Unit<'a>
    requires there { node < node_count (tree outline.now.text) }
    requires room { at + 1 + node < 2 ^ 64 }
    ensures { result ≡ entry_unit at (tree outline.now.text) node }
{
    let level = outline.level(node);
    let (above, step) = match outline.parent(node) {
        None => (at, level),
        Some(up) => (
            at + 1 + up.number(),
            level.saturating_sub(outline.level(up)),
        ),
    };
    Unit {
        above: Some(above),
        step,
        line: outline.rest(node),
        section: section(outline, node),
    }
}

/// Puts a file's entries after the unit of the file.
fn push_entries<'a>(
    units: &mut Vec<Unit<'a>>,
    at: usize,
    outline: &Outline<'a>,
) -> Result<(), AllocError>
    requires { at < vec_len units.old }
    ensures ok { OnOk result (units.new.items ≡ units.old.items
        ++ map (entry_unit at (tree outline.now.text))
        (range_with_len 0 (node_count (tree outline.now.text)))) }
{
    for index in 0..outline.count() {
        units.push(entry(outline, outline.node(index), at))?;
    }
    Ok(())
}

/// The units of a folder: its files, each with its entries after it.
pub fn read_units<'a>(
    alloc: Global,
    files: &[File<'a>],
    states: &'a States,
) -> Result<Vec<Unit<'a>>, AllocError>
    ensures { IfOk result (λ units. units.items ≡ units_of files.now) }
{
    let mut units = Vec::new(alloc);
    for file in files {
        let at = units.len();
        let outline = Outline::read(alloc, file.text(), states)?;
        units.push(Unit {
            above: None,
            step: 0,
            line: file.name(),
            section: preamble(&outline),
        })?;
        push_entries(&mut units, at, &outline)?;
    }
    Ok(units)
}
