//! Units as the table sees them: by the row of what they stand below.
ghost use Rattle.std.specs.Prelude.{◌≡◌, ◌↔◌, IsTrue};
ghost use Rattle.std.specs.Option.{option_map};
ghost use Rattle.org_account.specs.Table.{seen, seen_at};

use crate::units::Unit;
use std::marker::Model;

/// The row of what a unit stands below, and the unit's own parts.
#[derive(Drop)]
pub(crate) struct Seen<'a> {
    above: Option<usize>,
    step: usize,
    line: &'a [u8],
    section: &'a [u8],
}

impl<'a> Model for Seen<'a> {
    ghost use Rattle.org_account.specs.Table.{Seen};

    ghost Value = { Seen };

    ghost view = { λ s. record {
      above = s.above;
      step = s.step;
      line = s.line.now;
      section = s.section.now;
    } };
}

impl<'a> Seen<'a> {
    /// The row of what it stands below.
    pub(crate) fn above(&self) -> Option<usize>
        ensures { result ≡ self.now.above }
    {
        self.above
    }

    /// How much deeper it stands than its parent.
    pub(crate) fn step(&self) -> usize
        ensures { result ≡ self.now.step }
    {
        self.step
    }

    /// Its line.
    pub(crate) fn line(&self) -> &'a [u8]
        ensures { result.now ≡ self.now.line }
    {
        self.line
    }

    /// Its section.
    pub(crate) fn section(&self) -> &'a [u8]
        ensures { result.now ≡ self.now.section }
    {
        self.section
    }

    /// Whether two are the same.
    pub(crate) fn is(&self, other: &Seen<'_>) -> bool
        ensures { IsTrue result ↔ (self.now ≡ other.now) }
    {
        self.above == other.above
            && self.step == other.step
            && self.line == other.line
            && self.section == other.section
    }
}

/// A unit as the table sees it, where these are the rows of its folder's units.
fn by_rows<'a>(rows: &[usize], unit: &Unit<'a>) -> Seen<'a>
    ensures { result ≡ seen rows.now unit.now }
{
    let above = match unit.above() {
        None => None,
        Some(index) if index < rows.len() => Some(rows[index]),
        Some(_) => Some(0),
    };
    Seen {
        above,
        step: unit.step(),
        line: unit.line(),
        section: unit.section(),
    }
}

/// What a folder has of a row that names this unit of it.
pub(crate) fn seen_at<'a>(
    units: &[Unit<'a>],
    rows: &[usize],
    number: Option<usize>,
) -> Option<Seen<'a>>
    ensures { result ≡ seen_at units.now rows.now number }
{
    let index = number?;
    if index < units.len() {
        Some(by_rows(rows, &units[index]))
    } else {
        None
    }
}
