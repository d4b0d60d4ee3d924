//! The folders of a merge in its table.
ghost use Rattle.std.specs.Prelude.{◌≡◌, ℕ, IfErr, IfOk, length, slice_index};
ghost use Rattle.org_account.specs.declared.table.Folder.{Folder as FolderOf};
ghost use Rattle.org_account.specs.Place.{IsPlace};
ghost use Rattle.org_account.specs.Account.{IsIndexed};
ghost use Rattle.org_account.specs.Order.{seen_of, row_above};
ghost use Rattle.org_account.specs.Table.{named};

use crate::refused::Refused;
use crate::rows::rows_of;
use crate::seen::{Seen, seen_at};
use crate::table::{Folder, Row};
use crate::units::Unit;
use std::alloc::Global;
use std::marker::Model;

/// A folder's units, and the row of each.
#[derive(Drop)]
pub(crate) struct Placed<'u, 'a> {
    folder: Folder,
    units: &'u [Unit<'a>],
    rows: Vec<usize>,
}

impl<'u, 'a> Model for Placed<'u, 'a> {
    ghost use Rattle.org_account.specs.Order.{Placed};

    ghost Value = { Placed };

    ghost view = { λ p. record { folder = p.folder; units = p.units.now; rows = p.rows.items } };
}

impl<'u, 'a> Placed<'u, 'a> {
    /// The folder by the rows that name its units.
    pub(crate) fn new(
        alloc: Global,
        table: &[Row<'_>],
        folder: Folder,
        units: &'u [Unit<'a>],
    ) -> Result<Placed<'u, 'a>, Refused>
        ensures indexed { IfOk result (λ placed. IsIndexed folder table.now placed) }
        ensures units { IfOk result (λ placed. placed.units ≡ units.now) }
        ensures place { IfErr result (λ why. (counts : FolderOf → ℕ)
            → counts folder ≡ length units.now → IsPlace table.now counts why) }
    {
        let rows = rows_of(alloc, table, folder, units.len())?;
        Ok(Placed {
            folder,
            units,
            rows,
        })
    }

    /// Its units.
    pub(crate) fn units(&self) -> &'u [Unit<'a>]
        ensures { result.now ≡ self.now.units }
    {
        self.units
    }

    /// The unit that a row names of it.
    pub(crate) fn named(&self, row: &Row<'_>) -> Option<usize>
        ensures { result ≡ named self.now.folder row.now }
    {
        row.named(self.folder)
    }

    /// The row of a unit.
    pub(crate) fn row(&self, unit: usize) -> usize
        ensures { result ≡ slice_index self.now.rows unit }
    {
        if unit < self.rows.len() {
            self.rows[unit]
        } else {
            0
        }
    }

    /// What it has of a row.
    pub(crate) fn seen(&self, row: &Row<'_>) -> Option<Seen<'a>>
        ensures { result ≡ seen_of self.now row.now }
    {
        seen_at(self.units, self.rows.as_slice(), row.named(self.folder))
    }

    /// The row of what a unit stands below.
    pub(crate) fn row_above(&self, unit: usize) -> Option<usize>
        ensures { result ≡ row_above self.now unit }
    {
        seen_at(self.units, self.rows.as_slice(), Some(unit))?.above()
    }
}
