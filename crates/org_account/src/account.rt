//! The account of a merge of folders, by their files' texts.
ghost use Rattle.std.specs.Prelude.{ℕ, IfErr, OnOk};
ghost use Rattle.org_account.specs.declared.table.Folder.{Folder as FolderOf};
ghost use Rattle.org_account.specs.Account.{AreDeletions, AreInTable, AreOrdered, EachRow, IsAccounted, IsAccountOf, RowIsRight};
ghost use Rattle.org_account.specs.Place.{IsPlace, IsPlaceIn};

use crate::checking::first_wrong;
use crate::deletions::first_wrong_deletion;
use crate::folders::{Folders, place};
use crate::order::first_disordered;
use crate::placed::Placed;
use crate::refused::Refused;
use crate::report::is_report;
use crate::table::{Folder, Row};
use crate::units::{File, read_units};
use org_outline::States;
use std::alloc::Global;

/// The files of the four folders of a merge, each in the same order.
#[derive(Clone, Copy)]
pub struct FourFiles<'f, 'a> {
    pub base: &'f [File<'a>],
    pub ours: &'f [File<'a>],
    pub theirs: &'f [File<'a>],
    pub merged: &'f [File<'a>],
}

/// Each row.
fn check_each(alloc: Global, table: &[Row<'_>], of: &Folders<'_, '_>) -> Result<(), Refused>
    ensures ok { OnOk result (EachRow table.now (λ k row. RowIsRight of.now row)) }
    ensures place { IfErr result (λ why. (counts : FolderOf → ℕ) → IsPlace table.now counts why) }
{
    match first_wrong(alloc, table, of)? {
        Some(row) => Err(Refused::Row(row)),
        None => Ok(()),
    }
}

/// The order of siblings.
fn check_order(alloc: Global, table: &[Row<'_>], of: &Folders<'_, '_>) -> Result<(), Refused>
    ensures ok { OnOk result
        (EachRow table.now (λ p row. AreOrdered table.now of.now row.told.now p)) }
    ensures place { IfErr result (λ why. (counts : FolderOf → ℕ) → IsPlace table.now counts why) }
{
    match first_disordered(alloc, table, of)? {
        Some(row) => Err(Refused::Order(row)),
        None => Ok(()),
    }
}

/// What the rows say that a side deleted.
fn check_deletions(
    table: &[Row<'_>],
    side: Folder,
    base: &Placed<'_, '_>,
    placed: &Placed<'_, '_>,
) -> Result<(), Refused>
    ensures ok { OnOk result (AreDeletions side base.now.units placed.now.units table.now) }
    ensures place { IfErr result (λ why. (counts : FolderOf → ℕ) → IsPlace table.now counts why) }
{
    match first_wrong_deletion(table, side, base.units(), placed.units()) {
        Some(row) => Err(Refused::Deletion(side, row)),
        None => Ok(()),
    }
}

/// The rows, their order and their deletions.
fn check_rows(alloc: Global, table: &[Row<'_>], of: &Folders<'_, '_>) -> Result<(), Refused>
    requires { AreInTable table.now of.now }
    ensures ok { OnOk result (IsAccounted table.now of.now) }
    ensures place { IfErr result (λ why. (counts : FolderOf → ℕ) → IsPlace table.now counts why) }
{
    check_each(alloc, table, of)?;
    check_order(alloc, table, of)?;
    check_deletions(table, Folder::Ours, &of.base, &of.ours)?;
    check_deletions(table, Folder::Theirs, &of.base, &of.theirs)?;
    Ok(())
}

/// Whether a table and a report are an account of a merge. Ok says that the result loses nothing
/// and doubles nothing, and that the report has each choice. Whoever made the result, the table and
/// the report need not be trusted.
///
/// It isn't promised that each right merge is accepted, nor that the fault named is the only one.
///
/// # Errors
///
/// In this order, and `Memory` at any time. A row that is named is one of the table, and a unit one
/// of its folder.
/// - `Report`: the report isn't what the rows tell, or a row doesn't tell whole lines.
/// - `Name`, `Unit`, for base, ours, theirs and the result in turn: a unit hasn't exactly one row.
/// - `Row`: the result has the unit of the row otherwise than the sides allow.
/// - `Order`: what stands below the unit of the row is in another order than the sides allow.
/// - `Deletion`, for ours and then theirs: the side has the text of a unit that it is said to have
///   deleted.
pub fn check_merge<'a>(
    alloc: Global,
    table: &[Row<'_>],
    report: &[u8],
    files: &FourFiles<'_, 'a>,
    states: &'a States,
) -> Result<(), Refused>
    ensures ok { OnOk result (IsAccountOf states.now table.now report.now files.now.base.now
        files.now.ours.now files.now.theirs.now files.now.merged.now) }
    ensures place { IfErr result (IsPlaceIn table.now files.now.base.now files.now.ours.now
        files.now.theirs.now files.now.merged.now) }
{
    if !is_report(report, table) {
        return Err(Refused::Report);
    }
    let base = read_units(alloc, files.base, states)?;
    let ours = read_units(alloc, files.ours, states)?;
    let theirs = read_units(alloc, files.theirs, states)?;
    let merged = read_units(alloc, files.merged, states)?;
    let of = place(
        alloc,
        states,
        table,
        base.as_slice(),
        ours.as_slice(),
        theirs.as_slice(),
        merged.as_slice(),
    )?;
    check_rows(alloc, table, &of)?;
    Ok(())
}
