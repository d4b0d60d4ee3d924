//! The rows of a folder's units: each unit has exactly one.
ghost use Rattle.std.specs.Prelude.{◌≡◌, ◌<◌, ℕ, IfErr, IfOk, IfNone, IfSome, EachIndex, length, slice_index};
ghost use Rattle.org_account.specs.declared.table.Folder.{Folder as FolderOf};
ghost use Rattle.org_account.specs.Place.{IsPlace};
ghost use Rattle.org_account.specs.Table.{AreRowsOf, AreFilled};

use crate::refused::Refused;
use crate::table::{Folder, Row};
use std::alloc::Global;

/// Writes the row of each unit that one names, where all held the length of the table. The answer
/// is the first row whose unit isn't there, or is named by an earlier row.
fn fill(rows: &mut Vec<usize>, table: &[Row<'_>], folder: Folder) -> Option<usize>
    requires { EachIndex rows.old.items (λ i. slice_index rows.old.items i ≡ length table.now) }
    ensures length { length rows.new.items ≡ length rows.old.items }
    ensures filled { IfNone result
        (AreFilled folder table.now (length rows.old.items) (length table.now) rows.new.items) }
    ensures some { IfSome result (λ k. k < length table.now) }
{
    let none = table.len();
    for (k, row) in table.iter().enumerate() {
        if let Some(unit) = row.named(folder) {
            if unit >= rows.len() || rows[unit] < none {
                return Some(k);
            }
            rows[unit] = k;
        }
    }
    None
}

/// The first unit whose row isn't one of the table.
fn first_without(rows: &[usize], none: usize) -> Option<usize>
    ensures none { IfNone result (EachIndex rows.now (λ i. slice_index rows.now i < none)) }
    ensures some { IfSome result (λ unit. unit < length rows.now) }
{
    for (unit, row) in rows.iter().enumerate() {
        if *row >= none {
            return Some(unit);
        }
    }
    None
}

/// The row of each of a folder's units.
pub(crate) fn rows_of(
    alloc: Global,
    table: &[Row<'_>],
    folder: Folder,
    count: usize,
) -> Result<Vec<usize>, Refused>
    ensures ok { IfOk result (λ rows. AreRowsOf folder table.now count rows.items) }
    ensures place { IfErr result (λ why. (counts : FolderOf → ℕ) → counts folder ≡ count
        → IsPlace table.now counts why) }
{
    let mut rows = vec![in alloc; table.len(); count]?;
    if let Some(row) = fill(&mut rows, table, folder) {
        return Err(Refused::Name(folder, row));
    }
    match first_without(&rows, table.len()) {
        Some(unit) => Err(Refused::Unit(folder, unit)),
        None => Ok(rows),
    }
}
