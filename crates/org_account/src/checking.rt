//! The rows of an account, each by itself.
ghost use Rattle.std.specs.Prelude.{◌<◌, IfNone, IfOk, IfSome, IsTrue, length};
ghost use Rattle.org_account.specs.Account.{EachRow, RowIsRight};

use crate::folders::Folders;
use crate::rules::is_right;
use crate::table::Row;
use std::alloc::{AllocError, Global};

/// Whether a row is right.
fn row_is_right(alloc: Global, of: &Folders<'_, '_>, row: &Row<'_>) -> Result<bool, AllocError>
    ensures { IfOk result (λ is. IsTrue is → RowIsRight of.now row.now) }
{
    let base = of.base.seen(row);
    let ours = of.ours.seen(row);
    let theirs = of.theirs.seen(row);
    let merged = of.merged.seen(row);
    is_right(alloc, of.states, row.told, &base, &ours, &theirs, &merged)
}

/// The first row that isn't right.
pub(crate) fn first_wrong(
    alloc: Global,
    table: &[Row<'_>],
    of: &Folders<'_, '_>,
) -> Result<Option<usize>, AllocError>
    ensures none { IfOk result (λ row. IfNone row
        (EachRow table.now (λ k row. RowIsRight of.now row))) }
    ensures some { IfOk result (λ row. IfSome row (λ k. k < length table.now)) }
{
    for (k, row) in table.iter().enumerate() {
        if !row_is_right(alloc, of, row)? {
            return Ok(Some(k));
        }
    }
    Ok(None)
}
