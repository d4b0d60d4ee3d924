//! The order of siblings, in one pass over each folder.
ghost use Rattle.std.specs.Prelude.{◌≡◌, ◌+◌, ◌<◌, ◌^◌, ℕ, Some, IfOk, IfSome, IfNone, IsTrue, length, slice_get};
ghost use Rattle.org_account.specs.declared.table.Row.{Row as RowOf};
ghost use Rattle.org_account.specs.Account.{AreOrdered, EachRow, IsToldOrder};
ghost use Rattle.org_account.specs.Order.{twin, AreBelow, AreDecided, is_allowed};

use crate::folders::Folders;
use crate::placed::Placed;
use crate::rules::is_told_order;
use crate::table::Row;
use std::alloc::{AllocError, Global};

/// The unit of the second folder that is the same as one of the first.
fn twin(
    table: &[Row<'_>],
    first: &Placed<'_, '_>,
    second: &Placed<'_, '_>,
    unit: usize,
) -> Option<usize>
    ensures { result ≡ twin table.now first.now second.now unit }
{
    let row = first.row(unit);
    if row < table.len() {
        second.named(&table[row])
    } else {
        None
    }
}

/// The row below whose unit both folders have a unit of the first, and its number in the second.
fn below_both(
    table: &[Row<'_>],
    first: &Placed<'_, '_>,
    second: &Placed<'_, '_>,
    unit: usize,
) -> Option<(usize, usize)>
    ensures some { IfSome result (λ at. AreBelow table.now first.now second.now at.0 unit at.1) }
    ensures none { IfNone result ((p v : ℕ)
        → AreBelow table.now first.now second.now p unit v → ⊥) }
    ensures within { IfSome result (λ at. at.1 + 1 < 2 ^ 64) }
{
    let number = twin(table, first, second, unit)?;
    let above = first.row_above(unit)?;
    if number < second.units().len() && second.row_above(number) == Some(above) {
        Some((above, number))
    } else {
        None
    }
}

/// For each row, whether what both folders have below its unit stands there in one order.
fn have_one_order(
    alloc: Global,
    table: &[Row<'_>],
    first: &Placed<'_, '_>,
    second: &Placed<'_, '_>,
) -> Result<Vec<bool>, AllocError>
    ensures { IfOk result (λ same. AreDecided table.now first.now second.now same.items) }
{
    let mut last = vec![in alloc; 0usize; table.len()]?;
    let mut same = vec![in alloc; true; table.len()]?;
    for unit in 0..first.units().len() {
        if let Some((row, number)) = below_both(table, first, second, unit) {
            if row < table.len() {
                if number < last[row] {
                    same[row] = false;
                } else {
                    last[row] = number + 1;
                }
            }
        }
    }
    Ok(same)
}

/// Whether an order is allowed, by what is in one order: the result and each side, the two sides,
/// base and each side.
fn is_allowed(
    merged_ours: bool,
    merged_theirs: bool,
    sides: bool,
    base_ours: bool,
    base_theirs: bool,
    told: bool,
) -> bool
    ensures { result ≡ is_allowed merged_ours merged_theirs sides base_ours base_theirs told }
{
    merged_ours && merged_theirs
        || !sides && (merged_ours && (base_theirs || told) || merged_theirs && base_ours)
}

/// Whether the report tells of the order below the unit of a row.
fn is_told_at(table: &[Row<'_>], k: usize) -> bool
    ensures { IsTrue result → (row : RowOf) → slice_get table.now k ≡ Some row
        → IsToldOrder row.told.now }
{
    match table.get(k) {
        None => false,
        Some(row) => is_told_order(row.told),
    }
}

/// The first row below whose unit the order isn't as the sides allow.
pub(crate) fn first_disordered(
    alloc: Global,
    table: &[Row<'_>],
    of: &Folders<'_, '_>,
) -> Result<Option<usize>, AllocError>
    ensures none { IfOk result (λ row. IfNone row
        (EachRow table.now (λ p row. AreOrdered table.now of.now row.told.now p))) }
    ensures some { IfOk result (λ row. IfSome row (λ k. k < length table.now)) }
{
    let merged_ours = have_one_order(alloc, table, &of.merged, &of.ours)?;
    let merged_theirs = have_one_order(alloc, table, &of.merged, &of.theirs)?;
    let sides = have_one_order(alloc, table, &of.ours, &of.theirs)?;
    let base_ours = have_one_order(alloc, table, &of.base, &of.ours)?;
    let base_theirs = have_one_order(alloc, table, &of.base, &of.theirs)?;
    for k in 0..table.len() {
        let told = is_told_at(table, k);
        if !is_allowed(
            merged_ours[k],
            merged_theirs[k],
            sides[k],
            base_ours[k],
            base_theirs[k],
            told,
        ) {
            return Ok(Some(k));
        }
    }
    Ok(None)
}
