//! What the rows say that a side deleted: the side must not have it.
ghost use Rattle.std.specs.Prelude.{◌≡◌, ◌<◌, IfNone, IfSome, IsTrue, length};
ghost use Rattle.org_account.specs.Account.{AreDeletions, HaveNoCopy, HaveOtherTexts, IsDeletion, IsNoCopy};

use crate::table::{Folder, Row};
use crate::units::Unit;

/// Whether two units have different texts.
fn have_other_texts(unit: &Unit<'_>, other: &Unit<'_>) -> bool
    ensures { IsTrue result → HaveOtherTexts unit.now other.now }
{
    unit.line() != other.line() || unit.section() != other.section()
}

/// Whether a row adds no unit of this text to a side.
fn is_no_copy(row: &Row<'_>, side: Folder, units: &[Unit<'_>], gone: &Unit<'_>) -> bool
    ensures { IsTrue result → IsNoCopy side units.now gone.now row.now }
{
    if row.base.is_some() {
        return true;
    }
    match row.named(side) {
        None => true,
        Some(index) => index < units.len() && have_other_texts(gone, &units[index]),
    }
}

/// Whether no row does.
fn have_no_copy(table: &[Row<'_>], side: Folder, units: &[Unit<'_>], gone: &Unit<'_>) -> bool
    ensures { IsTrue result → HaveNoCopy side units.now table.now gone.now }
{
    for row in table {
        if !is_no_copy(row, side, units, gone) {
            return false;
        }
    }
    true
}

/// Whether a row says of no unit wrongly that the side deleted it.
fn is_deletion(
    row: &Row<'_>,
    table: &[Row<'_>],
    side: Folder,
    base: &[Unit<'_>],
    units: &[Unit<'_>],
) -> bool
    ensures { IsTrue result → IsDeletion side base.now units.now table.now row.now }
{
    if row.named(side).is_some() {
        return true;
    }
    match row.base {
        None => true,
        Some(index) => index < base.len() && have_no_copy(table, side, units, &base[index]),
    }
}

/// The first row that says so wrongly.
pub(crate) fn first_wrong_deletion(
    table: &[Row<'_>],
    side: Folder,
    base: &[Unit<'_>],
    units: &[Unit<'_>],
) -> Option<usize>
    ensures none { IfNone result (AreDeletions side base.now units.now table.now) }
    ensures some { IfSome result (λ k. k < length table.now) }
{
    for (k, row) in table.iter().enumerate() {
        if !is_deletion(row, table, side, base, units) {
            return Some(k);
        }
    }
    None
}
