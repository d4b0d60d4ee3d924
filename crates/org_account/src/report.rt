//! The report: what the rows tell, and nothing else.
ghost use Rattle.std.specs.Prelude.{IsTrue};
ghost use Rattle.org_account.specs.Account.{IsReport};

use crate::table::Row;
use org_headings::is_terminated;

/// Whether the report is what the rows tell, each in whole lines.
pub(crate) fn is_report(report: &[u8], table: &[Row<'_>]) -> bool
    ensures { IsTrue result → IsReport report.now table.now }
{
    let mut rest = report;
    for row in table {
        if !is_terminated(row.told) {
            return false;
        }
        match rest.strip_prefix(row.told) {
            Some(more) => rest = more,
            None => return false,
        }
    }
    rest.is_empty()
}
