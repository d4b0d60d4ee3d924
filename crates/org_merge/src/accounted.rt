//! The merge of three folders with its account: no merge that it answers loses or doubles an entry.
ghost use Rattle.std.specs.Prelude.{◌≡◌, map, IfOk, OnOk};
ghost use Rattle.org_account.specs.Account.{IsAccountOf};
ghost use Rattle.org_merge.specs.Merge.{file_of, read_made, read_source, IsAccounted};
ghost use Rattle.org_merge.specs.Identity.{file_made, IsIdentity};

use crate::file::{Made, ReadFile, Source};
use crate::identity::settled;
use crate::merging::{Draft, Numbers, draft_of};
use crate::table::{print_table, read_table};
use crate::text::bare_text;
use org_account::{File, FourFiles, Refused, Row, check_merge};
use org_outline::States;
use std::alloc::{AllocError, Global};
use thiserror::Error;

/// The merge of three folders.
#[derive(Drop)]
pub struct Merged {
    /// The files of the result, in byte order of their names; or those of a folder as they were given,
    /// if the other two are the same.
    pub files: Vec<Made>,
    /// What is to be told, a line an event: `conflict` or `note`, the file, the title, what, and
    /// what gave way, with tabs between.
    pub report: Vec<u8>,
    /// Which units are one: a line a row.
    pub table: Vec<u8>,
    /// Whether an event is a conflict, whose marks stand in the result.
    pub has_conflict: bool,
}

/// Why three folders aren't merged, or a merge isn't accounted for. Rows are counted from 1.
#[derive(Debug, Drop, Error)]
pub enum NotMerged {
    /// The table isn't one.
    #[error("the table isn't one")]
    Table,
    /// The report isn't what the rows tell.
    #[error("the report isn't what the rows of the table tell")]
    Report,
    /// A unit doesn't stand in exactly one row.
    #[error("an entry or a file doesn't stand in exactly one row of the table")]
    Units,
    /// The result has the unit of a row otherwise than the sides allow.
    #[error("row {0} of the table: the result has it otherwise than both sides allow")]
    Row(usize),
    /// The result has what stands below the unit of a row in another order than the sides allow.
    #[error("row {0} of the table: what stands below it is in another order than both sides allow")]
    Order(usize),
    /// A row says that a side deleted a unit that it has.
    #[error("row {0} of the table: the side has what it is said to have deleted")]
    Deletion(usize),
    /// There is no memory.
    #[error("out of memory")]
    Memory,
}

impl From<Refused> for NotMerged {
    fn from(why: Refused) -> Self {
        match why {
            Refused::Report => NotMerged::Report,
            Refused::Name(_, _) | Refused::Unit(_, _) => NotMerged::Units,
            Refused::Row(row) => NotMerged::Row(row.saturating_add(1)),
            Refused::Order(row) => NotMerged::Order(row.saturating_add(1)),
            Refused::Deletion(_, row) => NotMerged::Deletion(row.saturating_add(1)),
            Refused::Memory => NotMerged::Memory,
        }
    }
}

impl From<AllocError> for NotMerged {
    fn from(_why: AllocError) -> Self {
        NotMerged::Memory
    }
}

/// A folder's files as a merge reads them.
fn read_all<'a>(alloc: Global, files: &[Source<'a>]) -> Result<Vec<ReadFile<'a>>, AllocError>
    ensures { IfOk result (λ out. map file_of out.items ≡ map read_source files.now) }
{
    let mut out = Vec::new(alloc);
    for file in files {
        out.push(ReadFile {
            name: file.name,
            text: bare_text(alloc, file.text)?,
        })?;
    }
    Ok(out)
}

/// The same, lent to the account.
fn lent<'r>(alloc: Global, files: &'r [ReadFile<'_>]) -> Result<Vec<File<'r>>, AllocError>
    ensures { IfOk result (λ out. out.items ≡ map file_of files.now) }
{
    let mut out = Vec::new(alloc);
    for file in files {
        out.push(File::new(file.name, file.text.as_slice()))?;
    }
    Ok(out)
}

/// The rows of a table, each with its lines of the report.
fn rows_of<'r>(
    alloc: Global,
    table: &[Numbers],
    report: &'r [u8],
) -> Result<Vec<Row<'r>>, AllocError> {
    let mut rows = Vec::with_capacity(alloc, table.len())?;
    for row in table {
        let (start, end) = row.told;
        rows.push(Row {
            base: row.base,
            ours: row.ours,
            theirs: row.theirs,
            merged: row.merged,
            told: report.get(start..end).unwrap_or(&[]),
        })?;
    }
    Ok(rows)
}

/// What was made, as it is read.
fn sources<'m>(alloc: Global, files: &'m [Made]) -> Result<Vec<Source<'m>>, AllocError>
    ensures { IfOk result (λ out. map read_source out.items ≡ map read_made files.now) }
{
    let mut out = Vec::new(alloc);
    for file in files {
        out.push(Source {
            name: file.name.as_slice(),
            text: file.text.as_slice(),
        })?;
    }
    Ok(out)
}

/// Checks the account of a merge whose files are read.
fn account_read<'r>(
    alloc: Global,
    base: &'r [ReadFile<'_>],
    ours: &'r [ReadFile<'_>],
    theirs: &'r [ReadFile<'_>],
    merged: &'r [ReadFile<'_>],
    rows: &[Row<'_>],
    report: &[u8],
    states: &'r States,
) -> Result<(), NotMerged>
    ensures { OnOk result (IsAccountOf states.now rows.now report.now (map file_of base.now)
        (map file_of ours.now) (map file_of theirs.now) (map file_of merged.now)) }
{
    let base = lent(alloc, base)?;
    let ours = lent(alloc, ours)?;
    let theirs = lent(alloc, theirs)?;
    let merged = lent(alloc, merged)?;
    account_lent(
        alloc,
        base.as_slice(),
        ours.as_slice(),
        theirs.as_slice(),
        merged.as_slice(),
        rows,
        report,
        states,
    )?;
    Ok(())
}

/// The same of files that are lent.
fn account_lent<'f, 'a>(
    alloc: Global,
    base: &'f [File<'a>],
    ours: &'f [File<'a>],
    theirs: &'f [File<'a>],
    merged: &'f [File<'a>],
    rows: &[Row<'_>],
    report: &[u8],
    states: &'a States,
) -> Result<(), NotMerged>
    ensures { OnOk result
        (IsAccountOf states.now rows.now report.now base.now ours.now theirs.now merged.now) }
{
    let files = FourFiles {
        base,
        ours,
        theirs,
        merged,
    };
    check_merge(alloc, rows, report, &files, states)?;
    Ok(())
}

/// Checks the account of a merge.
fn account(
    alloc: Global,
    base: &[Source<'_>],
    ours: &[Source<'_>],
    theirs: &[Source<'_>],
    merged: &[Source<'_>],
    table: &[Numbers],
    report: &[u8],
    states: &States,
) -> Result<(), NotMerged>
    ensures { OnOk result (IsAccounted states.now base.now ours.now theirs.now
        (map read_source merged.now) report.now) }
{
    let base = read_all(alloc, base)?;
    let ours = read_all(alloc, ours)?;
    let theirs = read_all(alloc, theirs)?;
    let merged = read_all(alloc, merged)?;
    let rows = rows_of(alloc, table, report)?;
    account_read(
        alloc,
        base.as_slice(),
        ours.as_slice(),
        theirs.as_slice(),
        merged.as_slice(),
        rows.as_slice(),
        report,
        states,
    )?;
    Ok(())
}

/// The account of a merge that was made.
fn account_draft(
    alloc: Global,
    base: &[Source<'_>],
    ours: &[Source<'_>],
    theirs: &[Source<'_>],
    draft: &Draft,
    states: &States,
) -> Result<(), NotMerged>
    ensures { OnOk result (IsAccounted states.now base.now ours.now theirs.now
        (map read_made draft.now.files.items) draft.now.report.items) }
{
    let merged = sources(alloc, draft.files.as_slice())?;
    account(
        alloc,
        base,
        ours,
        theirs,
        merged.as_slice(),
        draft.table.as_slice(),
        draft.report.as_slice(),
        states,
    )?;
    Ok(())
}

/// Merges three folders. What it answers has an account: no entry and no line is lost or doubled, and
/// the report tells each choice. If two of the folders are the same, it answers the third one, and
/// nothing is told. The names of a folder's files differ.
///
/// # Errors
///
/// - `Report`, `Units`, `Row`, `Order`, `Deletion`: the merge that was made has no account.
/// - `Memory`.
pub fn merge(
    alloc: Global,
    base: &[Source<'_>],
    ours: &[Source<'_>],
    theirs: &[Source<'_>],
    states: &States,
) -> Result<Merged, NotMerged>
    ensures account { IfOk result (λ merged. IsAccounted states.now base.now ours.now theirs.now
        (map read_made merged.files.items) merged.report.items) }
    ensures identity { IfOk result (λ merged. IsIdentity base.now ours.now theirs.now
        (map file_made merged.files.items) merged.report.items) }
{
    let made = draft_of(alloc, base, ours, theirs, states)?;
    let draft = settled(alloc, base, ours, theirs, made)?;
    account_draft(alloc, base, ours, theirs, &draft, states)?;
    let table = print_table(alloc, draft.table.as_slice(), draft.report.as_slice())?;
    let Draft {
        files,
        report,
        has_conflict,
        table: _,
    } = draft;
    Ok(Merged {
        files,
        report,
        table,
        has_conflict,
    })
}

/// Checks the account of a merge that anybody made, by its table and its report.
///
/// # Errors
///
/// - `Table`: the table isn't a line a row, of numbers or `-` for base, ours, theirs and the result,
///   and the count of the row's lines in the report, with tabs between.
/// - `Report`, `Units`, `Row`, `Order`, `Deletion`: the merge has no account by them.
/// - `Memory`.
pub fn check(
    alloc: Global,
    base: &[Source<'_>],
    ours: &[Source<'_>],
    theirs: &[Source<'_>],
    merged: &[Source<'_>],
    table: &[u8],
    report: &[u8],
    states: &States,
) -> Result<(), NotMerged>
    ensures { OnOk result (IsAccounted states.now base.now ours.now theirs.now
        (map read_source merged.now) report.now) }
{
    let Some(rows) = read_table(alloc, table, report)? else {
        return Err(NotMerged::Table);
    };
    account(
        alloc,
        base,
        ours,
        theirs,
        merged,
        rows.as_slice(),
        report,
        states,
    )?;
    Ok(())
}
