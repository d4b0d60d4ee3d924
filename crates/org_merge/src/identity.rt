//! Where two of the three folders are the same, byte for byte, the merge is the third one.
ghost use Rattle.std.specs.Prelude.{◌≡◌, ◌↔◌, IsTrue, IfOk, map};
ghost use Rattle.std.specs.Option.{option_map};
ghost use Rattle.org_merge.specs.Identity.{file_given, file_made, IsChoice, IsIdentity};

use crate::file::{Made, Source};
use crate::merging::Draft;
use std::alloc::{AllocError, Global};

/// Whether two files have the same name and the same bytes.
fn is_same_file(one: &Source<'_>, other: &Source<'_>) -> bool
    ensures { IsTrue result ↔ (file_given one.now ≡ file_given other.now) }
{
    one.name == other.name && one.text == other.text
}

/// Whether two folders have the same files in the same order.
fn are_same(one: &[Source<'_>], other: &[Source<'_>]) -> bool
    ensures { IsTrue result ↔ (map file_given one.now ≡ map file_given other.now) }
{
    if one.len() != other.len() {
        return false;
    }
    for place in 0..one.len() {
        if !is_same_file(&one[place], &other[place]) {
            return false;
        }
    }
    true
}

/// The third folder, if two are the same.
fn third<'s, 'a>(
    base: &'s [Source<'a>],
    ours: &'s [Source<'a>],
    theirs: &'s [Source<'a>],
) -> Option<&'s [Source<'a>]>
    ensures { IsChoice base.now ours.now theirs.now (option_map (λ folder. folder.now) result) }
{
    if are_same(base, theirs) {
        return Some(ours);
    }
    if are_same(base, ours) {
        return Some(theirs);
    }
    if are_same(ours, theirs) {
        return Some(ours);
    }
    None
}

/// The files of a folder, as they are.
fn copied(alloc: Global, files: &[Source<'_>]) -> Result<Vec<Made>, AllocError>
    ensures { IfOk result (λ out. map file_made out.items ≡ map file_given files.now) }
{
    let mut out = Vec::new(alloc);
    for file in files {
        out.push(Made {
            name: Vec::from_slice(alloc, file.name)?,
            text: Vec::from_slice(alloc, file.text)?,
        })?;
    }
    Ok(out)
}

/// The third folder, of which nothing is told, if two are the same; else the merge that was made.
pub(crate) fn settled(
    alloc: Global,
    base: &[Source<'_>],
    ours: &[Source<'_>],
    theirs: &[Source<'_>],
    made: Draft,
) -> Result<Draft, AllocError>
    ensures { IfOk result (λ draft. IsIdentity base.now ours.now theirs.now
        (map file_made draft.files.items) draft.report.items) }
{
    let Some(files) = third(base, ours, theirs) else {
        return Ok(made);
    };
    Ok(Draft {
        files: copied(alloc, files)?,
        report: Vec::new(alloc),
        table: made.table,
        has_conflict: false,
    })
}
