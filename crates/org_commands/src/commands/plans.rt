//! Plans of edits of lines: one file or two, at most two edits in one.
ghost use Rattle.std.specs.Prelude.{◌≡◌, ◌≢◌, ◌∷◌, [], None, IfNone, IfOk, IfSome, IsSomeAnd};

use org_disk::FileName;
use org_splice::Edit;
use org_texts::{Edits, FileEdits, NameOf, Plan};
use std::alloc::{AllocError, Global};

/// The plan of one edit of one file.
pub(crate) fn plan_of_one<'a>(alloc: Global, file: NameOf<'a>, edit: Edit) -> Plan<'a>
    ensures { (result.first.file ≡ file.entry) × (result.second ≡ None)
        × (result.first.edits.items ≡ edit ∷ []) }
{
    Plan {
        first: FileEdits {
            file,
            edits: Edits::new(edit, Vec::new(alloc)),
        },
        second: None,
        of_lines: true,
    }
}

/// The plan of two edits of one file.
pub(crate) fn plan_of_two_edits<'a>(
    alloc: Global,
    file: &'a FileName,
    edits: [Edit; 2],
) -> Result<Plan<'a>, AllocError>
    ensures { IfOk result (λ plan. (plan.first.file ≡ file.now) × (plan.second ≡ None)
        × (plan.first.edits.items ≡ edits)) }
{
    let mut edits = Vec::from_array(alloc, edits)?;
    let first = edits.remove(0);
    Ok(Plan {
        first: FileEdits {
            file: NameOf::given(file),
            edits: Edits::new(first, edits),
        },
        second: None,
        of_lines: true,
    })
}

/// The plan of these edits of one file. There is none where there is no edit.
pub(crate) fn plan_of<'a>(file: &'a FileName, mut edits: Vec<Edit>) -> Option<Plan<'a>>
    ensures none { IfNone result (edits.items ≡ []) }
    ensures some { IfSome result (λ plan. (edits.items ≢ [])
        × (plan.first.file ≡ file.now) × (plan.second ≡ None)
        × (plan.first.edits.items ≡ edits.items)) }
{
    if edits.is_empty() {
        return None;
    }
    let first = edits.remove(0);
    Some(Plan {
        first: FileEdits {
            file: NameOf::given(file),
            edits: Edits::new(first, edits),
        },
        second: None,
        of_lines: true,
    })
}

/// The plan of one edit in each of two files.
pub(crate) fn plan_of_two<'a>(
    alloc: Global,
    file: NameOf<'a>,
    edit: Edit,
    to_file: NameOf<'a>,
    to_edit: Edit,
) -> Plan<'a>
    ensures { (result.first.file ≡ file.entry)
        × (result.first.edits.items ≡ edit ∷ [])
        × IsSomeAnd result.second (λ second. (second.file ≡ to_file.entry)
        × (second.edits.items ≡ to_edit ∷ [])) }
{
    Plan {
        first: FileEdits {
            file,
            edits: Edits::new(edit, Vec::new(alloc)),
        },
        second: Some(FileEdits {
            file: to_file,
            edits: Edits::new(to_edit, Vec::new(alloc)),
        }),
        of_lines: true,
    }
}
