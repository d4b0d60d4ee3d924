//! The names of all files of a store.
ghost use Rattle.std.specs.Prelude.{◌∷◌, IfOk, IfNone, IfSome, All};
ghost use Rattle.org_disk.specs.Names.{journal_name, IsOrgFile};
ghost use Rattle.org_fileset.specs.Names.{with_archives, AreFew, AreSorted, AreTooMany};

use org_disk::FileName;
use org_fileset::{MOST_NAMES, in_order, with_archives};
use std::alloc::{AllocError, Global};

/// The names of all files of a store that is opened with these names: theirs, their archive files'
/// and the journal's, in byte order, each once. None where more names are given than a store may
/// have.
///
/// # Errors
///
/// `AllocError`.
pub fn file_names(alloc: Global, given: &[FileName]) -> Result<Option<Vec<FileName>>, AllocError>
    requires { All IsOrgFile given.now }
    ensures few { IfOk result (λ found. IfSome found (λ names. AreFew given.now
        × AreSorted (journal_name ∷ with_archives given.now) names.items)) }
    ensures many { IfOk result (λ found. IfNone found (AreTooMany given.now)) }
{
    let given = in_order(given.to_vec(alloc)?);
    if given.len() > MOST_NAMES {
        return Ok(None);
    }
    let mut names = with_archives(alloc, &given)?;
    names.push(FileName::journal_name(alloc)?)?;
    Ok(Some(in_order(names)))
}
