//! The names of a set's files: the given ones and those of their archive files, in byte order.
//!
//! A repeated name counts once.
ghost use Rattle.std.specs.Prelude.{◌≡◌, ◌≤◌, length, IfOk};
ghost use Rattle.std.specs.List.{All};
ghost use Rattle.org_disk.specs.Names.{IsOrgFile};
ghost use Rattle.org_fileset.specs.Names.{with_archives, AreSorted};

use org_disk::FileName;
use std::alloc::{AllocError, Global};

/// The names in byte order, each once. Takes no memory.
pub fn in_order(names: Vec<FileName>) -> Vec<FileName>
    ensures sorted { AreSorted names.items result.items }
    ensures shorter { length result.items ≤ length names.items }
{
    let mut names = names;
    names.sort_unstable();
    names.dedup();
    names
}

/// These names, none of which is an archive file's or the journal's, and those of their archive
/// files.
///
/// # Errors
///
/// `AllocError`.
pub fn with_archives(alloc: Global, given: &[FileName]) -> Result<Vec<FileName>, AllocError>
    requires { All IsOrgFile given.now }
    ensures { IfOk result (λ names. names.items ≡ with_archives given.now) }
{
    let mut names = Vec::new(alloc);
    for name in given {
        names.push(name.clone()?)?;
        names.push(name.archive()?)?;
    }
    Ok(names)
}
