//! Names of files.
ghost use Rattle.std.specs.Prelude.{IfOk};
ghost use Rattle.std.specs.List.{All};
ghost use Rattle.org_disk.specs.Names.{IsOrgFile};

use org_disk::FileName;
use org_folder::org_file;
use std::alloc::Global;
use std::test::Fail;

/// The name of a file, which may be the journal's.
pub fn file_name(alloc: Global, text: &str) -> Result<FileName, Fail> {
    if text == "orgstore.journal" {
        Ok(FileName::journal_name(alloc)?)
    } else {
        Ok(FileName::new(alloc, text)?)
    }
}

/// The names of these Org files.
pub fn org_names(alloc: Global, texts: &[&str]) -> Result<Vec<FileName>, Fail>
    ensures { IfOk result (λ names. All IsOrgFile names.items) }
{
    let mut names = Vec::new(alloc);
    for text in texts {
        names.push(org_file(alloc, text)?)?;
    }
    Ok(names)
}

/// So many names: 0.org, 1.org, and so on.
pub fn numbered_names(alloc: Global, count: u32) -> Result<Vec<FileName>, Fail>
    ensures { IfOk result (λ names. All IsOrgFile names.items) }
{
    let mut names = Vec::new(alloc);
    for i in 0..count {
        let text = format!(in alloc; "{i}.org")?;
        names.push(org_file(alloc, text.as_str())?)?;
    }
    Ok(names)
}
