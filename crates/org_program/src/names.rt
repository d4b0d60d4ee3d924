//! The names that are given: those of `--new` and those of `--only`.
ghost use Rattle.std.specs.Prelude.{◌≡◌, [], ◌∷◌, None, map, string_bytes, IfOk, IfErr, OnOk, IsTrue, All};
ghost use Rattle.org_disk.specs.Names.{IsOrgFile};
ghost use Rattle.org_folder.specs.OrgFiles.{is_org_file};
ghost use Rattle.org_program.specs.Causes.{IsCauseOfNames, first_bad};
ghost use Rattle.org_program.specs.Lists.{names_in};

use crate::arguments::Arguments;
use crate::fault::Fault;
use org_disk::{BadName, FileName};
use org_folder::org_file;
use org_store::OpenFault;
use std::alloc::Global;

/// The names that the arguments give, those of `--new` first, each a file name in `.org`.
///
/// # Errors
///
/// - `BadName`: the first that is none.
/// - `Open(OutOfMemory)`.
pub fn given_names(alloc: Global, arguments: &Arguments) -> Result<Vec<FileName>, Fault>
    ensures openable { IfOk result (λ names. All IsOrgFile names.items) }
    ensures names { IfOk result (λ names. names.items ≡ names_in arguments.now) }
    ensures good { OnOk result (first_bad (names_in arguments.now) ≡ None) }
    ensures cause { IfErr result (IsCauseOfNames (names_in arguments.now)) }
{
    let mut names = org_names(alloc, &arguments.new)?;
    names.append(&mut org_names(alloc, &arguments.only)?)?;
    Ok(names)
}

fn org_names(alloc: Global, texts: &[String]) -> Result<Vec<FileName>, Fault>
    ensures openable { IfOk result (λ names. All IsOrgFile names.items) }
    ensures names { IfOk result (λ names. names.items ≡ map string_bytes texts.now) }
    ensures good { OnOk result (first_bad (map string_bytes texts.now) ≡ None) }
    ensures cause { IfErr result (IsCauseOfNames (map string_bytes texts.now)) }
{
    let mut names = Vec::new(alloc);
    for text in texts {
        names.push(org_name(alloc, text)?)?;
    }
    Ok(names)
}

fn org_name(alloc: Global, text: &str) -> Result<FileName, Fault>
    ensures openable { IfOk result IsOrgFile }
    ensures name { IfOk result (λ one. one ≡ text.now) }
    ensures good { OnOk result (IsTrue (is_org_file text.now)) }
    ensures cause { IfErr result (IsCauseOfNames (text.now ∷ [])) }
{
    match org_file(alloc, text) {
        Ok(name) => Ok(name),
        Err(org_fault::Fault::Refused(BadName)) => {
            let text = String::from_str(alloc, text)?;
            Err(Fault::BadName(text))
        }
        Err(org_fault::Fault::OutOfMemory) => Err(Fault::Open(OpenFault::OutOfMemory)),
    }
}
