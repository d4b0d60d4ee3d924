//! What a folder holds at first, which no code reads.
//!
//! A program names `Unknown`; what is proved at every start holds for the folder that there is.
ghost use Rattle.std.specs.Prelude.{[]};
ghost use Rattle.org_disk.specs.Disk.{stable};
ghost use Rattle.org_folder.specs.Calls.{World};

/// What is supposed of the files of a folder: what they held at first, and what calls that failed
/// left of them. No code can read it, so a function over `S: Start` is proved for every folder.
pub trait Start: Drop {
    /// The files as they were at first, and what each call that failed left.
    ghost world: { World };
}

/// For a program to name. At this type a clause on a file's content speaks of a folder whose files
/// were all empty at first; what is proved at every `S: Start` holds for the folder that there is.
#[derive(Drop)]
pub struct Unknown;

impl Start for Unknown {
    ghost world = { record { start = λ _. stable []; left = λ _. [] } };
}
