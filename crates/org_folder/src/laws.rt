//! The laws of the record of calls, for all values.
//!
//! Each is the contract of a function with nothing to do.
ghost use Rattle.std.specs.Prelude.{◌≡◌, Bool, List, ℕ, [], ◌∷◌, true, IsFalse};
ghost use Rattle.std.specs.List.{list_any};
ghost use Rattle.std.specs.Str.{bytes_eq};
ghost use Rattle.org_disk.specs.Disk.{stable};
ghost use Rattle.org_disk.specs.Names.{folder_of, last_part};
ghost use Rattle.org_folder.specs.Calls.{AreRight, Event, IsLeftAlone, IsRight, IsRightList, LeftSince, World, entries_in, files, with_entries};
ghost use Rattle.org_folder.specs.Calls.Event.{Absent, Listed};
ghost use Rattle.org_folder.specs.Unwritten.{AreLeftAlone, with_first, with_stable};

/// That there is no file of a name is a right answer, as often as it is given, where the file was
/// empty and on the device at first, and no write, cut or sync was made on it. A `CallsDisk` makes
/// these on a file alone that it opened or made, and none is removed: a cut to nothing and a
/// sync of a file that isn't there are no calls of the system.
pub fn absent_is_right()
    ensures { (world : World) (calls : List Event) (name : List ℕ)
        → world.start name ≡ stable [] → IsLeftAlone name calls
        → IsRight world (Absent name) calls }
{}

/// Where the list of a folder is right, a name of that folder that isn't listed has no file: it
/// stands for the empty one, after a crash too. No entry of another list came just before.
pub fn unlisted_is_absent()
    ensures { (world : World) (folder : List ℕ) (names : List (List ℕ)) (earlier : List Event)
        (name : List ℕ) → entries_in earlier ≡ [] → folder_of name ≡ folder
        → IsFalse (list_any (bytes_eq (last_part name)) names)
        → IsRightList world folder (with_entries names earlier)
        → files world (Listed folder true ∷ with_entries names earlier) name ≡ stable [] }
{}

/// What a crash may leave of files that no call wrote, cut or synced makes no difference to a run,
/// such as of a picture that was just copied into the folder: the same answers are right where
/// these files were on the device at first, as they read then, and a crash leaves the same images
/// there, but for these files.
pub fn unwritten_files_make_no_difference()
    ensures right { (world : World) (calls : List Event) (these : List ℕ → Bool)
        → AreLeftAlone these calls → AreRight world calls
        → AreRight (with_stable these world) calls }
    ensures images { (world : World) (calls : List Event) (these : List ℕ → Bool)
        (since : ℕ) (image : List ℕ → List ℕ)
        → AreLeftAlone these calls → LeftSince world calls since image
        → LeftSince (with_stable these world) calls since (with_first these world image) }
{}
