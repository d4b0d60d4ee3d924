//! What refiling and archiving keep, for all values.
//!
//! Each is the contract of a function with nothing to do.
ghost use Rattle.std.specs.Prelude.{◌≡◌, ◌≢◌, ℕ, ◌+◌, List, Ok, Option, Some, slice_get, slice_set};
ghost use Rattle.org_splice.specs.Lines.{IsLine};
ghost use Rattle.org_stamp.specs.Calendar.{Moment};
ghost use Rattle.org_outline.specs.declared.steps.Step.{Step};
ghost use Rattle.org_outline.specs.declared.moves.Place.{Place};
ghost use Rattle.org_outline.specs.States.{Keywords};
ghost use Rattle.org_outline.specs.Paths.{find_path};
ghost use Rattle.org_outline.specs.Tree.{Document, IsValid, node_at, print, tree};
ghost use Rattle.org_move.specs.Archive.{archive_across, archive_within, archived_section, target_heading};
ghost use Rattle.org_move.specs.Location.{Destination, location};
ghost use Rattle.org_move.specs.Refile.{Moved, refile_across, refile_within};
ghost use Rattle.org_move.specs.Counts.{count_in, count_over, made_count, one_of};

/// Refiling keeps documents valid, so that each is the tree of its print.
pub fn refiles_are_valid()
    ensures within { (states : Keywords) (path to : List Step) (place : Place)
        (d new : Document)
        → refile_within states path to place d ≡ Ok new → IsValid d → IsValid new }
    ensures across { (states there : Keywords) (path to : List Step) (place : Place)
        (source target : Document) (new : Moved)
        → refile_across states path source there to target place ≡ Ok new
        → IsValid source → IsValid target → IsValid new.source × IsValid new.target }
{}

/// Refiling keeps how often each node is there: none is lost, none doubled, and none changed but in
/// its level.
pub fn refiles_keep_counts()
    ensures within { (states : Keywords) (path to : List Step) (place : Place)
        (d new : Document)
        → refile_within states path to place d ≡ Ok new
        → (rest : List ℕ) (section : List (List ℕ))
        → count_in rest section new ≡ count_in rest section d }
    ensures across { (states there : Keywords) (path to : List Step) (place : Place)
        (source target : Document) (new : Moved)
        → refile_across states path source there to target place ≡ Ok new
        → (rest : List ℕ) (section : List (List ℕ))
        → count_in rest section new.source + count_in rest section new.target
        ≡ count_in rest section source + count_in rest section target }
    // So over all files, where these are their texts: one that changes, and two.
    ensures file { (states : Keywords) (path to : List Step) (place : Place)
        (texts : List (List ℕ)) (i : ℕ) (text : List ℕ) (new : Document)
        → slice_get texts i ≡ Some text → refile_within states path to place (tree text) ≡ Ok new
        → (rest : List ℕ) (section : List (List ℕ))
        → count_over rest section (slice_set texts i (print new)) ≡ count_over rest section texts }
    ensures files { (states there : Keywords) (path to : List Step) (place : Place)
        (texts : List (List ℕ)) (i j : ℕ) (from into : List ℕ) (new : Moved)
        → i ≢ j → slice_get texts i ≡ Some from → slice_get texts j ≡ Some into
        → refile_across states path (tree from) there to (tree into) place ≡ Ok new
        → (rest : List ℕ) (section : List (List ℕ))
        → let left = slice_set texts i (print new.source) in
        count_over rest section (slice_set left j (print new.target))
        ≡ count_over rest section texts }
{}

/// Archiving keeps documents valid, so that each is the tree of its print, where the file's name
/// and the title of the place are lines; and so is the title of each place that a text names.
pub fn archives_are_valid()
    ensures within { (states : Keywords) (name : List ℕ) (path : List Step) (now : Moment)
        (to : Destination) (d new : Document) → IsLine name → IsLine to.title
        → archive_within states name path now to d ≡ Ok new → IsValid d → IsValid new }
    ensures across { (states there : Keywords) (name : List ℕ) (path : List Step)
        (now : Moment) (to : Destination) (source target : Document) (new : Moved)
        → IsLine name → IsLine to.title
        → archive_across states name path now source there to target ≡ Ok new
        → IsValid source → IsValid target → IsValid new.source × IsValid new.target }
    ensures place { (states : Keywords) (name : List ℕ) (path : List Step) (text : List ℕ)
        (to : Destination) → location states name path text ≡ Ok to → IsLine to.title }
{}

/// Archiving keeps how often each node is there, but that the entry becomes one with the same rest
/// of its heading line and with the section that has its properties, and that a heading is made
/// where the place's is not there: after it and with the entry as it was, there are as many as
/// before it and with the entry as it is then, and with the heading made. Here `i` is the entry,
/// and `up` the heading of the place.
pub fn archives_keep_counts()
    ensures within { (states : Keywords) (name : List ℕ) (path : List Step) (now : Moment)
        (to : Destination) (d new : Document) (i : ℕ) (up : Option ℕ)
        → find_path states d path ≡ Ok i → target_heading states to d ≡ Ok up
        → archive_within states name path now to d ≡ Ok new
        → (rest : List ℕ) (section : List (List ℕ)) → let own = (node_at d i).node in
        count_in rest section new + one_of rest section own.rest own.section
        ≡ count_in rest section d
        + one_of rest section own.rest (archived_section states name now d i)
        + made_count rest section to up }
    ensures across { (states there : Keywords) (name : List ℕ) (path : List Step)
        (now : Moment) (to : Destination) (source target : Document) (new : Moved)
        (i : ℕ) (up : Option ℕ)
        → find_path states source path ≡ Ok i → target_heading there to target ≡ Ok up
        → archive_across states name path now source there to target ≡ Ok new
        → (rest : List ℕ) (section : List (List ℕ)) → let own = (node_at source i).node in
        count_in rest section new.source + count_in rest section new.target
        + one_of rest section own.rest own.section
        ≡ count_in rest section source + count_in rest section target
        + one_of rest section own.rest (archived_section states name now source i)
        + made_count rest section to up }
    // So over all files, where these are their texts: one that changes, and two.
    ensures file { (states : Keywords) (name : List ℕ) (path : List Step) (now : Moment)
        (to : Destination) (texts : List (List ℕ)) (file : ℕ) (text : List ℕ) (new : Document)
        (i : ℕ) (up : Option ℕ) → IsLine name → IsLine to.title
        → slice_get texts file ≡ Some text → find_path states (tree text) path ≡ Ok i
        → target_heading states to (tree text) ≡ Ok up
        → archive_within states name path now to (tree text) ≡ Ok new
        → (rest : List ℕ) (section : List (List ℕ)) → let own = (node_at (tree text) i).node in
        count_over rest section (slice_set texts file (print new))
        + one_of rest section own.rest own.section
        ≡ count_over rest section texts
        + one_of rest section own.rest (archived_section states name now (tree text) i)
        + made_count rest section to up }
    ensures files { (states there : Keywords) (name : List ℕ) (path : List Step)
        (now : Moment) (to : Destination) (texts : List (List ℕ)) (first second : ℕ)
        (from into : List ℕ) (new : Moved) (i : ℕ) (up : Option ℕ)
        → IsLine name → IsLine to.title → first ≢ second
        → slice_get texts first ≡ Some from → slice_get texts second ≡ Some into
        → find_path states (tree from) path ≡ Ok i
        → target_heading there to (tree into) ≡ Ok up
        → archive_across states name path now (tree from) there to (tree into) ≡ Ok new
        → (rest : List ℕ) (section : List (List ℕ))
        → let own = (node_at (tree from) i).node in
        let left = slice_set texts first (print new.source) in
        count_over rest section (slice_set left second (print new.target))
        + one_of rest section own.rest own.section
        ≡ count_over rest section texts
        + one_of rest section own.rest (archived_section states name now (tree from) i)
        + made_count rest section to up }
{}
