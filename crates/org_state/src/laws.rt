//! What holds of changes of TODO states and of clocks, for all values: each law is the contract of
//! a function with nothing to do.
ghost use Rattle.std.specs.Prelude.{◌≡◌, ◌<◌, ◌+◌, ◌∷◌, ◌++◌, [], ℕ, min, List, Option, Some, Result, Ok, IsTrue, drop, slice_get};
ghost use Rattle.std.specs.Option.{option_map};
ghost use Rattle.org_stamp.specs.Calendar.{Moment, IsDay};
ghost use Rattle.org_outline.specs.declared.steps.Step.{Step};
ghost use Rattle.org_outline.specs.States.{Keywords, are_states};
ghost use Rattle.org_outline.specs.Tree.{Document, IsValid, node_count, print, tree};
ghost use Rattle.org_meta.specs.Clocking.{clock_line, minutes_run};
ghost use Rattle.org_fault.specs.declared.refusal.Refusal.{Refusal};
ghost use Rattle.org_state.specs.Clock.{clocked_minutes, running_heading, switched, with_closed, with_opened};
ghost use Rattle.org_state.specs.Open.{open_clocks};
ghost use Rattle.org_state.specs.Todo.{IsTodo, todo};

/// A change of a state has one outcome.
pub fn one_outcome()
    ensures { (states : Keywords) (path : List Step) (state : List ℕ) (now : Moment)
        (d : Document) (r q : Result (Option Document) Refusal)
        → IsTodo states path state now d r → IsTodo states path state now d q → r ≡ q }
{}

/// That outcome can be computed.
pub fn outcome_computes()
    ensures { (states : Keywords) (path : List Step) (state : List ℕ) (now : Moment)
        (d : Document) (r : Result (Option Document) Refusal)
        → IsTodo states path state now d r → todo states path state now d ≡ r }
{}

/// A change of a state keeps a document valid, so that the tree of the new text is what was made:
/// no line that it puts in is a heading line.
pub fn changes_are_valid()
    ensures changed { (states : Keywords) (path : List Step) (state : List ℕ)
        (now : Moment) (d new : Document) → IsTrue (are_states states)
        → todo states path state now d ≡ Ok (Some new) → IsValid d → IsValid new }
    ensures text { (states : Keywords) (path : List Step) (state : List ℕ)
        (now : Moment) (t : List ℕ) (new : Document) → IsTrue (are_states states)
        → todo states path state now (tree t) ≡ Ok (Some new) → tree (print new) ≡ new }
{}

/// The clock that runs is the first of those that are open.
pub fn first_clock_runs()
    ensures { (d : Document) → running_heading d
        ≡ option_map (λ (clock : ℕ × List ℕ). clock.0) (slice_get (open_clocks d) 0) }
{}

/// A clock that is opened is one open clock more, of the moment, at its heading; all others stay.
pub fn opened_clocks_are_open()
    ensures { (now : Moment) (i : ℕ) (d : Document) → IsDay now.day → now.minute < 1440
        → i < node_count d → (before : List (ℕ × List ℕ)) × (after : List (ℕ × List ℕ))
        × (open_clocks d ≡ before ++ after)
        × (open_clocks (with_opened now i d) ≡ before ++ ((i, clock_line now) ∷ after)) }
{}

/// A clock that is closed is open no more, and all others stay, so that the next one runs, or none.
pub fn closed_clocks_are_closed()
    ensures { (now : Moment) (i : ℕ) (d new : Document) → running_heading d ≡ Some i
        → with_closed now i d ≡ Ok new → open_clocks new ≡ drop 1 (open_clocks d) }
{}

/// Clocking keeps to one clock: where none is open one runs after clocking in, where one runs none
/// does after clocking out, and clocking in elsewhere leaves one, there.
pub fn one_clock_runs()
    ensures opened { (now : Moment) (i : ℕ) (d : Document) → IsDay now.day → now.minute < 1440
        → i < node_count d → open_clocks d ≡ []
        → open_clocks (with_opened now i d) ≡ (i, clock_line now) ∷ [] }
    ensures closed { (now : Moment) (i : ℕ) (line : List ℕ) (d new : Document)
        → open_clocks d ≡ (i, line) ∷ [] → with_closed now i d ≡ Ok new → open_clocks new ≡ [] }
    ensures switched { (now : Moment) (from i : ℕ) (line : List ℕ) (d new : Document)
        → IsDay now.day → now.minute < 1440 → i < node_count d
        → open_clocks d ≡ (from, line) ∷ [] → switched now from d i ≡ Ok (Some new)
        → open_clocks new ≡ (i, clock_line now) ∷ [] }
{}

/// Clocking keeps a document valid, so that the tree of the new text is what was made: a clock line
/// is no heading line.
pub fn clocks_are_valid()
    ensures opened { (now : Moment) (i : ℕ) (d : Document) → i < node_count d → IsValid d
        → IsValid (with_opened now i d) }
    ensures closed { (now : Moment) (i : ℕ) (d new : Document) → i < node_count d
        → with_closed now i d ≡ Ok new → IsValid d → IsValid new }
    ensures switched { (now : Moment) (from i : ℕ) (d new : Document) → from < node_count d
        → i < node_count d → switched now from d i ≡ Ok (Some new) → IsValid d → IsValid new }
    ensures opened_text { (now : Moment) (i : ℕ) (t : List ℕ) → i < node_count (tree t)
        → tree (print (with_opened now i (tree t))) ≡ with_opened now i (tree t) }
    ensures closed_text { (now : Moment) (i : ℕ) (t : List ℕ) (new : Document)
        → i < node_count (tree t) → with_closed now i (tree t) ≡ Ok new → tree (print new) ≡ new }
    ensures switched_text { (now : Moment) (from i : ℕ) (t : List ℕ) (new : Document)
        → from < node_count (tree t) → i < node_count (tree t)
        → switched now from (tree t) i ≡ Ok (Some new) → tree (print new) ≡ new }
{}

/// Closing a clock adds to the time clocked at its heading the minutes from its start to the
/// moment.
pub fn closing_adds_its_minutes()
    ensures { (now : Moment) (i : ℕ) (line : List ℕ) (more : List (ℕ × List ℕ))
        (minutes : ℕ) (d new : Document) → IsDay now.day → now.minute < 1440
        → open_clocks d ≡ (i, line) ∷ more → minutes_run now line ≡ Some minutes
        → with_closed now i d ≡ Ok new
        → clocked_minutes new i
        ≡ min (clocked_minutes d i + minutes) 18_446_744_073_709_551_615 }
{}
