//! What holds of the definitions of sections, for all values.
//!
//! Each law is the contract of a function with nothing to do.
ghost use Rattle.std.specs.Prelude.{◌≡◌, ◌<◌, ◌++◌, ◌∷◌, [], ℕ, Bool, List, Result, Some, Ok, true, false, codes, IsTrue};
ghost use Rattle.org_splice.specs.Blanks.{trimmed};
ghost use Rattle.org_stamp.specs.Calendar.{Moment, IsDay};
ghost use Rattle.org_meta.specs.Sections.{SectionParts, split, joined, is_planning, is_property_name, property, property_line, put};
ghost use Rattle.org_meta.specs.Planning.{PlanningEntry, PlanningLine, planning_of, entries_text, has_repeater, AreRepeated, repeated_entries};
ghost use Rattle.org_fault.specs.declared.refusal.Refusal.{Refusal};
ghost use Rattle.org_meta.specs.Replans.{repeated_line};
ghost use Rattle.org_meta.specs.Notes.{note_line, with_note};
ghost use Rattle.org_meta.specs.WellFormed.{IsClockLine, IsPlanning};
ghost use Rattle.org_meta.specs.declared.clock.Clock.{Clock};
ghost use Rattle.org_meta.specs.Clocks.{clock_of, is_open, minutes_in};
ghost use Rattle.org_meta.specs.Clocking.{clock_line, closed_line, minutes_run, opened};
ghost use Rattle.org_meta.specs.Lines.{AllPass};

/// The parts of a section are all of it.
pub fn parts_are_all()
    ensures { (lines : List (List ℕ)) → joined (split lines) ≡ lines }
{}

/// A property that was put is read, without the blanks round its value.
pub fn put_is_read()
    ensures { (name value : List ℕ) (parts : SectionParts) → is_property_name name ≡ true
        → property name (put name value parts) ≡ Some (trimmed value) }
{}

/// A well formed planning line is its indentation, the bytes of its entries and its tail.
pub fn planning_is_its_line()
    ensures { (line : List ℕ) (p : PlanningLine) → planning_of line ≡ Some p
        → p.indentation ++ (entries_text p.entries ++ p.tail) ≡ line }
{}

/// A section with a note, with a property put, or with another planning line, is split as it was
/// edited.
pub fn edited_parts()
    ensures note { (new old : List ℕ) (now : Moment) (lines : List (List ℕ))
        → split (joined (with_note (note_line new old now) (split lines)))
        ≡ with_note (note_line new old now) (split lines) }
    ensures put { (name value : List ℕ) (lines : List (List ℕ)) → is_property_name name ≡ true
        → split (joined (put name value (split lines))) ≡ put name value (split lines) }
    ensures planning { (line : List ℕ) (lines : List (List ℕ)) → is_planning line ≡ true
        → split (joined (record (split lines) { planning = line ∷ [] }))
        ≡ record (split lines) { planning = line ∷ [] } }
{}

/// The planning line of a section alone, and with the drawer below it, is split as it is in the
/// section.
pub fn fronts_are_split()
    ensures planning { (lines : List (List ℕ)) → split (split lines).planning
        ≡ record { planning = (split lines).planning; drawer = []; rest = [] } }
    ensures drawer { (lines : List (List ℕ))
        → split ((split lines).planning ++ (split lines).drawer)
        ≡ record (split lines) { rest = [] } }
{}

/// The next repetition of a planning line's entries can be computed.
pub fn repeats_compute()
    ensures { (entries : List PlanningEntry) (now : Moment)
        (r : Result (List ℕ) Refusal) → AreRepeated entries now r
        → repeated_entries now entries ≡ r }
{}

/// A planning line whose entries were repeated is a planning line, so by `edited_parts` the section
/// is split again as it was edited.
pub fn repeats_stay_planning()
    ensures { (line text : List ℕ) (p : PlanningLine) (now : Moment)
        → planning_of line ≡ Some p → has_repeater p.entries ≡ true
        → AreRepeated p.entries now (Ok text) → is_planning (repeated_line p text) ≡ true }
{}

/// What holds of every line of a section, and of those that are put into it, holds of every line of
/// the section edited.
pub fn keeps_lines()
    ensures put { (test : List ℕ → Bool) (name value : List ℕ) (lines : List (List ℕ))
        → AllPass test (property_line name value ∷ codes ":PROPERTIES:" ∷ codes ":END:" ∷ [])
        → AllPass test lines → AllPass test (joined (put name value (split lines))) }
    ensures note { (test : List ℕ → Bool) (note : List ℕ) (lines : List (List ℕ))
        → IsTrue (test note) → AllPass test lines
        → AllPass test (joined (with_note note (split lines))) }
    ensures planning { (test : List ℕ → Bool) (planning lines : List (List ℕ))
        → AllPass test planning → AllPass test lines
        → AllPass test (joined (record (split lines) { planning = planning })) }
    ensures opened { (test : List ℕ → Bool) (now : Moment) (lines : List (List ℕ))
        → AllPass test (clock_line now ∷ codes ":LOGBOOK:" ∷ codes ":END:" ∷ [])
        → AllPass test lines → AllPass test (joined (opened now (split lines))) }
{}

/// The clock line of a moment is open. A line that was closed isn't: it says the minutes from its
/// start to the moment.
pub fn clocks_open_and_close()
    ensures opened { (now : Moment) → IsDay now.day → now.minute < 1440
        → is_open (clock_line now) ≡ true }
    ensures closed { (now : Moment) (line new : List ℕ) → closed_line now line ≡ Ok new
        → is_open new ≡ false }
    ensures minutes { (now : Moment) (line new : List ℕ) (minutes : ℕ) → IsDay now.day
        → now.minute < 1440 → minutes_run now line ≡ Some minutes → closed_line now line ≡ Ok new
        → minutes_in new ≡ minutes }
{}

/// A line is read as a planning line with these entries exactly where it is one: blanks, entries of
/// a word, blanks and a timestamp, each word at most once, and blanks at the end (Org Syntax,
/// "Planning").
pub fn planning_lines_are_exact()
    ensures read { (line : List ℕ) (p : PlanningLine) → planning_of line ≡ Some p
        → IsPlanning line p }
    ensures only { (line : List ℕ) (p : PlanningLine) → IsPlanning line p
        → planning_of line ≡ Some p }
{}

/// A line is read as an open clock or as a closed one of so many minutes exactly where it is one:
/// `CLOCK:` and a timestamp, and of a closed one `--`, another that isn't earlier, `=>` and a
/// duration (Org Syntax, "Clocks"). The minutes are those between the two timestamps.
pub fn clock_lines_are_exact()
    ensures read { (line : List ℕ) (clock : Clock) → clock_of line ≡ Some clock
        → IsClockLine line clock }
    ensures only { (line : List ℕ) (clock : Clock) → IsClockLine line clock
        → clock_of line ≡ Some clock }
{}
