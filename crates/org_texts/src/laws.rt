//! What the edits of held texts make of the files that they stand for, for all values.
//!
//! Each law is the contract of a function with nothing to do.
ghost use Rattle.std.specs.Prelude.{◌≡◌, ◌≢◌, ℕ, List, Some, None, IsSome};
ghost use Rattle.org_splice.specs.Texts.{EditedText};
ghost use Rattle.org_texts.specs.declared.plan.FileEdits.{FileEdits};
ghost use Rattle.org_texts.specs.Files.{StandOver, files_terminated, files_with};
ghost use Rattle.org_texts.specs.Plan.{CanEdit, with_edits};
ghost use Rattle.org_texts.specs.Texts.{TextSet, terminated_in, held_over, settled_set, text_of, with_text};

/// Edits of a text are edits of its file, and the texts stay made of their files.
pub fn edits_are_of_files()
    ensures over { (change : FileEdits) (set : TextSet) → CanEdit change set
        → (files : List ℕ → List ℕ) (name : List ℕ)
        → held_over (with_edits change set) files name
        ≡ files_with change (held_over set files) name }
    ensures stand { (change : FileEdits) (files : List ℕ → List ℕ) (set : TextSet)
        → CanEdit change set → StandOver files set → StandOver files (with_edits change set) }
{}

/// Edits of two files that can be made are a plan, whichever comes first.
pub fn plans_of_two_files()
    ensures { (first second : FileEdits) (set : TextSet) → CanEdit first set → CanEdit second set
        → first.file ≢ second.file → CanEdit second (with_edits first set) }
{}

/// A text that is made ready is its file, terminated, and the texts stay made of their files.
pub fn ready_texts_are_terminated()
    ensures over { (own : List ℕ) (set : TextSet) → IsSome (text_of set own)
        → (files : List ℕ → List ℕ) (name : List ℕ)
        → held_over (terminated_in own set) files name
        ≡ files_terminated own (held_over set files) name }
    ensures stand { (own : List ℕ) (files : List ℕ → List ℕ) (set : TextSet)
        → IsSome (text_of set own) → StandOver files set → StandOver files (terminated_in own set) }
{}

/// A file that is held as it is stays as it is, and the texts stay made of their files.
pub fn held_files_stay()
    ensures over { (own : List ℕ) (files : List ℕ → List ℕ) (set : TextSet) (name : List ℕ)
        → held_over (with_text own (files own) set) files name ≡ held_over set files name }
    ensures stand { (own : List ℕ) (files : List ℕ → List ℕ) (set : TextSet)
        → text_of set own ≡ None → StandOver files set
        → StandOver files (with_text own (files own) set) }
{}

/// After a commit the texts are their files.
pub fn settled_texts_are_files()
    ensures over { (set : TextSet) (files : List ℕ → List ℕ) (name : List ℕ)
        → held_over (settled_set set) files name ≡ held_over set files name }
    ensures stand { (files : List ℕ → List ℕ) (set : TextSet)
        → ((name : List ℕ) (text : EditedText) → text_of set name ≡ Some text
        → files name ≡ text.bytes) → StandOver files (settled_set set) }
{}
