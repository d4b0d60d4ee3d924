//! What is noted of the texts of a store's files: what is known of each after searches.
//!
//! A note is kept by the number of its file, in byte order of the names. The names are passed to
//! each call, since the file set has them. All notes are right of their texts (`AreKnown`,
//! specs/Noted.antt): where a plan's edits are made, its files' notes are lowered to what is still
//! known. A note for which there is no memory isn't kept, and its file is searched again.
ghost use Rattle.std.specs.Prelude.{◌≡◌, ◌⊎◌, ◌≤◌, List, ℕ, None, Some, IfSome, IsTrue, length, slice_get};
ghost use Rattle.std.specs.Option.{ForSome};
ghost use Rattle.org_splice.specs.Lines.{terminated};
ghost use Rattle.org_texts.specs.Plan.{IsOfLines, IsPlan, planned};
ghost use Rattle.org_texts.specs.Texts.{TextSet, text_of};
ghost use Rattle.org_commands.specs.Clocks.{RunsIn};
ghost use Rattle.org_commands.specs.Noted.{AreKnown, AreSearched, IsKnown, Lowers, LowersNote, StayKnown};

use crate::searches::Searches;
use org_disk::FileName;
use org_splice::{Edit, Searched};
use org_texts::{Edits, Plan, Texts};
use std::alloc::Global;
use std::marker::Model;

/// What is noted of the texts of files, by the numbers of their names.
///
/// A clause sees a list, which may end before that of the names does.
#[derive(Drop)]
pub(crate) struct Notes {
    notes: Vec<Option<Searches>>,
}

impl Model for Notes {
    ghost use Rattle.std.specs.Prelude.{List, Option};
    ghost use Rattle.org_commands.specs.declared.searches.Searches.{Searches};

    ghost Value = { List (Option Searches) };

    ghost view = { λ n. n.notes.items };
}

impl Notes {
    /// Nothing is noted yet.
    pub(crate) fn new(alloc: Global) -> Notes
        ensures { (names : List (List ℕ)) (set : TextSet) → AreKnown names result set }
    {
        Notes {
            notes: Vec::new(alloc),
        }
    }

    /// Whether it is noted that no clock runs in the file of this number.
    pub(crate) fn is_clockless(&self, index: usize) -> bool
        ensures { IsTrue result → (names : List (List ℕ)) (set : TextSet)
            → AreKnown names self.now set → (name : List ℕ) → slice_get names index ≡ Some name
            → RunsIn set name None }
    {
        match self.notes.get(index) {
            Some(Some(searches)) => matches!(searches.clocks, Searched::Nowhere),
            _ => false,
        }
    }

    /// What is known of the text of this file after searches.
    pub(crate) fn searched(&self, names: &[FileName], file: &FileName) -> Searches
        ensures { (set : TextSet) → AreKnown names.now self.now set
            → ForSome (text_of set file.now) (λ text. AreSearched result (terminated text.bytes)) }
    {
        let Some(index) = number_of(names, file) else {
            return Searches::nothing();
        };
        match self.notes.get(index) {
            Some(Some(searches)) => *searches,
            _ => Searches::nothing(),
        }
    }

    /// Notes what is known of the text of this file.
    pub(crate) fn note(&mut self, names: &[FileName], file: &FileName, searches: Searches)
        ensures { (set : TextSet) → IsKnown searches set file.now
            → AreKnown names.now self.old set → AreKnown names.now self.new set }
    {
        if let Some(index) = number_of(names, file) {
            self.note_at(index, searches);
        }
    }

    // The same of the file of this number. Without memory it isn't noted.
    fn note_at(&mut self, index: usize, searches: Searches)
        ensures { (i : ℕ) (new : Searches) → slice_get self.new i ≡ Some (Some new)
            → ((i ≡ index) × (new ≡ searches)) ⊎ (slice_get self.old i ≡ Some (Some new)) }
    {
        for _number in self.notes.len()..index {
            if self.notes.push(None).is_err() {
                return;
            }
        }
        if index < self.notes.len() {
            self.notes[index] = Some(searches);
        } else if index == self.notes.len() {
            let _ = self.notes.push(Some(searches));
        }
    }

    /// Lowers what is noted of the files that a plan changes, whose edits are to be made of these
    /// texts; where it isn't one of lines, lets go of it.
    pub(crate) fn lower_plan(&mut self, names: &[FileName], texts: &Texts, plan: &Plan<'_>)
        requires plan { IsPlan plan.now texts.now.now }
        requires lines { IsTrue plan.now.of_lines → IsOfLines plan.now texts.now.now }
        ensures stays { StayKnown names.now self.old self.new }
        ensures follows { AreKnown names.now self.old texts.now.now
            → AreKnown names.now self.new (planned plan.now texts.now.now) }
    {
        if !plan.of_lines {
            self.forget_plan(names, plan);
            return;
        }
        let first = plan.first.file.name();
        self.lower(names, first, size_of(texts, first), &plan.first.edits);
        if let Some(change) = &plan.second {
            let second = change.file.name();
            // Of the same file the size isn't known here: the first edits changed it.
            let size = if second == first {
                0
            } else {
                size_of(texts, second)
            };
            self.lower(names, second, size, &change.edits);
        }
    }

    // Lowers what is noted of one file, whose text has this size, or a larger one, to what is known
    // after edits.
    fn lower(&mut self, names: &[FileName], file: &FileName, size: usize, edits: &Edits)
        ensures { Lowers names.now file.now size edits.now.items self.old self.new }
    {
        for (index, name) in names.iter().enumerate() {
            if index < self.notes.len() && file == name {
                self.notes[index] = lowered_note(self.notes[index], size, edits);
            }
        }
    }

    // Lets go of what is noted of the files that a plan changes.
    fn forget_plan(&mut self, names: &[FileName], plan: &Plan<'_>)
        ensures stays { StayKnown names.now self.old self.new }
        ensures follows { (set : TextSet) → AreKnown names.now self.old set
            → AreKnown names.now self.new (planned plan.now set) }
    {
        self.forget(names, plan.first.file.name());
        if let Some(change) = &plan.second {
            self.forget(names, change.file.name());
        }
    }

    // Lets go of what is noted of one file.
    fn forget(&mut self, names: &[FileName], file: &FileName)
        ensures { (size : ℕ) (edits : List Edit)
            → Lowers names.now file.now size edits self.old self.new }
    {
        for (index, name) in names.iter().enumerate() {
            if index < self.notes.len() && file == name {
                self.notes[index] = None;
            }
        }
    }
}

/// The number of the file of this name, in byte order of the names.
fn number_of(names: &[FileName], file: &FileName) -> Option<usize>
    ensures { IfSome result (λ index. slice_get names.now index ≡ Some file.now) }
{
    for (index, name) in names.iter().enumerate() {
        if name == file {
            return Some(index);
        }
    }
    None
}

/// The size of the held text of this name.
fn size_of(texts: &Texts, name: &FileName) -> usize
    ensures { ForSome (text_of texts.now.now name.now) (λ text. result ≤ length text.bytes) }
{
    match texts.get(name) {
        Some(held) => held.bytes().len(),
        None => 0,
    }
}

/// A note after edits of a text of this size, or of a larger one.
fn lowered_note(note: Option<Searches>, size: usize, edits: &Edits) -> Option<Searches>
    ensures { LowersNote size edits.now.items note result }
{
    Some(note?.behind_each(size, edits))
}
