//! Texts by the names of their files, and which of them are dirty.
//!
//! A dirty text differs, or may differ, from what the disk has. `keep` closes a command, `undo`
//! takes it back, `settle` says that the disk has all. Nothing here calls a disk.
ghost use Rattle.std.specs.Prelude.{◌≡◌, ◌<◌, ◌≤◌, [], ◌∷◌, ◌++◌, List, ℕ, map, take, length, slice_get, Some, None, true, false, IfSome, IsSome, IsSomeAnd, OnOk, OnErr};
ghost use Rattle.std.specs.List.{IsDistinct, list_any};
ghost use Rattle.std.specs.Map.{keys_of, lookup};
ghost use Rattle.std.specs.Option.{option_map};
ghost use Rattle.std.specs.Str.{bytes_eq};
ghost use Rattle.org_splice.specs.Texts.{terminated_text, settled, spliced_each};
ghost use Rattle.org_texts.specs.Inside.{IsHolding};
ghost use Rattle.org_texts.specs.Plan.{CanEdit, IsPlan, LieIn, planned, with_edits};
ghost use Rattle.org_texts.specs.Texts.{IsPlace, before_of, terminated_in, nothing_held, now_of, pairs, ready_of, settled_set, text_of, with_change, with_name, with_text};

use crate::held::Held;
use crate::plan::{Edits, FileEdits, Plan};
use indexmap::{IndexMap, IndexSet};
use org_disk::FileName;
use org_splice::{Changes, Editing};
use std::alloc::{AllocError, Global};
use std::marker::Model;

/// Texts by the names of their files, each name once. A command edits them in place, and its edits
/// are kept or taken back as a whole, which takes no memory and can't fail. Where a call of a
/// command finds no memory, it takes all of the command's edits back.
///
/// A clause sees the texts as they are and as they were before the command, each time with the
/// names of those that are dirty (specs/Texts.antt).
#[derive(Drop)]
pub struct Texts {
    held: IndexMap<FileName, Held>,
    // The names of the texts that are dirty, in the order of their first touch.
    dirty: IndexSet<FileName>,
    // How many of them were so before the command.
    dirty_before: usize,
    // Where the text that was made ready last stands: the next command mostly asks for it again.
    // Only a guess.
    last: usize,
}

impl Model for Texts {
    ghost use Rattle.std.specs.Prelude.{map, take};
    ghost use Rattle.std.specs.Map.{keys_of};
    ghost use Rattle.org_texts.specs.Inside.{IsHolding};
    ghost use Rattle.org_texts.specs.Texts.{Holding, before_of, now_of, ready_of};

    ghost Value = { Holding };

    ghost view = { λ t. record {
      now = record { texts = map now_of t.held.entries; dirty = t.dirty.keys };
      before = record
          { texts = map before_of t.held.entries; dirty = take t.dirty_before t.dirty.keys };
      ready = map ready_of t.held.entries;
    } };

    ghost invariant = { λ t. IsHolding (keys_of t.held.entries) t.dirty.keys t.dirty_before };
}

impl Texts {
    /// No text. Takes no memory.
    pub fn new(alloc: Global) -> Texts
        ensures { result ≡ record { now = nothing_held; before = nothing_held; ready = [] } }
    {
        Texts {
            held: IndexMap::new(alloc),
            dirty: IndexSet::new(alloc),
            dirty_before: 0,
            last: 0,
        }
    }

    /// Holds one more text, as the disk has it.
    ///
    /// # Errors
    ///
    /// `AllocError`: all is as it was.
    pub fn hold(&mut self, name: FileName, bytes: Vec<u8>) -> Result<(), AllocError>
        requires { text_of self.old.now name ≡ None }
        ensures now { OnOk result (self.new.now ≡ with_text name bytes.items self.old.now) }
        ensures before { OnOk result
            (self.new.before ≡ with_text name bytes.items self.old.before) }
        ensures ready { OnOk result (self.new.ready ≡ self.old.ready ++ (name, false) ∷ []) }
        ensures err { OnErr result (self.new ≡ self.old) }
    {
        self.held.insert(name, Held::new(bytes))?;
        Ok(())
    }

    /// What is held of this name. Takes no memory.
    pub fn get(&self, name: &FileName) -> Option<&Held>
        ensures text { option_map (λ held. held.now.text) result ≡ text_of self.now.now name.now }
        ensures before { option_map (λ held. held.now.before) result
            ≡ text_of self.now.before name.now }
        ensures ready { option_map (λ held. held.now.ready) result
            ≡ lookup (bytes_eq name.now) self.now.ready }
    {
        match place_of(&self.held, self.last, name) {
            Some(place) => Some(&self.held[place]),
            None => None,
        }
    }

    /// Makes the text of this name, which is held, ready for a command: a last line without a
    /// newline gets one, and the headings are read where they aren't held. It is dirty from then
    /// on, also where it stays as it is, so that texts are committed in the order in which a
    /// command makes them ready.
    ///
    /// # Errors
    ///
    /// `AllocError`: all edits of the command are taken back.
    pub fn make_ready(&mut self, name: &FileName) -> Result<(), AllocError>
        requires { IsSome (text_of self.old.now name.now) }
        ensures now { OnOk result (self.new.now ≡ terminated_in name.now self.old.now) }
        ensures ready { OnOk result
            (self.new.ready ≡ with_change name.now (λ _. true) self.old.ready) }
        ensures before { self.new.before ≡ self.old.before }
        ensures err { OnErr result (self.new.now ≡ self.old.before) }
    {
        let marked = mark(&mut self.dirty, name);
        if marked.is_err() {
            self.undo();
            return marked;
        }
        let done = ready_at(&mut self.held, &mut self.last, name);
        if done.is_err() {
            self.undo();
        }
        done
    }

    /// Makes the edits of a plan, in place.
    ///
    /// # Errors
    ///
    /// `AllocError`: all edits of the command are taken back.
    pub fn apply(&mut self, plan: &Plan<'_>) -> Result<(), AllocError>
        requires { IsPlan plan.now self.old.now }
        ensures now { OnOk result (self.new.now ≡ planned plan.now self.old.now) }
        ensures before { self.new.before ≡ self.old.before }
        ensures err { OnErr result (self.new.now ≡ self.old.before) }
    {
        let done = self.apply_each(plan);
        if done.is_err() {
            self.undo();
        }
        done
    }

    // `apply` as far as there is memory.
    fn apply_each(&mut self, plan: &Plan<'_>) -> Result<(), AllocError>
        requires { IsPlan plan.now self.old.now }
        ensures now { OnOk result (self.new.now ≡ planned plan.now self.old.now) }
        ensures before { self.new.before ≡ self.old.before }
    {
        self.apply_one(&plan.first)?;
        match &plan.second {
            Some(second) => self.apply_one(second),
            None => Ok(()),
        }
    }

    // The edits of one file, as far as there is memory.
    fn apply_one(&mut self, change: &FileEdits<'_>) -> Result<(), AllocError>
        requires { CanEdit change.now self.old.now }
        ensures now { OnOk result (self.new.now ≡ with_edits change.now self.old.now) }
        ensures before { self.new.before ≡ self.old.before }
    {
        let name = change.file.name();
        mark(&mut self.dirty, name)?;
        apply_at(&mut self.held, self.last, name, &change.edits)
    }

    /// Takes all edits of the command back. Takes no memory, and can't fail.
    pub fn undo(&mut self)
        ensures now { self.new.now ≡ self.old.before }
        ensures before { self.new.before ≡ self.old.before }
    {
        for place in 0..self.held.len() {
            self.held[place].undo();
        }
        self.dirty.truncate(self.dirty_before);
    }

    /// Keeps all edits of the command. Takes no memory, and can't fail.
    pub fn keep(&mut self)
        ensures now { self.new.now ≡ self.old.now }
        ensures before { self.new.before ≡ self.old.now }
    {
        for place in 0..self.held.len() {
            self.held[place].keep();
        }
        self.dirty_before = self.dirty.len();
    }

    /// Takes all texts as they are for what the disk has: a commit put them there. None is dirty.
    /// Takes no memory.
    pub fn settle(&mut self)
        ensures now { self.new.now ≡ settled_set self.old.now }
        ensures before { self.new.before ≡ settled_set self.old.now }
    {
        for place in 0..self.held.len() {
            self.held[place].settle();
        }
        self.dirty.clear();
        self.dirty_before = 0;
    }

    /// How many texts are dirty. Takes no memory.
    pub fn dirty_len(&self) -> usize
        ensures len { result ≡ length (pairs self.now.now) }
        ensures distinct { IsDistinct bytes_eq (keys_of (pairs self.now.now)) }
    {
        self.dirty.len()
    }

    /// The name and the text of one that is dirty, counted from 0 in the order of their
    /// first touch. Nothing is copied.
    pub fn dirty(&self, index: usize) -> (&FileName, &Editing)
        requires { index < length (pairs self.now.now) }
        ensures { slice_get (pairs self.now.now) index ≡ Some (result.0.now, result.1.now.text) }
    {
        let Some(name) = self.dirty.get_index(index) else {
            unreachable!();
        };
        match self.held.get(name) {
            Some(held) => (name, held.text()),
            None => unreachable!(),
        }
    }
}

impl Changes<FileName> for Texts {
    ghost use Rattle.org_texts.specs.Texts.{pairs as dirty_pairs};

    ghost pairs = { λ texts. dirty_pairs texts.now };

    fn len(&self) -> usize {
        self.dirty_len()
    }

    fn pair(&self, index: usize) -> (&FileName, &Editing) {
        self.dirty(index)
    }
}

/// Where the text of this name stands. A place is guessed, and looked at first.
fn place_of(held: &IndexMap<FileName, Held>, guess: usize, name: &FileName) -> Option<usize>
    ensures place { IsPlace name.now held.now.entries result }
    ensures within { IfSome result (λ i. i < length held.now.entries) }
{
    match held.as_slice().get_index(guess) {
        Some((at, _)) if at == name => Some(guess),
        _ => find(held, name),
    }
}

/// `place_of` without a guess. It stands apart so that a right guess costs little.
#[cold]
#[inline(never)]
fn find(held: &IndexMap<FileName, Held>, name: &FileName) -> Option<usize>
    ensures place { IsPlace name.now held.now.entries result }
    ensures within { IfSome result (λ i. i < length held.now.entries) }
{
    held.get_index_of(name)
}

/// Whether a name is one of these. The last one is looked at first.
fn has(names: &IndexSet<FileName>, name: &FileName) -> bool
    ensures { result ≡ list_any (bytes_eq name.now) names.now.keys }
{
    match names.last() {
        Some(last) if last == name => true,
        _ => is_among(names, name),
    }
}

/// `has` without a look at the last one, apart for the same reason as `find`.
#[cold]
#[inline(never)]
fn is_among(names: &IndexSet<FileName>, name: &FileName) -> bool
    ensures { result ≡ list_any (bytes_eq name.now) names.now.keys }
{
    names.contains(name)
}

/// Puts a name after the others, if it isn't there. `AllocError` leaves them as they are.
fn mark(names: &mut IndexSet<FileName>, name: &FileName) -> Result<(), AllocError>
    ensures ok { OnOk result (names.new.keys ≡ with_name name.now names.old.keys) }
    ensures err { OnErr result (names.new.keys ≡ names.old.keys) }
{
    if has(names, name) {
        return Ok(());
    }
    add(names, name)
}

/// Puts a name after the others, where it isn't. `AllocError` leaves them as they are.
#[cold]
#[inline(never)]
fn add(names: &mut IndexSet<FileName>, name: &FileName) -> Result<(), AllocError>
    ensures ok { OnOk result (names.new.keys ≡ with_name name.now names.old.keys) }
    ensures err { OnErr result (names.new.keys ≡ names.old.keys) }
{
    names.insert(name.clone()?)?;
    Ok(())
}

/// Makes the text of this name, which is held, ready, as far as there is memory. Where it stands
/// becomes the guess.
fn ready_at(
    held: &mut IndexMap<FileName, Held>,
    guess: &mut usize,
    name: &FileName,
) -> Result<(), AllocError>
    requires { IsSome (lookup (bytes_eq name.now) (map now_of held.old.entries)) }
    ensures now { OnOk result
        (map now_of held.new.entries
        ≡ with_change name.now terminated_text (map now_of held.old.entries)) }
    ensures ready { OnOk result
        (map ready_of held.new.entries
        ≡ with_change name.now (λ _. true) (map ready_of held.old.entries)) }
    ensures before { map before_of held.new.entries ≡ map before_of held.old.entries }
    ensures names { keys_of held.new.entries ≡ keys_of held.old.entries }
{
    let alloc = *held.allocator();
    let Some(place) = place_of(held, *guess, name) else {
        unreachable!();
    };
    *guess = place;
    held[place].make_ready(alloc)
}

/// Makes edits of the text of this name, as far as there is memory.
fn apply_at(
    held: &mut IndexMap<FileName, Held>,
    guess: usize,
    name: &FileName,
    edits: &Edits,
) -> Result<(), AllocError>
    requires { IsSomeAnd (lookup (bytes_eq name.now) (map now_of held.old.entries))
        (λ text. LieIn edits.now.items text.bytes) }
    ensures now { OnOk result
        (map now_of held.new.entries
        ≡ with_change name.now (spliced_each edits.now.items) (map now_of held.old.entries)) }
    ensures before { map before_of held.new.entries ≡ map before_of held.old.entries }
    ensures names { keys_of held.new.entries ≡ keys_of held.old.entries }
{
    let Some(place) = place_of(held, guess, name) else {
        unreachable!();
    };
    held[place].apply(edits)
}
