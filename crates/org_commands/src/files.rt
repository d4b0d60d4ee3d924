//! The files of a store, with what is held of their texts.
//!
//! Each file is read once, when a command first names it, and edited in memory from then on. What
//! the disk has is what was read, and what was committed since: nobody else writes it.
ghost use Rattle.std.specs.Prelude.{◌≡◌, ◌⊎◌, ◌<◌, ◌∷◌, [], List, ℕ, None, Some, nat_lt, length, slice_get, true, false, IfOk, MatchResult, OnOk, IsErrOf, IsSome, IsTrue};
ghost use Rattle.std.specs.List.{All};
ghost use Rattle.std.specs.Map.{lookup};
ghost use Rattle.std.specs.Option.{ForSome, option_map};
ghost use Rattle.std.specs.Str.{bytes_eq};
ghost use Rattle.org_disk.specs.CountsFailures.{CountsFailures};
ghost use Rattle.org_disk.specs.Names.{IsOrgFile};
ghost use Rattle.org_fileset.specs.Opening.{Opens};
ghost use Rattle.org_fileset.specs.Names.{limit};
ghost use Rattle.org_splice.specs.Lines.{terminated};
ghost use Rattle.org_texts.specs.Texts.{bytes_or, text_of};
ghost use Rattle.org_commands.specs.Clocks.{RunsIn};
ghost use Rattle.org_commands.specs.Files.{AreOpened, AreSmallToWrite, CommitsHeld, IsPlanFor, IsReady, KeepsFiles, MakesReady, PutsPlan, StaysInMemory, disk_of, files_of, has_large, texts_in};
ghost use Rattle.org_commands.specs.InOrder.{is_name};
ghost use Rattle.org_commands.specs.Noted.{AreSearched, IsKnown};
ghost use Rattle.org_commands.specs.Reading.{ReadsFiles};

use crate::command::RunFault;
use crate::notes::Notes;
use crate::searches::Searches;
use org_disk::{Disk, FileName};
use org_fault::Refusal;
use org_fileset::{FileSet, LIMIT, OpenRefused, SetFault};
use org_texts::{Held, Plan, Texts};
use std::alloc::{AllocError, Global};
use std::marker::Model;

/// Files of a disk that are changed in memory: each is read once, and edited there until a commit
/// puts all changed texts on the disk as one.
///
/// A clause sees its disk, its names, and what is held: the texts as they are, and as they were
/// before the command that runs (specs/Files.antt).
#[derive(Drop)]
pub struct Files<D: Disk> {
    alloc: Global,
    set: FileSet<D>,
    texts: Texts,
    notes: Notes,
}

impl<D: Disk> Model for Files<D> {
    ghost use Rattle.std.specs.Prelude.{◌≡◌, false};
    ghost use Rattle.org_journal.specs.Recovered.{contents};
    ghost use Rattle.org_commands.specs.Files.{OpenFiles, IsSound};
    ghost use Rattle.org_commands.specs.Noted.{IsNoted};

    ghost Value = { OpenFiles D };

    ghost view = { λ f. record {
      disk = f.set.disk;
      names = f.set.names;
      broken = f.set.broken;
      held = f.texts;
    } };

    ghost invariant = { λ f. IsSound f.set.names ((f.set.broken ≡ false) × D.honest f.set.disk)
        (contents (D.files f.set.disk)) f.texts × IsNoted f.set.names f.notes f.texts };
}

impl<D: Disk> Files<D> {
    /// The files of the given names and of their archive files, with nothing held: see
    /// `FileSet::open`, whose errors it has.
    pub fn open(alloc: Global, disk: D, names: Vec<FileName>) -> Result<Files<D>, OpenRefused<D>>
        requires { All IsOrgFile names.items }
        ensures opened { IfOk result (λ files. AreOpened D.Disk names.items files) }
        ensures opens { Opens D.Disk names.items disk (disk_of result) result }
    {
        match FileSet::open(alloc, disk, names) {
            Ok(set) => Ok(Files {
                alloc,
                set,
                texts: Texts::new(alloc),
                notes: Notes::new(alloc),
            }),
            Err(refused) => Err(refused),
        }
    }

    /// Whether it is the name of one of the files: of those that were given, or of their archive
    /// files.
    pub(crate) fn has(&self, name: &FileName) -> bool
        ensures { result ≡ is_name self.now.names name.now }
    {
        // Mostly it is one that is held, and there may be hundreds of names.
        self.texts.get(name).is_some() || self.set.names().contains(name)
    }

    /// Tests that it is the name of one of the files: see `has`. Else it is refused as
    /// `NoSuchFile`.
    pub(crate) fn check_name(&self, name: &FileName) -> Result<(), RunFault>
        ensures { MatchResult result (λ _. is_name self.now.names name.now ≡ true)
            (λ fault. (fault ≡ RunFault.Refused Refusal.NoSuchFile)
            × (is_name self.now.names name.now ≡ false)) }
    {
        if self.has(name) {
            Ok(())
        } else {
            Err(RunFault::Refused(Refusal::NoSuchFile))
        }
    }

    /// How many files there are: those of the given names, and their archive files.
    pub(crate) fn count(&self) -> usize
        ensures { result ≡ length self.now.names }
    {
        self.set.names().len()
    }

    /// A copy of the name of the file of this number, in byte order of the names. `AllocError`
    /// comes where memory ran out.
    pub(crate) fn name(&self, index: usize) -> Result<FileName, AllocError>
        requires { index < length self.now.names }
        ensures { IfOk result (λ name. slice_get self.now.names index ≡ Some name) }
    {
        self.set.names()[index].clone()
    }

    /// Whether a call of the disk has failed since the files were opened.
    pub fn is_broken(&self) -> bool
        ensures { result ≡ self.now.broken }
    {
        self.set.is_broken()
    }

    /// The disk as it is. What was changed and not committed is given up.
    pub fn into_disk(self) -> D
        ensures { result ≡ self.disk }
    {
        let Files { set, .. } = self;
        set.into_disk()
    }

    /// What is held of this name. Takes no memory.
    pub(crate) fn get(&self, name: &FileName) -> Option<&Held>
        ensures text { option_map (λ held. held.now.text) result
            ≡ text_of self.now.held.now name.now }
        ensures before { option_map (λ held. held.now.before) result
            ≡ text_of self.now.held.before name.now }
        ensures ready { option_map (λ held. held.now.ready) result
            ≡ lookup (bytes_eq name.now) self.now.held.ready }
    {
        self.texts.get(name)
    }

    /// What is held of one of the files, whose text is ready. Takes no memory.
    pub(crate) fn held(&self, name: &FileName) -> &Held
        requires { IsReady name.now self.now.held }
        ensures text { text_of self.now.held.now name.now ≡ Some result.now.text }
        ensures ready { result.now.ready ≡ true }
    {
        match self.texts.get(name) {
            Some(held) => held,
            None => unreachable!(),
        }
    }

    /// The bytes of one of the files, which is held, as they are. Takes no memory.
    pub(crate) fn text(&self, name: &FileName) -> &[u8]
        requires { IsSome (text_of self.now.held.now name.now) }
        ensures { option_map (λ text. text.bytes) (text_of self.now.held.now name.now)
            ≡ Some result.now }
    {
        match self.texts.get(name) {
            Some(held) => held.bytes(),
            None => unreachable!(),
        }
    }

    /// The allocator that the texts were made with.
    pub(crate) fn alloc(&self) -> Global {
        self.alloc
    }

    /// Reads one of the files, where it isn't held. No text changes by it. `Device` breaks the
    /// files; after `OutOfMemory` the file can be read again.
    pub(crate) fn load(&mut self, name: &FileName) -> Result<(), RunFault>
        requires name { is_name self.old.names name.now ≡ true }
        requires unbroken { self.old.broken ≡ false }
        ensures held { OnOk result (IsSome (text_of self.new.held.now name.now)) }
        ensures files { ReadsFiles D.Disk self.old self.new result }
        ensures unedited { self.old.held.now ≡ self.old.held.before
            → self.new.held.now ≡ self.new.held.before }
        ensures ready { MakesReady [] self.old.held self.new.held }
    {
        if self.texts.get(name).is_some() {
            return Ok(());
        }
        let bytes = self.set.read(name)?;
        self.texts.hold(name.clone()?, bytes)?;
        Ok(())
    }

    // Makes the text of one of the files, which is held, ready for a command. Where there is no
    // memory, all edits of the command are taken back.
    fn make_ready(&mut self, name: &FileName) -> Result<(), AllocError>
        requires { IsSome (text_of self.old.held.now name.now) }
        ensures memory { StaysInMemory self.old self.new }
        ensures ready { OnOk result (MakesReady (name.now ∷ []) self.old.held self.new.held) }
        ensures before { self.new.held.before ≡ self.old.held.before }
    {
        self.texts.make_ready(name)
    }

    /// Makes one of the files ready for a command: it is read where it isn't held, a last line
    /// without a newline gets one, and its headings are read where they aren't held. The faults are
    /// those of `load`; the command's edits are to be taken back after them.
    pub(crate) fn ready(&mut self, name: &FileName) -> Result<(), RunFault>
        requires name { is_name self.old.names name.now ≡ true }
        requires unbroken { self.old.broken ≡ false }
        ensures ready { OnOk result (MakesReady (name.now ∷ []) self.old.held self.new.held) }
        ensures files { ReadsFiles D.Disk self.old self.new result }
    {
        self.load(name)?;
        self.make_ready(name)?;
        Ok(())
    }

    /// Whether the file of this number is known to have no clock that runs.
    pub(crate) fn is_clockless(&self, index: usize) -> bool
        ensures { IsTrue result → (name : List ℕ) → slice_get self.now.names index ≡ Some name
            → RunsIn self.now.held.before name None }
    {
        self.notes.is_clockless(index)
    }

    /// What is known of the text of this file after searches.
    pub(crate) fn searched(&self, file: &FileName) -> Searches
        ensures { ForSome (text_of self.now.held.now file.now)
            (λ text. AreSearched result (terminated text.bytes)) }
    {
        self.notes.searched(self.set.names(), file)
    }

    /// Notes what is known of the text of this file, as it is and as it was before the command that
    /// runs. Nothing else changes.
    pub(crate) fn note(&mut self, file: &FileName, searches: Searches)
        requires now { IsKnown searches self.old.held.now file.now }
        requires before { IsKnown searches self.old.held.before file.now }
        ensures { self.new ≡ self.old }
    {
        self.notes.note(self.set.names(), file, searches);
    }

    /// Makes the edits of a plan, in memory. `TooLarge` where one of the texts would be past the
    /// limit; then, and where there is no memory, all edits of the command are taken back.
    pub fn put(&mut self, plan: &Plan<'_>) -> Result<(), RunFault>
        requires { IsPlanFor self.old.names self.old.held plan.now }
        ensures memory { StaysInMemory self.old self.new }
        ensures before { self.new.held.before ≡ self.old.held.before }
        ensures puts { PutsPlan plan.now self.old.held result self.new.held }
    {
        self.notes.lower_plan(self.set.names(), &self.texts, plan);
        self.texts.apply(plan)?;
        if is_large(&self.texts, plan) {
            self.texts.undo();
            return Err(RunFault::Refused(Refusal::TooLarge));
        }
        Ok(())
    }

    /// Takes all edits of the command back. Takes no memory, and can't fail.
    pub fn undo(&mut self)
        ensures memory { StaysInMemory self.old self.new }
        ensures now { self.new.held.now ≡ self.old.held.before }
        ensures before { self.new.held.before ≡ self.old.held.before }
        ensures small { AreSmallToWrite self.new.held.now }
    {
        self.texts.undo();
    }

    /// Keeps all edits of the command, in memory. Takes none, and can't fail.
    pub fn keep(&mut self)
        requires { AreSmallToWrite self.old.held.now }
        ensures memory { StaysInMemory self.old self.new }
        ensures now { self.new.held.now ≡ self.old.held.now }
        ensures before { self.new.held.before ≡ self.old.held.now }
    {
        self.texts.keep();
    }

    /// Commits the texts as they are, of which the dirty ones are within the limit, as they always
    /// are between commands: see `FileSet::commit`. Where no text is dirty, no call of the disk is
    /// made.
    ///
    /// # Errors
    ///
    /// Those of `FileSet::commit`; `OutOfMemory` leaves all as it was.
    pub fn commit(&mut self) -> Result<(), SetFault>
        requires unbroken { self.old.broken ≡ false }
        requires small { (self.old.held.now ≡ self.old.held.before)
            ⊎ AreSmallToWrite self.old.held.now }
        ensures commits { CommitsHeld D.Disk self.old self.new result }
        ensures keeps { KeepsFiles self.old self.new result }
        ensures accounts { CountsFailures D.Disk self.old.disk self.new.disk
            (IsErrOf result SetFault.Device) }
    {
        self.set.commit(&self.texts)?;
        self.texts.settle();
        Ok(())
    }
}

/// Whether the text of this name, which is held, is past the limit.
fn is_large_text(texts: &Texts, name: &FileName) -> bool
    requires { IsSome (text_of texts.now.now name.now) }
    ensures { result ≡ nat_lt limit (length (bytes_or [] (text_of texts.now.now name.now))) }
{
    match texts.get(name) {
        Some(held) => held.bytes().len() > LIMIT,
        None => unreachable!(),
    }
}

/// Whether a text that a plan changed is past the limit.
fn is_large(texts: &Texts, plan: &Plan<'_>) -> bool
    requires first { IsSome (text_of texts.now.now plan.now.first.file) }
    requires second { ForSome plan.now.second
        (λ change. IsSome (text_of texts.now.now change.file)) }
    ensures { result ≡ has_large (texts_in texts.now.now (files_of plan.now)) }
{
    if is_large_text(texts, plan.first.file.name()) {
        return true;
    }
    match &plan.second {
        Some(change) => is_large_text(texts, change.file.name()),
        None => false,
    }
}
