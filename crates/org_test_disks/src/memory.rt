//! A disk in memory, which keeps a record of its calls. What it holds is what the record stands
//! for.
ghost use Rattle.std.specs.Prelude.{◌≡◌, ◌≢◌, ◌⊎◌, List, ℕ, [], ◌∷◌, ◌++◌, ◌≤◌, length, IsTrue, IsFalse, IfOk, IfSome, OnOk, OnErr, IsNone};
ghost use Rattle.std.specs.Str.{bytes_eq};
ghost use Rattle.indexmap.specs.IndexMap.{get};
ghost use Rattle.org_splice.specs.Overwritten.{overwritten};
ghost use Rattle.org_disk.specs.Disk.{FileState, IsCounted, IsImage, write};
ghost use Rattle.org_test_disks.specs.Record.{effect_of, files_after, content_in, is_call, Keeps, KeepsCutImage, KeepsImage};

use indexmap::IndexMap;
use org_disk::{Disk, DiskFault, FileName, Standing};
use std::alloc::{AllocError, Global};

/// What a crash leaves of each file, one of its images.
#[derive(Clone, Copy)]
pub enum Outcome {
    /// Every write and cut so far took place, the crashed one too.
    All,
    /// The file is as after its last successful sync or `set`; without one it is empty.
    None,
    /// As `All`, but only the first bytes of a crashed write went out, at most as many as the
    /// number says; another crashed call had no effect.
    Front(usize),
    /// The file has its greatest length since its last sync, and this byte at each position that
    /// isn't fixed; the crashed call counts as made.
    Fill(u8),
}

// What a call did to its file.
#[derive(Drop)]
pub(crate) enum Effect {
    Set(Vec<u8>),
    Write(u64, Vec<u8>),
    Cut(u64),
    Sync,
    // it read, or it failed without effect
    Nothing,
}

// A call in the record, or a `set`.
#[derive(Drop)]
pub(crate) struct Call {
    name: FileName,
    effect: Effect,
    // the disk crashed within this call
    crashed: bool,
}

// How a call that begins goes.
#[derive(Clone, Copy)]
enum Turn {
    Made,
    Failed,
    Crashed,
}

// The crash that was asked for.
#[derive(Clone, Copy)]
pub(crate) enum Crash {
    Never,
    // within the call of this number, counted from 1
    In(u64, Outcome),
    Came(Outcome),
}

/// Files in memory, with a record of all calls. It is honest, and truthful: no answer of it is
/// wrong.
#[derive(Drop)]
pub struct MemoryDisk {
    alloc: Global,
    calls: Vec<Call>,
    // what each file holds after these calls, so that a read needs no replay
    contents: IndexMap<FileName, Vec<u8>>,
    failures: u64,
    // the call that fails, counted from 1; 0 for none
    fail_in: u64,
    crash: Crash,
    ghost tied: { (name : List ℕ) →
        content_in contents name ≡ (files_after calls.items name).content },
    // a file that isn't kept was never longer than nothing
    ghost absent: { (name : List ℕ) → IsNone (get bytes_eq contents name) →
        (files_after calls.items name).least ≡ 0 },
}

impl MemoryDisk {
    ghost use Rattle.std.specs.Prelude.{◌≡◌, ◌≢◌, List, ℕ, [], count_by, IsTrue, IfOk, OnOk, OnErr};
    ghost use Rattle.org_disk.specs.Disk.{AreImages, stable};
    ghost use Rattle.org_test_disks.specs.Record.{is_call};
    ghost use Rattle.org_test_disks.specs.Memory.{call_count, leaves_all, memory_files, crash_asked, KeepsPlan};

    /// A disk without files, of which no call has failed.
    pub fn new(alloc: Global) -> Self
        ensures files { (name : List ℕ) → memory_files result name ≡ stable [] }
        ensures calls { result.calls.items ≡ [] }
        ensures failures { result.failures ≡ 0 }
        ensures fail_in { result.fail_in ≡ 0 }
        ensures crash { result.crash ≡ Crash.Never }
    {
        MemoryDisk {
            alloc,
            calls: Vec::new(alloc),
            contents: IndexMap::new(alloc),
            failures: 0,
            fail_in: 0,
            crash: Crash::Never,
        }
    }

    /// Gives a file a content, all on the disk. It counts as no call.
    ///
    /// # Errors
    ///
    /// `AllocError`: nothing changes.
    pub fn set(&mut self, name: &FileName, bytes: &[u8]) -> Result<(), AllocError>
        ensures ok { OnOk result (memory_files self.new name.now ≡ stable bytes.now) }
        ensures others { (other : List ℕ) → other ≢ name.now →
            memory_files self.new other ≡ memory_files self.old other }
        ensures err { OnErr result (memory_files self.new ≡ memory_files self.old) }
        ensures failures { self.new.failures ≡ self.old.failures }
        ensures plan { KeepsPlan self.old self.new }
        ensures uncounted { call_count self.new ≡ call_count self.old }
    {
        let bytes = bytes.to_vec(self.alloc)?;
        self.record(name, Effect::Set(bytes), false)
    }

    /// The k-th call of `Disk` from now on, counted from 1, fails without effect, and later ones go
    /// on. It takes the place of an earlier `fail_at` whose call hasn't come; with 0 no call fails.
    pub fn fail_at(&mut self, k: u64)
        ensures files { memory_files self.new ≡ memory_files self.old }
        ensures failures { self.new.failures ≡ self.old.failures }
        ensures fail_in { self.new.fail_in ≡ k }
        ensures crash { self.new.crash ≡ self.old.crash }
    {
        self.fail_in = k;
    }

    /// The k-th call of `Disk` from now on, counted from 1, and every later one fail; `image` then
    /// shows what the outcome leaves. It takes the place of an earlier `crash_at` whose call hasn't
    /// come, and with 0 no call crashes the disk; a disk that has crashed stays so.
    pub fn crash_at(&mut self, k: u64, outcome: Outcome)
        ensures files { memory_files self.new ≡ memory_files self.old }
        ensures failures { self.new.failures ≡ self.old.failures }
        ensures fail_in { self.new.fail_in ≡ self.old.fail_in }
        ensures crash { self.new.crash ≡ crash_asked self.old.crash k outcome }
    {
        if let Crash::Came(_) = self.crash {
            return;
        }
        self.crash = if k == 0 {
            Crash::Never
        } else {
            Crash::In(k, outcome)
        };
    }

    /// The disk after the crash, all of it stable: one of its images, which the outcome picks.
    /// Without a crash it is the content as it is now.
    ///
    /// # Errors
    ///
    /// `AllocError`.
    pub fn image(&self, alloc: Global) -> Result<MemoryDisk, AllocError>
        ensures stable { IfOk result (λ image. (name : List ℕ) →
            memory_files image name ≡ stable (memory_files image name).content) }
        ensures left { IfOk result (λ image. AreImages (memory_files self.now)
            (λ name. (memory_files image name).content)) }
        ensures whole { IsTrue (leaves_all self.now) →
            IfOk result (λ image. (name : List ℕ) →
            (memory_files image name).content ≡ (memory_files self.now name).content) }
        ensures fresh { IfOk result (λ image. (image.failures ≡ 0) × (image.fail_in ≡ 0)
            × (image.crash ≡ Crash.Never)) }
        ensures uncounted { IfOk result (λ image. call_count image ≡ 0) }
    {
        let mut image = MemoryDisk::new(alloc);
        for i in 0..self.contents.len() {
            let (name, _) = self.contents.get_index(i).unwrap();
            let left = self.left(alloc, name)?;
            image.set(name, &left)?;
        }
        Ok(image)
    }

    /// How many calls of `Disk` are in the record, failed ones too.
    pub fn calls(&self) -> u64
        ensures { result ≡ count_by is_call self.now.calls.items }
    {
        let mut count = 0;
        for call in &self.calls {
            if is_call(call) {
                count += 1;
            }
        }
        count
    }
}

fn is_call(call: &Call) -> bool
    ensures { result ≡ is_call call.now }
{
    !matches!(call.effect, Effect::Set(_))
}

impl MemoryDisk {
    ghost use Rattle.std.specs.Prelude.{◌≡◌, ◌≢◌, ◌+◌, [], ◌∷◌, ◌++◌, false, IsTrue, IsFalse, IfOk, OnOk, OnErr};
    ghost use Rattle.org_disk.specs.Disk.{IsCounted, IsImage};
    ghost use Rattle.org_test_disks.specs.Record.{IsTried};
    ghost use Rattle.org_test_disks.specs.Memory.{call_count, is_due, leaves_all, memory_files, crashes_within, CountsDown, HasNoEffect, KeepsPlan, TakesTurn};

    // What a file holds.
    fn content(&self, name: &FileName) -> &[u8]
        ensures { result.now ≡ (memory_files self.now name.now).content }
    {
        content_in(&self.contents, name)
    }

    // What the crash leaves of a file.
    fn left(&self, alloc: Global, name: &FileName) -> Result<Vec<u8>, AllocError>
        ensures image { IfOk result (λ left. IsImage (memory_files self.now name.now) left.items) }
        ensures whole { IsTrue (leaves_all self.now) →
            IfOk result (λ left. left.items ≡ (memory_files self.now name.now).content) }
    {
        match self.crash {
            Crash::Came(Outcome::All) | Crash::Never | Crash::In(_, _) => self
                .content(name)
                .to_vec(alloc),
            Crash::Came(outcome) => left_of(alloc, &self.calls, name, outcome),
        }
    }

    // Counts a call that fails.
    fn fault(&mut self) -> DiskFault
        ensures calls { self.new.calls.items ≡ self.old.calls.items }
        ensures count { IsCounted self.old.failures self.new.failures }
        ensures plan { KeepsPlan self.old self.new }
    {
        self.failures = self.failures.saturating_add(1);
        DiskFault
    }

    // Begins a call.
    fn turn(&mut self) -> Turn
        ensures calls { self.new.calls.items ≡ self.old.calls.items }
        ensures failures { self.new.failures ≡ self.old.failures }
        ensures due { IsTrue (is_due self.old) → result ≢ Turn.Made }
        ensures made { IsFalse (is_due self.old) → result ≡ Turn.Made }
        ensures crashed { result ≡ Turn.Crashed → IsTrue (crashes_within self.old.crash) }
        ensures counts { CountsDown self.old self.new }
    {
        let is_due = self.fail_in == 1;
        self.fail_in = self.fail_in.saturating_sub(1);
        match self.crash {
            Crash::Came(_) => Turn::Failed,
            Crash::In(1, outcome) => {
                self.crash = Crash::Came(outcome);
                Turn::Crashed
            }
            Crash::In(k, outcome) => {
                self.crash = Crash::In(k.saturating_sub(1), outcome);
                fate(is_due)
            }
            Crash::Never => fate(is_due),
        }
    }

    // A call, which has its effect where it is made.
    fn call(&mut self, name: &FileName, effect: Effect) -> Result<(), DiskFault>
        ensures ok { OnOk result (self.new.calls.items ≡ self.old.calls.items ++
            (record { name = name.now; effect = effect; crashed = false }) ∷ []) }
        ensures err { OnErr result (IsTried name.now effect self.old.calls.items
            self.new.calls.items) }
        ensures no_effect { IsFalse (crashes_within self.old.crash) →
            OnErr result (IsTried name.now Effect.Nothing self.old.calls.items
            self.new.calls.items) }
        ensures sync { effect ≡ Effect.Sync →
            OnErr result (IsTried name.now Effect.Nothing self.old.calls.items
            self.new.calls.items) }
        ensures turn { TakesTurn self.old self.new result }
    {
        match self.turn() {
            Turn::Made => match self.record(name, effect, false) {
                Ok(()) => Ok(()),
                Err(_) => Err(self.fault()),
            },
            Turn::Failed => {
                let _recorded = self.record(name, Effect::Nothing, false);
                Err(self.fault())
            }
            Turn::Crashed => {
                let _recorded = self.record(name, without_sync(effect), true);
                Err(self.fault())
            }
        }
    }

    // A call that changes nothing.
    fn look(&mut self, name: &FileName) -> Result<(), DiskFault>
        ensures looks { HasNoEffect self.old self.new }
        ensures content { (memory_files self.new name.now).content ≡
            (memory_files self.old name.now).content }
        ensures turn { TakesTurn self.old self.new result }
        ensures recorded { OnOk result (call_count self.new ≡ call_count self.old + 1) }
    {
        self.call(name, Effect::Nothing)
    }

    // Adds a call to the record; where memory is refused, nothing changes.
    fn record(&mut self, name: &FileName, effect: Effect, crashed: bool) -> Result<(), AllocError>
        ensures ok { OnOk result (self.new.calls.items ≡ self.old.calls.items ++
            (record { name = name.now; effect = effect; crashed = crashed }) ∷ []) }
        ensures err { OnErr result (self.new.calls.items ≡ self.old.calls.items) }
        ensures failures { self.new.failures ≡ self.old.failures }
        ensures plan { KeepsPlan self.old self.new }
    {
        let call = Call {
            name: name.clone()?,
            effect,
            crashed,
        };
        self.calls.reserve(1)?;
        keep(self.alloc, &mut self.contents, name, &call.effect)?;
        self.calls.push(call).unwrap();
        Ok(())
    }
}

impl Disk for MemoryDisk {
    ghost use Rattle.std.specs.Prelude.{◌≡◌, ◌+◌, ◌^◌, ◌<◌, ◌≤◌, length, take, drop, IfOk, IsFalse, OnOk, OnErr};
    ghost use Rattle.org_disk.specs.Disk.{AreLeftBy, Changes, cut, sync, write};
    ghost use Rattle.org_disk.specs.Calls.{PassesInCall};
    ghost use Rattle.org_test_disks.specs.Memory.{call_count, memory_files, memory_left_since, memory_instant, crashes_within, HasNoEffect, TakesTurn};
    ghost use Rattle.org_test_disks.specs.RecordLaws.{own_image, now_counts, now_alone};

    ghost honest = { λ _. Unit {0} };

    ghost truthful = { Unit {0} };

    ghost files = { memory_files };

    ghost instant = { memory_instant };

    ghost left_since = { memory_left_since };

    ghost failures = { λ disk. disk.failures };

    ghost content_is_image = { λ disk name honest. own_image disk.calls.items name };

    ghost counts_now = { λ disk t image honest le now. now_counts disk.calls.items t image le now };

    ghost only_now = { λ disk image honest left. now_alone disk.calls.items image left };

    fn length(&mut self, name: &FileName) -> Result<u64, DiskFault>
        ensures value { IfOk result (λ n. n ≡ length (memory_files self.old name.now).content) }
        ensures looks { HasNoEffect self.old self.new }
        ensures turn { TakesTurn self.old self.new result }
        ensures recorded { OnOk result (call_count self.new ≡ call_count self.old + 1) }
    {
        self.look(name)?;
        Ok(self.content(name).len() as u64)
    }

    fn read_at(&mut self, name: &FileName, from: u64, into: &mut [u8]) -> Result<(), DiskFault>
        requires { from + length into.old ≤ length (memory_files self.old name.now).content }
        ensures bytes { OnOk result (into.new ≡
            take (length into.old) (drop from (memory_files self.old name.now).content)) }
        ensures looks { HasNoEffect self.old self.new }
        ensures turn { TakesTurn self.old self.new result }
        ensures recorded { OnOk result (call_count self.new ≡ call_count self.old + 1) }
    {
        self.look(name)?;
        let start = from as usize;
        into.copy_from_slice(&self.content(name)[start..start + into.len()]);
        Ok(())
    }

    fn write_at(&mut self, name: &FileName, from: u64, bytes: &[u8]) -> Result<(), DiskFault>
        requires within { from ≤ length (memory_files self.old name.now).content }
        requires fits { from + length bytes.now < 2 ^ 64 }
        ensures effect { Changes (write from bytes.now) name.now
            (memory_files self.old) (memory_files self.new) result }
        ensures time { PassesInCall memory_instant memory_left_since self.old self.new
            (AreLeftBy (write from bytes.now) name.now (memory_files self.old)) }
        ensures no_effect { IsFalse (crashes_within self.old.crash) →
            OnErr result (HasNoEffect self.old self.new) }
        ensures turn { TakesTurn self.old self.new result }
        ensures recorded { OnOk result (call_count self.new ≡ call_count self.old + 1) }
    {
        match bytes.to_vec(self.alloc) {
            Ok(copy) => self.call(name, Effect::Write(from, copy)),
            Err(_) => {
                let _turn = self.turn();
                Err(self.fault())
            }
        }
    }

    /// This disk forgets nothing.
    fn write_again(&mut self, name: &FileName, _from: u64, bytes: &[u8]) -> Result<(), DiskFault>
        requires { bytes.now
            ≡ take (length bytes.now) (drop _from (memory_files self.old name.now).content) }
        ensures looks { HasNoEffect self.old self.new }
        ensures turn { TakesTurn self.old self.new result }
        ensures recorded { OnOk result (call_count self.new ≡ call_count self.old + 1) }
    {
        self.look(name)
    }

    fn cut(&mut self, name: &FileName, to: u64) -> Result<(), DiskFault>
        requires { to ≤ length (memory_files self.old name.now).content }
        ensures effect { Changes (cut to) name.now
            (memory_files self.old) (memory_files self.new) result }
        ensures time { PassesInCall memory_instant memory_left_since self.old self.new
            (AreLeftBy (cut to) name.now (memory_files self.old)) }
        ensures no_effect { IsFalse (crashes_within self.old.crash) →
            OnErr result (HasNoEffect self.old self.new) }
        ensures turn { TakesTurn self.old self.new result }
        ensures recorded { OnOk result (call_count self.new ≡ call_count self.old + 1) }
    {
        self.call(name, Effect::Cut(to))
    }

    fn sync(&mut self, name: &FileName) -> Result<(), DiskFault>
        ensures effect { Changes sync name.now (memory_files self.old) (memory_files self.new)
            result }
        ensures time { PassesInCall memory_instant memory_left_since self.old self.new
            (AreLeftBy sync name.now (memory_files self.old)) }
        ensures no_effect { OnErr result (HasNoEffect self.old self.new) }
        ensures turn { TakesTurn self.old self.new result }
        ensures recorded { OnOk result (call_count self.new ≡ call_count self.old + 1) }
    {
        self.call(name, Effect::Sync)
    }

    /// Nobody else writes this disk.
    fn confirm(&mut self, name: &FileName, bytes: &[u8]) -> Result<(), DiskFault>
        requires { (memory_files self.old name.now).content ≡ bytes.now }
        ensures looks { HasNoEffect self.old self.new }
        ensures turn { TakesTurn self.old self.new result }
        ensures recorded { OnOk result (call_count self.new ≡ call_count self.old + 1) }
    {
        self.look(name)
    }

    fn standing(&mut self, _name: &FileName) -> Result<Standing, DiskFault> {
        Ok(Standing::Left)
    }
}

fn fate(is_due: bool) -> Turn
    ensures due { IsTrue is_due → result ≢ Turn.Made }
    ensures made { IsFalse is_due → result ≡ Turn.Made }
    ensures crashed { result ≢ Turn.Crashed }
{
    if is_due { Turn::Failed } else { Turn::Made }
}

// The effect of a call within which the disk crashes: a sync has none.
fn without_sync(effect: Effect) -> Effect
    ensures effect { (result ≡ effect) ⊎ (result ≡ Effect.Nothing) }
    ensures sync { effect ≡ Effect.Sync → result ≡ Effect.Nothing }
{
    match effect {
        Effect::Sync => Effect::Nothing,
        other => other,
    }
}

// What a crash with this outcome leaves of a file after these calls.
fn left_of(
    alloc: Global,
    calls: &[Call],
    name: &FileName,
    outcome: Outcome,
) -> Result<Vec<u8>, AllocError>
    ensures { IfOk result (λ left. IsImage (files_after calls.now name.now) left.items) }
{
    let mut content = Vec::new(alloc);
    let mut left = Vec::new(alloc);
    for call in calls {
        if call.name == *name {
            leave(alloc, outcome, call, &content, &mut left)?;
            execute(alloc, &mut content, &call.effect)?;
        }
    }
    Ok(left)
}

// Makes of what a crash leaves of a file before a call what it leaves after it.
fn leave(
    alloc: Global,
    outcome: Outcome,
    call: &Call,
    content: &[u8],
    left: &mut Vec<u8>,
) -> Result<(), AllocError>
    ensures { OnOk result (KeepsImage call.now.effect content.now left.old.items left.new.items) }
{
    match &call.effect {
        Effect::Set(bytes) => replace(alloc, left, bytes),
        Effect::Write(from, bytes) => {
            leave_write(alloc, outcome, call.crashed, left, *from as usize, bytes)
        }
        Effect::Cut(n) => {
            leave_cut(outcome, call.crashed, left, *n as usize);
            Ok(())
        }
        Effect::Sync => replace(alloc, left, content),
        Effect::Nothing => Ok(()),
    }
}

// Makes of what a crash leaves of a file before a write what it leaves after it.
fn leave_write(
    alloc: Global,
    outcome: Outcome,
    crashed: bool,
    left: &mut Vec<u8>,
    from: usize,
    bytes: &[u8],
) -> Result<(), AllocError>
    ensures { OnOk result ((file : FileState) → IsImage file file.content →
        IsImage file left.old.items → IsImage (write from bytes.now file) left.new.items) }
{
    if let Outcome::Fill(byte) = outcome {
        let filled = vec![in alloc; byte; bytes.len()]?;
        return overwrite(left, from, &filled);
    }
    overwrite(left, from, front_of(outcome, crashed, bytes))
}

// Which of a write's bytes went out.
fn front_of(outcome: Outcome, crashed: bool, bytes: &[u8]) -> &[u8]
    ensures { length result.now ≤ length bytes.now }
{
    match outcome {
        Outcome::None => &[],
        Outcome::Front(n) if crashed => &bytes[..n.min(bytes.len())],
        Outcome::All | Outcome::Front(_) | Outcome::Fill(_) => bytes,
    }
}

// Makes of what a crash leaves of a file before a cut what it leaves after it.
fn leave_cut(outcome: Outcome, crashed: bool, left: &mut Vec<u8>, n: usize)
    ensures { KeepsCutImage n left.old.items left.new.items }
{
    match outcome {
        Outcome::Front(_) if crashed => {}
        Outcome::All | Outcome::Front(_) => left.truncate(n),
        Outcome::None => {}
        Outcome::Fill(byte) => {
            let kept = n.min(left.len());
            left[kept..].fill(byte);
        }
    }
}

// What a file holds, nothing where it isn't kept.
fn content_in<'a>(contents: &'a IndexMap<FileName, Vec<u8>>, name: &FileName) -> &'a [u8]
    ensures { result.now ≡ content_in contents.now name.now }
{
    match contents.get(name) {
        Some(content) => content.as_slice(),
        None => &[],
    }
}

// Gives a file what it holds after a call; where memory is refused, nothing changes.
fn keep(
    alloc: Global,
    contents: &mut IndexMap<FileName, Vec<u8>>,
    name: &FileName,
    effect: &Effect,
) -> Result<(), AllocError>
    ensures ok { OnOk result (Keeps effect.now name.now contents.old contents.new) }
    ensures err { OnErr result (Keeps Effect.Nothing name.now contents.old contents.new) }
{
    if let Some(content) = contents.get_mut(name) {
        return execute(alloc, content, effect);
    }
    let mut content = Vec::new(alloc);
    execute(alloc, &mut content, effect)?;
    contents.insert(name.clone()?, content)?;
    Ok(())
}

// Makes of a content what it is after a call; where memory is refused, nothing changes.
fn execute(alloc: Global, content: &mut Vec<u8>, effect: &Effect) -> Result<(), AllocError>
    ensures ok { OnOk result ((file : FileState) → file.content ≡ content.old.items →
        content.new.items ≡ (effect_of effect.now file).content) }
    ensures err { OnErr result (content.new.items ≡ content.old.items) }
{
    match effect {
        Effect::Set(bytes) => replace(alloc, content, bytes),
        Effect::Write(from, bytes) => overwrite(content, *from as usize, bytes),
        Effect::Cut(n) => {
            content.truncate(*n as usize);
            Ok(())
        }
        Effect::Sync | Effect::Nothing => Ok(()),
    }
}

// Gives a content these bytes; where memory is refused, nothing changes.
fn replace(alloc: Global, content: &mut Vec<u8>, bytes: &[u8]) -> Result<(), AllocError>
    ensures ok { OnOk result (content.new.items ≡ bytes.now) }
    ensures err { OnErr result (content.new.items ≡ content.old.items) }
{
    *content = bytes.to_vec(alloc)?;
    Ok(())
}

// Writes bytes over a content; where memory is refused, nothing changes.
fn overwrite(content: &mut Vec<u8>, from: usize, bytes: &[u8]) -> Result<(), AllocError>
    ensures ok { OnOk result (content.new.items ≡ overwritten from bytes.now content.old.items) }
    ensures err { OnErr result (content.new.items ≡ content.old.items) }
{
    let start = from.min(content.len());
    let inside = bytes.len().min(content.len() - start);
    content.extend_from_slice(&bytes[inside..])?;
    content[start..start + inside].copy_from_slice(&bytes[..inside]);
    Ok(())
}
