//! A run of the program: its arguments, the folder of its files, and how it ended.
//!
//! The order is fixed: words, names, states, lock, a store above, listing, two names of one file,
//! opening. The folder isn't listed where the words name the only files of the store.
ghost use Rattle.std.specs.Prelude.{◌≡◌, ◌≢◌, ◌∷◌, ◌++◌, map, string_bytes, IfOk, IfErr, IsFalse, OnOk, All};
ghost use Rattle.org_disk.specs.Names.{IsOrgFile};
ghost use Rattle.org_folder.specs.Right.{HaveNoFiles};
ghost use Rattle.org_folder.specs.Calls.{OnlyLooks, is_filled, is_held};
ghost use Rattle.org_folder.specs.Calls.Event.{Alone, Filled, Locked};
ghost use Rattle.org_serve.specs.Writes.{exchange};
ghost use Rattle.org_store.specs.Group.{IsGroup};
ghost use Rattle.org_program.specs.Causes.{forgetting, reported, IsCause, IsOfFolder, MayShare};
ghost use Rattle.org_program.specs.declared.arguments.Recovery.TheVariants.{Forgotten};
ghost use Rattle.org_program.specs.Faults.{IsFaultOfRun};
ghost use Rattle.org_program.specs.Lists.{AreListed};
ghost use Rattle.org_program.specs.Runs.{Forgets, ForgetsFolder, IsAlone, IsSetUp, ListsNames, LocksFirst, RunsFolder};
ghost use Rattle.org_program.specs.Words.{Say};

use crate::arguments::{self, Arguments};
use crate::fault::Fault;
use crate::names::given_names;
use crate::states::states;
use indexmap::IndexSet;
use org_disk::{Disk, FileName};
use org_fileset::forget;
use org_folder::{AliasFault, CallsDisk, ListFault, System, check_aliases, org_files};
use org_serve::{ServeEnd, Served, Setup, Sink, Source, file_names, serve_synced};
use org_store::OpenFault;
use std::alloc::Global;

/// The most reads of an input; one that takes more ends with `Read`.
const TURNS: u64 = 4_294_967_295;

/// What a run of the program over a disk did.
#[derive(Drop)]
pub struct Ran<D> {
    /// What the words of the command line say.
    pub arguments: Arguments,
    /// The disk of the folder, as the run left it. It holds the folder's lock.
    pub disk: D,
    /// Ok where the input was served to its end, and all is settled. Else it says why not: the
    /// store wasn't opened, or serving ended otherwise.
    pub end: Result<(), Fault>,
}

/// A run that came to serve no line.
#[derive(Drop)]
pub struct Unserved<S> {
    /// The system, as the run left it.
    pub system: S,
    /// Why no line was served.
    pub fault: Fault,
}

/// Runs the command lines of a reader over the folder that the words of a command line name, the
/// first being the program's name, and writes their replies to a writer.
///
/// It has no way to the folder but the calls of `S`, each of which is in the record of `S`, with
/// its answer. `S` has locked no folder yet; the one that the words name is the only one that is
/// locked. What is said of a step is said where each answer in the record was right up to the end
/// of that step (`is_right`): a wrong one later takes nothing from it.
///
/// The store is set up as the arguments say (`IsSetUp`), and over the folder's files it is run as
/// `serve_synced` does: what a user is promised of that is one record (`Promises`), and all that is
/// known another (`RunsSynced`), with what is answered, what is written, what a crash leaves at
/// each moment, and why the run ended. The input is read at most 4,294,967,295 times.
///
/// Where the words ask to forget what a crash cut short, no line is read and none written. The
/// journal's gate is closed, and every other file stays as it was found (`ForgetsFolder`).
///
/// # Errors
///
/// No line is read, and none written, and of the folder nothing is changed, where words aren't
/// taken (`Usage`), or where no store is set up: in this order `BadName`, `BadStates`, `Locked`,
/// `Inside`, then `Open(Device)`, `Linked` or `SameFile`. Want of memory, `Open(OutOfMemory)`, may
/// take the place of each.
pub fn run<S: System + Drop, R: Source, W: Sink>(
    alloc: Global,
    system: S,
    words: &[String],
    reader: &mut R,
    writer: &mut W,
) -> Result<Ran<CallsDisk<S>>, Unserved<S>>
where
    S::File: Drop,
    requires unlocked { IsFalse (is_held (S.history system)) }
    requires unfilled { IsFalse (is_filled (S.history system)) }
    ensures words { IfOk result (λ ran. Say (map string_bytes words.now) ran.arguments) }
    ensures runs { IfOk result (λ ran. ran.arguments.recovery ≢ Forgotten
        → RunsFolder S.System system ran.arguments ran.disk ran.end
        (exchange R.Source W.Sink reader.old reader.new writer.old writer.new)) }
    ensures forgets { IfOk result (λ ran. ran.arguments.recovery ≡ Forgotten
        → ForgetsFolder S.System system ran.arguments ran.disk ran.end
        × (reader.new ≡ reader.old) × (writer.new ≡ writer.old)) }
    ensures unserved { IfErr result (λ refused. (reader.new ≡ reader.old)
        × (writer.new ≡ writer.old)
        × OnlyLooks (S.history system) (S.history refused.system)) }
    ensures fault { IfErr result (λ refused. IsFaultOfRun (map string_bytes words.now)
        refused.fault) }
{
    let mut system = system;
    match start(alloc, &mut system, words) {
        Ok((arguments, setup, absent)) => {
            let adopts = arguments.recovery.adopts();
            let mut disk = CallsDisk::over(alloc, system, absent, adopts);
            if arguments.recovery.forgets() {
                let end = give_up(alloc, &mut disk);
                return Ok(Ran {
                    arguments,
                    disk,
                    end,
                });
            }
            let Served { disk, end } = serve_synced(alloc, disk, setup, reader, writer, TURNS);
            Ok(Ran {
                arguments,
                disk,
                end: reported(end),
            })
        }
        Err(fault) => Err(Unserved { system, fault }),
    }
}

// Gives up what a crash cut short.
fn give_up<D: Disk>(alloc: Global, disk: &mut D) -> Result<(), Fault>
    ensures { Forgets D.Disk disk.old disk.new result }
{
    forgotten(forget(alloc, disk))
}

// What is reported of how forgetting ended.
fn forgotten(end: Result<(), OpenFault>) -> Result<(), Fault>
    ensures { result ≡ forgetting end }
{
    match end {
        Ok(()) => Ok(()),
        Err(fault) => Err(Fault::Open(fault)),
    }
}

// What is reported of how serving ended.
fn reported(end: Result<ServeEnd, OpenFault>) -> Result<(), Fault>
    ensures { result ≡ reported end }
{
    match end {
        Ok(ServeEnd::End) => Ok(()),
        Ok(end) => Err(Fault::Ended(end)),
        Err(fault) => Err(Fault::Open(fault)),
    }
}

// What the words say, and what the store is opened with.
fn start<S: System>(
    alloc: Global,
    system: &mut S,
    words: &[String],
) -> Result<(Arguments, Setup, IndexSet<FileName>), Fault>
    requires unlocked { IsFalse (is_held (S.history system.old)) }
    requires unfilled { IsFalse (is_filled (S.history system.old)) }
    ensures words { IfOk result (λ made. Say (map string_bytes words.now) made.0) }
    ensures sets_up { IfOk result (λ made. IsSetUp made.0 made.1
        (Filled (string_bytes made.0.folder) ∷ S.history system.old) (S.history system.new)
        × HaveNoFiles S.System system.new made.2.keys) }
    ensures locks { IfOk result (λ made. LocksFirst (string_bytes made.0.folder)
        (Filled (string_bytes made.0.folder) ∷ S.history system.old) (S.history system.new)) }
    ensures alone { IfOk result (λ made. IsAlone (string_bytes made.0.folder)
        (Filled (string_bytes made.0.folder) ∷ S.history system.old) (S.history system.new)) }
    ensures looks { OnlyLooks (S.history system.old) (S.history system.new) }
    ensures fault { IfErr result (IsFaultOfRun (map string_bytes words.now)) }
{
    let arguments = arguments::read_words(alloc, words)?;
    // A standard stream that is closed is the folder then, and no file of the store.
    system.fill_streams(&arguments.folder)?;
    let (setup, absent) = setup(alloc, system, &arguments)?;
    Ok((arguments, setup, absent))
}

// What the store is opened with, and which of its files aren't there. The folder is locked first.
fn setup<S: System>(
    alloc: Global,
    system: &mut S,
    arguments: &Arguments,
) -> Result<(Setup, IndexSet<FileName>), Fault>
    requires unlocked { IsFalse (is_held (S.history system.old)) }
    requires group { IsGroup arguments.now.group }
    ensures sets_up { IfOk result (λ made. IsSetUp arguments.now made.0
        (S.history system.old) (S.history system.new)
        × HaveNoFiles S.System system.new made.1.keys) }
    ensures locks { OnOk result (LocksFirst (string_bytes arguments.now.folder)
        (S.history system.old) (S.history system.new)) }
    ensures alone { OnOk result (IsAlone (string_bytes arguments.now.folder)
        (S.history system.old) (S.history system.new)) }
    ensures looks { OnlyLooks (S.history system.old) (S.history system.new) }
    ensures cause { IfErr result (IsCause arguments.now) }
{
    let mut names = given_names(alloc, arguments)?;
    let states = states(alloc, &arguments.todo, &arguments.done)?;
    hold(system, &arguments.folder)?;
    names.append(&mut listed_names(alloc, system, arguments)?)?;
    let absent = check_files(alloc, system, &names)?;
    let group = arguments.group;
    Ok((
        Setup {
            names,
            states,
            group,
        },
        absent,
    ))
}

// Locks a folder that is a store itself, or in which no store above would list a file.
fn hold<S: System>(system: &mut S, folder: &str) -> Result<(), Fault>
    requires { IsFalse (is_held (S.history system.old)) }
    ensures alone { OnOk result (S.history system.new
        ≡ Alone ∷ Locked folder.now ∷ S.history system.old) }
    ensures looks { OnlyLooks (S.history system.old) (S.history system.new) }
    ensures fault { IfErr result IsOfFolder }
{
    system.lock(folder)?;
    match system.store_above()? {
        Some(store) => Err(Fault::Inside(store)),
        None => Ok(()),
    }
}

// The names of the folder's Org files, unless the arguments name the only ones.
fn listed_names<S: System>(
    alloc: Global,
    system: &mut S,
    arguments: &Arguments,
) -> Result<Vec<FileName>, ListFault>
    ensures listed { IfOk result (λ names. AreListed arguments.now names.items) }
    ensures lists { IfOk result (λ names. ListsNames arguments.now names.items
        (S.history system.old) (S.history system.new)) }
    ensures looks { OnlyLooks (S.history system.old) (S.history system.new) }
{
    if !arguments.only.is_empty() {
        return Ok(Vec::new(alloc));
    }
    org_files(alloc, system)
}

// Checks that the files of a store with these names are one each, and answers which aren't there.
// Too many names are reported by the opening.
fn check_files<S: System>(
    alloc: Global,
    system: &mut S,
    names: &[FileName],
) -> Result<IndexSet<FileName>, AliasFault>
    requires { All IsOrgFile names.now }
    ensures fault { IfErr result (MayShare names.now) }
    ensures absent { IfOk result (λ absent. HaveNoFiles S.System system.new absent.keys) }
    ensures looks { OnlyLooks (S.history system.old) (S.history system.new) }
{
    match file_names(alloc, names)? {
        Some(files) => check_aliases(alloc, system, &files),
        None => Ok(IndexSet::new(alloc)),
    }
}
