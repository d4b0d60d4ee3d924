//! Real folders, each made for its test where the test runs.
ghost use Rattle.std.specs.Prelude.{◌≡◌, [], ◌∷◌};
ghost use Rattle.org_folder.specs.Calls.{IsHeld};
ghost use Rattle.org_folder.specs.Calls.Event.{Locked};

mod failures;
mod files;
mod refusals;

use crate::disk::name_of;
use indexmap::IndexSet;
use org_disk::{Disk, DiskFault, FileName};
use org_folder::{CallsDisk, FolderDisk, HostSystem, Locks, Start, System, Unknown};
use std::fs::{Files, Permissions};
use std::os::fd::AsRawFd;
use std::os::unix::fs::{FileExt, PermissionsExt, symlink};
use std::process::Abort;
use std::{fs, io};

// What a program other than the disk makes at a path.
#[derive(Drop)]
enum Entry {
    Folder,
    File(&'static [u8]),
    Link(&'static str),
    // what is there gets these permissions
    Mode(u32),
    // the file is taken away
    Gone,
}

fn make(rt: &HostRuntime, path: &str, entry: &Entry) -> io::Result<()> {
    match entry {
        Entry::Folder => fs::create_dir(rt, path),
        Entry::File(bytes) => fs::write(rt, path, *bytes),
        Entry::Link(target) => symlink(rt, target, path),
        Entry::Mode(mode) => fs::set_permissions(rt, path, Permissions::from_mode(*mode)),
        Entry::Gone => fs::remove_file(rt, path),
    }
}

// An empty folder of this name.
fn make_empty(rt: &HostRuntime, folder: &str) -> io::Result<()> {
    if is_there(rt, folder) {
        fs::remove_dir_all(rt, folder)?;
    }
    fs::create_dir(rt, folder)
}

// A folder of this name with these in it, each at its path.
fn make_folder(
    rt: &impl Abort,
    system: &HostRuntime,
    folder: &str,
    entries: &[(&'static str, Entry)],
) {
    make_empty(system, folder).expect(rt, "no folder");
    for (path, entry) in entries {
        make(system, path, entry).expect(rt, "not made");
    }
}

fn is_there(rt: &HostRuntime, path: &str) -> bool {
    fs::metadata(rt, path).is_ok()
}

fn remove(rt: &impl Abort, system: &HostRuntime, folder: &str) {
    fs::remove_dir_all(system, folder).expect(rt, "not removed");
}

// Whether a file has these bytes.
fn holds(rt: &impl Abort, system: &HostRuntime, path: &str, bytes: &[u8]) -> bool {
    fs::read(system, path).expect(rt, "not read").as_slice() == bytes
}

// The system over these files, with this folder locked; this is supposed of the folder's files.
fn locked<R: Files + AllocGlobal + Clone + Drop, S: Start>(
    rt: &impl Abort,
    files: R,
    folder: &str,
) -> HostSystem<R, S>
where
    R::File: FileExt + Locks + AsRawFd,
    ensures calls { result.log.events ≡ Locked folder.now ∷ [] }
    ensures held { IsHeld result.log.events }
{
    let mut system: HostSystem<R, S> = HostSystem::new(files);
    system.lock(folder).expect(rt, "not locked");
    system
}

// The disk of that folder.
fn disk<R: Files + AllocGlobal + Clone + Drop, S: Start>(
    rt: &impl Abort,
    host: &HostRuntime,
    folder: &str,
    files: R,
) -> FolderDisk<R, S>
where
    R::File: FileExt + Locks + AsRawFd,
    ensures { result.folder.system.log.events ≡ Locked folder.now ∷ [] }
{
    let system = locked(rt, files, folder);
    CallsDisk::over(host.alloc(), system, IndexSet::new(host.alloc()), false)
}

// A call of a disk on a file.
#[derive(Drop)]
enum Call {
    Length,
    // writes at the front
    Write(&'static [u8]),
    // writes past the four bytes of a file
    Append(&'static [u8]),
    Sync,
    // reads no bytes
    Read,
    // cuts all
    Cut,
    // every kind of call, one after another
    Each,
    // writes, and cuts what it wrote; in between the file has this length
    WriteAndCut(u64),
    // writes, and reads what another program cuts meanwhile, at this path
    WriteAndRead(&'static str),
}

// A step of a test: what it does or sees on the disk of a folder, or beside it.
#[derive(Drop)]
enum Step {
    // another program makes this at a path
    Other(&'static str, Entry),
    // a call on a file: what it answers, which is 0 where no length is asked for
    Call(&'static str, Call, Result<u64, DiskFault>),
    // the file at a path has these bytes
    Holds(&'static str, &'static [u8]),
    // nothing is at a path
    IsAbsent(&'static str),
}

// Whether the file has this length after two writes, and what a cut leaves is read.
fn is_written_and_cut(disk: &mut impl Disk, name: &FileName, length: u64) -> bool {
    let mut bytes = [0; 3];
    disk.write_at(name, 0, b"* A\n* B\n").is_ok()
        && disk.write_at(name, 6, b"CC\n").is_ok()
        && disk.sync(name).is_ok()
        && disk.length(name) == Ok(length)
        && disk.cut(name, 7).is_ok()
        && disk.sync(name).is_ok()
        && disk.read_at(name, 4, &mut bytes).is_ok()
        && bytes == *b"* C"
}

// Whether every kind of call on a file is made.
fn makes_each(disk: &mut impl Disk, name: &FileName) -> bool {
    disk.write_at(name, 0, b"* A\n* B\n").is_ok()
        && disk.sync(name).is_ok()
        && disk.cut(name, 6).is_ok()
        && disk.write_at(name, 6, b"C\n").is_ok()
        && disk.sync(name).is_ok()
        && disk.read_at(name, 0, &mut [0; 8]).is_ok()
        && disk.length(name).is_ok()
}

fn append(disk: &mut impl Disk, name: &FileName, bytes: &[u8]) -> Result<(), DiskFault> {
    if disk.length(name)? != 4 {
        return Err(DiskFault);
    }
    disk.write_at(name, 4, bytes)
}

// A read of a file that another program makes shorter, at its path.
fn write_and_read(
    system: &HostRuntime,
    disk: &mut impl Disk,
    name: &FileName,
    path: &str,
) -> Result<(), DiskFault> {
    disk.write_at(name, 0, b"* A\n* C")?;
    if fs::write(system, path, b"* A\n* ").is_err() {
        return Ok(());
    }
    disk.read_at(name, 4, &mut [0; 3])
}

// What calls answer together, where each of them has to be made.
fn answered(are_made: bool) -> Result<(), DiskFault> {
    if are_made { Ok(()) } else { Err(DiskFault) }
}

fn answer(
    system: &HostRuntime,
    disk: &mut impl Disk,
    name: &FileName,
    call: &Call,
) -> Result<u64, DiskFault> {
    let made = match call {
        Call::Length => return disk.length(name),
        Call::WriteAndCut(length) => answered(is_written_and_cut(disk, name, *length)),
        Call::Write(bytes) => disk.write_at(name, 0, bytes),
        Call::Append(bytes) => append(disk, name, bytes),
        Call::Sync => disk.sync(name),
        Call::Read => disk.read_at(name, 0, &mut []),
        Call::Cut => disk.cut(name, 0),
        Call::Each => answered(makes_each(disk, name)),
        Call::WriteAndRead(path) => write_and_read(system, disk, name, path),
    };
    made.and(Ok(0))
}

// Whether a call on a file answers this.
fn answers<S: System + Drop>(
    rt: &impl Abort,
    system: &HostRuntime,
    disk: &mut CallsDisk<S>,
    file: &str,
    call: &Call,
    expected: &Result<u64, DiskFault>,
) -> bool
where
    S::File: Drop,
{
    let name = name_of(rt, system.alloc(), file);
    answer(system, disk, &name, call) == *expected
}

// Whether a step goes as it says.
fn goes<S: System + Drop>(
    rt: &impl Abort,
    system: &HostRuntime,
    disk: &mut CallsDisk<S>,
    step: &Step,
) -> bool
where
    S::File: Drop,
{
    match step {
        Step::Other(path, entry) => make(system, path, entry).is_ok(),
        Step::Call(file, call, expected) => answers(rt, system, disk, file, call, expected),
        Step::Holds(path, bytes) => holds(rt, system, path, bytes),
        Step::IsAbsent(path) => !is_there(system, path),
    }
}

// The first step, counted from 0, that doesn't go as it says, if any.
fn first_wrong<S: System + Drop>(
    rt: &impl Abort,
    host: &HostRuntime,
    mut disk: CallsDisk<S>,
    steps: &[Step],
) -> Option<usize>
where
    S::File: Drop,
{
    let mut wrong = None;
    for (i, step) in steps.iter().enumerate() {
        if !goes(rt, host, &mut disk, step) {
            wrong = Some(i);
            break;
        }
    }
    drop(disk);
    wrong
}

// The steps on the disk of a folder.
fn go_on(rt: &impl Abort, host: &HostRuntime, folder: &str, steps: &[Step]) {
    let own = host.clone().expect(rt, "memory");
    let disk: FolderDisk<HostRuntime, Unknown> = disk(rt, host, folder, own);
    if let Some(step) = first_wrong(rt, host, disk, steps) {
        panic!(rt; "{folder}, step {step}");
    }
}

// A folder with these in it, and the steps on its disk.
fn go(
    rt: &impl Abort,
    system: &HostRuntime,
    folder: &str,
    entries: &[(&'static str, Entry)],
    steps: &[Step],
) {
    make_folder(rt, system, folder, entries);
    go_on(rt, system, folder, steps);
    remove(rt, system, folder);
}
