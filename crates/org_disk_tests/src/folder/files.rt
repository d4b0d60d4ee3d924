//! What calls of a disk do to the files of a folder.
use super::{Call, Entry, Step, disk, go, holds, is_there, locked, make, make_folder, remove};
use crate::disk::{hold, name_of};
use org_disk::{Disk, DiskFault, FileName};
use org_folder::{CallsDisk, FolderDisk, HostSystem, Start, Unknown, check_aliases};
use std::process::Abort;

// What a disk does to no file makes none.
const ABSENT: &[Step] = &[
    Step::Call("a.org", Call::Length, Ok(0)),
    Step::Call("a.org", Call::Read, Ok(0)),
    Step::Call("a.org", Call::Cut, Ok(0)),
    Step::Call("a.org", Call::Sync, Ok(0)),
    Step::IsAbsent("absent/a.org"),
    Step::Call("a.org", Call::Write(b""), Ok(0)),
    Step::Holds("absent/a.org", b""),
];

// That a file isn't there is believed at the next call on it, and then looked at again: what
// another program made there meanwhile is seen. What is written later to another file is read back.
const ASKED_AGAIN: &[Step] = &[
    Step::Call("a.org", Call::Length, Ok(0)),
    Step::Other("asked/a.org", Entry::File(b"* A\n")),
    Step::Call("a.org", Call::Length, Ok(0)),
    Step::Call("a.org", Call::Length, Ok(4)),
    Step::Call("b.org", Call::Length, Ok(0)),
    Step::Call("b.org", Call::WriteAndCut(9), Ok(0)),
    Step::Holds("asked/b.org", b"* A\n* C"),
    Step::Holds("asked/a.org", b"* A\n"),
];

// Writes, a cut and reads, of which one fails where another program makes the file shorter.
const WRITTEN: &[Step] = &[
    Step::Call("a.org", Call::WriteAndCut(9), Ok(0)),
    Step::Holds("written/a.org", b"* A\n* C"),
    Step::Call("a.org", Call::WriteAndRead("written/a.org"), Err(DiskFault)),
];

// A write of no bytes fails where another program has put another file in place of one, or has
// changed it since the last look. After a sync the folder is looked at anew.
const TRIED: &[Step] = &[
    Step::Call("a.org", Call::Write(b"* A\n"), Ok(0)),
    Step::Call("a.org", Call::Write(b""), Ok(0)),
    Step::Call("a.org", Call::Sync, Ok(0)),
    Step::Other("tried/a.org", Entry::Gone),
    Step::Call("a.org", Call::Write(b""), Err(DiskFault)),
    Step::Other("tried/a.org", Entry::File(b"* A\n")),
    Step::Call("a.org", Call::Write(b""), Err(DiskFault)),
    Step::Call("b.org", Call::Write(b"* B\n"), Ok(0)),
    Step::Call("b.org", Call::Length, Ok(4)),
    Step::Call("b.org", Call::Write(b""), Ok(0)),
    Step::Other("tried/b.org", Entry::File(b"* BB\n")),
    Step::Call("b.org", Call::Write(b""), Err(DiskFault)),
    Step::Call("b.org", Call::Length, Ok(5)),
    Step::Call("b.org", Call::Write(b""), Ok(0)),
];

const LINKS: &[(&str, Entry)] = &[
    ("linked/folder.org", Entry::Folder),
    ("linked/link.org", Entry::Link("folder.org/target")),
];

// A folder is no file, and a link is followed, also to a file that isn't there.
const LINKED: &[Step] = &[
    Step::Call("folder.org", Call::Length, Err(DiskFault)),
    Step::Call("link.org", Call::Length, Ok(0)),
    Step::Call("link.org", Call::Write(b"* A\n"), Ok(0)),
    Step::Call("link.org", Call::Sync, Ok(0)),
    Step::Holds("linked/folder.org/target", b"* A\n"),
];

// The first sync of a file that was made looks for its folder, which it syncs, and a later one
// doesn't: both files are taken out of the folder once one of them was synced.
const ENTERED: &[Step] = &[
    Step::Call("a.org", Call::Write(b"* A\n"), Ok(0)),
    Step::Call("b.org", Call::Write(b"* B\n"), Ok(0)),
    Step::Call("b.org", Call::Sync, Ok(0)),
    Step::Other("entered/a.org", Entry::Gone),
    Step::Other("entered/b.org", Entry::Gone),
    Step::Call("b.org", Call::Append(b"* C\n"), Ok(0)),
    Step::Call("b.org", Call::Sync, Ok(0)),
    Step::Call("a.org", Call::Sync, Err(DiskFault)),
];

const FILES: &[(&str, Entry)] = &[
    ("found/a.org", Entry::File(b"* A\n")),
    ("found/b.org", Entry::File(b"* B\n")),
    ("found/c.org", Entry::File(b"* C\n")),
];

// Of files that were found the first sync takes the folder, for all of them. Those that are opened
// and taken out of the folder are synced without a look for it.
const FOUND: &[Step] = &[
    Step::Call("a.org", Call::Sync, Ok(0)),
    Step::Call("b.org", Call::Length, Ok(4)),
    Step::Call("c.org", Call::Length, Ok(4)),
    Step::Other("found/b.org", Entry::Gone),
    Step::Other("found/c.org", Entry::Gone),
    Step::Call("b.org", Call::Sync, Ok(0)),
    Step::Call("d.org", Call::Write(b"* D\n"), Ok(0)),
    Step::Call("c.org", Call::Sync, Ok(0)),
];

const BELOW: &[(&str, Entry)] = &[
    ("below/store", Entry::Folder),
    ("below/store/orgstore.journal", Entry::File(b"")),
    ("below/store/a.org", Entry::File(b"* A\n")),
    ("below/plain", Entry::Folder),
    ("below/plain/a.org", Entry::File(b"* A\n")),
    ("below/link", Entry::Link("plain")),
];

// Folders are made with a file in them. What is in another store, or behind a link, is no file of
// this one; and a file is tried no more once another program begins a store in its folder.
const TREE: &[Step] = &[
    Step::Call("projects/x/p.org", Call::Length, Ok(0)),
    Step::IsAbsent("below/projects"),
    Step::Call("projects/x/p.org", Call::Write(b"* P\n"), Ok(0)),
    Step::Call("projects/x/p.org", Call::Sync, Ok(0)),
    Step::Holds("below/projects/x/p.org", b"* P\n"),
    Step::Call("projects/q.org", Call::Each, Ok(0)),
    Step::Call("plain/a.org", Call::Length, Ok(4)),
    Step::Call("store/a.org", Call::Length, Err(DiskFault)),
    Step::Call("store/n.org", Call::Write(b""), Err(DiskFault)),
    Step::IsAbsent("below/store/n.org"),
    Step::Call("link/a.org", Call::Length, Err(DiskFault)),
    Step::Call("projects/x/p.org", Call::Write(b""), Ok(0)),
    Step::Other("below/projects/orgstore.journal", Entry::File(b"")),
    Step::Call("projects/x/p.org", Call::Write(b""), Err(DiskFault)),
    Step::Call("plain/a.org", Call::Write(b""), Ok(0)),
];

const FAILING: &[(&str, Entry)] = &[
    ("failing/a.org", Entry::File(b"* A\n")),
    ("failing/was_file.org", Entry::File(b"")),
    ("failing/link.org", Entry::Link("nowhere/target")),
];

// Failures that whoever may do all meets too: a name that became a folder's, and a link into a
// folder that isn't there. Each is counted, and later calls go on.
const COUNTED: &[Step] = &[
    Step::Other("failing/was_file.org", Entry::Gone),
    Step::Other("failing/was_file.org", Entry::Folder),
    Step::Call("was_file.org", Call::Length, Err(DiskFault)),
    Step::Call("was_file.org", Call::Write(b"* B\n"), Err(DiskFault)),
    Step::Call("link.org", Call::Length, Ok(0)),
    Step::Call("link.org", Call::Write(b"* B\n"), Err(DiskFault)),
    Step::Call("a.org", Call::Append(b"* B\n"), Ok(0)),
    Step::Call("a.org", Call::Sync, Ok(0)),
    Step::Call("a.org", Call::Length, Ok(8)),
];

// Folders, what is in each, and the steps on its disk.
const FOLDERS: &[(&str, &[(&str, Entry)], &[Step])] = &[
    ("absent", &[], ABSENT),
    ("asked", &[], ASKED_AGAIN),
    ("written", &[], WRITTEN),
    ("tried", &[], TRIED),
    ("linked", LINKS, LINKED),
    ("entered", &[], ENTERED),
    ("found", FILES, FOUND),
    ("below", BELOW, TREE),
    ("failing", FAILING, COUNTED),
];

#[test]
fn calls_on_files(rt: HostRuntime) {
    for (folder, entries, steps) in FOLDERS {
        go(&rt, &rt, folder, entries, steps);
    }
}

// Each file is supposed to hold one byte at first.
#[derive(Drop)]
struct OneByte;

impl Start for OneByte {
    ghost use Rattle.std.specs.Prelude.{[], ◌∷◌};
    ghost use Rattle.org_disk.specs.Disk.{stable};

    ghost world = { record { start = λ _. stable (42 ∷ []); left = λ _. [] } };
}

// Whether a cut or a read of that byte fails.
fn fails(rt: &impl Abort, host: &HostRuntime, cuts: bool) -> bool {
    let name = name_of(rt, host.alloc(), "a.org");
    let own = host.clone().expect(rt, "memory");
    let mut disk: FolderDisk<HostRuntime, OneByte> = disk(rt, host, "supposed", own);
    let made = if cuts {
        disk.cut(&name, 1)
    } else {
        disk.read_at(&name, 0, &mut [0])
    };
    drop(disk);
    made.is_err()
}

// A call that goes past the end of a file fails: the file isn't what it was supposed to be.
#[test]
fn absent_where_a_byte_is_supposed(rt: HostRuntime) {
    make_folder(&rt, &rt, "supposed", &[]);
    hold(&rt, fails(&rt, &rt, true) && fails(&rt, &rt, false));
    hold(&rt, !is_there(&rt, "supposed/a.org"));
    remove(&rt, &rt, "supposed");
}

// The disk of a folder in which this file was found absent.
fn disk_without(
    rt: &impl Abort,
    host: &HostRuntime,
    folder: &str,
    name: &FileName,
) -> FolderDisk<HostRuntime, Unknown> {
    let own = host.clone().expect(rt, "memory");
    let mut system: HostSystem<HostRuntime, Unknown> = locked(rt, own, folder);
    let names = vec![in host.alloc(); name.clone().expect(rt, "memory")].expect(rt, "memory");
    let absent = check_aliases(host.alloc(), &mut system, &names).expect(rt, "no aliases");
    CallsDisk::over(host.alloc(), system, absent, false)
}

// A file that was found absent is believed to be so by the first call, and once more by the next:
// then what another program made there is seen.
#[test]
fn found_absent(rt: HostRuntime) {
    make_folder(&rt, &rt, "known", &[]);
    let name = name_of(&rt, rt.alloc(), "a.org");
    let mut disk = disk_without(&rt, &rt, "known", &name);
    make(&rt, "known/a.org", &Entry::File(b"* A\n")).expect(&rt, "not made");
    hold(&rt, disk.length(&name) == Ok(0));
    hold(&rt, disk.length(&name) == Ok(0));
    hold(&rt, disk.length(&name) == Ok(4));
    drop(disk);
    remove(&rt, &rt, "known");
}

// A file that was found absent and is made is there.
#[test]
fn found_absent_and_made(rt: HostRuntime) {
    make_folder(&rt, &rt, "new", &[]);
    let name = name_of(&rt, rt.alloc(), "a.org");
    let mut disk = disk_without(&rt, &rt, "new", &name);
    hold(&rt, disk.write_at(&name, 0, b"* A\n").is_ok());
    hold(&rt, disk.length(&name) == Ok(4));
    drop(disk);
    hold(&rt, holds(&rt, &rt, "new/a.org", b"* A\n"));
    remove(&rt, &rt, "new");
}
