//! Sets of files over a disk in memory.
mod commits;
mod edited;
mod openings;

use crate::disk::{are_texts, must};
use org_fileset::{FileSet, OpenFault, OpenRefused};
use org_fixtures::{NEWEST, disk_with as disk_of, file_name, org_names};
use org_test_disks::MemoryDisk;
use std::alloc::Global;
use std::process::Abort;

// The files of most sets.
const FILES: &[&str] = &["inbox.org", "a.org"];

// Their names in byte order.
const IN_ORDER: &[&str] = &["a.org", "a.org_archive", "inbox.org", "inbox.org_archive"];

// A disk with these texts of the journal, a.org and inbox.org.
pub fn disk_with(
    rt: &impl Abort,
    alloc: Global,
    journal: &[u8],
    a: &[u8],
    inbox: &[u8],
) -> MemoryDisk {
    let files = [
        ("orgstore.journal", journal),
        ("a.org", a),
        ("inbox.org", inbox),
    ];
    must(rt, disk_of(alloc, &files))
}

// The worked journal with this gate.
fn with_gate(gate: u8) -> [u8; 85] {
    let mut journal = NEWEST;
    journal[0] = gate;
    journal
}

// A disk that crashed while the record was applied: some of the text is there.
fn crashed(rt: &impl Abort, alloc: Global, gate: u8) -> MemoryDisk {
    disk_with(rt, alloc, &with_gate(gate), b"* A\n", b"* TO")
}

// Opens a set over these files.
fn opened(
    rt: &impl Abort,
    alloc: Global,
    disk: MemoryDisk,
    names: &[&str],
) -> Result<FileSet<MemoryDisk>, OpenRefused<MemoryDisk>> {
    FileSet::open(alloc, disk, must(rt, org_names(alloc, names)))
}

fn open(rt: &impl Abort, alloc: Global, disk: MemoryDisk, names: &[&str]) -> FileSet<MemoryDisk> {
    match opened(rt, alloc, disk, names) {
        Ok(set) => set,
        Err(_) => panic!(rt; "not opened"),
    }
}

// Whether the set reads this text of a file, or of the journal.
fn reads(
    rt: &impl Abort,
    alloc: Global,
    set: &mut FileSet<MemoryDisk>,
    name: &str,
    text: &[u8],
) -> bool {
    let name = must(rt, file_name(alloc, name));
    set.read(&name).expect(rt, "not read").as_slice() == text
}

// A file, or the journal, its text, and that of inbox.org.
type Texts<'a> = (&'a str, &'a [u8], &'a [u8]);

// The disk of a set that is opened over this one, and whether the set has its names in order and
// reads these texts.
fn read_once(
    rt: &impl Abort,
    alloc: Global,
    disk: MemoryDisk,
    texts: Texts<'_>,
) -> (MemoryDisk, bool) {
    let (name, text, inbox) = texts;
    let mut set = open(rt, alloc, disk, FILES);
    let is_read = are_texts(set.names(), IN_ORDER)
        && reads(rt, alloc, &mut set, name, text)
        && reads(rt, alloc, &mut set, "inbox.org", inbox);
    (set.into_disk(), is_read)
}

// Whether a set that is opened over the disk reads these texts.
fn opens_with(rt: &impl Abort, alloc: Global, disk: MemoryDisk, texts: Texts<'_>) -> bool {
    let (disk, is_read) = read_once(rt, alloc, disk, texts);
    drop(disk);
    is_read
}

// Whether a file of the disk, or the journal, holds these bytes.
fn holds(rt: &impl Abort, alloc: Global, disk: &mut MemoryDisk, name: &str, bytes: &[u8]) -> bool {
    crate::disk::holds(rt, alloc, disk, &must(rt, file_name(alloc, name)), bytes)
}

// The disk that an opening leaves, and why it is refused, if it is.
fn opened_then_closed(
    rt: &impl Abort,
    alloc: Global,
    disk: MemoryDisk,
) -> (MemoryDisk, Option<OpenFault>) {
    match opened(rt, alloc, disk, FILES) {
        Ok(set) => (set.into_disk(), None),
        Err(refused) => (refused.disk, Some(refused.fault)),
    }
}

// The disk that an opening leaves, whatever it answers.
fn opened_disk(rt: &impl Abort, alloc: Global, disk: MemoryDisk) -> MemoryDisk {
    let (disk, _) = opened_then_closed(rt, alloc, disk);
    disk
}

// Whether a disk holds this journal, this inbox.org, and a.org as it was.
fn holds_all(
    rt: &impl Abort,
    alloc: Global,
    disk: &mut MemoryDisk,
    journal: &[u8],
    inbox: &[u8],
) -> bool {
    holds(rt, alloc, disk, "orgstore.journal", journal)
        && holds(rt, alloc, disk, "a.org", b"* A\n")
        && holds(rt, alloc, disk, "inbox.org", inbox)
}

// Whether an opening over this journal is refused for it, and the disk is handed back as it was.
pub fn is_refused(rt: &impl Abort, alloc: Global, journal: &[u8], inbox: &[u8]) -> bool {
    let disk = disk_with(rt, alloc, journal, b"* A\n", inbox);
    let (mut disk, fault) = opened_then_closed(rt, alloc, disk);
    let is_as_it_was = holds_all(rt, alloc, &mut disk, journal, inbox);
    drop(disk);
    is_as_it_was && matches!(fault, Some(OpenFault::BadJournal))
}

// A disk that holds what a crash leaves of this one.
fn image_of(rt: &impl Abort, alloc: Global, disk: MemoryDisk) -> MemoryDisk {
    let image = disk.image(alloc).expect(rt, "memory");
    drop(disk);
    image
}

// How many calls were made of a disk.
fn calls_of(disk: MemoryDisk) -> u64 {
    let calls = disk.calls();
    drop(disk);
    calls
}
