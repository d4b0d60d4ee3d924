//! A disk that fails from some call of an opening on.
use super::{calls_of_opening, opened};
use crate::shared::{must, two};
use org_fixtures::{bytes_of, file_name};
use org_store::{OpenFault, OpenRefused};
use org_test_disks::{Fuse, MemoryDisk};
use std::process::Abort;

// What a.org and b.org hold.
const A: &str = "* A\n";

const B: &str = "* Z";

const JOURNAL: &str = "orgstore.journal";

// Opens a store over a disk of which this many calls pass: why it was refused, if it was, and the
// disk then.
fn opened_after(rt: &(impl Abort + AllocGlobal), calls: u64) -> (Option<OpenFault>, MemoryDisk) {
    match opened(rt, Fuse::new(two(rt, A, B), calls), &["b.org", "a.org"]) {
        Ok(store) => (None, store.into_disk().into_inner()),
        Err(OpenRefused { disk, fault }) => (Some(fault), disk.into_inner()),
    }
}

// Whether a file of a disk holds this.
fn holds(rt: &(impl Abort + AllocGlobal), disk: &mut MemoryDisk, name: &str, text: &str) -> bool {
    let name = must(rt, file_name(rt.alloc(), name));
    must(rt, bytes_of(rt.alloc(), disk, &name)).as_slice() == text.as_bytes()
}

// Whether both files hold what they held, and the journal at most its gate, closed.
fn is_kept(rt: &(impl Abort + AllocGlobal), disk: &mut MemoryDisk) -> bool {
    let is_closed = holds(rt, disk, JOURNAL, "") || holds(rt, disk, JOURNAL, "\0");
    is_closed && holds(rt, disk, "a.org", A) && holds(rt, disk, "b.org", B)
}

// Where so many calls of an opening pass, the disk has seen no other, and its files are kept.
fn open_after(rt: &(impl Abort + AllocGlobal), calls: u64, is_opened: bool) {
    let (fault, mut disk) = opened_after(rt, calls);
    let is_answered = match fault {
        None => is_opened,
        Some(OpenFault::Device) => !is_opened,
        Some(_) => false,
    };
    let is_seen = disk.calls() == calls;
    let is_kept = is_kept(rt, &mut disk);
    drop(disk);
    assert!(rt; is_answered && is_seen && is_kept, "after {calls}");
}

#[test]
fn a_fuse_at_every_call_of_an_opening(rt: HostRuntime) {
    let all = calls_of_opening(&rt);
    for calls in 0..=all {
        open_after(&rt, calls, calls == all);
    }
}
