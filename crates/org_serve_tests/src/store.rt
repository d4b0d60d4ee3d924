//! A store over a disk: one in memory, where nothing else is said.
//!
//! What owns a store or a command drops it by name: left to the end of a function, each of its
//! parts is dropped there, which the function's proof would have to follow.
mod asking;
mod asks;
mod failures;
mod fuses;

use crate::shared::{must, two};
use org_disk::Disk;
use org_fixtures::org_names;
use org_outline::States;
use org_store::{OpenRefused, Store};
use org_test_disks::MemoryDisk;
use std::process::Abort;

// A store over the files of these names on a disk, or why it wasn't opened.
fn opened<D: Disk>(
    rt: &(impl Abort + AllocGlobal),
    disk: D,
    names: &[&str],
) -> Result<Store<D>, OpenRefused<D>> {
    let names = must(rt, org_names(rt.alloc(), names));
    let states = States::new(rt.alloc(), &["TODO"], &["DONE"]).expect(rt, "states");
    Store::open(rt.alloc(), disk, names, states)
}

fn open(rt: &(impl Abort + AllocGlobal), disk: MemoryDisk) -> Store<MemoryDisk> {
    match opened(rt, disk, &["b.org", "a.org"]) {
        Ok(store) => store,
        Err(_) => panic!(rt; "not opened"),
    }
}

// How many calls of the disk an opening makes.
fn calls_of_opening(rt: &(impl Abort + AllocGlobal)) -> u64 {
    let disk = open(rt, two(rt, "* A\n", "")).into_disk();
    let calls = disk.calls();
    drop(disk);
    calls
}
