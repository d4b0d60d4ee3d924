//! What stands before the lines that are shown: states, a moment, a step and a store.
use org_fixtures::{disk_with, org_names};
use org_outline::{States, Step};
use org_splice::Bytes;
use org_stamp::Moment;
use org_store::Store;
use org_test_disks::MemoryDisk;
use std::alloc::Global;
use std::process::Abort;
use std::test::Fail;

/// TODO and DONE.
pub fn states(alloc: Global) -> Result<States, Fail> {
    Ok(States::new(alloc, &["TODO"], &["DONE"])?)
}

/// 2026-07-01 10:00.
pub fn now() -> Result<Moment, Fail> {
    Ok(Moment::new(2026, 7, 1, 10, 0).ok_or("no moment")?)
}

/// The only heading with this title.
pub fn step(alloc: Global, title: &str) -> Result<Step, Fail> {
    Ok(Step {
        title: Bytes::new(title.as_bytes().to_vec(alloc)?),
        number: None,
    })
}

/// A store whose a.org has this text.
pub fn store(rt: &impl Abort, alloc: Global, text: &str) -> Result<Store<MemoryDisk>, Fail> {
    let names = org_names(alloc, &["a.org"])?;
    let states = states(alloc)?;
    let disk = disk_with(alloc, &[("a.org", text.as_bytes())])?;
    match Store::open(alloc, disk, names, states) {
        Ok(store) => Ok(store),
        Err(_) => panic!(rt; "not opened"),
    }
}
