//! Fuses, and what stays of a write that was synced.
ghost use Rattle.std.specs.Prelude.{◌≡◌, List, ℕ, length, take, OnOk};
ghost use Rattle.org_disk.specs.Disk.{AreImages};

use super::{hold, hold_row, holds, name_of, sync_write_cut};
use org_disk::{Disk, DiskFault, FileName};
use org_test_disks::{Fuse, MemoryDisk};
use std::alloc::Global;
use std::process::Abort;

// Whether a fuse over a disk without files passes so many of the six calls, and no call after
// them, and the file then holds this text.
fn blows(rt: &impl Abort, alloc: Global, k: u64, held: &str) -> bool {
    let name = name_of(rt, alloc, "a.org");
    let mut fuse = Fuse::new(MemoryDisk::new(alloc), k);
    let is_blown = sync_write_cut(&mut fuse, &name) == (k == 6) && fuse.sync(&name).is_err();
    let mut disk = fuse.into_inner();
    let is_held = disk.calls() == k && holds(rt, alloc, &mut disk, &name, held.as_bytes());
    drop(disk);
    is_blown && is_held
}

// After how many calls a fuse blows, and what the file then holds.
const BLOWN: &[(u64, &str)] = &[(0, ""), (3, "abc"), (4, "aXY"), (6, "aX")];

#[test]
fn blown_fuse(rt: HostRuntime) {
    let alloc = rt.alloc();
    for (i, (k, held)) in BLOWN.iter().enumerate() {
        hold_row(&rt, blows(&rt, alloc, *k, held), i);
    }
}

// Whatever a crash leaves from then on, it holds what was written first.
fn write_sync_write<D: Disk>(
    disk: &mut D,
    name: &FileName,
    first: &[u8],
    second: &[u8],
) -> Result<(), DiskFault>
    ensures { OnOk result
        (D.honest disk.new → (image : List ℕ → List ℕ) → AreImages (D.files disk.new) image
        → take (length first.now) (image name.now) ≡ first.now) }
{
    disk.write_at(name, 0, first)?;
    disk.sync(name)?;
    disk.write_at(name, first.len() as u64, second)
}

#[test]
fn first_write_stays(rt: HostRuntime) {
    let alloc = rt.alloc();
    let a = name_of(&rt, alloc, "a.org");
    let mut disk = MemoryDisk::new(alloc);
    let made = write_sync_write(&mut disk, &a, b"kept", b" and more").is_ok();
    hold(
        &rt,
        made && holds(&rt, alloc, &mut disk, &a, b"kept and more"),
    );
    drop(disk);
}
