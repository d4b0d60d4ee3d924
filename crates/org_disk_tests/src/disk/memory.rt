//! A disk in memory that is to crash, or at which a call is to fail.
ghost use Rattle.std.specs.Prelude.{◌≡◌, codes};
ghost use Rattle.org_disk.specs.Disk.{stable};
ghost use Rattle.org_test_disks.specs.Memory.{memory_files};

use super::{hold_row, holds, leaves, name_of, sync_write_cut};
use org_disk::{Disk, DiskFault, FileName};
use org_test_disks::{MemoryDisk, Outcome};
use std::alloc::Global;
use std::process::Abort;

// What is done to a file.
#[derive(Clone, Copy)]
enum Calls {
    WriteCut,
    WriteCutWrite,
    SyncWriteCut,
}

// A disk without files, and what becomes of calls on one.
#[derive(Clone, Copy)]
enum Row {
    // of these calls the k-th crashes, with this outcome, and that leaves this text
    Crash(Calls, u64, Outcome, &'static str),
    // the six calls are made, and a seventh answers this length; the k-th call crashes, if any
    Seventh(u64, Result<u64, DiskFault>),
    // the k-th of the six calls fails, if any, and the file then holds this text
    Failure(u64, &'static str),
}

// What of a crashed call goes out, in the order of the texts of a crash.
const WAYS: [Outcome; 5] = [
    Outcome::All,
    Outcome::None,
    Outcome::Front(0),
    Outcome::Front(1),
    Outcome::Fill(b'-'),
];

// Of these calls the k-th crashes, and that leaves these texts, each in its way.
type Crash = (Calls, u64, [&'static str; 5]);

const CRASHES: &[Crash] = &[
    // the last write
    (
        Calls::WriteCutWrite,
        3,
        ["abXYPQRS", "abcdef", "abXYe", "abXYP", "ab------"],
    ),
    // a cut
    (
        Calls::WriteCut,
        2,
        ["XYc", "abcdef", "XYcdef", "XYcdef", "--c---"],
    ),
    // a write with a cut after it
    (
        Calls::WriteCut,
        1,
        ["XYcdef", "abcdef", "abcdef", "Xbcdef", "--cdef"],
    ),
    // the first sync and the second
    (Calls::SyncWriteCut, 3, ["abc", "", "abc", "abc", "---"]),
    (Calls::SyncWriteCut, 6, ["aX", "abc", "aX", "aX", "a--"]),
];

static ROWS: &[Row] = &[
    // more of the last write than its first byte
    Row::Crash(Calls::WriteCutWrite, 3, Outcome::Front(2), "abXYPQ"),
    Row::Crash(Calls::WriteCutWrite, 3, Outcome::Front(9), "abXYPQRS"),
    // no crash, and a late one
    Row::Seventh(0, Ok(2)),
    Row::Seventh(7, Err(DiskFault)),
    // failures
    Row::Failure(0, "aX"),
    Row::Failure(1, ""),
    Row::Failure(2, ""),
    Row::Failure(3, "abc"),
    Row::Failure(4, "abc"),
    Row::Failure(5, "aXY"),
    Row::Failure(6, "aX"),
    Row::Failure(7, "aX"),
];

// From `abcdef`: `XYcdef`, `XYc`. Whether both calls are made.
fn write_cut(disk: &mut MemoryDisk, name: &FileName) -> bool
    requires { memory_files disk.old name.now ≡ stable (codes "abcdef") }
{
    disk.write_at(name, 0, b"XY").is_ok() && disk.cut(name, 3).is_ok()
}

// From `abcdef`: `abXYef`, `abXYe`, `abXYPQRS`. Whether all three calls are made.
fn write_cut_write(disk: &mut MemoryDisk, name: &FileName) -> bool
    requires { memory_files disk.old name.now ≡ stable (codes "abcdef") }
{
    disk.write_at(name, 2, b"XY").is_ok()
        && disk.cut(name, 5).is_ok()
        && disk.write_at(name, 4, b"PQRS").is_ok()
}

// Whether the calls are made.
fn are_made(rt: &impl Abort, disk: &mut MemoryDisk, name: &FileName, calls: &Calls) -> bool {
    if let Calls::SyncWriteCut = calls {
        return sync_write_cut(disk, name);
    }
    disk.set(name, b"abcdef").expect(rt, "memory");
    if let Calls::WriteCut = calls {
        write_cut(disk, name)
    } else {
        write_cut_write(disk, name)
    }
}

// Whether a write, a cut and a sync fail.
fn is_crashed(disk: &mut MemoryDisk, name: &FileName) -> bool {
    disk.write_at(name, 0, b"Q").is_err() && disk.cut(name, 0).is_err() && disk.sync(name).is_err()
}

// Whether the six calls are made and leave `aX`, also after a seventh, which answers this length.
fn goes_on(
    rt: &impl Abort,
    alloc: Global,
    disk: &mut MemoryDisk,
    name: &FileName,
    length: &Result<u64, DiskFault>,
) -> bool {
    sync_write_cut(disk, name)
        && disk.calls() == 6
        && leaves(rt, alloc, disk, name, "aX")
        && disk.length(name) == *length
        && leaves(rt, alloc, disk, name, "aX")
}

// Whether the k-th of the six calls fails without effect, and that one alone; where there is none,
// they are made.
fn fails_once(
    rt: &impl Abort,
    alloc: Global,
    disk: &mut MemoryDisk,
    name: &FileName,
    k: u64,
    left: &str,
) -> bool {
    let is_made = sync_write_cut(disk, name);
    if k == 0 || k > 6 {
        return is_made && disk.calls() == 6;
    }
    !is_made
        && disk.calls() == k
        && holds(rt, alloc, disk, name, left.as_bytes())
        && sync_write_cut(disk, name)
        && holds(rt, alloc, disk, name, b"aX")
}

// What the row asks of a disk, of two crashes or failures the later one; then whether it goes as
// the row says.
fn goes(rt: &impl Abort, alloc: Global, disk: &mut MemoryDisk, name: &FileName, row: &Row) -> bool {
    match row {
        Row::Crash(calls, k, outcome, left) => {
            disk.crash_at(*k, *outcome);
            !are_made(rt, disk, name, calls)
                && is_crashed(disk, name)
                && leaves(rt, alloc, disk, name, left)
        }
        Row::Seventh(k, length) => {
            disk.crash_at(1, Outcome::None);
            disk.crash_at(*k, Outcome::None);
            goes_on(rt, alloc, disk, name, length)
        }
        Row::Failure(k, left) => {
            disk.fail_at(1);
            disk.fail_at(*k);
            fails_once(rt, alloc, disk, name, *k, left)
        }
    }
}

// The same of a disk without files.
fn is_as_said(rt: &impl Abort, alloc: Global, row: &Row) -> bool {
    let name = name_of(rt, alloc, "a.org");
    let mut disk = MemoryDisk::new(alloc);
    let goes = goes(rt, alloc, &mut disk, &name, row);
    drop(disk);
    goes
}

// Whether a crash leaves each of its texts.
fn leaves_each(rt: &impl Abort, alloc: Global, crash: &Crash) -> bool {
    let (calls, k, texts) = crash;
    for (outcome, text) in WAYS.iter().zip(texts) {
        if !is_as_said(rt, alloc, &Row::Crash(*calls, *k, *outcome, *text)) {
            return false;
        }
    }
    true
}

#[test]
fn crashes_in_each_way(rt: HostRuntime) {
    for (i, crash) in CRASHES.iter().enumerate() {
        hold_row(&rt, leaves_each(&rt, rt.alloc(), crash), i);
    }
}

#[test]
fn crashes_and_failures(rt: HostRuntime) {
    let alloc = rt.alloc();
    for (i, row) in ROWS.iter().enumerate() {
        hold_row(&rt, is_as_said(&rt, alloc, row), i);
    }
}
