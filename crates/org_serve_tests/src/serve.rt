//! Lines served over a disk: one in memory, where nothing else is said.
//!
//! What owns a disk or a store drops it by name: left to the end of a function, each of its parts
//! is dropped there, which the function's proof would have to follow.
ghost use Rattle.std.specs.Prelude.{All};
ghost use Rattle.org_disk.specs.Names.{IsOrgFile};
ghost use Rattle.org_store.specs.Group.{IsGroup};

pub mod crashes;
mod failures;
mod fuses;
mod gates;
mod groups;
mod pipes;
pub mod steps;
mod syncs;
mod whole;

use crate::shared::must;
use org_disk::Disk;
use org_fixtures::org_names;
use org_outline::States;
use org_serve::{Counted, ServeEnd, Served, Setup, Sink, Source, serve_synced};
use org_store::{Group, OpenFault};
use org_test_disks::MemoryDisk;
use std::process::Abort;

// What was written, how it ended, and the disk then.
#[derive(Drop)]
struct Ended<D> {
    written: Vec<u8>,
    end: Result<ServeEnd, OpenFault>,
    disk: D,
}

// How many calls of the disk sync the files before an opening: three names, their archive files,
// and the journal. What is on the disk already they leave as it is; other files are for `syncs`.
pub const SYNCS: u64 = 7;

// A store of a.org, of b.org and of inbox.org, which is absent.
fn setup(rt: &(impl Abort + AllocGlobal), group: Group) -> Setup
    ensures names { All IsOrgFile result.names.items }
    ensures group { IsGroup result.group }
{
    if let Group::Of(size) = group {
        assert!(rt; size > 0 && size <= 1_000);
    }
    Setup {
        names: must(rt, org_names(rt.alloc(), &["inbox.org", "b.org", "a.org"])),
        states: States::new(rt.alloc(), &["TODO"], &["DONE"]).expect(rt, "states"),
        group,
    }
}

// Serves what comes from a reader over a disk.
fn serve_over<D: Disk, R: Source, W: Sink>(
    rt: &(impl Abort + AllocGlobal),
    disk: D,
    group: Group,
    reader: &mut R,
    writer: &mut W,
    max_reads: u64,
) -> Served<D> {
    serve_synced(
        rt.alloc(),
        disk,
        setup(rt, group),
        reader,
        writer,
        max_reads,
    )
}

// Serves this input over a disk, in groups of this size.
fn run<D: Disk>(rt: &(impl Abort + AllocGlobal), disk: D, group: u32, input: &[u8]) -> Ended<D> {
    run_in(rt, disk, Group::Of(group), input)
}

// Serves this input over a disk.
fn run_in<D: Disk>(
    rt: &(impl Abort + AllocGlobal),
    disk: D,
    group: Group,
    input: &[u8],
) -> Ended<D> {
    let mut reader = Counted::new(input);
    let mut writer = Counted::new(Vec::new(rt.alloc()));
    let Served { disk, end } = serve_over(rt, disk, group, &mut reader, &mut writer, 10_000_000);
    Ended {
        written: writer.into_inner(),
        end,
        disk,
    }
}

fn disk_of<D>(ended: Ended<D>) -> D {
    let Ended {
        written: _,
        end: _,
        disk,
    } = ended;
    disk
}

// How many calls of the disk it takes to serve this input, however it ends.
fn calls(rt: &(impl Abort + AllocGlobal), disk: MemoryDisk, group: u32, input: &[u8]) -> u64 {
    let disk = disk_of(run(rt, disk, group, input));
    let calls = disk.calls();
    drop(disk);
    calls
}

// Whether the opening was refused, since the disk failed.
fn is_refused<D>(ended: &Ended<D>) -> bool {
    matches!(&ended.end, Err(OpenFault::Device)) && ended.written.is_empty()
}

// What is written for an input that is served to its end.
fn served<D: Disk + Drop>(rt: &(impl Abort + AllocGlobal), disk: D, input: &[u8]) -> Vec<u8> {
    let Ended { written, end, disk } = run(rt, disk, 1, input);
    drop(disk);
    assert!(rt; matches!(end, Ok(ServeEnd::End)), "another end");
    written
}
