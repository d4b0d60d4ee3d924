//! Files that were written and not synced, and a store that syncs them before it is opened.
use super::crashes::{way, ways};
use super::{SYNCS, calls, is_refused, run, served};
use crate::shared::{image, must, two};
use org_disk::Disk;
use org_fixtures::file_name;
use org_test_disks::{MemoryDisk, Outcome};
use std::process::Abort;

const CAPTURE: &[u8] = b"capture\tb.org\ttop\tlast\t2026-07-01 10:00\t* K\t\n";

const SHOW: &[u8] = b"show\ta.org\nshow\tb.org\n";

// Two files. Another program writes a.org anew, with a second heading, and syncs nothing.
fn unsynced(rt: &(impl Abort + AllocGlobal)) -> MemoryDisk {
    let mut disk = two(rt, "* A\n", "* Z");
    let name = must(rt, file_name(rt.alloc(), "a.org"));
    let is_written = disk.write_at(&name, 0, b"* A\n* B\n").is_ok();
    assert!(rt; is_written);
    disk
}

// A crash may take what wasn't synced until its file is synced, which is the first call; nothing
// takes it after that. What was acknowledged is there.
fn is_right(call: u64, written: &[u8], shown: &[u8]) -> bool {
    let is_kept = shown.starts_with(b"text 8\n* A\n* B\n\n");
    let is_captured = shown.ends_with(b"\ntext 8\n* Z\n* K\n\n");
    let is_b_whole = is_captured || shown.ends_with(b"\ntext 3\n* Z\n");
    let is_safe = written.starts_with(b"ok 1\nsafe 1\n");
    (call == 1 || is_kept) && is_b_whole && (!is_safe || is_captured)
}

// A run over a disk that is stopped or fails at this call, of which what a crash leaves is right:
// whether it was opened.
fn is_opened(rt: &(impl Abort + AllocGlobal), disk: MemoryDisk, call: u64) -> bool {
    let ended = run(rt, disk, 1, CAPTURE);
    let shown = served(rt, image(rt, &ended.disk), SHOW);
    assert!(rt; is_right(call, &ended.written, &shown), "after {call}");
    let is_opened = !is_refused(&ended);
    drop(ended);
    is_opened
}

fn crash_at(rt: &(impl Abort + AllocGlobal), call: u64, outcome: Outcome) {
    let mut disk = unsynced(rt);
    disk.crash_at(call, outcome);
    is_opened(rt, disk, call);
}

#[test]
fn crashed_over_files_that_were_not_synced(rt: HostRuntime) {
    let all = calls(&rt, unsynced(&rt), 1, CAPTURE);
    // the write that wasn't synced is the first call of the disk
    for number in 0..ways(all.saturating_sub(1)) {
        let (call, outcome) = way(number);
        crash_at(&rt, call, outcome);
    }
}

// The run isn't opened where this sync fails.
fn fail_at(rt: &(impl Abort + AllocGlobal), call: u64) {
    let mut disk = unsynced(rt);
    disk.fail_at(call);
    assert!(rt; !is_opened(rt, disk, call));
}

#[test]
fn a_sync_that_fails(rt: HostRuntime) {
    for call in 1..=SYNCS {
        fail_at(&rt, call);
    }
}
