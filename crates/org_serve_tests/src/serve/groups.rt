//! Groups of commands that are settled together.
use super::crashes::done_stopped;
use super::pipes::{Page, in_pieces, pipe};
use super::steps::{CAPTURES, TWO_LINES, files};
use org_fixtures::OUTCOMES;
use org_serve::ServeEnd;
use org_test_disks::MemoryDisk;
use std::process::Abort;

// What is left of the disk where the input breaks off after these lines, so that nothing is
// settled at its end.
fn broken_off(rt: &(impl Abort + AllocGlobal), lines: &str, written: &str) -> MemoryDisk {
    let mut reader = in_pieces(lines, 4096, 2);
    let mut writer = Page::new(rt.alloc(), 0);
    let (end, disk) = pipe(rt, files(rt, CAPTURES), 3, &mut reader, &mut writer, 100);
    assert!(rt; end == ServeEnd::Read && writer.bytes.as_slice() == written.as_bytes());
    disk
}

// Lines served in groups of three, what is written for them, and how many of the captures are done
// then, whatever a crash leaves of it: a group that isn't full, and one that is settled.
const BROKEN_OFF: &[(&str, &str, u64)] = &[
    (TWO_LINES, "ok 1\nok 2\n", 0),
    (
        "capture\ta.org\ttop\tlast\t2026-07-01 10:00\t* N\t\n\
            capture\tb.org\ttop\tlast\t2026-07-01 10:00\t* K\t\nsettle\n",
        "ok 1\nok 2\nsafe 2\n",
        2,
    ),
];

fn done_in_each_way(rt: &(impl Abort + AllocGlobal), row: &(&str, &str, u64)) {
    let (lines, written, done) = row;
    for outcome in &OUTCOMES {
        let disk = broken_off(rt, lines, written);
        assert!(rt; done_stopped(rt, disk, (1, *outcome), CAPTURES) == *done);
    }
}

#[test]
fn groups_broken_off(rt: HostRuntime) {
    for row in BROKEN_OFF {
        done_in_each_way(&rt, row);
    }
}
