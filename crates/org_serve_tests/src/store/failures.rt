//! A disk that fails at a call.
use super::asking::{Answer, Ask, Row, ask_each};
use super::{calls_of_opening, open};
use crate::serve::crashes::done_in;
use crate::serve::steps::{BOTH, Step};
use crate::shared::two;
use org_store::{RunFault, Store};
use org_test_disks::MemoryDisk;
use std::process::Abort;

// The texts as before the capture, and after it.
const CAPTURED: &Step = &Step {
    a: "* A\n",
    b: "",
    lines: "",
    shows: BOTH,
    shown: &[
        "text 4\n* A\n\ntext 0\n\n",
        "text 8\n* A\n* B\n\ntext 0\n\n",
    ],
};

// A store over a disk of which this call after the opening of the store fails.
fn failing(rt: &(impl Abort + AllocGlobal), call: u64) -> Store<MemoryDisk> {
    let mut disk = two(rt, CAPTURED.a, CAPTURED.b);
    disk.fail_at(calls_of_opening(rt).saturating_add(call));
    open(rt, disk)
}

// A capture at which the disk fails, which isn't accepted, and what comes after it.
const REFUSED: &[Row] = &[
    (
        Ask::Capture("a.org", "* B"),
        Answer::Fault(RunFault::Device),
        0,
        0,
    ),
    (Ask::Show("b.org"), Answer::Fault(RunFault::Broken), 0, 0),
];

// One that is.
const ACCEPTED: &[Row] = &[
    (
        Ask::Capture("a.org", "* B"),
        Answer::Fault(RunFault::Device),
        1,
        0,
    ),
    (Ask::Show("b.org"), Answer::Fault(RunFault::Broken), 1, 0),
];

// Whether the store is broken, as a settling answers too.
fn is_broken(store: &mut Store<MemoryDisk>) -> bool {
    store.is_broken() && store.settle() == Err(RunFault::Broken)
}

// The disk fails at this call of a capture, which is accepted or not, and is done then at most
// where it is accepted.
fn fail_at(rt: &(impl Abort + AllocGlobal), call: u64, is_accepted: bool) {
    let mut store = failing(rt, call);
    ask_each(rt, &mut store, if is_accepted { ACCEPTED } else { REFUSED });
    assert!(rt; is_broken(&mut store));
    assert!(rt; done_in(rt, store.into_disk(), CAPTURED) <= u64::from(is_accepted));
}

const DONE: &[Row] = &[(Ask::Capture("a.org", "* B"), Answer::Done(1), 1, 1)];

// A capture makes 15 calls, so it goes well where the next one fails.
fn go_well(rt: &(impl Abort + AllocGlobal)) {
    let mut store = failing(rt, 16);
    ask_each(rt, &mut store, DONE);
    let disk = store.into_disk();
    let calls = disk.calls();
    drop(disk);
    assert!(rt; calls == calls_of_opening(rt).saturating_add(15));
}

// A capture reads a length and a text, and tries the journal and its file. It writes the record and
// opens the gate, tries the file again, writes it, reads it back, and closes the gate, with a sync
// after each of the four writes. Then it tries the file a last time.
#[test]
fn a_failing_device(rt: HostRuntime) {
    for call in 1..16u64 {
        fail_at(&rt, call, call > 2);
    }
    go_well(&rt);
}
