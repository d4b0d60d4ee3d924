//! Commands, what they are answered, and what is left on the disk then.
use super::asking::{Answer, Ask, Row, answers, ask_each};
use super::open;
use crate::shared::two;
use org_store::{Group, Refusal, RunFault, Store};
use org_test_disks::MemoryDisk;
use std::process::Abort;

// Asks for both files, which hold these texts, before a command is accepted.
fn show_both(
    rt: &(impl Abort + AllocGlobal),
    store: &mut Store<MemoryDisk>,
    texts: &[&'static str; 2],
) {
    let [a, b] = *texts;
    let rows = [
        (Ask::Show("a.org"), Answer::Text(a), 0, 0),
        (Ask::Show("b.org"), Answer::Text(b), 0, 0),
    ];
    ask_each(rt, store, &rows);
}

// The same of a store that is opened over what another one left.
fn show_again(
    rt: &(impl Abort + AllocGlobal),
    store: Store<MemoryDisk>,
    texts: &[&'static str; 2],
) {
    let mut store = open(rt, store.into_disk());
    show_both(rt, &mut store, texts);
    drop(store);
}

const SETTLED: &[Row] = &[
    (Ask::Settle, Answer::Safe(0), 0, 0),
    (Ask::Capture("a.org", "* B"), Answer::Done(1), 1, 1),
    (Ask::Settle, Answer::Safe(1), 1, 1),
];

// In groups of a thousand.
const GROUPED: &[Row] = &[
    (Ask::Capture("a.org", "* C"), Answer::Done(2), 2, 1),
    (Ask::Settle, Answer::Safe(2), 2, 2),
];

// The size of the groups changes in the middle.
#[test]
fn settles_by_command(rt: HostRuntime) {
    let mut store = open(&rt, two(&rt, "", ""));
    ask_each(&rt, &mut store, SETTLED);
    store.set_group(Group::Of(1000));
    ask_each(&rt, &mut store, GROUPED);
    show_again(&rt, store, &["* B\n* C\n", ""]);
}

const NOT_FOUND: RunFault = RunFault::Refused(Refusal::NotFound);

// Paths of no titles, which no line can name.
const NO_TITLES: &[Ask] = &[
    Ask::Refile("", "a.org", "A"),
    Ask::Refile("A", "a.org", ""),
    Ask::Refile("", "b.org", "A"),
    Ask::Refile("A", "b.org", ""),
    Ask::Todo(""),
    Ask::CaptureBelow("", "* N"),
];

const UNCHANGED: [&str; 2] = ["* TODO A", "* T\n* T\n* A"];

// Each of them is refused, and the files stay.
#[test]
fn no_titles(rt: HostRuntime) {
    let mut store = open(&rt, two(&rt, UNCHANGED[0], UNCHANGED[1]));
    for ask in NO_TITLES {
        assert!(rt; answers(&rt, &mut store, ask, &Answer::Fault(NOT_FOUND)));
        show_both(&rt, &mut store, &UNCHANGED);
    }
    show_again(&rt, store, &UNCHANGED);
}
