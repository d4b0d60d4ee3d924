//! Calls that the system refuses.
use super::{Call, Entry, Step, go, go_on, is_there, make_folder, remove};
use org_disk::DiskFault;
use std::fs::File;

// A write to a device that is full fails; another file is written then as if nothing had failed.
const FULL: &[Step] = &[
    Step::Other("full/full.org", Entry::Link("/dev/full")),
    Step::Call("full.org", Call::Write(b"* A\n"), Err(DiskFault)),
    Step::Call("a.org", Call::Write(b"* A\n"), Ok(0)),
    Step::Call("a.org", Call::Sync, Ok(0)),
    Step::Call("a.org", Call::Length, Ok(4)),
];

// The same where there is no such device.
const NOT_FULL: &[Step] = &[
    Step::Call("full.org", Call::Write(b"* A\n"), Ok(0)),
    Step::Call("a.org", Call::Write(b"* A\n"), Ok(0)),
    Step::Call("a.org", Call::Sync, Ok(0)),
    Step::Call("a.org", Call::Length, Ok(4)),
];

#[test]
fn full_device(rt: HostRuntime) {
    let steps = if is_there(&rt, "/dev/full") {
        FULL
    } else {
        NOT_FULL
    };
    go(&rt, &rt, "full", &[], steps);
}

// Two files, of which one may not be read and none be written.
const CLOSED: &[(&str, Entry)] = &[
    ("closed/a.org", Entry::File(b"* A\n")),
    ("closed/b.org", Entry::File(b"* B\n")),
    ("closed/a.org", Entry::Mode(0o000)),
    ("closed/b.org", Entry::Mode(0o444)),
];

// What a call answers that may be made, or may not.
fn answer(may: bool, answer: u64) -> Result<u64, DiskFault> {
    if may { Ok(answer) } else { Err(DiskFault) }
}

// A file is read and another one written past its four bytes exactly where that may be.
fn permitted(may_read: bool, may_write: bool) -> [Step; 3] {
    [
        Step::Call("a.org", Call::Length, answer(may_read, 4)),
        Step::Call("b.org", Call::Length, Ok(4)),
        Step::Call("b.org", Call::Append(b"* C\n"), answer(may_write, 0)),
    ]
}

// Whether a file may be opened to be written, or to be read.
fn may_open(host: &HostRuntime, path: &str, writes: bool) -> bool {
    let mut how = File::options();
    how.read(!writes).write(writes);
    how.open(host, path).is_ok()
}

// Whoever may do all may open each file; then these are none that can't be read or written.
#[test]
fn files_without_permission(rt: HostRuntime) {
    make_folder(&rt, &rt, "closed", CLOSED);
    let may_read = may_open(&rt, "closed/a.org", false);
    let may_write = may_open(&rt, "closed/b.org", true);
    go_on(&rt, &rt, "closed", &permitted(may_read, may_write));
    remove(&rt, &rt, "closed");
}
