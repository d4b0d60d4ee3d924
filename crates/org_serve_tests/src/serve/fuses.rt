//! A real folder whose disk fails from some call on, and what opening the folder again finds.
use super::crashes::done_in;
use super::steps::{Step, TO_ANOTHER_FILE, TO_THE_ARCHIVE, files, safe_in};
use super::{Ended, calls, run};
use indexmap::IndexSet;
use org_folder::{CallsDisk, FolderDisk, HostSystem, System, Unknown};
use org_serve::ServeEnd;
use org_test_disks::Fuse;
use std::process::Abort;
use std::{fs, io};

const FOLDER: &str = "burnt";

// A folder that holds the two files of a step and nothing else.
fn make_folder(host: &HostRuntime, step: &Step) -> io::Result<()> {
    if fs::metadata(host, FOLDER).is_ok() {
        fs::remove_dir_all(host, FOLDER)?;
    }
    fs::create_dir(host, FOLDER)?;
    fs::write(host, "burnt/a.org", step.a.as_bytes())?;
    fs::write(host, "burnt/b.org", step.b.as_bytes())
}

// The disk of that folder.
fn folder_disk(rt: &impl Abort, host: &HostRuntime) -> FolderDisk<HostRuntime, Unknown> {
    let own = host.clone().expect(rt, "memory");
    let mut system: HostSystem<HostRuntime, Unknown> = HostSystem::new(own);
    system.lock(FOLDER).expect(rt, "not locked");
    CallsDisk::over(host.alloc(), system, IndexSet::new(host.alloc()), false)
}

// Serves the line of a step over the folder, of whose disk so many calls pass: how many lines are
// acknowledged, and whether all went well.
fn serve_burnt(
    rt: &(impl Abort + AllocGlobal),
    host: &HostRuntime,
    step: &Step,
    passes: u64,
) -> (u64, bool) {
    make_folder(host, step).expect(rt, "no folder");
    let fuse = Fuse::new(folder_disk(rt, host), passes);
    let Ended { written, end, disk } = run(rt, fuse, 1, step.lines.as_bytes());
    drop(disk);
    (safe_in(&written), matches!(end, Ok(ServeEnd::End)))
}

// The line is done in both files or in none, and is done where it was acknowledged. Where no call
// passes it isn't, and where all pass it is.
fn burn(rt: &(impl Abort + AllocGlobal), host: &HostRuntime, step: &Step, passes: u64, all: u64) {
    let (safe, is_whole) = serve_burnt(rt, host, step, passes);
    let done = done_in(rt, folder_disk(rt, host), step);
    let is_right = safe <= done && is_whole == (passes == all);
    assert!(rt; is_right, "after {passes}");
    assert!(rt; passes != 0 || done == 0);
    assert!(rt; passes != all || done == 1);
}

#[test]
fn an_archive_burnt_at_every_call(rt: HostRuntime) {
    for step in [TO_ANOTHER_FILE, TO_THE_ARCHIVE] {
        let all = calls(&rt, files(&rt, step), 1, step.lines.as_bytes());
        for passes in 0..=all {
            burn(&rt, &rt, step, passes, all);
        }
    }
    fs::remove_dir_all(&rt, FOLDER).expect(&rt, "not removed");
}
