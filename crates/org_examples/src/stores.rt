//! Examples of the crates that know a disk.
//!
//! Once a test owns a store it has no `?`, and it drops its store and its commands by name: its
//! proof would have to follow each part of them at each exit.
use crate::shared::{now, store};
use org_disk::FileName;
use org_folder::org_file;
use org_outline::States;
use org_serve::{Counted, ServeEnd, read_command, serve};
use org_store::{Change, Command, Edit, Group, Reply, Store};
use org_test_disks::MemoryDisk;
use std::test::Fail;

/// `org_disk::FileName::new`
#[test]
fn file_name_new(rt: HostRuntime) -> Result<(), Fail> {
    let alloc = rt.alloc();
    // Shown:
    let name = FileName::new(alloc, "notes/work.org")?;
    assert_eq!(rt; name.as_str(), "notes/work.org");
    assert!(rt; FileName::new(alloc, "../work.org").is_err());
    assert!(rt; FileName::new(alloc, "orgstore.journal").is_err());
    Ok(())
}

/// `org_store::Store::open`
#[test]
fn store_open(rt: HostRuntime) -> Result<(), Fail> {
    let alloc = rt.alloc();
    // Shown:
    let names = vec![in alloc; org_file(alloc, "a.org")?]?;
    let states = States::new(alloc, &["TODO"], &["DONE"])?;
    let Ok(store) = Store::open(alloc, MemoryDisk::new(alloc), names, states) else {
        panic!(rt; "not opened")
    };
    assert_eq!(rt; store.accepted(), 0);
    assert_eq!(rt; store.acknowledged(), 0);
    // Not shown:
    drop(store);
    Ok(())
}

/// `org_store::Store::run`
#[test]
fn store_run(rt: HostRuntime) -> Result<(), Fail> {
    let alloc = rt.alloc();
    let now = now()?;
    let mut store = store(&rt, alloc, "* TODO A\n")?;
    // Shown:
    let line = b"todo\ta.org\tA\tDONE\t2026-07-01 10:00";
    let todo = read_command(alloc, line).expect(&rt, "a command");
    assert!(rt; matches!(store.run(&todo), Ok(Reply::Done(1))));
    let clock_out = Command::Change(Change::ClockOut { moment: now });
    assert!(rt; store.run(&clock_out).is_err());
    assert_eq!(rt; store.accepted(), 1);
    // Not shown:
    drop(clock_out);
    drop(todo);
    drop(store);
    Ok(())
}

/// `org_store::Store::settle`
#[test]
fn store_settle(rt: HostRuntime) -> Result<(), Fail> {
    let alloc = rt.alloc();
    let mut store = store(&rt, alloc, "* TODO A\n")?;
    let line = b"todo\ta.org\tA\tDONE\t2026-07-01 10:00";
    let todo = read_command(alloc, line).expect(&rt, "a command");
    // Shown:
    store.set_group(Group::Of(1_000));
    assert!(rt; store.run(&todo).is_ok());
    assert_eq!(rt; (store.accepted(), store.acknowledged()), (1, 0));
    assert!(rt; store.settle().is_ok());
    assert_eq!(rt; (store.accepted(), store.acknowledged()), (1, 1));
    // Not shown:
    drop(todo);
    drop(store);
    Ok(())
}

/// `org_serve::read_command`
#[test]
fn reads_a_command(rt: HostRuntime) -> Result<(), Fail> {
    let alloc = rt.alloc();
    // Shown:
    let edit = read_command(alloc, b"edit\ta.org\t2\tA\tC")?;
    assert!(rt; matches!(&edit, Command::Change(Change::Edit(Edit { at: 2, .. }))));
    assert!(rt; read_command(alloc, b"edit\ta.org").is_err());
    // Not shown:
    assert!(rt;
        matches!(&edit, Command::Change(Change::Edit(edit)) if edit.new.as_slice() == b"C".as_slice())
    );
    drop(edit);
    Ok(())
}

/// `org_serve::serve`
#[test]
fn serves(rt: HostRuntime) -> Result<(), Fail> {
    let alloc = rt.alloc();
    let mut store = store(&rt, alloc, "* TODO A\n")?;
    // Shown:
    let mut input = Counted::new(b"todo\ta.org\tA\tDONE\t2026-07-01 10:00\n".as_slice());
    let mut output = Counted::new(Vec::new(alloc));
    let end = serve(alloc, &mut store, &mut input, &mut output, 1_000);
    assert!(rt; matches!(end, ServeEnd::End));
    let replies = output.into_inner();
    assert_eq!(rt; replies.as_slice(), b"ok 1\nsafe 1\n".as_slice());
    // Not shown:
    drop(store);
    Ok(())
}
