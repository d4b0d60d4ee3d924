//! Calls of the system of which one fails.
use super::{Call, Step, disk, first_wrong, holds, make_folder, remove};
use crate::disk::hold_row;
use org_disk::DiskFault;
use org_folder::{FolderDisk, Locks, Unknown};
use std::alloc::{Alloc, Allocator, Global};
use std::cell::Cell;
use std::fs::{File, FileTimes, Files, Metadata, OpenFile, OpenOptions, Permissions, TryLockError};
use std::io;
use std::io::{Error, ErrorKind, Read, Seek, SeekFrom, Write};
use std::os::fd::{AsRawFd, RawFd};
use std::os::unix::fs::FileExt;
use std::path::PathBuf;
use std::process::Abort;
use std::rc::Rc;

// Counts a call of the system, which may be the one that fails.
fn count(fails_in: &Rc<Cell<u64>>) -> io::Result<()> {
    let left = fails_in.get();
    fails_in.set(left.saturating_sub(1));
    if left == 1 {
        Err(Error::from(ErrorKind::Other))
    } else {
        Ok(())
    }
}

// The file system, of which one call fails without effect.
#[derive(Clone, Drop)]
struct Failing {
    rt: HostRuntime,
    // the call that fails, counted from 1; 0 for none
    fails_in: Rc<Cell<u64>>,
}

// A file of it.
#[derive(Drop)]
struct FailingFile {
    file: File,
    fails_in: Rc<Cell<u64>>,
}

impl Alloc for Failing {
    type A = Global;

    fn alloc(&self) -> Global {
        self.rt.alloc()
    }
}

impl Files for Failing {
    type File = FailingFile;

    type Dir = <HostRuntime as Files>::Dir;

    fn open_file(&self, how: &OpenOptions, path: &str) -> io::Result<FailingFile> {
        count(&self.fails_in)?;
        Ok(FailingFile {
            file: self.rt.open_file(how, path)?,
            fails_in: self.fails_in.clone()?,
        })
    }

    fn open_dir(&self, path: &str) -> io::Result<<HostRuntime as Files>::Dir> {
        self.rt.open_dir(path)
    }

    fn metadata(&self, path: &str) -> io::Result<Metadata> {
        self.rt.metadata(path)
    }

    fn symlink_metadata(&self, path: &str) -> io::Result<Metadata> {
        self.rt.symlink_metadata(path)
    }

    fn copy(&self, from: &str, to: &str) -> io::Result<u64> {
        self.rt.copy(from, to)
    }

    fn rename(&self, from: &str, to: &str) -> io::Result<()> {
        self.rt.rename(from, to)
    }

    fn remove_file(&self, path: &str) -> io::Result<()> {
        self.rt.remove_file(path)
    }

    fn create_dir(&self, path: &str) -> io::Result<()> {
        self.rt.create_dir(path)
    }

    fn remove_dir(&self, path: &str) -> io::Result<()> {
        self.rt.remove_dir(path)
    }

    fn remove_dir_all<B: Allocator>(&self, alloc: B, path: &str) -> io::Result<()> {
        self.rt.remove_dir_all(alloc, path)
    }

    fn canonicalize<B: Allocator>(&self, alloc: B, path: &str) -> io::Result<PathBuf<B>> {
        count(&self.fails_in)?;
        self.rt.canonicalize(alloc, path)
    }
}

impl OpenFile for FailingFile {
    fn metadata(&self) -> io::Result<Metadata> {
        count(&self.fails_in)?;
        self.file.metadata()
    }

    fn set_len(&self, size: u64) -> io::Result<()> {
        count(&self.fails_in)?;
        self.file.set_len(size)
    }

    fn sync_all(&self) -> io::Result<()> {
        count(&self.fails_in)?;
        self.file.sync_all()
    }

    fn sync_data(&self) -> io::Result<()> {
        count(&self.fails_in)?;
        self.file.sync_data()
    }
}

impl Locks for FailingFile {
    fn try_lock(&self) -> Result<(), TryLockError> {
        self.file.try_lock()
    }
}

impl AsRawFd for FailingFile {
    fn as_raw_fd(&self) -> RawFd {
        self.file.as_raw_fd()
    }
}

impl FileExt for FailingFile {
    fn read_at(&self, buf: &mut [u8], offset: u64) -> io::Result<usize> {
        count(&self.fails_in)?;
        self.file.read_at(buf, offset)
    }

    fn write_at(&self, buf: &[u8], offset: u64) -> io::Result<usize> {
        count(&self.fails_in)?;
        self.file.write_at(buf, offset)
    }
}

// A disk reads, writes and seeks at no place that the file itself keeps.
impl Read for FailingFile {
    fn read(&mut self, _buf: &mut [u8]) -> io::Result<usize> {
        Err(Error::from(ErrorKind::Unsupported))
    }
}

impl Write for FailingFile {
    fn write(&mut self, _buf: &[u8]) -> io::Result<usize> {
        Err(Error::from(ErrorKind::Unsupported))
    }

    fn flush(&mut self) -> io::Result<()> {
        Ok(())
    }
}

impl Seek for FailingFile {
    fn seek(&mut self, _to: SeekFrom) -> io::Result<u64> {
        Err(Error::from(ErrorKind::Unsupported))
    }
}

// Of the calls on a file, in which a call of the system fails, one fails, and then they are all
// made.
const ONE_FAILS: &[Step] = &[
    Step::Call("a.org", Call::Each, Err(DiskFault)),
    Step::Call("a.org", Call::Each, Ok(0)),
];

// The calls that sync the file's entry, and those that sync the file.
const SYNCS: &[u64] = &[4, 5, 6, 7, 11];

// Once a sync has failed, none counts: the calls fail again.
const SYNC_FAILS: &[Step] = &[
    Step::Call("a.org", Call::Each, Err(DiskFault)),
    Step::Call("a.org", Call::Each, Err(DiskFault)),
];

// The file system, of which the call with this number fails, counted after the two that open the
// folder to lock it and ask which one it is.
fn failing_system(rt: &impl Abort, host: &HostRuntime, fails_in: u64) -> Failing {
    Failing {
        rt: host.clone().expect(rt, "memory"),
        fails_in: Rc::new(host.alloc(), Cell::new(fails_in.saturating_add(2))).expect(rt, "memory"),
    }
}

// Whether it goes so on a new folder's disk at which the call of the system with this number fails.
fn go_so(rt: &impl Abort, host: &HostRuntime, fails_in: u64, steps: &[Step]) -> bool {
    make_folder(rt, host, "one_fails", &[]);
    let system = failing_system(rt, host, fails_in);
    let disk: FolderDisk<Failing, Unknown> = disk(rt, host, "one_fails", system);
    first_wrong(rt, host, disk, steps).is_none()
}

// The same, and then the file holds what the calls leave, wherever they were broken off at first.
fn fails_at(rt: &impl Abort, host: &HostRuntime, fails_in: u64) -> bool {
    if SYNCS.contains(&fails_in) {
        return go_so(rt, host, fails_in, SYNC_FAILS);
    }
    go_so(rt, host, fails_in, ONE_FAILS) && holds(rt, host, "one_fails/a.org", b"* A\n* C\n")
}

// The calls on a file make 13 calls of the system: the file is made, seen to be empty and written;
// its folder is looked for, opened and synced, and the file synced; it is cut, looked at, written,
// synced, read and measured.
#[test]
fn each_call_of_the_system_fails_once(rt: HostRuntime) {
    for fails_in in 1..14usize {
        hold_row(&rt, fails_at(&rt, &rt, fails_in as u64), fails_in);
    }
    remove(&rt, &rt, "one_fails");
}
