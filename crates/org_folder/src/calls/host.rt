//! The calls as the operating system makes them.
//!
//! Each method makes the call that the trait names, again where a signal interrupts it, and notes
//! it. To be read against its calls: no contract says what a system does. Only `enter` decides
//! anything: by which path the folder is reached that was opened.
ghost use Rattle.std.specs.Prelude.{◌≡◌, [], string_bytes, IfOk};

use super::again::again;
use super::log::Log;
use super::{Calls, Handle, How, Status, SystemCall, Time, status_in};
use std::alloc::{AllocError, Global};
use std::fs::{File, Files, Metadata, OpenFile, OpenOptions, Permissions, TryLockError};
use std::io::{Error, ErrorKind, Read};
use std::os::fd::AsRawFd;
use std::os::unix::fs::{FileExt, MetadataExt, OpenOptionsExt, PermissionsExt};
use std::path::{Path, PathBuf};
use std::time::UNIX_EPOCH;
use std::{fs, io, str};

// How much of a folder is read at a time, in bytes.
const MOST_READ: usize = 32_768;

/// A folder that was opened and may be locked.
pub trait Locks {
    /// Locks it against every other one that is open, until this is dropped.
    fn try_lock(&self) -> Result<(), TryLockError>;
}

impl Locks for File {
    fn try_lock(&self) -> Result<(), TryLockError> {
        File::try_lock(self)
    }
}

/// The calls of the operating system, and their record, which takes no memory.
#[derive(Drop)]
pub struct HostCalls<R: Files> {
    rt: R,
    // the folder from which relative paths lead
    folder: String,
    pub(crate) log: Log,
}

impl How {
    fn options(&self) -> OpenOptions {
        let mut options = File::options();
        options.read(true).write(!matches!(self, How::Read));
        options.create(matches!(self, How::Make(_)));
        options.create_new(matches!(self, How::MakeNew(_)));
        if let How::Make(mode) | How::MakeNew(mode) = self {
            options.mode(*mode);
        }
        options
    }
}

impl Status {
    fn of(metadata: &Metadata) -> Status {
        Status {
            device: metadata.dev(),
            number: metadata.ino(),
            mode: metadata.mode(),
            owner: metadata.uid(),
            group: metadata.gid(),
            length: metadata.len(),
            modified: Time::new(metadata.mtime(), metadata.mtime_nsec()),
            changed: Time::new(metadata.ctime(), metadata.ctime_nsec()),
            born: birth_of(metadata),
        }
    }
}

// When a file was born, where the system tells it. No file is older than 1970.
fn birth_of(metadata: &Metadata) -> Option<Time> {
    let since = metadata.created().ok()?.duration_since(UNIX_EPOCH).ok()?;
    let seconds = i64::try_from(since.as_secs()).ok()?;
    Some(Time::new(seconds, i64::from(since.subsec_nanos())))
}

impl<R: Files + AllocGlobal + Clone + Drop> HostCalls<R>
where
    R::File: FileExt + Locks + AsRawFd,
{
    /// None was made.
    pub fn new(rt: R) -> HostCalls<R>
        ensures { result.log.calls ≡ [] }
    {
        HostCalls {
            folder: String::new(rt.alloc()),
            rt,
            log: Log::new(),
        }
    }

    fn at(&self, path: &str) -> Result<PathBuf, AllocError> {
        Path::new(self.folder.as_str()).join(self.rt.alloc(), path)
    }

    fn opened(&self, path: &str, how: How) -> io::Result<Handle<R::File>>
        ensures { IfOk result (λ handle. string_bytes handle.path ≡ path.now) }
    {
        let name = String::from_str(self.rt.alloc(), path)?;
        let file = how.options().open(&self.rt, self.at(path)?.as_path())?;
        Ok(Handle { path: name, file })
    }

    fn names_in(&self, path: &str) -> io::Result<Vec<String>> {
        let mut names = Vec::new(self.rt.alloc());
        let mut folder = self.rt.open_dir(self.at(path)?.as_path().as_str())?;
        let mut read = [0; MOST_READ];
        for _ in 0..u64::MAX {
            // No read ends within a name.
            let length = folder.read(&mut read)?;
            if length == 0 {
                break;
            }
            push_names(self.rt.alloc(), &read[..length], &mut names)?;
        }
        Ok(names)
    }

    // The path of a folder. Where it is open, this is the one by its number, which leads to it
    // whatever becomes of its own path, if the system has that.
    fn lasting(&self, path: &str, folder: Option<&Handle<R::File>>) -> Result<String, AllocError> {
        let Some(folder) = folder else {
            return String::from_str(self.rt.alloc(), path);
        };
        let lasting = format!(in self.rt.alloc(); "/proc/self/fd/{}", folder.file.as_raw_fd())?;
        let there = status(|| fs::metadata(&self.rt, lasting.as_str()));
        match (there, status(|| folder.file.metadata())) {
            (Ok(there), Ok(here)) if there.is_same(&here) => Ok(lasting),
            _ => String::from_str(self.rt.alloc(), path),
        }
    }
}

// Puts names, each ended by a zero byte, with others: those of entries, as far as they are UTF-8.
fn push_names(alloc: Global, read: &[u8], names: &mut Vec<String>) -> io::Result<()> {
    for name in read.split(|byte| *byte == 0) {
        match str::from_utf8(name) {
            Ok("" | "." | "..") => {}
            Ok(name) => names.push(String::from_str(alloc, name)?)?,
            Err(_) if name.ends_with(b".org") => {
                return Err(Error::from(ErrorKind::InvalidFilename));
            }
            Err(_) => {}
        }
    }
    Ok(())
}

// What a look says of a file.
fn status<F: Fn() -> io::Result<Metadata>>(look: F) -> io::Result<Status>
    requires { F.IsAlwaysCallable look }
{
    Ok(Status::of(&again(look)?))
}

impl<R: Files + AllocGlobal + Clone + Drop> Calls for HostCalls<R>
where
    R::File: FileExt + Locks + AsRawFd,
{
    type File = R::File;

    ghost made = { λ calls. calls.log.calls };

    fn open(&mut self, path: &str, how: How) -> io::Result<Handle<R::File>> {
        let handle = self.opened(path, how);
        self.note(SystemCall::Open(how, handle.is_ok()), path);
        handle
    }

    // It also looks whether the path by number leads to the open folder, and notes neither look.
    fn enter(&mut self, path: &str, folder: Option<&Handle<R::File>>) -> Result<(), AllocError> {
        self.folder = self.lasting(path, folder)?;
        self.note(SystemCall::Enter, path);
        Ok(())
    }

    fn stat(&mut self, path: &str) -> io::Result<Status> {
        let status = status(|| fs::metadata(&self.rt, self.at(path)?.as_path()));
        self.note(SystemCall::Stat(status_in(&status)), path);
        status
    }

    fn link_stat(&mut self, path: &str) -> io::Result<Status> {
        let status = status(|| fs::symlink_metadata(&self.rt, self.at(path)?.as_path()));
        self.note(SystemCall::LinkStat(status_in(&status)), path);
        status
    }

    fn file_stat(&mut self, file: &Handle<R::File>) -> io::Result<Status> {
        let status = status(|| file.file.metadata());
        self.note(SystemCall::FileStat(status_in(&status)), file.path());
        status
    }

    fn read(&mut self, file: &Handle<R::File>, from: u64, into: &mut [u8]) -> io::Result<()> {
        let done = file.file.read_exact_at(into, from);
        self.note_bytes(SystemCall::Read(from, done.is_ok()), file.path(), into);
        done
    }

    fn write(&mut self, file: &Handle<R::File>, from: u64, bytes: &[u8]) -> io::Result<()> {
        let done = file.file.write_all_at(bytes, from);
        self.note_bytes(SystemCall::Write(from, done.is_ok()), file.path(), bytes);
        done
    }

    fn truncate(&mut self, file: &Handle<R::File>, length: u64) -> io::Result<()> {
        let done = file.file.set_len(length);
        self.note(SystemCall::Truncate(length, done.is_ok()), file.path());
        done
    }

    fn data_sync(&mut self, file: &Handle<R::File>) -> io::Result<()> {
        let done = file.file.sync_data();
        self.note(SystemCall::DataSync(done.is_ok()), file.path());
        done
    }

    fn sync(&mut self, folder: &Handle<R::File>) -> io::Result<()> {
        let done = folder.file.sync_all();
        self.note(SystemCall::Sync(done.is_ok()), folder.path());
        done
    }

    fn make_folder(&mut self, path: &str) -> io::Result<()> {
        let made = match self.at(path) {
            Ok(path) => fs::create_dir(&self.rt, path.as_path()),
            Err(error) => Err(io::Error::from(error)),
        };
        self.note(SystemCall::MakeFolder(made.is_ok()), path);
        made
    }

    fn change_mode(&mut self, file: &Handle<R::File>, mode: u32) -> io::Result<()> {
        let done = file.file.set_permissions(Permissions::from_mode(mode));
        self.note(SystemCall::ChangeMode(mode, done.is_ok()), file.path());
        done
    }

    fn lock(&mut self, folder: &Handle<R::File>) -> Result<(), TryLockError> {
        let done = folder.file.try_lock();
        self.note(SystemCall::Lock(done.is_ok()), folder.path());
        done
    }

    fn list(&mut self, path: &str) -> io::Result<Vec<String>> {
        let names = again(|| self.names_in(path));
        self.note(SystemCall::List(names.is_ok()), path);
        names
    }

    fn real_path(&mut self, path: &str) -> io::Result<PathBuf> {
        let end = again(|| fs::canonicalize(&self.rt, self.at(path)?.as_path()));
        match &end {
            Ok(end) => self.note_bytes(SystemCall::RealPath(true), path, end.as_str().as_bytes()),
            Err(_) => self.note(SystemCall::RealPath(false), path),
        }
        end
    }

    fn text(&mut self, path: &str) -> io::Result<String> {
        let text = again(|| fs::read_to_string(&self.rt, path));
        match &text {
            Ok(text) => self.note_bytes(SystemCall::Text(true), path, text.as_bytes()),
            Err(_) => self.note(SystemCall::Text(false), path),
        }
        text
    }
}
