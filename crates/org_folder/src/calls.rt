//! The calls of the operating system, one a method, and their record.
//!
//! Code that is generic over `Calls` reaches the system by these methods alone, and each method's
//! contract says which call it adds to the record. So what is proved of the record is proved of the
//! calls. `HostCalls` makes them; that each of its methods makes the call that it notes has to be
//! read.
ghost use Rattle.std.specs.Prelude.{◌≡◌, true, false, [], ◌∷◌, string_bytes, is_ok, IfOk, IfSome, List, OnOk, OnErr};
ghost use Rattle.std.specs.Path.{path_buf_bytes};
ghost use Rattle.org_folder.specs.Raw.{IsPathOf, Raw, status_in};
ghost use Rattle.org_folder.specs.Raw.Raw.{Call};
ghost use Rattle.org_folder.specs.declared.calls.SystemCall.TheVariants as system;

use std::alloc::AllocError;
use std::fs::TryLockError;
use std::io;
use std::path::PathBuf;

mod again;
mod host;
mod log;

pub use host::{HostCalls, Locks};

/// How a file is opened.
#[derive(Clone, Copy, Debug)]
pub enum How {
    /// For reading.
    Read,
    /// For reading and writing.
    Write,
    /// For both, and made with these permissions where it isn't there. A link is followed.
    Make(u32),
    /// For both, and made with these permissions. It fails where anything is there.
    MakeNew(u32),
}

/// A time of a file: seconds since 1970, and nanoseconds.
#[derive(Clone, Copy, Debug)]
pub struct Time {
    pub seconds: i64,
    pub nanoseconds: i64,
}

impl Time {
    fn new(seconds: i64, nanoseconds: i64) -> Time
        ensures { result ≡ record { seconds = seconds; nanoseconds = nanoseconds } }
    {
        Time {
            seconds,
            nanoseconds,
        }
    }

    /// Whether this is the same time.
    pub fn is(&self, other: &Time) -> bool {
        self.seconds == other.seconds && self.nanoseconds == other.nanoseconds
    }

    /// Whether this comes after the other one.
    pub fn is_later_than(&self, other: &Time) -> bool {
        self.seconds > other.seconds
            || self.seconds == other.seconds && self.nanoseconds > other.nanoseconds
    }
}

/// What the system says of a file.
#[derive(Clone, Copy, Debug)]
pub struct Status {
    /// Its device, and its number there: what distinguishes it from all others.
    pub device: u64,
    pub number: u64,
    /// Its kind and its permissions, as stat(2) has them in `st_mode`.
    pub mode: u32,
    /// The user that it belongs to.
    pub owner: u32,
    /// The group that it belongs to.
    pub group: u32,
    /// Its length in bytes.
    pub length: u64,
    /// When its content was last changed; a program can set this.
    pub modified: Time,
    /// When its status was last changed.
    pub changed: Time,
    /// When it was born, where the system tells it.
    pub born: Option<Time>,
}

const KIND: u32 = 0o170000;

const PLAIN_FILE: u32 = 0o100000;

const FOLDER: u32 = 0o040000;

const LINK: u32 = 0o120000;

impl Status {
    /// Whether it is a plain file.
    pub fn is_file(&self) -> bool {
        self.mode & KIND == PLAIN_FILE
    }

    /// Whether it is a folder.
    pub fn is_folder(&self) -> bool {
        self.mode & KIND == FOLDER
    }

    /// Whether it is a symbolic link.
    pub fn is_symlink(&self) -> bool {
        self.mode & KIND == LINK
    }

    /// Whether both are one file.
    pub fn is_same(&self, other: &Status) -> bool {
        self.device == other.device && self.number == other.number
    }
}

/// A call of the system with its answer, but for the path or the file, and the bytes. `bool` says
/// whether the call succeeded, and a `Status` is there where it did.
#[derive(Clone, Copy, Debug)]
pub enum SystemCall {
    /// openat(2): a path.
    Open(How, bool),
    /// From here on relative paths lead from the folder at a path, or from the one that was opened
    /// there: the path.
    Enter,
    /// statx(2), which follows links: a path.
    Stat(Option<Status>),
    /// statx(2), which follows no link: a path.
    LinkStat(Option<Status>),
    /// statx(2): an open file.
    FileStat(Option<Status>),
    /// pread(2), until all bytes are read: an open file, from which place, the bytes.
    Read(u64, bool),
    /// pwrite(2), until all bytes are written: an open file, from which place, the bytes.
    Write(u64, bool),
    /// ftruncate(2): an open file, its new length.
    Truncate(u64, bool),
    /// fdatasync(2): an open file.
    DataSync(bool),
    /// fsync(2): an open folder.
    Sync(bool),
    /// mkdir(2), with the permissions of the user's own setting: a path.
    MakeFolder(bool),
    /// fchmod(2): an open file, its new permissions.
    ChangeMode(u32, bool),
    /// flock(2), exclusive and without waiting: an open folder.
    Lock(bool),
    /// getdents64(2), of a folder that is opened for it: a path.
    List(bool),
    /// realpath(3): a path, and where it ends.
    RealPath(bool),
    /// A text that is read whole: a path, and the text.
    Text(bool),
}

/// An open file or folder, and the path that it was opened under.
#[derive(Drop)]
pub struct Handle<F> {
    path: String,
    file: F,
}

impl<F: Drop> Handle<F> {
    /// The path that it was opened under.
    pub fn path(&self) -> &str
        ensures { result.now ≡ string_bytes self.now.path }
    {
        self.path.as_str()
    }
}

// What a file was said to be.
fn status_in(answer: &io::Result<Status>) -> Option<Status>
    ensures { result ≡ status_in answer.now }
{
    match answer {
        Ok(status) => Some(*status),
        Err(_) => None,
    }
}

/// The calls of the operating system. A path that is relative leads from the folder that was
/// entered, and before that from the process's own one; an empty path is that folder itself. A call
/// that a signal interrupts is made again. A call for which there is no memory is noted as one that
/// failed.
pub trait Calls {
    /// What the system gives for an open file.
    type File: Drop;

    /// The calls so far, the newest first.
    ghost made: { Self → List Raw };

    /// Opens a file or a folder.
    fn open(&mut self, path: &str, how: How) -> io::Result<Handle<Self::File>>
        ensures path { IfOk result (λ handle. string_bytes handle.path ≡ path.now) }
        ensures made { made self.new
            ≡ Call (system.Open how (is_ok result)) path.now [] ∷ made self.old };

    /// Has relative paths lead from the folder at this path. Where it was opened, under this path or
    /// with a slash at its end, they lead from the one that is open, whatever becomes of its path, if
    /// the system has another path for it.
    fn enter(&mut self, path: &str, folder: Option<&Handle<Self::File>>) -> Result<(), AllocError>
        requires { IfSome folder (λ opened. IsPathOf path.now (string_bytes opened.now.path)) }
        ensures ok { OnOk result (made self.new ≡ Call system.Enter path.now [] ∷ made self.old) }
        ensures err { OnErr result (made self.new ≡ made self.old) };

    /// What a path leads to.
    fn stat(&mut self, path: &str) -> io::Result<Status>
        ensures { made self.new
            ≡ Call (system.Stat (status_in result)) path.now [] ∷ made self.old };

    /// What stands at a path: a link isn't followed.
    fn link_stat(&mut self, path: &str) -> io::Result<Status>
        ensures { made self.new
            ≡ Call (system.LinkStat (status_in result)) path.now [] ∷ made self.old };

    /// What an open file is.
    fn file_stat(&mut self, file: &Handle<Self::File>) -> io::Result<Status>
        ensures { made self.new ≡ Call (system.FileStat (status_in result))
            (string_bytes file.now.path) [] ∷ made self.old };

    /// Fills the buffer with the bytes of a file from `from` on.
    fn read(&mut self, file: &Handle<Self::File>, from: u64, into: &mut [u8]) -> io::Result<()>
        ensures { made self.new ≡ Call (system.Read from (is_ok result))
            (string_bytes file.now.path) into.new ∷ made self.old };

    /// Writes bytes over a file from `from` on.
    fn write(&mut self, file: &Handle<Self::File>, from: u64, bytes: &[u8]) -> io::Result<()>
        ensures { made self.new ≡ Call (system.Write from (is_ok result))
            (string_bytes file.now.path) bytes.now ∷ made self.old };

    /// Gives a file this length.
    fn truncate(&mut self, file: &Handle<Self::File>, length: u64) -> io::Result<()>
        ensures { made self.new ≡ Call (system.Truncate length (is_ok result))
            (string_bytes file.now.path) [] ∷ made self.old };

    /// Puts a file's content on the device.
    fn data_sync(&mut self, file: &Handle<Self::File>) -> io::Result<()>
        ensures { made self.new ≡ Call (system.DataSync (is_ok result))
            (string_bytes file.now.path) [] ∷ made self.old };

    /// Puts a folder's entries on the device.
    fn sync(&mut self, folder: &Handle<Self::File>) -> io::Result<()>
        ensures { made self.new ≡ Call (system.Sync (is_ok result))
            (string_bytes folder.now.path) [] ∷ made self.old };

    /// Makes a folder. It fails where anything is there.
    fn make_folder(&mut self, path: &str) -> io::Result<()>
        ensures { made self.new ≡ Call (system.MakeFolder (is_ok result)) path.now [] ∷ made self.old };

    /// Gives a file these permissions.
    fn change_mode(&mut self, file: &Handle<Self::File>, mode: u32) -> io::Result<()>
        ensures { made self.new ≡ Call (system.ChangeMode mode (is_ok result))
            (string_bytes file.now.path) [] ∷ made self.old };

    /// Locks a folder against every other one that is open, until this is dropped.
    fn lock(&mut self, folder: &Handle<Self::File>) -> Result<(), TryLockError>
        ensures { made self.new ≡ Call (system.Lock (is_ok result))
            (string_bytes folder.now.path) [] ∷ made self.old };

    /// The names of the entries of a folder. One that isn't UTF-8 is left out, and where it ends in
    /// `.org` the call fails.
    fn list(&mut self, path: &str) -> io::Result<Vec<String>>
        ensures { made self.new ≡ Call (system.List (is_ok result)) path.now [] ∷ made self.old };

    /// Where a path ends, with all links followed.
    fn real_path(&mut self, path: &str) -> io::Result<PathBuf>
        ensures ok { IfOk result (λ end. made self.new
            ≡ Call (system.RealPath true) path.now (path_buf_bytes end) ∷ made self.old) }
        ensures err { OnErr result (made self.new
            ≡ Call (system.RealPath false) path.now [] ∷ made self.old) };

    /// A text of the system.
    fn text(&mut self, path: &str) -> io::Result<String>
        ensures ok { IfOk result (λ text. made self.new
            ≡ Call (system.Text true) path.now (string_bytes text) ∷ made self.old) }
        ensures err { OnErr result (made self.new
            ≡ Call (system.Text false) path.now [] ∷ made self.old) };
}
