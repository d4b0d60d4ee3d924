//! Commands, and what is answered to them, as values.
//!
//! Texts are borrowed from the line that they were read from. Which lines spell which commands is
//! org_serve's matter.
ghost use Rattle.std.specs.Prelude.{◌≡◌};
ghost use Rattle.org_commands.specs.declared.command.RunFault.TheVariants.{OutOfMemory, Refused};

use org_capture::Target;
use org_disk::FileName;
use org_fault::{Fault, Refusal};
use org_fileset::SetFault;
use org_outline::{Path, PathFault, Place};
use org_splice::Bytes;
use org_stamp::Moment;
use std::alloc::AllocError;
use std::borrow::CowSlice;
use std::marker::Model;
use thiserror::Error;

/// A text of a command: bytes of the line that it was read from, which aren't copied, or bytes that
/// were made for it.
///
/// A clause sees them as a list.
#[derive(Drop)]
pub struct TextOf<'a> {
    bytes: CowSlice<'a, u8>,
}

impl<'a> Model for TextOf<'a> {
    ghost use Rattle.std.specs.Prelude.{List, ℕ};
    ghost use Rattle.std.specs.Cow.{cow_slice_items};

    ghost Value = { List ℕ };

    ghost view = { λ text. cow_slice_items text.bytes };
}

impl<'a> TextOf<'a> {
    /// Bytes that were given. Takes no memory.
    pub fn given(bytes: &'a [u8]) -> TextOf<'a>
        ensures { result ≡ bytes.now }
    {
        TextOf {
            bytes: CowSlice::Borrowed(bytes),
        }
    }

    /// Bytes that were made.
    pub fn made(bytes: Vec<u8>) -> TextOf<'a>
        ensures { result ≡ bytes.items }
    {
        TextOf {
            bytes: CowSlice::Owned(bytes),
        }
    }

    /// The bytes as a slice.
    pub fn as_slice(&self) -> &[u8]
        ensures { result.now ≡ self.now }
    {
        self.bytes.as_slice()
    }
}

/// A new entry for a file: the expanded template (Org manual, "Capture templates").
#[derive(Drop)]
pub struct Capture<'a> {
    /// The file that the entry goes into.
    pub file: FileName,
    /// What the entry goes below.
    pub target: Target,
    /// Where it goes among the headings there.
    pub place: Place,
    /// The moment of the capture.
    pub moment: Moment,
    /// The template as it was given, not expanded yet.
    pub template: TextOf<'a>,
    /// The text that was selected when the capture began.
    pub initial: TextOf<'a>,
}

/// A subtree that becomes a child of another heading, of its file or of another one (Org manual,
/// "Refile and Copy").
#[derive(Drop)]
pub struct Refile {
    /// The file that the subtree leaves.
    pub file: FileName,
    /// The path of its heading there.
    pub path: Path,
    /// The file that it goes into.
    pub to_file: FileName,
    /// The path of the heading there that it goes below.
    pub to_path: Path,
    /// Where it goes among the children of that heading.
    pub place: Place,
}

/// Another TODO state of a heading (Org manual, "Basic TODO functionality", "Closing items",
/// "Repeated tasks").
#[derive(Drop)]
pub struct Todo<'a> {
    /// The file of the heading.
    pub file: FileName,
    /// Its path there.
    pub path: Path,
    /// The state, one of the store's, or no byte for none.
    pub state: TextOf<'a>,
    /// The moment of the change.
    pub moment: Moment,
}

/// Bytes of a file that give way to others.
#[derive(Drop)]
pub struct Edit<'a> {
    /// The file.
    pub file: FileName,
    /// The byte position from which on they stand.
    pub at: usize,
    /// The bytes that are to stand there.
    pub old: TextOf<'a>,
    /// The bytes that take their place.
    pub new: TextOf<'a>,
}

/// A subtree that moves to its archive (Org manual, "Moving a tree to an archive file").
#[derive(Drop)]
pub struct Archive {
    /// The file that the subtree leaves.
    pub file: FileName,
    /// The path of its heading there.
    pub path: Path,
    /// The moment of the archiving.
    pub moment: Moment,
}

/// A clock that starts at a heading (Org manual, "Clocking commands").
#[derive(Drop)]
pub struct ClockIn {
    /// The file of the heading.
    pub file: FileName,
    /// Its path there.
    pub path: Path,
    /// The moment from which the clock runs.
    pub moment: Moment,
}

/// A command that changes files.
#[derive(Drop)]
pub enum Change<'a> {
    /// Puts a new entry into a file.
    Capture(Capture<'a>),
    /// Makes a subtree a child of another heading. The two paths are looked up before anything
    /// moves, and the place among the children is that after the move. A refile changes its files,
    /// also where it leaves their bytes.
    Refile(Refile),
    /// Puts a heading into another TODO state. Where it has that state already, all bytes stay.
    Todo(Todo<'a>),
    /// Moves a subtree to its archive: to the location that the nearest nonempty property ARCHIVE
    /// of it or a heading above it names, else the file's first line `#+ARCHIVE:`, else to the top
    /// level of the file's archive file. Its root gets properties that tell when it was archived,
    /// and where it was.
    Archive(Archive),
    /// Starts a clock at a heading, and stops the one that runs elsewhere, at the same moment. The
    /// clock that runs is the first open one of all files, in byte order of their names. Where it
    /// is the heading's own, all bytes stay, whatever the moment.
    ClockIn(ClockIn),
    /// Stops the clock that runs (Org manual, "Clocking commands").
    ClockOut {
        /// The moment up to which it ran.
        moment: Moment,
    },
    /// Puts bytes in the place of others, if these are still there. The text is taken as it is: a
    /// last line without a newline gets none. An edit changes its file, also where it leaves its
    /// bytes.
    Edit(Edit<'a>),
}

/// A command that asks for something, and changes nothing.
#[derive(Drop)]
pub enum Question {
    /// Asks for the time clocked at a heading and below it (Org manual, "The clock table").
    Time {
        /// The file of the heading.
        file: FileName,
        /// Its path there.
        path: Path,
    },
    /// Asks for the text of a file.
    Show {
        /// The file whose text is asked for.
        file: FileName,
    },
}

/// What a store is asked to do.
#[derive(Drop)]
pub enum Command<'a> {
    /// Changes files.
    Change(Change<'a>),
    /// Answers a question.
    Ask(Question),
    /// Puts all accepted commands on the disk.
    Settle,
}

/// What a command that did what it says is answered.
#[derive(Drop)]
pub enum Reply {
    /// The command is accepted, as the one of this number: the first is 1.
    Done(u64),
    /// This many accepted commands are on the disk.
    Safe(u64),
    /// The text of a file, byte for byte.
    Text(Bytes),
    /// This many minutes were clocked.
    Time(u64),
}

/// Why a call didn't do what was asked.
#[derive(Clone, Copy, Debug, PartialEq, Eq, Error)]
pub enum RunFault {
    /// The command asks for what can't be done. All is as before.
    #[error("refused: {0}")]
    Refused(Refusal),
    /// There was no memory for it. All is as before.
    #[error("out of memory")]
    OutOfMemory,
    /// A call of the disk failed. The store is broken from now on.
    #[error("a call of the disk failed")]
    Device,
    /// A call of the disk failed earlier. Nothing was done: open the folder again.
    #[error("broken by an earlier failure of the disk")]
    Broken,
}

impl From<AllocError> for RunFault {
    ghost from_gives = { λ _ e. e ≡ OutOfMemory };

    fn from(_: AllocError) -> Self {
        RunFault::OutOfMemory
    }
}

impl From<Fault<Refusal>> for RunFault {
    ghost use Rattle.org_commands.specs.Keeping.{fault_of};

    ghost from_gives = { λ fault e. e ≡ fault_of fault };

    fn from(fault: Fault<Refusal>) -> Self {
        match fault {
            Fault::OutOfMemory => RunFault::OutOfMemory,
            Fault::Refused(why) => RunFault::Refused(why),
        }
    }
}

impl From<PathFault> for RunFault {
    ghost use Rattle.org_outline.specs.Paths.{refusal_of};

    ghost from_gives = { λ fault e. e ≡ Refused (refusal_of fault) };

    fn from(fault: PathFault) -> Self {
        RunFault::from(Fault::<Refusal>::from(fault))
    }
}

impl From<SetFault> for RunFault {
    ghost use Rattle.org_commands.specs.Keeping.{fault_of_set};

    ghost from_gives = { λ fault e. e ≡ fault_of_set fault };

    fn from(fault: SetFault) -> Self {
        match fault {
            SetFault::OutOfMemory => RunFault::OutOfMemory,
            SetFault::Device => RunFault::Device,
            SetFault::Broken => RunFault::Broken,
        }
    }
}
