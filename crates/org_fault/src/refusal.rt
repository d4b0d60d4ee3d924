//! The refusals of the store, with their numbers and names in replies.
ghost use Rattle.std.specs.Prelude.{◌≡◌};
ghost use Rattle.org_fault.specs.Refusals.{code_of, name_of};

use thiserror::Error;

/// Why a command is refused. It then changed nothing.
#[derive(Clone, Copy, Debug, PartialEq, Eq, Error)]
pub enum Refusal {
    /// The file is none of the store's, whose archive files count too.
    #[error("no such file")]
    NoSuchFile,
    /// The template can't be expanded.
    #[error("bad template")]
    BadTemplate,
    /// The expanded template isn't one heading with what lies below it, or has bytes before it.
    #[error("bad entry")]
    BadEntry,
    /// No heading is at a path, or none can be made with a title.
    #[error("not found")]
    NotFound,
    /// Several headings have a title.
    #[error("not unique")]
    NotUnique,
    /// The heading that a subtree is to go below lies in the subtree.
    #[error("inside itself")]
    InsideItself,
    /// The file is an archive file already, or the entry lies below the heading that it would be
    /// archived to.
    #[error("already archived")]
    AlreadyArchive,
    /// The state is none of the store's.
    #[error("unknown state")]
    UnknownState,
    /// The planning line of the heading isn't well formed.
    #[error("odd planning line")]
    OddPlanning,
    /// A repeater of hours on a timestamp without a time, or with a range.
    #[error("a repeater of hours needs one time")]
    BadRepeat,
    /// A repeated date is past the year 9999.
    #[error("the repeated date is past the year 9999")]
    DateRange,
    /// No clock runs.
    #[error("no clock runs")]
    NoClock,
    /// The moment is before the start of the clock that is to be closed.
    #[error("the clock would run backwards")]
    ClockBackwards,
    /// The location of an entry's archive can't be read, or its heading can't be made.
    #[error("bad location")]
    BadLocation,
    /// The bytes that are to give way don't stand there.
    #[error("not there")]
    NotThere,
    /// A file would grow past its limit, or the accepted commands are as many as can be counted.
    #[error("too large")]
    TooLarge,
}

impl Refusal {
    /// The number of this refusal in a reply.
    pub fn code(self) -> u8
        ensures { result ≡ code_of self }
    {
        match self {
            Refusal::NoSuchFile => 1,
            Refusal::BadTemplate => 2,
            Refusal::BadEntry => 3,
            Refusal::NotFound => 4,
            Refusal::NotUnique => 5,
            Refusal::InsideItself => 6,
            Refusal::AlreadyArchive => 7,
            Refusal::UnknownState => 8,
            Refusal::OddPlanning => 9,
            Refusal::BadRepeat => 10,
            Refusal::DateRange => 11,
            Refusal::NoClock => 12,
            Refusal::ClockBackwards => 13,
            Refusal::BadLocation => 15,
            Refusal::NotThere => 16,
            Refusal::TooLarge => 14,
        }
    }

    /// The name of this refusal in a reply.
    pub fn name(self) -> &'static str
        ensures { result.now ≡ name_of self }
    {
        match self {
            Refusal::NoSuchFile => "NoSuchFile",
            Refusal::BadTemplate => "BadTemplate",
            Refusal::BadEntry => "BadEntry",
            Refusal::NotFound => "NotFound",
            Refusal::NotUnique => "NotUnique",
            Refusal::InsideItself => "InsideItself",
            Refusal::AlreadyArchive => "AlreadyArchive",
            Refusal::UnknownState => "UnknownState",
            Refusal::OddPlanning => "OddPlanning",
            Refusal::BadRepeat => "BadRepeat",
            Refusal::DateRange => "DateRange",
            Refusal::NoClock => "NoClock",
            Refusal::ClockBackwards => "ClockBackwards",
            Refusal::BadLocation => "BadLocation",
            Refusal::NotThere => "NotThere",
            Refusal::TooLarge => "TooLarge",
        }
    }
}
