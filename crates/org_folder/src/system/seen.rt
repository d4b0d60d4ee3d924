//! What the system said of a file, by which a change that another program makes is noticed.
use crate::calls::{Status, Time};

/// Which file it was, and how it was left as far as that is known.
#[derive(Clone, Copy)]
pub(super) struct Seen {
    device: u64,
    number: u64,
    // not known once a write or a cut has failed
    length: Option<u64>,
    // not known after a write or a cut of our own
    modified: Option<Time>,
}

impl Seen {
    pub(super) fn of(status: &Status) -> Seen {
        Seen {
            device: status.device,
            number: status.number,
            length: Some(status.length),
            modified: Some(status.modified),
        }
    }

    // The same file after a write or a cut of our own, after which the system wasn't asked again.
    pub(super) fn left(&self, length: Option<u64>) -> Seen {
        Seen {
            device: self.device,
            number: self.number,
            length,
            modified: None,
        }
    }

    // The same file after a write of our own which ends there.
    pub(super) fn written_to(&self, end: u64) -> Seen {
        match self.length {
            Some(length) if length > end => self.left(Some(length)),
            Some(_) => self.left(Some(end)),
            None => self.left(None),
        }
    }

    // Whether this is the same file, left as it was.
    pub(super) fn is_still(&self, now: &Seen) -> bool {
        let is_as_long = match (self.length, now.length) {
            (Some(before), Some(now)) => before == now,
            _ => true,
        };
        let is_unmodified = match (&self.modified, &now.modified) {
            (Some(before), Some(now)) => before.is(now),
            _ => true,
        };
        is_as_long && is_unmodified && self.device == now.device && self.number == now.number
    }
}

/// Which file or folder it was, and when the system last changed anything of it. Another program
/// can set the time of a file's last change, but not this one.
#[derive(Clone, Copy)]
pub(super) struct Change {
    device: u64,
    number: u64,
    changed: Time,
}

impl Change {
    pub(super) fn of(status: &Status) -> Change {
        Change {
            device: status.device,
            number: status.number,
            changed: status.changed,
        }
    }

    // Whether this is the last change still.
    pub(super) fn is_still(&self, now: &Change) -> bool {
        self.device == now.device && self.number == now.number && self.changed.is(&now.changed)
    }

    // Whether this came after the other one: then whatever changes the other one's file from here
    // on gets another time, however seldom the system's clock goes on.
    pub(super) fn is_later_than(&self, other: &Change) -> bool {
        self.changed.is_later_than(&other.changed)
    }
}
