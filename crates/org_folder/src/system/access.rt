//! Who may use a file that the store makes, and its journal.
//!
//! The journal's record has the text of any file of the folder, and an archive file what an Org
//! file had: neither is for more people than these are. Where the system refuses a change of
//! permissions, as it does of another user's file, they stay; that is no fault.
use crate::calls::Status;

/// The permissions of a file that is its owner's alone.
pub(super) const OWNER: u32 = 0o600;

/// The permissions of a file that the user's own setting limits.
pub(super) const ANYONE: u32 = 0o666;

const OWNER_AND_GROUP: u32 = 0o660;

const ALL: u32 = 0o777;

const GROUP: u32 = 0o070;

const OTHERS: u32 = 0o007;

const GROUP_WRITES: u32 = 0o020;

/// Permissions, and the group that they are meant for.
#[derive(Clone, Copy)]
pub(super) struct Access {
    mode: u32,
    group: u32,
}

impl Access {
    // To the journal of this folder: its owner's alone, or its group's too where that may write the
    // folder.
    pub(super) fn to_journal(folder: &Status) -> Access {
        let is_shared = folder.mode & GROUP_WRITES != 0;
        Access {
            mode: if is_shared { OWNER_AND_GROUP } else { OWNER },
            group: folder.group,
        }
    }

    // To the archive file of this Org file: the same as to that.
    pub(super) fn to_archive(org_file: &Status) -> Access {
        Access {
            mode: org_file.mode & ALL | OWNER,
            group: org_file.group,
        }
    }

    // The permissions to give to a file that was made as its owner's alone, if others. One that
    // isn't so was made by another program meanwhile, and keeps its own.
    pub(super) fn given(&self, made: &Status) -> Option<u32> {
        let mode = self.mode_for(made.group);
        if made.mode & ALL == OWNER && mode != OWNER {
            Some(mode)
        } else {
            None
        }
    }

    // The permissions of this file without what goes beyond these for the group and for all others,
    // if it has any of that.
    pub(super) fn limited(&self, found: &Status) -> Option<u32> {
        let beyond = found.mode & (GROUP | OTHERS) & !self.mode_for(found.group);
        if beyond != 0 {
            Some(found.mode & 0o7777 & !beyond)
        } else {
            None
        }
    }

    // The permissions of a file of this group. Another group than they are meant for may do no more
    // than all others may.
    fn mode_for(&self, group: u32) -> u32 {
        if group == self.group {
            return self.mode;
        }
        let others = self.mode & OTHERS;
        self.mode & !GROUP | self.mode & (others << 3)
    }
}

// Whether more than its owner may use a file.
pub(super) fn is_shared(found: &Status) -> bool {
    found.mode & (GROUP | OTHERS) != 0
}
