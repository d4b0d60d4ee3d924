//! Looks at a file that was opened: whether another program has changed or replaced it since.
//!
//! A file's name is known to lead to it by the folder's last change, as long as that stays: to follow
//! the name takes longer than to look at the folder and at the open file. Looks in a row at several
//! files share one look at the folder.
ghost use Rattle.org_folder.specs.Raw.{OnlyAsks};

use super::Opened;
use super::reach::followed;
use super::seen::{Change, Seen};
use crate::calls::{Calls, Handle, Status};
use org_disk::FileName;
use std::cell::Cell;
use std::io;
use std::io::{Error, ErrorKind};

// How many bytes are read back at once.
const PIECE: usize = 16_384;

/// The folder that all names lead from.
#[derive(Drop)]
pub(super) struct Base<F> {
    // where the system could open and lock it
    lock: Option<Handle<F>>,
    // its last change, if it was looked at in this commit and since the last call that writes, cuts
    // or syncs, or that reads a file for the store
    last: Cell<Option<Change>>,
}

impl<F: Drop> Base<F> {
    pub(super) fn new(lock: Option<Handle<F>>) -> Base<F> {
        Base {
            lock,
            last: Cell::new(None),
        }
    }

    // A call follows that may take long: the next look at a file looks at the folder again.
    pub(super) fn forget(&self) {
        self.last.set(None);
    }
}

// The last change of the folder.
pub(super) fn last_change<C: Calls>(calls: &mut C, base: &Base<C::File>) -> io::Result<Change>
    ensures { OnlyAsks (C.made calls.old) (C.made calls.new) }
{
    if let Some(last) = base.last.get() {
        return Ok(last);
    }
    let status = match &base.lock {
        Some(folder) => calls.file_stat(folder)?,
        None => calls.stat("")?,
    };
    let last = Change::of(&status);
    base.last.set(Some(last));
    Ok(last)
}

// What the system says of a file that was opened, in a folder whose last change is this one. Its
// name has to lead to it still, and it has to be as the calls so far left it. Else another program
// replaced or wrote it since: the next try would take that for our own work, or what is written
// next would go into a file that has no name.
pub(super) fn same_in<C: Calls>(
    calls: &mut C,
    folder: &Change,
    opened: &Opened<C::File>,
) -> io::Result<Status>
    ensures { OnlyAsks (C.made calls.old) (C.made calls.new) }
{
    if opened.is_found(folder) {
        return only_same(opened, calls.file_stat(&opened.handle)?);
    }
    let entry = calls.link_stat(opened.name.as_str())?;
    let status = only_same(opened, followed(calls, &opened.name, entry)?)?;
    opened.found.set(shown_in(folder, &opened.name, &entry));
    Ok(status)
}

// Fails where the system says something else of a file than the calls so far left.
fn only_same<F>(opened: &Opened<F>, now: Status) -> io::Result<Status> {
    if !opened.seen.get().is_still(&Seen::of(&now)) {
        return Err(Error::from(ErrorKind::Other));
    }
    Ok(now)
}

// The folder's last change, if a later one shows: the system's clock has gone on since that one, to
// when it changed a plain file that stands in this folder itself.
fn shown_in(folder: &Change, name: &FileName, entry: &Status) -> Option<Change> {
    let is_in_it = name.folder().is_empty() && entry.is_file();
    if is_in_it && Change::of(entry).is_later_than(folder) {
        return Some(*folder);
    }
    None
}

// The length of a file that is the same still. What the system says of it is kept for the next look.
pub(super) fn look_again<C: Calls>(
    calls: &mut C,
    base: &Base<C::File>,
    opened: &Opened<C::File>,
) -> io::Result<u64>
    ensures { OnlyAsks (C.made calls.old) (C.made calls.new) }
{
    let folder = last_change(calls, base)?;
    let status = same_in(calls, &folder, opened)?;
    opened.seen.set(Seen::of(&status));
    Ok(status.length)
}

// The length of a file, whatever became of it; it is kept likewise.
pub(super) fn length_of<C: Calls>(calls: &mut C, opened: &Opened<C::File>) -> io::Result<u64>
    ensures { OnlyAsks (C.made calls.old) (C.made calls.new) }
{
    let status = calls.file_stat(&opened.handle)?;
    opened.seen.set(Seen::of(&status));
    Ok(status.length)
}

// Fails where a file isn't the same still, or doesn't hold these bytes. It is looked at before it is
// read, so that a later change shows at the next look.
pub(super) fn read_back<C: Calls>(
    calls: &mut C,
    base: &Base<C::File>,
    opened: &Opened<C::File>,
    bytes: &[u8],
) -> io::Result<()>
    ensures { OnlyAsks (C.made calls.old) (C.made calls.new) }
{
    if look_again(calls, base, opened)? != bytes.len() as u64 {
        return Err(Error::from(ErrorKind::Other));
    }
    compare(calls, &opened.handle, bytes)
}

// Reads a file piece by piece. It fails where that doesn't begin with these bytes.
fn compare<C: Calls>(calls: &mut C, file: &Handle<C::File>, bytes: &[u8]) -> io::Result<()>
    ensures { OnlyAsks (C.made calls.old) (C.made calls.new) }
{
    let mut buffer = [0u8; PIECE];
    let mut from = 0;
    while from < bytes.len() {
        let size = (bytes.len() - from).min(PIECE);
        let read = &mut buffer[..size];
        calls.read(file, from as u64, read)?;
        if &*read != &bytes[from..from + size] {
            return Err(Error::from(ErrorKind::Other));
        }
        from += size;
    }
    Ok(())
}
