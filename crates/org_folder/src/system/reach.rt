//! The files of a folder, as their names lead to them.
//!
//! What is no plain file isn't opened: a pipe would wait for its other end. Links are followed, but
//! the journal's name leads to what stands in the folder itself.
ghost use Rattle.std.specs.Prelude.{◌≡◌, is_ok, not, string_bytes, IfOk, IsTrue};
ghost use Rattle.org_disk.specs.Names.{is_file_name};
ghost use Rattle.org_folder.specs.Raw.{AreOwnModes, IsMadeAt, LimitsMode, OnlyAsks, acts, effects, makes, was_made};

use super::access::{ANYONE, Access, OWNER};
use super::seen::Seen;
use super::way::Ways;
use super::{Found, Reached};
use crate::aliases::Node;
use crate::calls::{Calls, Handle, How, Status};
use org_disk::FileName;
use std::io;
use std::io::{Error, ErrorKind};

// The journal's is the one name on a disk that no text makes.
pub(super) fn is_journal(name: &FileName) -> bool
    ensures { result ≡ not (is_file_name name.now) }
{
    !FileName::accepts(name.as_str())
}

pub(super) fn found<C: Calls>(ways: &mut Ways, calls: &mut C, name: &FileName) -> io::Result<Found>
    ensures { OnlyAsks (C.made calls.old) (C.made calls.new) }
{
    ways.check(calls, name)?;
    let entry = calls.link_stat(name.as_str())?;
    let is_link = entry.is_symlink();
    let status = followed(calls, name, entry)?;
    Ok(Found {
        node: Node::new(status.device, status.number),
        is_plain: status.is_file(),
        is_link,
    })
}

// What a name leads to, where this stands in the folder itself. The journal's leads to that.
pub(super) fn followed<C: Calls>(
    calls: &mut C,
    name: &FileName,
    entry: Status,
) -> io::Result<Status>
    ensures { OnlyAsks (C.made calls.old) (C.made calls.new) }
{
    if entry.is_file() || is_journal(name) {
        Ok(entry)
    } else {
        calls.stat(name.as_str())
    }
}

// The file of a name, and what the system said of it before it was opened.
pub(super) fn find<C: Calls>(
    ways: &mut Ways,
    calls: &mut C,
    name: &FileName,
) -> io::Result<(Reached<C::File>, Status)>
    ensures name { IfOk result (λ found. string_bytes found.0.handle.path ≡ name.now) }
    ensures asks { OnlyAsks (C.made calls.old) (C.made calls.new) }
{
    ways.check(calls, name)?;
    let entry = calls.link_stat(name.as_str())?;
    let is_own = entry.is_file();
    let status = followed(calls, name, entry)?;
    if !status.is_file() {
        return Err(Error::from(ErrorKind::Unsupported));
    }
    let (handle, is_writable) = open_file(calls, name)?;
    check_found(calls, name, &handle, &status)?;
    let file = Reached {
        handle,
        is_writable,
        is_own,
        seen: Seen::of(&status),
    };
    Ok((file, status))
}

// The journal that was opened is the file that was looked at: no link was put there meanwhile.
fn check_found<C: Calls>(
    calls: &mut C,
    name: &FileName,
    handle: &Handle<C::File>,
    looked: &Status,
) -> io::Result<()>
    ensures { OnlyAsks (C.made calls.old) (C.made calls.new) }
{
    if is_journal(name) && !looked.is_same(&calls.file_stat(handle)?) {
        return Err(Error::from(ErrorKind::Other));
    }
    Ok(())
}

// The file, and whether it may be written. One that may not is opened for reading alone.
fn open_file<C: Calls>(calls: &mut C, name: &FileName) -> io::Result<(Handle<C::File>, bool)>
    ensures name { IfOk result (λ opened. string_bytes opened.0.path ≡ name.now) }
    ensures asks { OnlyAsks (C.made calls.old) (C.made calls.new) }
{
    match calls.open(name.as_str(), How::Write) {
        Ok(handle) => Ok((handle, true)),
        Err(error) if is_refused(error.kind()) => {
            Ok((calls.open(name.as_str(), How::Read)?, false))
        }
        Err(error) => Err(error),
    }
}

// A link that leads nowhere is followed: the file is made where it leads. But the journal is made
// in the folder itself.
pub(super) fn find_or_make<C: Calls>(calls: &mut C, name: &FileName) -> io::Result<Reached<C::File>>
    ensures name { IfOk result (λ file. string_bytes file.handle.path ≡ name.now) }
    ensures made { IsMadeAt name.now (C.made calls.old) (C.made calls.new) (is_ok result) }
{
    let access = access_to(calls, name)?;
    let how = how_to_make(name, &access);
    let handle = calls.open(name.as_str(), how)?;
    let status = calls.file_stat(&handle)?;
    only_empty(&status)?;
    give(calls, &handle, &access, &status);
    Ok(Reached {
        handle,
        is_writable: true,
        is_own: false,
        seen: Seen::of(&status),
    })
}

fn how_to_make(name: &FileName, access: &Option<Access>) -> How
    ensures { IsTrue (makes result) }
{
    let mode = if access.is_some() { OWNER } else { ANYONE };
    if is_journal(name) {
        How::MakeNew(mode)
    } else {
        How::Make(mode)
    }
}

// Gives a file that was made to those who may use it.
fn give<C: Calls>(calls: &mut C, handle: &Handle<C::File>, access: &Option<Access>, made: &Status)
    ensures acts { acts (effects (C.made calls.new)) ≡ acts (effects (C.made calls.old)) }
    ensures modes { IsTrue (was_made (string_bytes handle.now.path) (effects (C.made calls.old)))
        → AreOwnModes (C.made calls.old) → AreOwnModes (C.made calls.new) }
{
    let Some(access) = access else {
        return;
    };
    if let Some(mode) = access.given(made) {
        let _ = calls.change_mode(handle, mode);
    }
}

// Who may use a file of this name, once it is made. None leaves that to the user's own setting.
fn access_to<C: Calls>(calls: &mut C, name: &FileName) -> io::Result<Option<Access>>
    ensures { OnlyAsks (C.made calls.old) (C.made calls.new) }
{
    if is_journal(name) {
        return Ok(Some(Access::to_journal(&calls.stat("")?)));
    }
    let Some(org_file) = name.as_str().strip_suffix("_archive") else {
        return Ok(None);
    };
    match calls.stat(org_file) {
        Ok(status) => Ok(Some(Access::to_archive(&status))),
        Err(_) => Ok(None),
    }
}

// Takes the journal from those whom it isn't for. That changes its status, whose last change says
// how old an open record is: so it is done once the gate was seen to be closed, or before the
// journal is written.
pub(super) fn narrow<C: Calls>(calls: &mut C, journal: &Handle<C::File>)
    ensures { LimitsMode (string_bytes journal.now.path) (C.made calls.old) (C.made calls.new) }
{
    let folder = calls.stat("");
    let found = calls.file_stat(journal);
    if let Some(mode) = limited(folder, found) {
        let _ = calls.change_mode(journal, mode);
    }
}

fn limited(folder: io::Result<Status>, found: io::Result<Status>) -> Option<u32> {
    Access::to_journal(&folder.ok()?).limited(&found.ok()?)
}

// A file that was found absent. One that has bytes was made by another name or another program
// since: it isn't written over.
fn only_empty(status: &Status) -> io::Result<()> {
    if status.length > 0 {
        return Err(Error::from(ErrorKind::AlreadyExists));
    }
    Ok(())
}

fn is_refused(kind: ErrorKind) -> bool {
    kind == ErrorKind::PermissionDenied || kind == ErrorKind::ReadOnlyFilesystem
}

// What was found, if anything was. What may not be reached, or is reached by way of itself, isn't
// in the folder.
pub(super) fn there<T: Drop>(answer: io::Result<T>) -> io::Result<Option<T>> {
    match answer {
        Ok(value) => Ok(Some(value)),
        Err(error) if is_nowhere(error.kind()) => Ok(None),
        Err(error) => Err(error),
    }
}

fn is_nowhere(kind: ErrorKind) -> bool {
    match kind {
        ErrorKind::NotFound | ErrorKind::PermissionDenied => true,
        ErrorKind::NotADirectory | ErrorKind::FilesystemLoop => true,
        _ => false,
    }
}
