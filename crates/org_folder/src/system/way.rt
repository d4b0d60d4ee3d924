//! The folders that lead to the files of a store, and the stores above its own folder.
//!
//! A folder on the way of a name belongs to the store where it is a folder itself, of the device and
//! the owner of the store's, and has no entry `orgstore.journal`: with one it is another store's.
//! Each is looked at once, and again by each try, before a file is made in it, and where a record is
//! to be replayed.
ghost use Rattle.std.specs.Prelude.{◌≡◌, ◌++◌, codes, IfOk, string_bytes};
ghost use Rattle.org_disk.specs.Names.{is_file_name};
ghost use Rattle.org_folder.specs.Raw.{OnlyAsks};

use crate::calls::{Calls, Status};
use indexmap::IndexMap;
use org_disk::FileName;
use std::alloc::Global;
use std::io;
use std::io::{Error, ErrorKind};
use std::path::Path;

/// The name of a store's journal in its folder.
const JOURNAL: &str = "orgstore.journal";

// The error for what stands at the path of a folder and doesn't belong to the store.
const FOREIGN: ErrorKind = ErrorKind::Unsupported;

/// Whether what stands at the path of a folder doesn't belong to the store.
pub(super) fn is_foreign(error: &Error) -> bool {
    error.kind() == FOREIGN
}

/// What the system said of the folders of a store.
#[derive(Drop)]
pub(super) struct Ways {
    alloc: Global,
    // the store's own folder, once it was looked at
    root: Option<Status>,
    // each folder below it that was looked at, by its path
    found: IndexMap<String, Status>,
}

impl Ways {
    pub(super) fn new(alloc: Global) -> Ways {
        Ways {
            alloc,
            root: None,
            found: IndexMap::new(alloc),
        }
    }

    // Looks at each folder that leads to a file, where it wasn't looked at before. Fails where one
    // isn't the store's.
    pub(super) fn check<C: Calls>(&mut self, calls: &mut C, name: &FileName) -> io::Result<()>
        ensures { OnlyAsks (C.made calls.old) (C.made calls.new) }
    {
        self.check_path(calls, name.folder())
    }

    // Whether the folders that lead to a path are the store's.
    pub(super) fn leads_to<C: Calls>(&mut self, calls: &mut C, path: &str) -> io::Result<bool>
        ensures { OnlyAsks (C.made calls.old) (C.made calls.new) }
    {
        match self.check_path(calls, path) {
            Ok(()) => Ok(true),
            Err(error) if is_foreign(&error) => Ok(false),
            Err(error) => Err(error),
        }
    }

    fn check_path<C: Calls>(&mut self, calls: &mut C, path: &str) -> io::Result<()>
        ensures { OnlyAsks (C.made calls.old) (C.made calls.new) }
    {
        for (at, byte) in path.as_bytes().iter().enumerate() {
            if *byte == b'/' {
                self.know_folder(calls, &path[..at])?;
            }
        }
        Ok(())
    }

    fn know_folder<C: Calls>(&mut self, calls: &mut C, folder: &str) -> io::Result<()>
        ensures { OnlyAsks (C.made calls.old) (C.made calls.new) }
    {
        if self.found.contains_key(folder) {
            return Ok(());
        }
        self.check_folder(calls, folder)
    }

    // Looks at each folder that leads to a file, again where it was looked at before. Fails where one
    // isn't the store's, or is another one than before.
    pub(super) fn try_again<C: Calls>(&mut self, calls: &mut C, name: &FileName) -> io::Result<()>
        ensures { OnlyAsks (C.made calls.old) (C.made calls.new) }
    {
        let path = name.folder();
        for (at, byte) in path.as_bytes().iter().enumerate() {
            if *byte == b'/' {
                self.check_folder(calls, &path[..at])?;
            }
        }
        Ok(())
    }

    // The same of one folder.
    pub(super) fn check_folder<C: Calls>(&mut self, calls: &mut C, folder: &str) -> io::Result<()>
        ensures { OnlyAsks (C.made calls.old) (C.made calls.new) }
    {
        let now = self.own_folder(calls, folder)?;
        if let Some(found) = self.found.get(folder) {
            return only_same(found, &now);
        }
        let folder = String::from_str(self.alloc, folder)?;
        self.found.insert(folder, now)?;
        Ok(())
    }

    // What the system says of a folder of the store.
    fn own_folder<C: Calls>(&mut self, calls: &mut C, folder: &str) -> io::Result<Status>
        ensures { OnlyAsks (C.made calls.old) (C.made calls.new) }
    {
        let root = self.root(calls)?;
        let status = calls.link_stat(folder)?;
        if !status.is_folder() || !is_beside(&status, &root) {
            return Err(Error::from(FOREIGN));
        }
        if has_entry(
            calls,
            joined(self.alloc, folder, "/orgstore.journal")?.as_str(),
        )? {
            return Err(Error::from(FOREIGN));
        }
        Ok(status)
    }

    fn root<C: Calls>(&mut self, calls: &mut C) -> io::Result<Status>
        ensures { OnlyAsks (C.made calls.old) (C.made calls.new) }
    {
        if let Some(root) = self.root {
            return Ok(root);
        }
        let root = calls.stat("")?;
        self.root = Some(root);
        Ok(root)
    }
}

// Fails where another folder than the one that was found stands there now.
fn only_same(found: &Status, now: &Status) -> io::Result<()> {
    if !found.is_same(now) {
        return Err(Error::from(ErrorKind::Other));
    }
    Ok(())
}

// Whether a folder may belong to the store of another one: both are on one file system and one
// user's.
fn is_beside(folder: &Status, root: &Status) -> bool {
    folder.device == root.device && folder.owner == root.owner
}

fn joined(alloc: Global, folder: &str, name: &str) -> io::Result<String>
    ensures { IfOk result (λ path. string_bytes path ≡ folder.now ++ name.now) }
{
    let mut path = String::from_str(alloc, folder)?;
    path.push_str(name)?;
    Ok(path)
}

// Whether anything stands at a path.
fn has_entry<C: Calls>(calls: &mut C, path: &str) -> io::Result<bool>
    ensures { OnlyAsks (C.made calls.old) (C.made calls.new) }
{
    match calls.link_stat(path) {
        Ok(_) => Ok(true),
        Err(error) if error.kind() == ErrorKind::NotFound => Ok(false),
        Err(error) => Err(error),
    }
}

// The store above the folder that was entered that would list a file in it: the path of its folder.
// There is none where the folder is a store itself.
pub(super) fn store_above<C: Calls>(alloc: Global, calls: &mut C) -> io::Result<Option<String>>
    ensures { OnlyAsks (C.made calls.old) (C.made calls.new) }
{
    if is_file(calls, JOURNAL) {
        return Ok(None);
    }
    store_over(alloc, calls)
}

// The same of a folder that has a journal.
pub(super) fn store_over<C: Calls>(alloc: Global, calls: &mut C) -> io::Result<Option<String>>
    ensures { OnlyAsks (C.made calls.old) (C.made calls.new) }
{
    let end = calls.real_path("")?;
    let Some(above) = nearest_store(alloc, calls, end.as_path())? else {
        return Ok(None);
    };
    if lists_files_in(alloc, calls, above.as_str(), end.as_path().as_str())? {
        Ok(Some(above))
    } else {
        Ok(None)
    }
}

// The nearest folder above a path that has a journal, which is a plain file.
fn nearest_store<C: Calls>(
    alloc: Global,
    calls: &mut C,
    path: Path<'_>,
) -> io::Result<Option<String>>
    ensures { OnlyAsks (C.made calls.old) (C.made calls.new) }
{
    let mut folder = path;
    for _ in 0..path.as_str().len() {
        let Some(parent) = folder.parent() else {
            break;
        };
        folder = parent;
        let journal = folder.join(alloc, JOURNAL)?;
        if is_file(calls, journal.as_path().as_str()) {
            return Ok(Some(String::from_str(alloc, folder.as_str())?));
        }
    }
    Ok(None)
}

// Whether a plain file stands at a path. What can't be looked at is none.
fn is_file<C: Calls>(calls: &mut C, path: &str) -> bool
    ensures { OnlyAsks (C.made calls.old) (C.made calls.new) }
{
    match calls.link_stat(path) {
        Ok(status) => status.is_file(),
        Err(_) => false,
    }
}

// Whether the store of one folder would list a file in another, whose path goes on from its own. A
// store of another user than the one who runs counts for nothing.
fn lists_files_in<C: Calls>(
    alloc: Global,
    calls: &mut C,
    store: &str,
    folder: &str,
) -> io::Result<bool>
    ensures { OnlyAsks (C.made calls.old) (C.made calls.new) }
{
    let Some(way) = folder.strip_prefix(store) else {
        return Ok(false);
    };
    let way = way.trim_start_matches('/');
    if !is_way(alloc, way)? {
        return Ok(false);
    }
    let root = calls.stat(store)?;
    if !is_own(calls, &root) {
        return Ok(false);
    }
    let start = folder.len() - way.len();
    for (at, byte) in way.as_bytes().iter().enumerate() {
        if *byte == b'/' && !is_beside(&calls.stat(&folder[..start + at])?, &root) {
            return Ok(false);
        }
    }
    Ok(is_beside(&calls.stat(folder)?, &root))
}

// Whether the files of a folder at this path can have names.
fn is_way(alloc: Global, folder: &str) -> io::Result<bool>
    ensures { IfOk result (λ can. can ≡ is_file_name (folder.now ++ codes "/a.org")) }
{
    Ok(FileName::accepts(joined(alloc, folder, "/a.org")?.as_str()))
}

// Whether a folder is the user's who runs. Where the system doesn't tell, it is.
fn is_own<C: Calls>(calls: &mut C, folder: &Status) -> bool
    ensures { OnlyAsks (C.made calls.old) (C.made calls.new) }
{
    match calls.stat("/proc/self") {
        Ok(process) => process.owner == folder.owner,
        Err(_) => true,
    }
}
