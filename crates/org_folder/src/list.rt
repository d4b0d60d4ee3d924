//! The Org files of a store: the plain files, in its folder and in those below, whose names are file
//! names in `.org`.
//!
//! Links to files are followed, and links to folders aren't. Other entries are left alone.
ghost use Rattle.std.specs.Prelude.{◌≡◌, ◌⊎◌, ◌↔◌, ◌<◌, ◌++◌, [], ◌∷◌, List, length, map, string_bytes, IsTrue, IsFalse, IfOk, IfSome, IfNone, IsErrOf, All};
ghost use Rattle.std.specs.List.{list_any};
ghost use Rattle.std.specs.IoError.{error_kind};
ghost use Rattle.org_disk.specs.Faults.{bad_name};
ghost use Rattle.org_disk.specs.Names.{IsOrgFile};
ghost use Rattle.org_folder.specs.Faults.{IsReportedAs};
ghost use Rattle.org_folder.specs.Listing.{can_have_files, is_node, most_files, names_of_links, Lists, ListsFolder, Walks};
ghost use Rattle.org_folder.specs.OrgFiles.{is_org_file};
ghost use Rattle.org_folder.specs.Calls.{Event, OnlyLooks};
ghost use Rattle.org_folder.specs.declared.list.ListFault.TheVariants.{Device, OutOfMemory};

use crate::aliases::Node;
use crate::system::System;
use org_disk::{BadName, FileName};
use org_fault::Fault;
use std::alloc::{AllocError, AllocFailed, Global};
use std::io::{self, ErrorKind};
use thiserror::Error;

/// Why a folder's files can't be listed.
#[derive(Clone, Copy, Debug, Error)]
pub enum ListFault {
    /// The folder can't be listed, or the name of one of its entries isn't UTF-8.
    #[error("the folder can't be listed")]
    Device,
    /// There was no memory for its names.
    #[error("out of memory")]
    OutOfMemory,
}

impl From<io::Error> for ListFault {
    ghost from_gives = { λ error fault. IsReportedAs (error_kind error) OutOfMemory Device fault };

    fn from(error: io::Error) -> ListFault {
        match error.kind() {
            ErrorKind::OutOfMemory => ListFault::OutOfMemory,
            _ => ListFault::Device,
        }
    }
}

impl From<AllocError> for ListFault {
    ghost from_gives = { λ _ fault. fault ≡ OutOfMemory };

    fn from(_: AllocError) -> ListFault {
        ListFault::OutOfMemory
    }
}

impl<T: Drop> From<AllocFailed<T>> for ListFault {
    ghost from_gives = { λ _ fault. fault ≡ OutOfMemory };

    fn from(_: AllocFailed<T>) -> ListFault {
        ListFault::OutOfMemory
    }
}

/// The name of an Org file that this text is.
///
/// # Errors
///
/// - `BadName`: exactly where it is none, or an archive file's.
/// - `OutOfMemory`.
#[tactic(auto, using(crate::proofs::Names::org_file_is))]
pub fn org_file(alloc: Global, text: &str) -> Result<FileName, Fault<BadName>>
    ensures name { IfOk result (λ name. (name ≡ text.now) × IsTrue (is_org_file text.now)) }
    ensures org_file { IfOk result IsOrgFile }
    ensures bad { IsErrOf result bad_name ↔ IsFalse (is_org_file text.now) }
{
    if !is_org_file(text) {
        return Err(Fault::Refused(BadName));
    }
    FileName::new(alloc, text)
}

// Whether a text is the name of an Org file, and of no archive file.
pub(crate) fn is_org_file(text: &str) -> bool
    ensures { result ≡ is_org_file text.now }
{
    FileName::accepts(text) && !text.as_bytes().ends_with(b"_archive")
}

/// The names of the Org files of a store's folder and of the folders below it, in no order that is
/// promised. Entries with other names are left out, and so is what is no plain file: folders, pipes,
/// sockets and devices, those that a link leads to as well. So is a link that leads to another of
/// these files. A link that leads nowhere is a file that is absent.
///
/// A folder below is left out, with all that is in it, where its name is hidden or ends in `.org`
/// or `.org_archive`, where a link leads to it, where it is on another file system or another
/// user's, where it has an entry `orgstore.journal`, and where it may not be read. Where there are
/// more files than a store can have, not all are looked for.
///
/// # Errors
///
/// - `Device`: the store's folder can't be listed, or one below can't though it may be read, or the
///   name of one of the entries ends in `.org` and isn't UTF-8.
/// - `OutOfMemory`.
pub fn org_files<S: System>(alloc: Global, system: &mut S) -> Result<Vec<FileName>, ListFault>
    ensures org { IfOk result (λ names. All IsOrgFile names.items) }
    ensures lists { IfOk result (λ names. Lists names.items
        (S.history system.old) (S.history system.new)) }
    ensures looks { OnlyLooks (S.history system.old) (S.history system.new) }
{
    let mut walk = Walk::new(alloc);
    if !walk.enter(system, "")? {
        return Err(ListFault::Device);
    }
    walk.go(system)?;
    walk.with_links()
}

// More files than these no store has.
const MOST_FILES: usize = 256;

// A link to a plain file.
#[derive(Drop)]
struct Linked {
    name: FileName,
    node: Node,
}

// What a walk has found.
#[derive(Drop)]
struct Walk {
    alloc: Global,
    names: Vec<FileName>,
    // the files of these names, but for those that aren't there
    nodes: Vec<Node>,
    links: Vec<Linked>,
    // the paths of entries that are still to be looked at
    todo: Vec<String>,
}

impl Walk {
    fn new(alloc: Global) -> Walk
        ensures names { result.names.items ≡ [] }
        ensures nodes { result.nodes.items ≡ [] }
        ensures links { result.links.items ≡ [] }
        ensures todo { result.todo.items ≡ [] }
    {
        Walk {
            alloc,
            names: Vec::new(alloc),
            nodes: Vec::new(alloc),
            links: Vec::new(alloc),
            todo: Vec::new(alloc),
        }
    }

    // Puts the paths of a folder's entries with those that are still to be looked at. Answers whether
    // the folder may be read.
    fn enter<S: System>(&mut self, system: &mut S, folder: &str) -> Result<bool, ListFault>
        ensures lists { IfOk result (λ ok. ListsFolder folder.now ok
            (map string_bytes self.old.todo.items) (map string_bytes self.new.todo.items)
            (S.history system.old) (S.history system.new)) }
        ensures names { self.new.names ≡ self.old.names }
        ensures nodes { self.new.nodes ≡ self.old.nodes }
        ensures links { self.new.links ≡ self.old.links }
        ensures looks { OnlyLooks (S.history system.old) (S.history system.new) }
    {
        let Some(entries) = system.list(folder)? else {
            return Ok(false);
        };
        self.put(folder, &entries)?;
        Ok(true)
    }

    // Puts the paths of these entries of a folder with those that are still to be looked at.
    fn put(&mut self, folder: &str, entries: &[String]) -> Result<(), ListFault>
        ensures todo { IfOk result (λ _. map string_bytes self.new.todo.items
            ≡ map string_bytes self.old.todo.items
            ++ map (λ entry. folder.now ++ entry) (map string_bytes entries.now)) }
        ensures names { self.new.names ≡ self.old.names }
        ensures nodes { self.new.nodes ≡ self.old.nodes }
        ensures links { self.new.links ≡ self.old.links }
    {
        for entry in entries {
            self.todo.push(joined(self.alloc, folder, entry)?)?;
        }
        Ok(())
    }

    // Looks at one path after another, until none is left or there are more files than a store can
    // have.
    fn go<S: System>(&mut self, system: &mut S) -> Result<(), ListFault>
        ensures walks { IfOk result (λ _. (start : List Event)
            → Walks self.old.names.items self.old.nodes.items self.old.links.items
            (map string_bytes self.old.todo.items) start (S.history system.old)
            → Walks self.new.names.items self.new.nodes.items self.new.links.items
            (map string_bytes self.new.todo.items) start (S.history system.new)) }
        ensures whole { IfOk result (λ _. (self.new.todo.items ≡ [])
            ⊎ (most_files < length self.new.names.items)) }
        ensures org { All IsOrgFile self.old.names.items → All IsOrgFile self.new.names.items }
        ensures links { All (λ link. IsOrgFile link.name) self.old.links.items
            → All (λ link. IsOrgFile link.name) self.new.links.items }
        ensures looks { OnlyLooks (S.history system.old) (S.history system.new) }
    {
        for _ in 0..u64::MAX {
            let Some(path) = self.todo.pop() else {
                return Ok(());
            };
            self.visit(system, path)?;
            if self.names.len() > MOST_FILES {
                return Ok(());
            }
        }
        Err(ListFault::Device)
    }

    // Looks at what stands at the path of an entry.
    fn visit<S: System>(&mut self, system: &mut S, path: String) -> Result<(), ListFault>
        ensures walks { IfOk result (λ _. (start : List Event)
            → Walks self.old.names.items self.old.nodes.items self.old.links.items
            (map string_bytes self.old.todo.items ++ string_bytes path ∷ [])
            start (S.history system.old)
            → Walks self.new.names.items self.new.nodes.items self.new.links.items
            (map string_bytes self.new.todo.items) start (S.history system.new)) }
        ensures org { All IsOrgFile self.old.names.items → All IsOrgFile self.new.names.items }
        ensures links { All (λ link. IsOrgFile link.name) self.old.links.items
            → All (λ link. IsOrgFile link.name) self.new.links.items }
        ensures looks { OnlyLooks (S.history system.old) (S.history system.new) }
    {
        if let Some(name) = name_of(self.alloc, &path)? {
            return self.look(system, name);
        }
        if can_have_files(self.alloc, &path)? && system.is_own_folder(&path)? {
            self.enter(system, &joined(self.alloc, &path, "/")?)?;
        }
        Ok(())
    }

    // Looks where the name of an Org file leads. A name that leads nowhere is a file. What can't be
    // looked at is one too: its first use then fails.
    fn look<S: System>(&mut self, system: &mut S, name: FileName) -> Result<(), ListFault>
        requires named { IsTrue (is_org_file name) }
        requires file { IsOrgFile name }
        ensures walks { IfOk result (λ _. (start : List Event)
            → Walks self.old.names.items self.old.nodes.items self.old.links.items
            (map string_bytes self.old.todo.items ++ name ∷ []) start (S.history system.old)
            → Walks self.new.names.items self.new.nodes.items self.new.links.items
            (map string_bytes self.new.todo.items) start (S.history system.new)) }
        ensures org { All IsOrgFile self.old.names.items → All IsOrgFile self.new.names.items }
        ensures links { All (λ link. IsOrgFile link.name) self.old.links.items
            → All (λ link. IsOrgFile link.name) self.new.links.items }
        ensures looks { OnlyLooks (S.history system.old) (S.history system.new) }
    {
        match system.look(&name) {
            Ok(Some(found)) if !found.is_plain => {}
            Ok(Some(found)) if found.is_link => self.links.push(Linked {
                name,
                node: found.node,
            })?,
            Ok(Some(found)) => {
                self.nodes.push(found.node)?;
                self.names.push(name)?;
            }
            _ => self.names.push(name)?,
        }
        Ok(())
    }

    // The files, and the links that lead to others.
    fn with_links(mut self) -> Result<Vec<FileName>, ListFault>
        ensures { IfOk result (λ names. names.items ≡ self.names.items
            ++ names_of_links self.nodes.items self.links.items) }
    {
        put_links(&mut self.names, &self.nodes, &self.links)?;
        Ok(self.names)
    }
}

// Puts the names of those links with others that lead to none of these files.
fn put_links(names: &mut Vec<FileName>, nodes: &[Node], links: &[Linked]) -> Result<(), ListFault>
    ensures { IfOk result (λ _. names.new.items
        ≡ names.old.items ++ names_of_links nodes.now links.now) }
{
    for link in links {
        if !is_among(nodes, &link.node) {
            names.push(link.name.clone()?)?;
        }
    }
    Ok(())
}

fn is_among(nodes: &[Node], node: &Node) -> bool
    ensures { result ≡ list_any (is_node node.now) nodes.now }
{
    nodes.iter().any(|other| other.device() == node.device() && other.number() == node.number())
}

fn joined(alloc: Global, folder: &str, entry: &str) -> Result<String, AllocError>
    ensures { IfOk result (λ path. string_bytes path ≡ folder.now ++ entry.now) }
{
    let mut path = String::from_str(alloc, folder)?;
    path.push_str(entry)?;
    Ok(path)
}

// Whether files of a folder at this path can have names.
fn can_have_files(alloc: Global, path: &str) -> Result<bool, AllocError>
    ensures { IfOk result (λ can. can ≡ can_have_files path.now) }
{
    Ok(FileName::accepts(&joined(alloc, path, "/a.org")?))
}

// The name of an entry that is an Org file.
fn name_of(alloc: Global, entry: &str) -> Result<Option<FileName>, ListFault>
    ensures org { IfOk result (λ found. IfSome found IsOrgFile) }
    ensures some { IfOk result (λ found. IfSome found (λ name.
        (name ≡ entry.now) × IsTrue (is_org_file entry.now))) }
    ensures none { IfOk result (λ found. IfNone found (IsFalse (is_org_file entry.now))) }
{
    match org_file(alloc, entry) {
        Ok(name) => Ok(Some(name)),
        Err(Fault::Refused(BadName)) => Ok(None),
        Err(Fault::OutOfMemory) => Err(ListFault::OutOfMemory),
    }
}
