//! That each two of a store's names lead to two files.
//!
//! Two names of one file (links) would be written as two. It looks and changes nothing.
ghost use Rattle.std.specs.Prelude.{◌≡◌, ◌<◌, ℕ, List, length, IfOk, IfErr, IfSome, IfNone, IsTrue, IsFalse};
ghost use Rattle.std.specs.List.{list_any};
ghost use Rattle.org_folder.specs.Aliases.{is_again, is_same, AreApart, AreSeen, IsSeen, MayReport};
ghost use Rattle.org_folder.specs.Right.{HaveNoFiles};
ghost use Rattle.org_folder.specs.Calls.{IsHeld, OnlyLooks};
ghost use Rattle.org_folder.specs.declared.aliases.AliasFault.TheVariants.{SameFile, Unseen};
ghost use Rattle.org_folder.specs.declared.list.ListFault.TheVariants.{OutOfMemory};

use crate::list::ListFault;
use crate::system::System;
use indexmap::IndexSet;
use org_disk::FileName;
use std::alloc::{AllocError, AllocFailed, Global};
use thiserror::Error;

/// Why names can't be those of a store.
#[derive(Debug, Drop, Error)]
pub enum AliasFault {
    /// This name leads to the file of one before it.
    #[error("the file of {0} has another name")]
    SameFile(FileName),
    /// The journal's name leads to no plain file of the folder itself.
    #[error("the journal is no plain file")]
    Linked,
    /// A name can't be looked at, or there was no memory for that.
    #[error("a name can't be looked at: {0}")]
    Unseen(ListFault),
}

impl From<AllocError> for AliasFault {
    ghost from_gives = { λ _ fault. fault ≡ Unseen OutOfMemory };

    fn from(_: AllocError) -> AliasFault {
        AliasFault::Unseen(ListFault::OutOfMemory)
    }
}

impl<T: Drop> From<AllocFailed<T>> for AliasFault {
    ghost from_gives = { λ _ fault. fault ≡ Unseen OutOfMemory };

    fn from(_: AllocFailed<T>) -> AliasFault {
        AliasFault::Unseen(ListFault::OutOfMemory)
    }
}

impl From<ListFault> for AliasFault {
    ghost from_gives = { λ cause fault. fault ≡ Unseen cause };

    fn from(fault: ListFault) -> AliasFault {
        AliasFault::Unseen(fault)
    }
}

/// What the system distinguishes a file by: its device, and its number there.
#[derive(Clone, Copy)]
pub struct Node {
    device: u64,
    number: u64,
}

impl Node {
    pub(crate) fn new(device: u64, number: u64) -> Node
        ensures { result ≡ record { device = device; number = number } }
    {
        Node { device, number }
    }

    pub(crate) fn device(&self) -> u64
        ensures { result ≡ self.now.device }
    {
        self.device
    }

    pub(crate) fn number(&self) -> u64
        ensures { result ≡ self.now.number }
    {
        self.number
    }
}

/// Looks where names of a folder lead, and answers those that lead nowhere: no file is there. Links
/// are followed. It changes nothing.
///
/// # Errors
///
/// - `Linked`: a link or what else is no plain file stands in the journal's place.
/// - `SameFile`: the first name that leads to the file of one before it.
/// - `Unseen`: a name can't be looked at, or there was no memory for that.
#[tactic(auto, using(crate::proofs::Looked::held_on))]
pub fn check_aliases<S: System>(
    alloc: Global,
    system: &mut S,
    names: &[FileName],
) -> Result<IndexSet<FileName>, AliasFault>
    ensures fault { IfErr result (MayReport names.now) }
    ensures absent { IfOk result (λ absent. HaveNoFiles S.System system.new absent.keys) }
    ensures apart { IfOk result (λ _. AreApart (S.history system.new) names.now) }
    ensures held { IsHeld (S.history system.old) → IsHeld (S.history system.new) }
    ensures looks { OnlyLooks (S.history system.old) (S.history system.new) }
{
    let mut absent = IndexSet::new(alloc);
    let nodes = nodes_of(alloc, system, names, &mut absent)?;
    match first_again(nodes.as_slice()) {
        Some(at) => {
            let fault = same_file(&names[at])?;
            Err(fault)
        }
        None => Ok(absent),
    }
}

fn same_file(name: &FileName) -> Result<AliasFault, ListFault>
    ensures { IfOk result (λ fault. fault ≡ SameFile name.now) }
{
    Ok(AliasFault::SameFile(name.clone()?))
}

// The files that these names lead to, one by one. Those that lead nowhere are put with the others
// that do.
fn nodes_of<S: System>(
    alloc: Global,
    system: &mut S,
    names: &[FileName],
    absent: &mut IndexSet<FileName>,
) -> Result<Vec<Option<Node>>, AliasFault>
    requires { HaveNoFiles S.System system.old absent.old.keys }
    ensures fault { IfErr result (λ fault. (names : List (List ℕ)) → MayReport names fault) }
    ensures absent { HaveNoFiles S.System system.new absent.new.keys }
    ensures looks { OnlyLooks (S.history system.old) (S.history system.new) }
    ensures size { IfOk result (λ nodes. length nodes.items ≡ length names.now) }
    ensures seen { IfOk result (λ nodes. AreSeen (S.history system.new) names.now nodes.items) }
{
    let mut nodes = Vec::new(alloc);
    for name in names {
        let node = node_of(system, name, absent)?;
        nodes.push(node)?;
    }
    Ok(nodes)
}

fn node_of<S: System>(
    system: &mut S,
    name: &FileName,
    absent: &mut IndexSet<FileName>,
) -> Result<Option<Node>, AliasFault>
    requires { HaveNoFiles S.System system.old absent.old.keys }
    ensures fault { IfErr result (λ fault. (names : List (List ℕ)) → MayReport names fault) }
    ensures absent { HaveNoFiles S.System system.new absent.new.keys }
    ensures looks { OnlyLooks (S.history system.old) (S.history system.new) }
    ensures seen { IfOk result (IsSeen (S.history system.new) name.now) }
{
    match system.look(name)? {
        Some(found) if !found.is_plain && is_journal(name) => Err(AliasFault::Linked),
        Some(found) => Ok(Some(found.node)),
        None => {
            absent.insert(name.clone()?)?;
            Ok(None)
        }
    }
}

// The journal's is the one name on a disk that no text makes.
fn is_journal(name: &FileName) -> bool {
    !FileName::accepts(name.as_str())
}

// The first place whose file is that of an earlier one.
fn first_again(nodes: &[Option<Node>]) -> Option<usize>
    ensures found { IfSome result (λ at. (at < length nodes.now)
        × IsTrue (is_again nodes.now at)) }
    ensures first { IfSome result (λ at. (i : ℕ) → i < at
        → IsFalse (is_again nodes.now i)) }
    ensures none { IfNone result ((i : ℕ) → i < length nodes.now
        → IsFalse (is_again nodes.now i)) }
{
    for at in 0..nodes.len() {
        if is_among(&nodes[..at], &nodes[at]) {
            return Some(at);
        }
    }
    None
}

fn is_among(nodes: &[Option<Node>], node: &Option<Node>) -> bool
    ensures { result ≡ list_any (λ other. is_same other node.now) nodes.now }
{
    for other in nodes {
        if is_same(other, node) {
            return true;
        }
    }
    false
}

fn is_same(one: &Option<Node>, other: &Option<Node>) -> bool
    ensures { result ≡ is_same one.now other.now }
{
    match (one, other) {
        (Some(one), Some(other)) => one.device == other.device && one.number == other.number,
        _ => false,
    }
}
