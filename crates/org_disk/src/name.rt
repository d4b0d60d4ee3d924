//! The names of files.
//!
//! A name is valid from its making on: `FileName::new` is the one way to make an Org file's or an
//! archive file's, `journal_name` the one to make the journal's. Names are compared byte by byte.
ghost use Rattle.std.specs.Prelude.{◌≡◌, ◌≢◌, ◌≤◌, ◌↔◌, false, nat_eq, refl, Some, length, IsTrue, IsFalse, IsUtf8, IfOk, OnOk, IsErrOf};
ghost use Rattle.std.specs.List.{list_all};
ghost use Rattle.std.specs.Ordering.{nat_cmp};
ghost use Rattle.std.specs.Hash as fed;
ghost use Rattle.std.specs.Cmp.Lexicographic.{pointwise, slice_cmp, nat_list_eq_equiv, nat_list_cmp_total, texts_ties, texts_po};
ghost use Rattle.std.specs.Cmp.{partial_equiv_from_equiv};
ghost use Rattle.std.specs.Cmp.Rules.{hashing};
ghost use Rattle.std.proofs.Common.{rules};
ghost use Rattle.org_disk.specs.Faults.{bad_name};
ghost use Rattle.org_disk.specs.Names.{is_name_byte, is_slash, is_part, is_folder_part, is_way, parts, ends_in_org, is_org_name, is_archive_name, archive_name, base_name, is_file_name, journal_name, IsDiskName, folder_of, last_part};

use org_fault::Fault;
use std::alloc::{AllocError, Global};
use std::cmp::Ordering;
use std::fmt;
use std::hash::{Hash, Hasher};
use std::marker::Model;
use thiserror::Error;

// The suffix that makes an archive file's name of an Org file's.
const ARCHIVE_SUFFIX: &str = "_archive";

const JOURNAL: &str = "orgstore.journal";

// The most bytes of a name, the suffix of an archive file not counted.
const MAX_BYTES: usize = 1_000;

// The most bytes of a part of it.
const MAX_PART: usize = 200;

/// The name of an Org file, of an archive file, or of the journal: the path from the folder of a
/// store to the file. A clause sees it as its bytes; names are compared and hashed by them.
#[derive(Drop)]
pub struct FileName {
    text: String,
}

impl Model for FileName {
    ghost use Rattle.std.specs.Prelude.{List, ℕ, string_bytes};
    ghost use Rattle.org_disk.specs.Names.{IsDiskName};

    ghost Value = { List ℕ };

    ghost view = { λ f. string_bytes f.text };

    ghost invariant = { λ f. IsDiskName (string_bytes f.text) };
}

/// The text is no file name.
#[derive(Clone, Copy, Debug, PartialEq, Eq, Error)]
#[error("bad name")]
pub struct BadName;

impl FileName {
    /// The name that this text is.
    ///
    /// # Errors
    ///
    /// - `BadName`: exactly where `accepts` refuses the text; the journal's name is one of those.
    /// - `OutOfMemory`.
    ///
    /// # Examples
    ///
    /// ```
    /// let name = FileName::new(alloc, "notes/work.org")?;
    /// assert_eq!(rt; name.as_str(), "notes/work.org");
    /// assert!(rt; FileName::new(alloc, "../work.org").is_err());
    /// assert!(rt; FileName::new(alloc, "orgstore.journal").is_err());
    /// ```
    pub fn new(alloc: Global, text: &str) -> Result<FileName, Fault<BadName>>
        ensures name { IfOk result (λ name. name ≡ text.now) }
        ensures accepted { OnOk result (IsTrue (is_file_name text.now)) }
        ensures bad { IsErrOf result bad_name ↔ IsFalse (is_file_name text.now) }
    {
        if !FileName::accepts(text) {
            return Err(Fault::Refused(BadName));
        }
        let text = String::from_str(alloc, text)?;
        Ok(FileName { text })
    }

    /// Whether a text is the name of an Org file or of an archive file. It may have folders before
    /// it, such as `notes/work.org`. It holds no byte below 0x20 nor 0x7F, and the last of its parts
    /// between slashes ends in `.org` or `.org_archive`, no other one does. No part is empty or
    /// begins with `.`. A part has at most 200 bytes, and all have at most 1,000 with the slashes,
    /// not counting `_archive`.
    pub fn accepts(text: &str) -> bool
        ensures { result ≡ is_file_name text.now }
    {
        is_org_name(base_of(text.as_bytes()))
    }

    /// The name of the journal. No text makes it by `new`.
    ///
    /// # Errors
    ///
    /// `AllocError`.
    pub fn journal_name(alloc: Global) -> Result<FileName, AllocError>
        ensures { IfOk result (λ name. name ≡ journal_name) }
    {
        let text = String::from_str(alloc, JOURNAL)?;
        Ok(FileName { text })
    }

    /// The text of the name.
    pub fn as_str(&self) -> &str
        ensures value { result.now ≡ self.now }
        ensures utf8 { IsUtf8 self.now }
        ensures valid { IsDiskName self.now }
    {
        self.text.as_str()
    }

    /// The path of the folder that it leads through, with a slash at its end: `notes/` of
    /// `notes/work.org`. It is empty where the file stands in the store's own folder.
    pub fn folder(&self) -> &str
        ensures value { result.now ≡ folder_of self.now }
    {
        folder_of(self.as_str())
    }

    /// The name of the file in that folder: `work.org` of `notes/work.org`.
    pub fn last_part(&self) -> &str
        ensures value { result.now ≡ last_part self.now }
    {
        last_part_of(self.as_str())
    }

    /// Whether it is an archive file's name. The journal's isn't.
    pub fn is_archive(&self) -> bool
        ensures { result ≡ is_archive_name self.now }
    {
        self.text.as_bytes().ends_with(ARCHIVE_SUFFIX.as_bytes())
    }

    /// The name of this Org file's archive file.
    ///
    /// # Errors
    ///
    /// `AllocError`.
    pub fn archive(&self) -> Result<FileName, AllocError>
        requires not_archive { IsFalse (is_archive_name self.now) }
        requires not_journal { self.now ≢ journal_name }
        ensures name { IfOk result (λ name. name ≡ archive_name self.now) }
        ensures accepted { IsTrue (is_file_name (archive_name self.now)) }
    {
        let mut text = self.text.clone()?;
        text.push_str(ARCHIVE_SUFFIX)?;
        Ok(FileName { text })
    }
}

/// A path as far as its last slash: `notes/` of `notes/work.org`.
pub fn folder_of(path: &str) -> &str
    ensures { result.now ≡ folder_of path.now }
{
    match path.rfind('/') {
        Some(at) => &path[..at + 1],
        None => "",
    }
}

// What stands after that.
fn last_part_of(path: &str) -> &str
    ensures { result.now ≡ last_part path.now }
{
    match path.rfind('/') {
        Some(at) => &path[at + 1..],
        None => path,
    }
}

// A name without the suffix of an archive file.
fn base_of(name: &[u8]) -> &[u8]
    ensures { result.now ≡ base_name name.now }
{
    match name.strip_suffix(ARCHIVE_SUFFIX.as_bytes()) {
        Some(base) => base,
        None => name,
    }
}

// Whether this is the name of an Org file.
fn is_org_name(name: &[u8]) -> bool
    ensures { result ≡ is_org_name name.now }
{
    name.len() <= MAX_BYTES && has_name_bytes(name) && is_way(name)
}

// Whether it holds no control character and no DEL.
fn has_name_bytes(name: &[u8]) -> bool
    ensures { result ≡ list_all is_name_byte name.now }
{
    name.iter().all(|byte| is_name_byte(*byte))
}

fn is_name_byte(byte: u8) -> bool
    ensures { result ≡ is_name_byte byte }
{
    byte >= b' ' && byte != 0x7F
}

// Whether it names a file, after the folders that lead there.
#[tactic(auto, using(crate::proofs::Parts::no_slash_more, crate::proofs::Parts::no_slash_at))]
fn is_way(name: &[u8]) -> bool
    ensures { result ≡ is_way (parts name.now) }
{
    let mut start = 0;
    for (at, byte) in name.iter().enumerate() {
        if !is_slash(*byte) {
            continue;
        }
        if !is_folder_part(&name[start..at]) {
            return false;
        }
        start = at + 1;
    }
    let file = &name[start..];
    is_part(file) && ends_in_org(file)
}

fn is_slash(byte: u8) -> bool
    ensures { result ≡ is_slash byte }
{
    byte == b'/'
}

// Whether it can be a part of a name.
fn is_part(part: &[u8]) -> bool
    ensures { result ≡ is_part part.now }
{
    !part.is_empty() && part.len() <= MAX_PART && !part.starts_with(b".")
}

// Whether it can be a folder's name.
fn is_folder_part(part: &[u8]) -> bool
    ensures { result ≡ is_folder_part part.now }
{
    is_part(part) && !ends_in_org(base_of(part))
}

fn ends_in_org(name: &[u8]) -> bool
    ensures { result ≡ ends_in_org name.now }
{
    name.ends_with(b".org")
}

impl Clone for FileName {
    ghost is_clone = { λ name copy. copy ≡ name };

    /// The same name, in memory of its own.
    fn clone(&self) -> Result<FileName, AllocError>
        ensures cases { IfOk result (λ copy. copy ≡ self.now) }
        ensures utf8 { IsUtf8 self.now }
        ensures valid { IsDiskName self.now }
    {
        let text = self.text.clone()?;
        Ok(FileName { text })
    }
}

impl PartialEq for FileName {
    ghost eq = { pointwise nat_eq };

    ghost laws = { partial_equiv_from_equiv nat_list_eq_equiv };

    fn eq(&self, other: &FileName) -> bool {
        self.as_str() == other.as_str()
    }
}

impl Eq for FileName {
    ghost laws = { nat_list_eq_equiv };
}

impl PartialOrd for FileName {
    ghost partial_cmp = { λ x y. Some (slice_cmp nat_cmp x y) };

    ghost laws = { texts_po };

    fn partial_cmp(&self, other: &FileName) -> Option<Ordering> {
        Some(self.cmp(other))
    }
}

impl Ord for FileName {
    ghost cmp = { slice_cmp nat_cmp };

    ghost total = { nat_list_cmp_total };

    ghost matches_partial_cmp = { λ x y. refl };

    ghost matches_eq = { texts_ties };

    fn cmp(&self, other: &FileName) -> Ordering {
        self.as_str().cmp(other.as_str())
    }
}

impl Hash for FileName {
    ghost hash_input = { fed.str };

    ghost respects_eq = { Prim.search (hashing, rules) };

    fn hash<H: Hasher>(&self, state: &mut H) {
        self.as_str().hash(state);
    }
}

impl fmt::Debug for FileName {
    fn fmt<W: fmt::Write>(&self, f: &mut fmt::Formatter<W>) -> fmt::Result {
        f.write_str(self.as_str())
    }
}

impl fmt::Display for FileName {
    ghost output = { λ name. Some name };

    fn fmt<W: fmt::Write>(&self, f: &mut fmt::Formatter<W>) -> fmt::Result {
        f.write_str(self.as_str())
    }
}
