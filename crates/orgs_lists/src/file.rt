//! A file as a list has it.
use org_splice::Bytes;
use orgs_entries::Entries;

/// A file with its headings, and the tags that all of them inherit.
#[derive(Clone, Copy)]
pub struct File<'f, 'a> {
    /// Its name.
    pub name: &'f str,
    /// Its headings.
    pub entries: &'f Entries<'a>,
    /// The tags of its `#+FILETAGS:` lines.
    pub tags: &'f [Bytes],
}
