//! The tags of headings, inherited ones too (Org manual, "Tag Inheritance").
ghost use Rattle.std.specs.Prelude.{◌≡◌, ◌<◌, ◌&&◌, ◌==◌, not, length};
ghost use Rattle.std.specs.List.{list_all, list_any};
ghost use Rattle.std.specs.Str.{bytes_eq};
ghost use Rattle.org_outline.specs.Tree.{node_count, tree};
ghost use Rattle.orgs_lists.specs.Filters.{has_own_tag, has_tag, has_tag_in};

use crate::file::File;
use crate::filter::has_word;
use crate::headings::parts;
use org_splice::Bytes;

// Whether what stands between two colons is a tag, and this one.
fn is_tag(word: &[u8], tag: &[u8]) -> bool
    ensures { result ≡ (not (length word.now == 0) && bytes_eq tag.now word.now) }
{
    !word.is_empty() && tag == word
}

// Whether `:a:b:` has a tag.
fn has_tag_in(tags: &[u8], tag: &[u8]) -> bool
    ensures { result ≡ has_tag_in tags.now tag.now }
{
    for word in tags.split(|byte| *byte == b':') {
        if is_tag(word, tag) {
            return true;
        }
    }
    false
}

impl File<'_, '_> {
    // Whether a heading has a tag itself.
    fn has_own_tag(&self, tag: &[u8], index: usize) -> bool
        requires { index < node_count (tree self.now.entries.now.text) }
        ensures { result ≡ has_own_tag self.now.entries.now tag.now index }
    {
        has_tag_in(parts(self.entries, index).tags, tag)
    }

    // Whether a heading has a tag, or inherits it from its file or from a heading above it.
    fn has_tag(&self, index: usize, tag: &[u8]) -> bool
        requires { index < node_count (tree self.now.entries.now.text) }
        ensures { result ≡ has_tag self.now index tag.now }
    {
        if has_word(self.tags, tag) {
            return true;
        }
        let mut next = Some(index);
        while let Some(at) = next {
            if self.has_own_tag(tag, at) {
                return true;
            }
            next = self.entries.parent(at);
        }
        false
    }

    /// Whether a heading has all of these tags.
    pub(crate) fn has_all_tags(&self, index: usize, tags: &[Bytes]) -> bool
        requires { index < node_count (tree self.now.entries.now.text) }
        ensures { result ≡ list_all (has_tag self.now index) tags.now }
    {
        for tag in tags {
            if !self.has_tag(index, tag.as_slice()) {
                return false;
            }
        }
        true
    }

    /// Whether a heading has one of these tags.
    pub(crate) fn has_any_tag(&self, index: usize, tags: &[Bytes]) -> bool
        requires { index < node_count (tree self.now.entries.now.text) }
        ensures { result ≡ list_any (has_tag self.now index) tags.now }
    {
        for tag in tags {
            if self.has_tag(index, tag.as_slice()) {
                return true;
            }
        }
        false
    }
}
