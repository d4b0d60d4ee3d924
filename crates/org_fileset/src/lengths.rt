//! How long the files of a set are, so that a commit can write it down without asking the disk.
//!
//! A question would show the disk a file anew, and a try that follows it wouldn't see any more what
//! another program changed before.
ghost use Rattle.std.specs.Prelude.{◌≡◌};
ghost use Rattle.org_fileset.specs.Lengths.{length_of, with_length, with_lengths};

use org_disk::FileName;
use org_journal::Entry;

/// The length that is known of the file of this name, and 0 if the name is none of these.
pub fn length_of(names: &[FileName], lengths: &[u64], name: &FileName) -> u64
    ensures { result ≡ length_of names.now lengths.now name.now }
{
    for index in 0..names.len() {
        if index < lengths.len() && names[index] == *name {
            return lengths[index];
        }
    }
    0
}

/// Notes how long the file of this name is.
pub fn note_length(names: &[FileName], lengths: &mut [u64], name: &FileName, length: u64)
    ensures { lengths.new ≡ with_length names.now lengths.old name.now length }
{
    for index in 0..names.len() {
        if index < lengths.len() && names[index] == *name {
            lengths[index] = length;
        }
    }
}

/// Notes how long the files of a record are once it is applied to them.
pub fn note_lengths(names: &[FileName], lengths: &mut [u64], entries: &[Entry])
    ensures { lengths.new ≡ with_lengths names.now lengths.old entries.now }
{
    for entry in entries {
        note_length(names, lengths, &entry.name, entry.length);
    }
}
