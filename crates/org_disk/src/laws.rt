//! The laws of what a disk does, for all values.
//!
//! Each is the contract of a function with nothing to do.
ghost use Rattle.std.specs.Prelude.{◌≡◌, ◌≤◌, ℕ, [], length};
ghost use Rattle.org_disk.specs.Disk.{FileState, IsImage, write};

/// A write of no bytes changes nothing of a file whose content is one of its images, as each file
/// of a disk is (`Disk::content_is_image`): it reads as it did, and a crash leaves of it what it
/// left before. So an absent file that no byte was written to is as one that was never written to.
pub fn no_bytes_change_nothing()
    ensures { (from : ℕ) (file : FileState) → from ≤ length file.content
        → IsImage file file.content → write from [] file ≡ file }
{}
