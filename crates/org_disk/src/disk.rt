//! A disk as the layers above see it: what a read gives, and what a crash may leave.
//!
//! Files are flat, named, and never removed; an absent file and an empty one are the same.
//! Contracts ask of an honest disk alone. How a disk is honest is for its type to say: `MemoryDisk`
//! is, a folder's is as long as the system's answers are right.
ghost use Rattle.std.specs.Prelude.{◌≡◌, ◌+◌, ◌^◌, ◌<◌, ◌≤◌, List, ℕ, length, take, drop, IfOk, OnOk};
ghost use Rattle.org_disk.specs.Disk.{FileState, IsImage, AreImages, AreLeftBy, Changes, write, cut, sync};
ghost use Rattle.org_disk.specs.Calls.{AccountsOfCall, LooksInCall, PassesInCall};

use crate::FileName;
use thiserror::Error;

/// A call of a disk failed. It is the only fault, and it comes with a counted failure.
#[derive(Clone, Copy, Debug, PartialEq, Eq, Error)]
#[error("device failure")]
pub struct DiskFault;

/// How a file stands that the record of an open journal names, as far as the disk can see.
#[derive(Clone, Copy, Debug, PartialEq, Eq)]
pub enum Standing {
    /// A crash in the middle of the record's commit may have left it so.
    Left,
    /// It was put there or changed since.
    Changed,
    /// Its name leads out of the disk.
    Outside,
    /// It is to be written over, however it stands.
    Adopted,
}

/// A disk that holds files by name; an absent file and an empty one are the same.
///
/// What a call asks of contents, lengths and images is asked of an honest disk alone, and what is
/// said of them is said where the disk is honest after the call. After a failed `write_at`, `cut`
/// or `sync` the file reads as what a crash within the call may leave, and from then on a crash
/// leaves nothing else of it. A call that fails adds one to the failures, whose greatest number is
/// 2^64 - 1.
pub trait Disk {
    /// The disk has been as it says: each read gave the content, and each call had its effect. A
    /// wrong answer ends this for good.
    ghost honest: { Self → Type 0 };

    /// No answer is wrong: an honest disk of this type stays honest.
    ghost truthful: { Type 0 };

    /// The file of each name, a name being its bytes.
    ghost files: { Self → List ℕ → FileState };

    /// A clock, which no call sets back.
    ghost instant: { Self → ℕ };

    /// What a crash might have left of the disk at this moment or later, within a call or between
    /// two.
    ghost left_since: { Self → ℕ → (List ℕ → List ℕ) → Type 0 };

    /// How many calls have failed.
    ghost failures: { Self → ℕ };

    /// The length of a file in bytes. It changes nothing, failed or not.
    fn length(&mut self, name: &FileName) -> Result<u64, DiskFault>
        ensures value { IfOk result (λ n. honest self.new →
            n ≡ length (files self.old name.now).content) }
        ensures looks { honest self.new → LooksInCall files instant left_since self.old self.new }
        ensures accounts { AccountsOfCall truthful honest failures self.old self.new result };

    /// Fills the buffer with the bytes of a file from `from` on; they lie within its length. It
    /// changes nothing of the disk, failed or not; what the buffer holds after a failure is open.
    fn read_at(&mut self, name: &FileName, from: u64, into: &mut [u8]) -> Result<(), DiskFault>
        requires { honest self.old → from + length into.old ≤ length
            (files self.old name.now).content }
        ensures bytes { OnOk result (honest self.new →
            into.new ≡ take (length into.old) (drop from (files self.old name.now).content)) }
        ensures looks { honest self.new → LooksInCall files instant left_since self.old self.new }
        ensures accounts { AccountsOfCall truthful honest failures self.old self.new result };

    /// Writes bytes over a file from `from` on, which is at most its length; the file grows where
    /// they reach past its end. Until the next sync a crash may leave any bytes in that range, and
    /// any length from the least to the greatest that the file had since the last sync. A write of
    /// no bytes changes nothing (`laws::no_bytes_change_nothing`).
    fn write_at(&mut self, name: &FileName, from: u64, bytes: &[u8]) -> Result<(), DiskFault>
        requires within { honest self.old → from ≤ length (files self.old name.now).content }
        requires fits { honest self.old → from + length bytes.now < 2 ^ 64 }
        ensures effect { honest self.new →
            Changes (write from bytes.now) name.now (files self.old) (files self.new) result }
        ensures time { honest self.new →
            PassesInCall instant left_since self.old self.new
            (AreLeftBy (write from bytes.now) name.now (files self.old)) }
        ensures accounts { AccountsOfCall truthful honest failures self.old self.new result };

    /// Writes bytes over a file where they stand already, if the file may be written. It changes
    /// nothing, failed or not: however far such a write gets, it leaves the bytes that are there. It
    /// is made of bytes that an earlier sync may have failed to put on the disk. A system forgets
    /// that it hadn't written these, and a later sync puts them there only once they are written
    /// again.
    fn write_again(&mut self, name: &FileName, from: u64, bytes: &[u8]) -> Result<(), DiskFault>
        requires { honest self.old → bytes.now
            ≡ take (length bytes.now) (drop from (files self.old name.now).content) }
        ensures looks { honest self.new → LooksInCall files instant left_since self.old self.new }
        ensures accounts { AccountsOfCall truthful honest failures self.old self.new result };

    /// Takes away the bytes of a file from `to` on, which is at most its length. Until the next
    /// sync a crash may leave any length from the least to the greatest that the file had since the
    /// last sync, and any bytes from `to` on.
    fn cut(&mut self, name: &FileName, to: u64) -> Result<(), DiskFault>
        requires { honest self.old → to ≤ length (files self.old name.now).content }
        ensures effect { honest self.new →
            Changes (cut to) name.now (files self.old) (files self.new) result }
        ensures time { honest self.new →
            PassesInCall instant left_since self.old self.new
            (AreLeftBy (cut to) name.now (files self.old)) }
        ensures accounts { AccountsOfCall truthful honest failures self.old self.new result };

    /// Puts a file on the disk: from then on a crash leaves its content, and nothing else.
    fn sync(&mut self, name: &FileName) -> Result<(), DiskFault>
        ensures effect { honest self.new →
            Changes sync name.now (files self.old) (files self.new) result }
        ensures time { honest self.new →
            PassesInCall instant left_since self.old self.new
            (AreLeftBy sync name.now (files self.old)) }
        ensures accounts { AccountsOfCall truthful honest failures self.old self.new result };

    /// Asks whether a file holds the bytes that it is to hold by now. It fails where the disk sees
    /// others, or another file in its place: another program wrote it. It changes nothing, failed
    /// or not.
    fn confirm(&mut self, name: &FileName, bytes: &[u8]) -> Result<(), DiskFault>
        requires { honest self.old → (files self.old name.now).content ≡ bytes.now }
        ensures looks { honest self.new → LooksInCall files instant left_since self.old self.new }
        ensures accounts { AccountsOfCall truthful honest failures self.old self.new result };

    /// How the file of a name stands, beside the journal. Where nothing was written since a crash,
    /// that says whether the journal's record may be done. No clause says what is answered. It
    /// changes nothing, failed or not.
    fn standing(&mut self, name: &FileName) -> Result<Standing, DiskFault>
        ensures looks { honest self.new → LooksInCall files instant left_since self.old self.new }
        ensures accounts { AccountsOfCall truthful honest failures self.old self.new result };

    /// The content is one of the images.
    ghost content_is_image: { (disk : Self) (name : List ℕ) → honest disk →
        IsImage (files disk name) (files disk name).content };

    /// A crash at this moment may leave each image of the disk.
    ghost counts_now: { (disk : Self) (t : ℕ) (image : List ℕ → List ℕ) → honest disk →
        t ≤ instant disk → AreImages (files disk) image → left_since disk t image };

    /// A crash at this moment leaves an image of the disk, and nothing else.
    ghost only_now: { (disk : Self) (image : List ℕ → List ℕ) → honest disk →
        left_since disk (instant disk) image → AreImages (files disk) image };
}
