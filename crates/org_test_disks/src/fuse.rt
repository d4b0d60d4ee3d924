//! A disk whose calls fail from some call on, for tests of what stays after a failure.
//!
//! A call that fails has no effect, so what a crash may leave of the disk stays as it was.
ghost use Rattle.std.specs.Prelude.{◌≡◌, ◌+◌, ◌-◌, ◌^◌, ◌↔◌, IsTrue, IsFalse, OnOk};
ghost use Rattle.org_disk.specs.Disk.{IsCounted};

use org_disk::{Disk, DiskFault, FileName, Standing};

/// A disk that passes its first k calls on, and then fails every call without effect. Its count of
/// failures is its own plus the disk's, at most 2^64 - 1.
#[derive(Drop)]
pub struct Fuse<D> {
    disk: D,
    // how many calls still pass
    passes: u64,
    // how many calls failed here
    failures: u64,
}

impl<D: Disk> Fuse<D> {
    /// A disk of which the first k calls pass.
    pub fn new(disk: D, k: u64) -> Fuse<D>
        ensures disk { result.disk ≡ disk }
        ensures passes { result.passes ≡ k }
        ensures failures { result.failures ≡ 0 }
    {
        Fuse {
            disk,
            passes: k,
            failures: 0,
        }
    }

    /// The disk that it stands for.
    pub fn into_inner(self) -> D
        ensures { result ≡ self.disk }
    {
        self.disk
    }

    // Whether the call that begins passes; a call that doesn't is counted.
    fn burn(&mut self) -> bool
        ensures disk { self.new.disk ≡ self.old.disk }
        ensures passed { IsTrue result → self.new.failures ≡ self.old.failures }
        ensures failed { IsFalse result → IsCounted self.old.failures self.new.failures }
        ensures blown { IsFalse result ↔ (self.old.passes ≡ 0) }
        ensures spent { self.new.passes ≡ self.old.passes - 1 }
    {
        if self.passes == 0 {
            self.failures = self.failures.saturating_add(1);
            return false;
        }
        self.passes -= 1;
        true
    }
}

impl<D: Disk> Disk for Fuse<D> {
    ghost use Rattle.std.specs.Prelude.{◌<◌, ◌≤◌, length, take, drop, IfOk};
    ghost use Rattle.org_disk.specs.CountsFailures.{Looks};
    ghost use Rattle.org_disk.specs.Disk.{AreLeftBy, Changes, cut, sync, write};
    ghost use Rattle.org_disk.specs.Calls.{PassesInCall};
    ghost use Rattle.org_test_disks.specs.Fuse.{fuse_failures, AccountsOfFuse, Burns};

    ghost honest = { λ fuse. D.honest fuse.disk };

    ghost truthful = { D.truthful };

    ghost files = { λ fuse. D.files fuse.disk };

    ghost instant = { λ fuse. D.instant fuse.disk };

    ghost left_since = { λ fuse. D.left_since fuse.disk };

    ghost failures = { λ fuse. fuse_failures fuse.failures (D.failures fuse.disk) };

    ghost content_is_image = { λ fuse name honest. D.content_is_image fuse.disk name honest };

    ghost counts_now = { λ fuse t image honest le now.
        D.counts_now fuse.disk t image honest le now };

    ghost only_now = { λ fuse image honest left. D.only_now fuse.disk image honest left };

    fn length(&mut self, name: &FileName) -> Result<u64, DiskFault>
        ensures value { IfOk result (λ n. D.honest self.new.disk →
            n ≡ length (D.files self.old.disk name.now).content) }
        ensures looks { Looks D.Disk self.old.disk self.new.disk }
        ensures accounts { AccountsOfFuse D.Disk self.old self.new result }
        ensures burns { Burns self.old self.new result }
    {
        if !self.burn() {
            return Err(DiskFault);
        }
        self.disk.length(name)
    }

    fn read_at(&mut self, name: &FileName, from: u64, into: &mut [u8]) -> Result<(), DiskFault>
        requires { D.honest self.old.disk →
            from + length into.old ≤ length (D.files self.old.disk name.now).content }
        ensures bytes { OnOk result (D.honest self.new.disk → into.new ≡
            take (length into.old) (drop from (D.files self.old.disk name.now).content)) }
        ensures looks { Looks D.Disk self.old.disk self.new.disk }
        ensures accounts { AccountsOfFuse D.Disk self.old self.new result }
        ensures burns { Burns self.old self.new result }
    {
        if !self.burn() {
            return Err(DiskFault);
        }
        self.disk.read_at(name, from, into)
    }

    fn write_at(&mut self, name: &FileName, from: u64, bytes: &[u8]) -> Result<(), DiskFault>
        requires within { D.honest self.old.disk →
            from ≤ length (D.files self.old.disk name.now).content }
        requires fits { D.honest self.old.disk → from + length bytes.now < 2 ^ 64 }
        ensures effect { D.honest self.new.disk →
            Changes (write from bytes.now) name.now
            (D.files self.old.disk) (D.files self.new.disk) result }
        ensures time { D.honest self.new.disk →
            PassesInCall D.instant D.left_since self.old.disk self.new.disk
            (AreLeftBy (write from bytes.now) name.now (D.files self.old.disk)) }
        ensures accounts { AccountsOfFuse D.Disk self.old self.new result }
        ensures burns { Burns self.old self.new result }
    {
        if !self.burn() {
            return Err(DiskFault);
        }
        self.disk.write_at(name, from, bytes)
    }

    fn write_again(&mut self, name: &FileName, from: u64, bytes: &[u8]) -> Result<(), DiskFault>
        requires { D.honest self.old.disk → bytes.now
            ≡ take (length bytes.now) (drop from (D.files self.old.disk name.now).content) }
        ensures looks { Looks D.Disk self.old.disk self.new.disk }
        ensures accounts { AccountsOfFuse D.Disk self.old self.new result }
        ensures burns { Burns self.old self.new result }
    {
        if !self.burn() {
            return Err(DiskFault);
        }
        self.disk.write_again(name, from, bytes)
    }

    fn cut(&mut self, name: &FileName, to: u64) -> Result<(), DiskFault>
        requires { D.honest self.old.disk → to ≤ length (D.files self.old.disk name.now).content }
        ensures effect { D.honest self.new.disk →
            Changes (cut to) name.now (D.files self.old.disk) (D.files self.new.disk) result }
        ensures time { D.honest self.new.disk →
            PassesInCall D.instant D.left_since self.old.disk self.new.disk
            (AreLeftBy (cut to) name.now (D.files self.old.disk)) }
        ensures accounts { AccountsOfFuse D.Disk self.old self.new result }
        ensures burns { Burns self.old self.new result }
    {
        if !self.burn() {
            return Err(DiskFault);
        }
        self.disk.cut(name, to)
    }

    fn sync(&mut self, name: &FileName) -> Result<(), DiskFault>
        ensures effect { D.honest self.new.disk →
            Changes sync name.now (D.files self.old.disk) (D.files self.new.disk) result }
        ensures time { D.honest self.new.disk →
            PassesInCall D.instant D.left_since self.old.disk self.new.disk
            (AreLeftBy sync name.now (D.files self.old.disk)) }
        ensures accounts { AccountsOfFuse D.Disk self.old self.new result }
        ensures burns { Burns self.old self.new result }
    {
        if !self.burn() {
            return Err(DiskFault);
        }
        self.disk.sync(name)
    }

    fn confirm(&mut self, name: &FileName, bytes: &[u8]) -> Result<(), DiskFault>
        requires { D.honest self.old.disk → (D.files self.old.disk name.now).content ≡ bytes.now }
        ensures looks { Looks D.Disk self.old.disk self.new.disk }
        ensures accounts { AccountsOfFuse D.Disk self.old self.new result }
        ensures burns { Burns self.old self.new result }
    {
        if !self.burn() {
            return Err(DiskFault);
        }
        self.disk.confirm(name, bytes)
    }

    fn standing(&mut self, name: &FileName) -> Result<Standing, DiskFault>
        ensures looks { Looks D.Disk self.old.disk self.new.disk }
        ensures accounts { AccountsOfFuse D.Disk self.old self.new result }
        ensures burns { Burns self.old self.new result }
    {
        if !self.burn() {
            return Err(DiskFault);
        }
        self.disk.standing(name)
    }
}
