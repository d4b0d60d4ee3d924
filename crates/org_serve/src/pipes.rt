//! Where lines come from and where replies go: two traits, and their one fault.
ghost use Rattle.std.specs.Prelude.{◌≡◌, ℕ, List, Option, OnOk, OnErr};
ghost use Rattle.std.specs.Io.{ReadsAtMost};
ghost use Rattle.std.specs.Io.KnownBytes.{ReadConsumes, Appends, Keeps};
ghost use Rattle.org_disk.specs.Disk.{IsCounted};
ghost use Rattle.org_serve.specs.Pipes.{AppendsSome};

use thiserror::Error;

/// A read, a write or a flush failed. It is the only fault.
#[derive(Clone, Copy, Debug, PartialEq, Eq, Error)]
#[error("a read or a write failed")]
pub struct PipeFault;

/// Gives bytes, and counts its reads and its failures. A count that has reached 2^64 - 1 stays
/// there.
pub trait Source {
    /// The bytes that reads will give from here on, where they are known.
    ghost left: { Self → Option (List ℕ) };

    /// How many reads were made.
    ghost reads: { Self → ℕ };

    /// How many of them failed.
    ghost failures: { Self → ℕ };

    /// Puts the next bytes at the front of `into` and answers how many: none only at their end, or
    /// where `into` is empty.
    fn read(&mut self, into: &mut [u8]) -> Result<usize, PipeFault>
        ensures bound { ReadsAtMost result into.new }
        ensures bytes { ReadConsumes (left self.old) (left self.new) result into.new }
        ensures counted { IsCounted (reads self.old) (reads self.new) }
        ensures ok { OnOk result (failures self.new ≡ failures self.old) }
        ensures err { OnErr result (IsCounted (failures self.old) (failures self.new)) };
}

/// Takes bytes, and counts its failures. A count that has reached 2^64 - 1 stays there.
pub trait Sink {
    /// The bytes that were written, where they are known.
    ghost written: { Self → Option (List ℕ) };

    /// How many calls failed.
    ghost failures: { Self → ℕ };

    /// Writes all the bytes. Where it fails, some of them were written, from the first on.
    fn write(&mut self, bytes: &[u8]) -> Result<(), PipeFault>
        ensures bytes { OnOk result (Appends (written self.old) (written self.new) bytes.now) }
        ensures part { OnErr result
            (AppendsSome (written self.old) (written self.new) bytes.now) }
        ensures ok { OnOk result (failures self.new ≡ failures self.old) }
        ensures err { OnErr result (IsCounted (failures self.old) (failures self.new)) };

    /// Hands on what was written so far.
    fn flush(&mut self) -> Result<(), PipeFault>
        ensures bytes { Keeps (written self.old) (written self.new) }
        ensures ok { OnOk result (failures self.new ≡ failures self.old) }
        ensures err { OnErr result (IsCounted (failures self.old) (failures self.new)) };
}
