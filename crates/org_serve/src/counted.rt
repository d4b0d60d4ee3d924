//! Readers and writers of std, as a source of lines and a sink of replies.
//!
//! They count what fails; nothing is read ahead, and each reply is flushed.
ghost use Rattle.std.specs.Prelude.{◌≡◌, ◌<◌, ◌≤◌, length, IfOk, OnOk, OnErr};
ghost use Rattle.std.specs.Io.KnownBytes.{WriteAppends};
ghost use Rattle.org_disk.specs.Disk.{IsCounted};

use crate::pipes::{PipeFault, Sink, Source};
use std::io::{ErrorKind, Read, Write};

/// How often a read or a write is tried while signals interrupt it.
const ATTEMPTS: usize = 100;

/// A `Source` of a std reader, and a `Sink` of a std writer: it has the bytes of what it wraps, and
/// counts.
#[derive(Drop)]
pub struct Counted<T> {
    inner: T,
    reads: u64,
    failures: u64,
}

impl<T> Counted<T> {
    /// Nothing read, nothing failed.
    pub fn new(inner: T) -> Counted<T>
        ensures inner { result.inner ≡ inner }
        ensures reads { result.reads ≡ 0 }
        ensures failures { result.failures ≡ 0 }
    {
        Counted {
            inner,
            reads: 0,
            failures: 0,
        }
    }

    /// What was wrapped.
    pub fn into_inner(self) -> T
        ensures { result ≡ self.inner }
    {
        let Counted {
            inner,
            reads: _,
            failures: _,
        } = self;
        inner
    }

    // Counts a failure.
    fn fault(&mut self) -> PipeFault
        ensures same { (self.new.inner ≡ self.old.inner) × (self.new.reads ≡ self.old.reads) }
        ensures counted { IsCounted self.old.failures self.new.failures }
    {
        self.failures = self.failures.saturating_add(1);
        PipeFault
    }
}

impl<T: Write> Counted<T> {
    // Writes the first of the bytes, of which there are some, and answers how many.
    fn put(&mut self, bytes: &[u8]) -> Result<usize, PipeFault>
        ensures bytes { WriteAppends (T.contents self.old.inner) (T.contents self.new.inner) result
            bytes.now }
        ensures some { IfOk result (λ n. (0 < n) × (n ≤ length bytes.now)) }
        ensures ok { OnOk result (self.new.failures ≡ self.old.failures) }
        ensures err { OnErr result (IsCounted self.old.failures self.new.failures) }
    {
        for _ in 0..ATTEMPTS {
            match self.inner.write(bytes) {
                Ok(0) => break,
                Ok(n) => return Ok(n),
                Err(error) if error.kind() == ErrorKind::Interrupted => {}
                Err(_) => break,
            }
        }
        Err(self.fault())
    }
}

impl<T: Read> Source for Counted<T> {
    ghost left = { λ c. T.remaining c.inner };

    ghost reads = { λ c. c.reads };

    ghost failures = { λ c. c.failures };

    fn read(&mut self, into: &mut [u8]) -> Result<usize, PipeFault> {
        self.reads = self.reads.saturating_add(1);
        for _ in 0..ATTEMPTS {
            match self.inner.read(into) {
                Ok(n) => return Ok(n),
                Err(error) if error.kind() == ErrorKind::Interrupted => {}
                Err(_) => break,
            }
        }
        Err(self.fault())
    }
}

impl<T: Write> Sink for Counted<T> {
    ghost written = { λ c. T.contents c.inner };

    ghost failures = { λ c. c.failures };

    fn write(&mut self, bytes: &[u8]) -> Result<(), PipeFault> {
        let mut rest = bytes;
        while !rest.is_empty() {
            let n = self.put(rest)?;
            rest = rest.split_at(n).1;
        }
        Ok(())
    }

    fn flush(&mut self) -> Result<(), PipeFault> {
        match self.inner.flush() {
            Ok(()) => Ok(()),
            Err(_) => Err(self.fault()),
        }
    }
}
