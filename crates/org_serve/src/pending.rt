//! The start of a line whose newline hasn't come.
//!
//! A line past the limit isn't kept: it is answered as no command, and the next one is read.
ghost use Rattle.std.specs.Prelude.{◌≡◌, ◌↔◌, ◌<◌, ◌≤◌, ◌++◌, List, ℕ, [], length, IsTrue, MatchOption, MatchResult};
ghost use Rattle.org_serve.specs.Lines.{limit, IsCause, Stands};

use crate::fault::BadLine;
use org_fault::Fault;
use std::alloc::Global;

/// The most bytes that a command line may have, without its newline.
const LIMIT: usize = 1_048_576;

/// The bytes of a line so far, or why they aren't kept.
#[derive(Drop)]
pub struct Pending {
    bytes: Vec<u8>,
    fault: Option<Fault<BadLine>>,
}

impl Pending {
    /// Nothing of a line.
    pub fn new(alloc: Global) -> Pending
        ensures { Stands result [] }
    {
        Pending {
            bytes: Vec::new(alloc),
            fault: None,
        }
    }

    /// Adds bytes of the line. From the first that passes the limit, or whose memory is refused,
    /// none is kept.
    pub fn add(&mut self, piece: &[u8])
        ensures { (part : List ℕ) → Stands self.old part → Stands self.new (part ++ piece.now) }
    {
        if self.fault.is_some() || piece.is_empty() {
            return;
        }
        if piece.len() > LIMIT.saturating_sub(self.bytes.len()) {
            self.fault = Some(Fault::Refused(BadLine));
        } else if self.bytes.extend_from_slice(piece).is_err() {
            self.fault = Some(Fault::OutOfMemory);
        }
    }

    // Whether these bytes are a whole line by themselves: nothing of it is kept, and they are
    // within the limit.
    fn is_whole(&self, last: &[u8]) -> bool
        ensures exact { (part : List ℕ) → Stands self.now part
            → IsTrue result ↔ ((part ≡ []) × (length last.now ≤ limit)) }
        ensures none { IsTrue result → Stands self.now [] }
    {
        self.fault.is_none() && self.bytes.is_empty() && last.len() <= LIMIT
    }

    /// The line, now that its newline has come and it ends with these bytes. Most lines lie whole
    /// in one piece, and are read where they stand; of another all is kept.
    pub fn line<'a>(&'a mut self, last: &'a [u8]) -> Result<&'a [u8], Fault<BadLine>>
        ensures { (part : List ℕ) → Stands self.old part
            → MatchResult result
            (λ line. (line.now ≡ part ++ last.now) × (length (part ++ last.now) ≤ limit))
            (λ fault. IsCause fault (part ++ last.now)) }
    {
        if self.is_whole(last) {
            return Ok(last);
        }
        self.add(last);
        match self.fault {
            None => Ok(self.bytes.as_slice()),
            Some(fault) => Err(fault),
        }
    }

    /// What is answered where the input ends within a line.
    pub fn unended(&self) -> Option<Fault<BadLine>>
        ensures { (part : List ℕ) → Stands self.now part
            → MatchOption result (part ≡ []) (λ _. 0 < length part) }
    {
        match self.fault {
            None if self.bytes.is_empty() => None,
            None => Some(Fault::Refused(BadLine)),
            Some(fault) => Some(fault),
        }
    }

    /// Forgets the line, for the next one.
    pub fn clear(&mut self)
        ensures { Stands self.new [] }
    {
        self.bytes.clear();
        self.fault = None;
    }
}
