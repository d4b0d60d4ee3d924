//! Input that comes in pieces, and pipes that fail.
use super::serve_over;
use crate::shared::two;
use org_serve::{PipeFault, ServeEnd, Served, Sink, Source};
use org_store::Group;
use org_test_disks::MemoryDisk;
use std::alloc::Global;
use std::process::Abort;

// Gives its bytes in pieces of this size, and fails at one of its reads, if that is not 0.
#[derive(Drop)]
pub struct Pieces<'a> {
    bytes: &'a [u8],
    size: usize,
    fails_at: u64,
    reads: u64,
    failures: u64,
}

impl Source for Pieces<'_> {
    ghost use Rattle.std.specs.Prelude.{None};

    ghost left = { λ _. None };

    ghost reads = { λ p. p.reads };

    ghost failures = { λ p. p.failures };

    fn read(&mut self, into: &mut [u8]) -> Result<usize, PipeFault> {
        self.reads = self.reads.saturating_add(1);
        if self.reads == self.fails_at {
            self.failures = self.failures.saturating_add(1);
            return Err(PipeFault);
        }
        let n = self.size.min(self.bytes.len()).min(into.len());
        let (piece, rest) = self.bytes.split_at(n);
        into[..n].copy_from_slice(piece);
        self.bytes = rest;
        Ok(n)
    }
}

pub fn in_pieces(text: &str, size: usize, fails_at: u64) -> Pieces<'_> {
    Pieces {
        bytes: text.as_bytes(),
        size,
        fails_at,
        reads: 0,
        failures: 0,
    }
}

// Keeps what is written, and fails at one of its calls, if that is not 0.
#[derive(Drop)]
pub struct Page {
    pub bytes: Vec<u8>,
    fails_at: u64,
    calls: u64,
    failures: u64,
}

impl Page {
    pub fn new(alloc: Global, fails_at: u64) -> Page {
        Page {
            bytes: Vec::new(alloc),
            fails_at,
            calls: 0,
            failures: 0,
        }
    }
}

impl Sink for Page {
    ghost use Rattle.std.specs.Prelude.{None};

    ghost written = { λ _. None };

    ghost failures = { λ p. p.failures };

    fn write(&mut self, bytes: &[u8]) -> Result<(), PipeFault> {
        self.calls = self.calls.saturating_add(1);
        if self.calls == self.fails_at || self.bytes.extend_from_slice(bytes).is_err() {
            self.failures = self.failures.saturating_add(1);
            return Err(PipeFault);
        }
        Ok(())
    }

    fn flush(&mut self) -> Result<(), PipeFault> {
        self.calls = self.calls.saturating_add(1);
        if self.calls == self.fails_at {
            self.failures = self.failures.saturating_add(1);
            return Err(PipeFault);
        }
        Ok(())
    }
}

// Serves these pieces over a disk, in groups of this size: how it ends, and the disk then.
pub fn pipe(
    rt: &(impl Abort + AllocGlobal),
    disk: MemoryDisk,
    group: u32,
    reader: &mut Pieces<'_>,
    writer: &mut Page,
    max_reads: u64,
) -> (ServeEnd, MemoryDisk) {
    let Served { disk, end } = serve_over(rt, disk, Group::Of(group), reader, writer, max_reads);
    match end {
        Ok(end) => (end, disk),
        Err(_) => panic!(rt; "not opened"),
    }
}

// Serves these pieces over an empty a.org and a b.org of one heading, in groups of one: how it
// ends.
fn end_of(
    rt: &(impl Abort + AllocGlobal),
    reader: &mut Pieces<'_>,
    writer: &mut Page,
    max_reads: u64,
) -> ServeEnd {
    let (end, disk) = pipe(rt, two(rt, "", "* Z\n"), 1, reader, writer, max_reads);
    drop(disk);
    end
}

// An input, the size of its pieces, which of its reads fails, if it isn't 0, and how many reads
// it is served; how that ends, how many reads were made, and what was written. Where a read fails,
// or no more reads may be made, the lines that were read whole are answered.
type Read = (&'static str, usize, u64, u64, ServeEnd, u64, &'static str);

const READ: &[Read] = &[
    (
        "show\tb.org\nshow\ta.org",
        11,
        3,
        100,
        ServeEnd::Read,
        3,
        "text 4\n* Z\n\n",
    ),
    (
        "show\tb.org\nshow\ta.org",
        11,
        0,
        2,
        ServeEnd::Read,
        2,
        "text 4\n* Z\n\n",
    ),
    ("show\ta.org\n", 100, 0, 0, ServeEnd::Read, 0, ""),
    ("show\ta.org\n", 100, 0, 1, ServeEnd::Read, 1, "text 0\n\n"),
    ("show\ta.org\n", 100, 0, 2, ServeEnd::End, 2, "text 0\n\n"),
];

// Whether the row's input is read so.
fn is_read(rt: &(impl Abort + AllocGlobal), row: &Read) -> bool {
    let (input, size, fails_at, max_reads, wanted, reads, written) = row;
    let mut reader = in_pieces(input, *size, *fails_at);
    let mut writer = Page::new(rt.alloc(), 0);
    let end = end_of(rt, &mut reader, &mut writer, *max_reads);
    end == *wanted && reader.reads == *reads && writer.bytes.as_slice() == written.as_bytes()
}

#[test]
fn a_read_that_fails_and_turns_that_end(rt: HostRuntime) {
    for row in READ {
        assert!(rt; is_read(&rt, row), "max_reads {}", row.3);
    }
}

// A text takes five writes, a change with its settling one, a bad line one; each line is flushed.
const WRITES: u64 = 12;

const WRITTEN: &[u8] = b"text 4\n* Z\n\nok 1\nsafe 1\nrefused 20 BadLine\nrefused 20 BadLine\n";

// Where this call of the writer fails serving ends there, and what was written by then is the front
// of what else is; where none does, as for 0, all is written.
fn is_written(rt: &(impl Abort + AllocGlobal), fails_at: u64) -> bool {
    let mut reader = in_pieces(
        "show\tb.org\ncapture\ta.org\ttop\tlast\t2026-07-01 10:00\t* N\t\n\nshow\ta.org",
        4096,
        0,
    );
    let mut writer = Page::new(rt.alloc(), fails_at);
    let end = end_of(rt, &mut reader, &mut writer, 100);
    if fails_at == 0 || fails_at > WRITES {
        end == ServeEnd::End && writer.bytes.as_slice() == WRITTEN
    } else {
        end == ServeEnd::Write && WRITTEN.starts_with(writer.bytes.as_slice())
    }
}

#[test]
fn a_write_that_fails(rt: HostRuntime) {
    for fails_at in 0..=WRITES + 1 {
        assert!(rt; is_written(&rt, fails_at), "call {fails_at}");
    }
}
