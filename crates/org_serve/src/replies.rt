//! Replies, written line by line, and flushed one by one.
//!
//! What is written is exactly what FORMATS says of each answer, to the last byte.
ghost use Rattle.std.specs.Prelude.{◌≡◌, ◌+◌, ◌≤◌, ◌++◌, length, Ok, codes, decimal};
ghost use Rattle.std.specs.List.{flat_map};
ghost use Rattle.arrayvec.specs.ArrayVec.{array_vec_len};
ghost use Rattle.org_stamp.specs.Stamp.{duration_text};
ghost use Rattle.org_commands.specs.declared.command.RunFault.TheVariants.{Refused};
ghost use Rattle.org_serve.specs.Replies.{fault_text, safe_line, safe_if_risen, fault_line, answer_text, settled_text};
ghost use Rattle.org_serve.specs.Writes.{Writes};

use crate::fault::BadLine;
use crate::pipes::{PipeFault, Sink};
use arrayvec::ArrayVec;
use itoa::Buffer;
use org_fault::Fault;
use org_store::{Refusal, Reply, RunFault};

/// The most bytes that are written for a command that is done: `ok ` and `safe `, a number of at
/// most 20 digits after each, and two newlines.
const DONE_BYTES: usize = 50;

/// Writes the answer to a command, and flushes. Before the command, `before` commands were on the
/// disk; now `safe` are.
///
/// # Errors
///
/// `PipeFault`: a write or the flush failed; what was written begins the answer.
pub fn write_answer<W: Sink>(
    writer: &mut W,
    answer: &Result<Reply, RunFault>,
    before: u64,
    safe: u64,
) -> Result<(), PipeFault>
    ensures { Writes W.Sink writer.old writer.new result (answer_text answer.now before safe) }
{
    match answer {
        Ok(reply) => write_reply(writer, reply, before, safe),
        Err(fault) => write_fault(writer, *fault),
    }?;
    writer.flush()
}

/// Writes why a line wasn't run, and flushes.
///
/// # Errors
///
/// `PipeFault`, as by `write_answer`.
pub fn write_unread<W: Sink>(writer: &mut W, fault: Fault<BadLine>) -> Result<(), PipeFault>
    ensures { Writes W.Sink writer.old writer.new result (fault_text fault) }
{
    let line: &[u8] = match fault {
        Fault::Refused(BadLine) => b"refused 20 BadLine\n",
        Fault::OutOfMemory => b"fault OutOfMemory\n",
    };
    writer.write(line)?;
    writer.flush()
}

/// Writes what settling answered, and flushes. Now `safe` commands are on the disk.
///
/// # Errors
///
/// `PipeFault`, as by `write_answer`.
pub fn write_settled<W: Sink>(
    writer: &mut W,
    answer: Result<(), RunFault>,
    safe: u64,
) -> Result<(), PipeFault>
    ensures { Writes W.Sink writer.old writer.new result (settled_text answer safe) }
{
    match answer {
        Ok(()) => write_safe(writer, safe),
        Err(fault) => write_fault(writer, fault),
    }?;
    writer.flush()
}

fn write_reply<W: Sink>(
    writer: &mut W,
    reply: &Reply,
    before: u64,
    safe: u64,
) -> Result<(), PipeFault>
    ensures { Writes W.Sink writer.old writer.new result (answer_text (Ok reply.now) before safe) }
{
    match reply {
        Reply::Done(n) => write_done(writer, *n, before, safe),
        Reply::Safe(n) => write_safe(writer, *n),
        Reply::Text(bytes) => write_text(writer, bytes.as_slice()),
        Reply::Time(minutes) => write_time(writer, *minutes),
    }
}

fn write_done<W: Sink>(writer: &mut W, n: u64, before: u64, safe: u64) -> Result<(), PipeFault>
    ensures { Writes W.Sink writer.old writer.new result
        (codes "ok " ++ decimal n ++ codes "\n" ++ safe_if_risen before safe) }
{
    let lines = done_lines(n, before, safe);
    writer.write(lines.as_slice())
}

// The lines that are written for a command that is done, at once: each write has a cost of its own.
fn done_lines(n: u64, before: u64, safe: u64) -> ArrayVec<u8, DONE_BYTES>
    ensures { result.items ≡ codes "ok " ++ decimal n ++ codes "\n" ++ safe_if_risen before safe }
{
    let mut lines = ArrayVec::new();
    push_line(&mut lines, b"ok ", n);
    if before < safe {
        push_line(&mut lines, b"safe ", safe);
    }
    lines
}

// Appends a line of a word and a number, which has at most 20 digits.
fn push_line(lines: &mut ArrayVec<u8, DONE_BYTES>, word: &[u8], n: u64)
    requires { array_vec_len lines.old + length word.now + 21 ≤ 50 }
    ensures bytes { lines.new.items ≡ lines.old.items ++ word.now ++ decimal n ++ codes "\n" }
    ensures len { array_vec_len lines.new ≤ array_vec_len lines.old + length word.now + 21 }
{
    lines.try_extend_from_slice(word).unwrap();
    let mut digits = Buffer::new();
    lines
        .try_extend_from_slice(digits.format(n).as_bytes())
        .unwrap();
    lines.push(b'\n');
}

fn write_safe<W: Sink>(writer: &mut W, safe: u64) -> Result<(), PipeFault>
    ensures { Writes W.Sink writer.old writer.new result (safe_line safe) }
{
    write_pieces(
        writer,
        &[b"safe ", Buffer::new().format(safe).as_bytes(), b"\n"],
    )
}

fn write_text<W: Sink>(writer: &mut W, bytes: &[u8]) -> Result<(), PipeFault>
    ensures { Writes W.Sink writer.old writer.new result
        (codes "text " ++ decimal (length bytes.now) ++ codes "\n" ++ bytes.now ++ codes "\n") }
{
    let mut size = Buffer::new();
    write_pieces(
        writer,
        &[
            b"text ",
            size.format(bytes.len()).as_bytes(),
            b"\n",
            bytes,
            b"\n",
        ],
    )
}

fn write_time<W: Sink>(writer: &mut W, minutes: u64) -> Result<(), PipeFault>
    ensures { Writes W.Sink writer.old writer.new result
        (codes "time " ++ duration_text minutes 1 ++ codes "\n") }
{
    let past = (minutes % 60) as u8;
    let tail = [b':', b'0' + past / 10, b'0' + past % 10, b'\n'];
    write_pieces(
        writer,
        &[
            b"time ",
            Buffer::new().format(minutes / 60).as_bytes(),
            &tail,
        ],
    )
}

fn write_fault<W: Sink>(writer: &mut W, fault: RunFault) -> Result<(), PipeFault>
    ensures { Writes W.Sink writer.old writer.new result (fault_line fault) }
{
    match fault {
        RunFault::Refused(why) => write_refusal(writer, why),
        RunFault::OutOfMemory => writer.write(b"fault OutOfMemory\n"),
        RunFault::Device => writer.write(b"fault Device\n"),
        RunFault::Broken => writer.write(b"fault Broken\n"),
    }
}

fn write_refusal<W: Sink>(writer: &mut W, why: Refusal) -> Result<(), PipeFault>
    ensures { Writes W.Sink writer.old writer.new result (fault_line (Refused why)) }
{
    let mut code = Buffer::new();
    let code = code.format(why.code()).as_bytes();
    write_pieces(
        writer,
        &[b"refused ", code, b" ", why.name().as_bytes(), b"\n"],
    )
}

// Writes bytes that stand in pieces.
fn write_pieces<W: Sink>(writer: &mut W, pieces: &[&[u8]]) -> Result<(), PipeFault>
    ensures { Writes W.Sink writer.old writer.new result
        (flat_map (λ piece. piece.now) pieces.now) }
{
    for piece in pieces {
        writer.write(piece)?;
    }
    Ok(())
}
