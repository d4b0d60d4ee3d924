//! Lines answered one by one, to the end of the input.
//!
//! A line is answered before the next one is run. In a store whose commands are settled in groups,
//! what isn't settled at the end of the input is settled. In one whose group is whole, a line that
//! isn't done is the last one, and what isn't settled then is given up.
ghost use Rattle.std.specs.Prelude.{◌≡◌, ◌≢◌, ◌++◌, List, ℕ, [], IsTrue, Result, Ok};
ghost use Rattle.org_disk.specs.Disk.{IsCounted};
ghost use Rattle.org_disk.specs.CountsFailures.{CountsFailures};
ghost use Rattle.org_commands.specs.declared.command.RunFault.{RunFault};
ghost use Rattle.org_serve.specs.Lines.{cut, Stands};
ghost use Rattle.org_serve.specs.Pipes.{Adds, AddsSome, EndsForCause};
ghost use Rattle.org_serve.specs.Replies.{settled_text};
ghost use Rattle.org_serve.specs.Serving.{AnswersRest, EndSaysBroken, EndsLine, EndsText, EndsWith, Feeds, FinishesGroups, HasBroken, HasSettled, IsReadAs, LeavesServedDisk, MayHaveSettled, ReadOutcome, RunsAndWrites, Serves, behind, end_of, refused_end, stores_while_honest, unrefused_end, whole_end};
ghost use Rattle.org_serve.specs.Writes.{CountsFailure, Writes, exchange, output};

use crate::end::ServeEnd;
use crate::fault::BadLine;
use crate::lines::first_line;
use crate::pending::Pending;
use crate::pipes::{PipeFault, Sink, Source};
use crate::reading::read_command;
use crate::replies::{write_answer, write_settled, write_unread};
use org_disk::Disk;
use org_fault::Fault;
use org_store::{Command, Group, RunFault, Store};
use std::alloc::Global;

// The most bytes of one read.
const PIECE: usize = 4096;

// What comes after a line that was answered.
#[derive(Clone, Copy)]
enum Next {
    // The next line.
    Line,
    // Nothing: the line isn't done, and the input is to be done whole.
    Stop,
}

/// Answers the lines of a reader by a store, in at most this many reads. A line is answered as soon
/// as its newline was read, whatever pieces the bytes come in. At the end of the input what isn't
/// settled yet is settled. But where the store's group is whole, nothing is settled then, and a
/// line that is answered by a refusal or a fault is the last one: no read is made after it.
///
/// Where it ends with `End`, `Unsettled` or `Device`, and the disk is honest then, the input was
/// read to its end, and what was written is its transcript; or the group is whole, a line was the
/// last one, and what was written are the replies up to it. It ends with `Read` where a read
/// failed, and else only where no more reads may be made: where the disk is honest then, the lines
/// that were read whole are answered, and where no read failed each gave bytes, so the end of the
/// input wasn't met. It ends with `Write` exactly where a write or a flush failed: of the lines
/// some, from the first on, were run then, and what was written begins their replies, or is all of
/// them and the beginning of what is written at the end. One failure is counted in either case, so
/// neither reader nor writer is called once it has failed. There are at most `max_reads` reads.
///
/// The store is changed by calls of `run` and `settle` alone. What each of them did is said where
/// the disk is honest after it (`calls`): a wrong answer takes nothing from what was done before
/// it. What a crash leaves at any moment since the call began follows from that:
/// `crashes_leave_a_prefix`, a law. A store that was broken is left as it is; one that wasn't is
/// broken only where its disk counted a failure, and where it isn't, none was counted. It is broken
/// where this ends with `Device`, and isn't where it ends with `End` or `Unsettled`.
///
/// # Examples
///
/// Over a store whose a.org is `* TODO A`:
///
/// ```
/// let mut input = Counted::new(b"todo\ta.org\tA\tDONE\t2026-07-01 10:00\n".as_slice());
/// let mut output = Counted::new(Vec::new(alloc));
/// let end = serve(alloc, &mut store, &mut input, &mut output, 1_000);
/// assert!(rt; matches!(end, ServeEnd::End));
/// let replies = output.into_inner();
/// assert_eq!(rt; replies.as_slice(), b"ok 1\nsafe 1\n".as_slice());
/// ```
pub fn serve<D: Disk, R: Source, W: Sink>(
    alloc: Global,
    store: &mut Store<D>,
    reader: &mut R,
    writer: &mut W,
    max_reads: u64,
) -> ServeEnd
    ensures did { D.honest store.new.disk → Serves store.old.session result store.new.session
        (exchange R.Source W.Sink reader.old reader.new writer.old writer.new)
        × LeavesServedDisk D.files store.old store.new }
    ensures causes { EndsForCause max_reads (Ok result)
        (exchange R.Source W.Sink reader.old reader.new writer.old writer.new) }
    ensures calls { RunsAndWrites (stores_while_honest D.Disk) store.old store.new result
        (exchange R.Source W.Sink reader.old reader.new writer.old writer.new) }
    ensures broken { EndSaysBroken result store.new.session }
    ensures untouched { IsTrue store.old.session.broken → store.new ≡ store.old }
    ensures accounts { CountsFailures D.Disk store.old.disk store.new.disk
        (HasBroken store.old.session store.new.session) }
{
    let group = store.group();
    let mut buffer = [0u8; PIECE];
    let mut pending = Pending::new(alloc);
    for _ in 0..max_reads {
        match reader.read(&mut buffer) {
            Err(PipeFault) => return ServeEnd::Read,
            Ok(0) => return finish(store, group, &pending, writer),
            Ok(n) => match feed(alloc, store, group, &mut pending, &buffer[..n], writer) {
                Err(PipeFault) => return ServeEnd::Write,
                Ok(Next::Line) => {}
                Ok(Next::Stop) => return refused_end(store),
            },
        }
    }
    ServeEnd::Read
}

// Answers each line that a piece completes, and keeps the rest of it; or stops after a line.
fn feed<D: Disk, W: Sink>(
    alloc: Global,
    store: &mut Store<D>,
    group: Group,
    pending: &mut Pending,
    piece: &[u8],
    writer: &mut W,
) -> Result<Next, PipeFault>
    ensures fed { (part : List ℕ) → (cut part).lines ≡ [] → Stands pending.old part
        → Feeds group (stores_while_honest D.Disk) store.old part piece.now store.new
        (output W.Sink writer.old writer.new) pending.new result }
    ensures counts { CountsFailure W.Sink writer.old writer.new result }
    ensures untouched { IsTrue store.old.session.broken → store.new ≡ store.old }
    ensures accounts { CountsFailures D.Disk store.old.disk store.new.disk
        (HasBroken store.old.session store.new.session) }
{
    let mut rest = piece;
    while let Some((line, more)) = first_line(rest) {
        match answer(alloc, store, group, pending, line, writer)? {
            Next::Line => rest = more,
            Next::Stop => return Ok(Next::Stop),
        }
    }
    pending.add(rest);
    Ok(Next::Line)
}

// Answers the line that ends with these bytes, and keeps nothing of it.
fn answer<D: Disk, W: Sink>(
    alloc: Global,
    store: &mut Store<D>,
    group: Group,
    pending: &mut Pending,
    last: &[u8],
    writer: &mut W,
) -> Result<Next, PipeFault>
    ensures answers { EndsLine D.Disk W.Sink group pending.old last.now result store.old store.new
        writer.old writer.new }
    ensures cleared { Stands pending.new [] }
{
    let read = read_line(alloc, pending, last);
    let answered = answer_read(store, group, &read, writer);
    // By name, or all fields of each command would be dropped here, one by one.
    drop(read);
    pending.clear();
    answered
}

// What the line that ends with these bytes is read as.
fn read_line<'a>(
    alloc: Global,
    pending: &'a mut Pending,
    last: &'a [u8],
) -> Result<Command<'a>, Fault<BadLine>>
    ensures { (part : List ℕ) → Stands pending.old part → IsReadAs (part ++ last.now) result }
{
    match pending.line(last) {
        Ok(line) => read_command(alloc, line),
        Err(fault) => Err(fault),
    }
}

// Runs what a line was read as, and writes the answer.
fn answer_read<D: Disk, W: Sink>(
    store: &mut Store<D>,
    group: Group,
    read: &Result<Command<'_>, Fault<BadLine>>,
    writer: &mut W,
) -> Result<Next, PipeFault>
    ensures step { (out : List ℕ)
        × ReadOutcome group result (stores_while_honest D.Disk) store.old read.now out store.new
        × Writes W.Sink writer.old writer.new result out }
    ensures untouched { IsTrue store.old.session.broken → store.new ≡ store.old }
    ensures accounts { CountsFailures D.Disk store.old.disk store.new.disk
        (HasBroken store.old.session store.new.session) }
{
    match read {
        Ok(command) => {
            let before = store.acknowledged();
            let answer = store.run(command);
            let next = behind(group, answer.is_ok());
            write_answer(writer, &answer, before, store.acknowledged()).and(Ok(next))
        }
        Err(fault) => write_unread(writer, *fault).and(Ok(behind(group, false))),
    }
}

// What comes after a line that is done or isn't.
fn behind(group: Group, is_done: bool) -> Next
    ensures { result ≡ behind group is_done }
{
    match group {
        Group::Whole if !is_done => Next::Stop,
        _ => Next::Line,
    }
}

// Ends serving at the end of the input.
fn finish<D: Disk, W: Sink>(
    store: &mut Store<D>,
    group: Group,
    pending: &Pending,
    writer: &mut W,
) -> ServeEnd
    ensures never { result ≢ ServeEnd.Read }
    ensures reported { result ≢ ServeEnd.Write → (W.failures writer.new ≡ W.failures writer.old)
        × ((part : List ℕ) → Stands pending.now part
        → EndsWith group (stores_while_honest D.Disk) part store.old result store.new
        (output W.Sink writer.old writer.new)) }
    ensures write { result ≡ ServeEnd.Write
        → MayHaveSettled group (stores_while_honest D.Disk) store.old store.new
        × IsCounted (W.failures writer.old) (W.failures writer.new)
        × ((part : List ℕ) → Stands pending.now part
        → (text : List ℕ) × EndsText group part store.new.session.acknowledged text
        × AddsSome (output W.Sink writer.old writer.new) text) }
    ensures broken { EndSaysBroken result store.new.session }
    ensures untouched { IsTrue store.old.session.broken → store.new ≡ store.old }
    ensures accounts { CountsFailures D.Disk store.old.disk store.new.disk
        (HasBroken store.old.session store.new.session) }
{
    if let Err(PipeFault) = answer_rest(pending, writer) {
        return ServeEnd::Write;
    }
    match group {
        Group::Of(_) => settle(store, writer),
        Group::Whole => whole_end(store, pending),
    }
}

// How an input ends that is to be done whole: nothing is settled, and a line without its newline
// isn't done.
fn whole_end<D: Disk>(store: &Store<D>, pending: &Pending) -> ServeEnd
    ensures value { (part : List ℕ) → Stands pending.now part
        → result ≡ whole_end part store.now.session }
    ensures never { (result ≢ ServeEnd.Read) × (result ≢ ServeEnd.Write) }
    ensures broken { EndSaysBroken result store.now.session }
{
    match pending.unended() {
        None => unrefused_end(store),
        Some(_) => refused_end(store),
    }
}

// How an input ends of which a line isn't done.
fn refused_end<D: Disk>(store: &Store<D>) -> ServeEnd
    ensures value { result ≡ refused_end store.now.session }
    ensures broken { EndSaysBroken result store.now.session }
{
    if store.is_broken() {
        return ServeEnd::Device;
    }
    ServeEnd::Unsettled
}

// How an input ends of which each line is done.
fn unrefused_end<D: Disk>(store: &Store<D>) -> ServeEnd
    ensures value { result ≡ unrefused_end store.now.session }
    ensures broken { EndSaysBroken result store.now.session }
{
    if store.acknowledged() < store.accepted() || store.is_broken() {
        return refused_end(store);
    }
    ServeEnd::End
}

// Answers what stands after the last newline.
fn answer_rest<W: Sink>(pending: &Pending, writer: &mut W) -> Result<(), PipeFault>
    ensures rest { (part : List ℕ) → Stands pending.now part
        → (last : List ℕ) × AnswersRest part last
        × Writes W.Sink writer.old writer.new result last }
    ensures counts { CountsFailure W.Sink writer.old writer.new result }
{
    match pending.unended() {
        None => Ok(()),
        Some(fault) => write_unread(writer, fault),
    }
}

// Settles where accepted commands aren't settled yet.
fn settle<D: Disk, W: Sink>(store: &mut Store<D>, writer: &mut W) -> ServeEnd
    ensures never { result ≢ ServeEnd.Read }
    ensures reported { result ≢ ServeEnd.Write → (W.failures writer.new ≡ W.failures writer.old)
        × (tail : List ℕ)
        × FinishesGroups (stores_while_honest D.Disk) store.old result tail store.new
        × Adds (output W.Sink writer.old writer.new) tail }
    ensures write { result ≡ ServeEnd.Write
        → HasSettled (stores_while_honest D.Disk) store.old store.new
        × IsCounted (W.failures writer.old) (W.failures writer.new)
        × (answer : Result (Unit {0}) RunFault)
        × AddsSome (output W.Sink writer.old writer.new)
        (settled_text answer store.new.session.acknowledged) }
    ensures broken { EndSaysBroken result store.new.session }
    ensures untouched { IsTrue store.old.session.broken → store.new ≡ store.old }
    ensures accounts { CountsFailures D.Disk store.old.disk store.new.disk
        (HasBroken store.old.session store.new.session) }
{
    if store.is_broken() {
        return ServeEnd::Device;
    }
    if store.acknowledged() >= store.accepted() {
        return ServeEnd::End;
    }
    let answer = store.settle();
    match write_settled(writer, answer, store.acknowledged()) {
        Err(PipeFault) => ServeEnd::Write,
        Ok(()) => end_of(answer),
    }
}

fn end_of(answer: Result<(), RunFault>) -> ServeEnd
    ensures value { result ≡ end_of answer }
    ensures never { (result ≢ ServeEnd.Read) × (result ≢ ServeEnd.Write) }
{
    match answer {
        Ok(()) => ServeEnd::End,
        Err(RunFault::Device) | Err(RunFault::Broken) => ServeEnd::Device,
        // It answers no refusal.
        Err(RunFault::OutOfMemory) | Err(RunFault::Refused(_)) => ServeEnd::Unsettled,
    }
}
