//! What a store is asked, and what it answers.
use crate::shared::must;
use org_capture::Target;
use org_disk::FileName;
use org_fixtures::file_name;
use org_outline::{Path, Place, Step};
use org_splice::Bytes;
use org_stamp::Moment;
use org_store::{Capture, Change, Command, Question, Refile, Reply, RunFault, Store, TextOf, Todo};
use org_test_disks::MemoryDisk;
use std::process::Abort;

// A path of one step without a number, that of a heading of this title; or for an empty one that of
// no steps, which no line can name.
type Title = &'static str;

// A command.
#[derive(Clone, Copy)]
pub enum Ask {
    // the file, and the template of what is captured at its end
    Capture(&'static str, &'static str),
    // the template of what is captured into a.org below the heading at a path
    CaptureBelow(Title, &'static str),
    // the path in a.org, the file that its subtree goes to, and the path there
    Refile(Title, &'static str, Title),
    // the path in a.org of what turns DONE
    Todo(Title),
    Show(&'static str),
    Settle,
}

// What it is answered.
#[derive(Clone, Copy)]
pub enum Answer {
    Done(u64),
    Safe(u64),
    Text(&'static str),
    Fault(RunFault),
}

fn file(rt: &(impl Abort + AllocGlobal), name: &str) -> FileName {
    must(rt, file_name(rt.alloc(), name))
}

// 2026-07-01 10:00.
fn now(rt: &impl Abort) -> Moment {
    Moment::new(2026, 7, 1, 10, 0).expect(rt, "a moment")
}

fn path(rt: &(impl Abort + AllocGlobal), title: &str) -> Path {
    let mut steps = Vec::new(rt.alloc());
    if !title.is_empty() {
        let title = Bytes::new(title.as_bytes().to_vec(rt.alloc()).expect(rt, "memory"));
        let step = Step {
            title,
            number: None,
        };
        steps.push(step).expect(rt, "memory");
    }
    Path::new(steps)
}

fn capture<'a>(
    rt: &(impl Abort + AllocGlobal),
    name: &str,
    target: Target,
    template: &'a str,
) -> Command<'a> {
    Command::Change(Change::Capture(Capture {
        file: file(rt, name),
        target,
        place: Place::Last,
        moment: now(rt),
        template: TextOf::given(template.as_bytes()),
        initial: TextOf::given(b""),
    }))
}

fn refile<'a>(rt: &(impl Abort + AllocGlobal), from: &str, to_file: &str, to: &str) -> Command<'a> {
    Command::Change(Change::Refile(Refile {
        file: file(rt, "a.org"),
        path: path(rt, from),
        to_file: file(rt, to_file),
        to_path: path(rt, to),
        place: Place::Last,
    }))
}

fn todo<'a>(rt: &(impl Abort + AllocGlobal), title: &str) -> Command<'a> {
    Command::Change(Change::Todo(Todo {
        file: file(rt, "a.org"),
        path: path(rt, title),
        state: TextOf::given(b"DONE"),
        moment: now(rt),
    }))
}

fn command<'a>(rt: &(impl Abort + AllocGlobal), ask: &'a Ask) -> Command<'a> {
    match ask {
        Ask::Capture(name, template) => capture(rt, name, Target::Top, template),
        Ask::CaptureBelow(title, template) => {
            capture(rt, "a.org", Target::Path(path(rt, title)), template)
        }
        Ask::Refile(from, to_file, to) => refile(rt, from, to_file, to),
        Ask::Todo(title) => todo(rt, title),
        Ask::Show(name) => Command::Ask(Question::Show {
            file: file(rt, name),
        }),
        Ask::Settle => Command::Settle,
    }
}

// What a command is answered, of which nothing is said here: the proofs of what calls this have
// less to carry on.
fn run(store: &mut Store<MemoryDisk>, command: &Command<'_>) -> Result<Reply, RunFault> {
    store.run(command)
}

fn is_answer(given: &Result<Reply, RunFault>, wanted: &Answer) -> bool {
    match (given, wanted) {
        (Ok(Reply::Done(given)), Answer::Done(number)) => given == number,
        (Ok(Reply::Safe(given)), Answer::Safe(number)) => given == number,
        (Ok(Reply::Text(given)), Answer::Text(text)) => given.as_slice() == text.as_bytes(),
        (Err(given), Answer::Fault(fault)) => given == fault,
        _ => false,
    }
}

// Whether a command is answered so.
pub fn answers(
    rt: &(impl Abort + AllocGlobal),
    store: &mut Store<MemoryDisk>,
    ask: &Ask,
    wanted: &Answer,
) -> bool {
    let command = command(rt, ask);
    let given = run(store, &command);
    drop(command);
    let is_wanted = is_answer(&given, wanted);
    drop(given);
    is_wanted
}

// Whether so many commands are accepted, and so many of them on the disk.
fn has_counts(store: &Store<MemoryDisk>, accepted: u64, acknowledged: u64) -> bool {
    store.accepted() == accepted && store.acknowledged() == acknowledged
}

// A command, what it is answered, and how many commands are accepted then and how many of them on
// the disk.
pub type Row = (Ask, Answer, u64, u64);

// Asks each of them in turn.
pub fn ask_each(rt: &(impl Abort + AllocGlobal), store: &mut Store<MemoryDisk>, rows: &[Row]) {
    for (i, (ask, wanted, accepted, acknowledged)) in rows.iter().enumerate() {
        let is_wanted = answers(rt, store, ask, wanted);
        assert!(rt;
            is_wanted && has_counts(store, *accepted, *acknowledged),
            "ask {i}"
        );
    }
}
