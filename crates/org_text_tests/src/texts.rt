//! Commands over held texts: edited, kept, taken back, and lent to a commit.
ghost use Rattle.std.specs.Prelude.{◌≡◌, true, [], ◌∷◌};
ghost use Rattle.org_splice.specs.Edits.{AreEdits};
ghost use Rattle.org_texts.specs.Plan.{CanEdit, IsPlan, LieIn};

use crate::shared::{NONE, Splice, edits_of, has, make, patch_count, states};
use org_disk::FileName;
use org_outline::{Outline, States};
use org_splice::{Changes, Edit, Editing, Span};
use org_texts::{Edits, FileEdits, Held, NameOf, Plan, Texts};
use std::alloc::Global;
use std::process::Abort;

/// The name of a file, and edits of its text.
type Change = (&'static str, &'static [Splice]);

/// What is done to held texts.
enum Action {
    /// A text is held as the disk has it.
    Hold(&'static str, &'static [u8]),
    /// The text of a name is made ready.
    Ready(&'static str),
    /// A plan of one file.
    Edit(Change),
    /// A plan of two files.
    EditTwo(Change, Change),
    Keep,
    Undo,
    Settle,
}

/// What is said of held texts.
enum Fact {
    /// These texts are dirty, in this order, each with one patch.
    Dirty(&'static [(&'static str, &'static [u8])]),
    /// The text of a name, how many headings are held with it, and where the subtree of the second
    /// lies.
    Text(&'static str, &'static [u8], usize, Option<Span>),
    /// Whether a text has one patch, of no bytes.
    IsSettled(&'static str, bool),
    /// No text of this name is held.
    Absent(&'static str),
}

/// What is done, or what holds then.
enum Step {
    Do(Action),
    Is(Fact),
}

fn file(rt: &impl Abort, alloc: Global, name: &str) -> FileName {
    FileName::new(alloc, name).expect(rt, "a name")
}

/// Asserts that the edits can be made of a text, one after another.
fn assert_applies(rt: &impl Abort, alloc: Global, text: &[u8], edits: &[Edit])
    ensures { LieIn edits.now text.now }
{
    let mut now = Editing::new(Vec::from_slice(alloc, text).expect(rt, "memory"));
    for edit in edits {
        make(rt, &mut now, edit);
    }
}

/// Edits of a held text.
fn file_edits<'a>(rt: &impl Abort, alloc: Global, texts: &Texts, change: Change) -> FileEdits<'a>
    ensures { CanEdit result texts.now.now }
{
    let (name, rows) = change;
    let file = file(rt, alloc, name);
    let mut edits = edits_of(rt, alloc, rows);
    let Some(held) = texts.get(&file) else {
        panic!(rt; "not held");
    };
    assert_applies(rt, alloc, held.bytes(), &edits);
    assert!(rt; !edits.is_empty());
    let first = edits.remove(0);
    FileEdits {
        file: NameOf::made(file),
        edits: Edits::new(first, edits),
    }
}

/// A plan of two files.
fn plan_of<'a>(
    rt: &impl Abort,
    texts: &Texts,
    first: FileEdits<'a>,
    second: FileEdits<'a>,
) -> Plan<'a>
    requires first { CanEdit first texts.now.now }
    requires second { CanEdit second texts.now.now }
    ensures { IsPlan result texts.now.now }
{
    let _ = texts;
    if first.file.name() == second.file.name() {
        panic!(rt; "one file");
    }
    Plan {
        first,
        second: Some(second),
        of_lines: false,
    }
}

fn hold(rt: &impl Abort, alloc: Global, texts: &mut Texts, name: &str, text: &[u8]) {
    let file = file(rt, alloc, name);
    assert!(rt; texts.get(&file).is_none());
    let bytes = Vec::from_slice(alloc, text).expect(rt, "memory");
    texts.hold(file, bytes).expect(rt, "memory");
}

fn make_ready(rt: &impl Abort, alloc: Global, texts: &mut Texts, name: &str) {
    let file = file(rt, alloc, name);
    assert!(rt; texts.get(&file).is_some());
    texts.make_ready(&file).expect(rt, "memory");
    drop(file);
}

fn apply(rt: &impl Abort, texts: &mut Texts, plan: Plan)
    requires { IsPlan plan texts.old.now }
{
    texts.apply(&plan).expect(rt, "memory");
}

fn edit(rt: &impl Abort, alloc: Global, texts: &mut Texts, change: Change) {
    let first = file_edits(rt, alloc, texts, change);
    let plan = Plan {
        first,
        second: None,
        of_lines: false,
    };
    apply(rt, texts, plan);
}

fn edit_two(rt: &impl Abort, alloc: Global, texts: &mut Texts, first: Change, second: Change) {
    let first = file_edits(rt, alloc, texts, first);
    let second = file_edits(rt, alloc, texts, second);
    let plan = plan_of(rt, texts, first, second);
    apply(rt, texts, plan);
}

/// Whether these texts are dirty, in this order, each with one patch.
fn are_dirty(rt: &impl Abort, texts: &Texts, expected: &[(&str, &[u8])]) -> bool {
    if texts.len() != expected.len() {
        return false;
    }
    for (i, (name, text)) in expected.iter().enumerate() {
        let (file, now) = texts.pair(i);
        if file.as_str() != *name || now.bytes() != *text || patch_count(rt, now) != 1 {
            return false;
        }
    }
    true
}

fn held<'a>(rt: &impl Abort, alloc: Global, texts: &'a Texts, name: &str) -> &'a Held {
    texts.get(&file(rt, alloc, name)).expect(rt, "a held text")
}

/// How many headings are held with a text, and where the subtree of the second lies.
fn headings(held: &Held, states: &States) -> (usize, Option<Span>) {
    let Some(heads) = held.heads() else {
        return (0, None);
    };
    let outline = Outline::over(held.bytes(), heads, states);
    let count = outline.count();
    let second = if count > 1 {
        Some(outline.subtree(outline.node(1)))
    } else {
        None
    };
    (count, second)
}

fn execute(rt: &impl Abort, alloc: Global, texts: &mut Texts, action: &Action) {
    match action {
        Action::Hold(name, text) => hold(rt, alloc, texts, name, text),
        Action::Ready(name) => make_ready(rt, alloc, texts, name),
        Action::Edit(change) => edit(rt, alloc, texts, *change),
        Action::EditTwo(first, second) => edit_two(rt, alloc, texts, *first, *second),
        Action::Keep => texts.keep(),
        Action::Undo => texts.undo(),
        Action::Settle => texts.settle(),
    }
}

/// Whether a fact holds of texts.
fn is_so(rt: &impl Abort, alloc: Global, states: &States, texts: &Texts, fact: &Fact) -> bool {
    match fact {
        Fact::Dirty(expected) => are_dirty(rt, texts, expected),
        Fact::Text(name, text, count, second) => {
            let held = held(rt, alloc, texts, name);
            held.bytes() == *text && headings(held, states) == (*count, *second)
        }
        Fact::IsSettled(name, expected) => {
            let held = held(rt, alloc, texts, name);
            has(rt, held.text(), held.bytes(), NONE) == *expected
        }
        Fact::Absent(name) => texts.get(&file(rt, alloc, name)).is_none(),
    }
}

/// Does what a step says, or answers whether it is so.
fn go(rt: &impl Abort, alloc: Global, states: &States, texts: &mut Texts, step: &Step) -> bool {
    match step {
        Step::Do(action) => execute(rt, alloc, texts, action),
        Step::Is(fact) => return is_so(rt, alloc, states, texts, fact),
    }
    true
}

// Two files that are ready.
const READY: &[Step] = &[
    Step::Do(Action::Hold("a.org", b"* A\n* B")),
    Step::Do(Action::Hold("b.org", b"* C\n")),
    Step::Do(Action::Ready("a.org")),
    Step::Do(Action::Ready("b.org")),
];

// Moves the second heading of one file below the first of the other.
const REFILE: Action = Action::EditTwo(
    ("a.org", &[(4, 4, b""), (2, 1, b"X")]),
    ("b.org", &[(4, 0, b"** B\n")]),
);

// The texts that this makes.
const MADE_A: Step = Step::Is(Fact::Text("a.org", b"* X\n", 1, None));

const MADE_B: Step = Step::Is(Fact::Text(
    "b.org",
    b"* C\n** B\n",
    2,
    Some(Span { start: 4, end: 9 }),
));

const NONE_DIRTY: Step = Step::Is(Fact::Dirty(&[]));

// A command over these files is taken back.
const TAKEN_BACK: &[Step] = &[
    Step::Do(REFILE),
    MADE_A,
    MADE_B,
    Step::Is(Fact::Dirty(&[("a.org", b"* X\n"), ("b.org", b"* C\n** B\n")])),
    Step::Do(Action::Undo),
    Step::Is(Fact::Text("a.org", b"* A\n* B", 0, None)),
    Step::Is(Fact::Text("b.org", b"* C\n", 0, None)),
    NONE_DIRTY,
];

// A command is kept, and one is taken back.
const KEPT: &[Step] = &[
    Step::Do(Action::Keep),
    Step::Do(REFILE),
    Step::Do(Action::Undo),
    Step::Is(Fact::Text("a.org", b"* A\n* B\n", 0, None)),
    Step::Is(Fact::Dirty(&[("a.org", b"* A\n* B\n"), ("b.org", b"* C\n")])),
];

// A commit settles.
const COMMITTED: &[Step] = &[
    Step::Do(REFILE),
    Step::Do(Action::Settle),
    NONE_DIRTY,
    Step::Do(Action::Undo),
    MADE_A,
    MADE_B,
];

// A text is terminated, and its headings follow.
const FOLLOWED: &[Step] = &[
    Step::Do(Action::Hold("a.org", b"* A\ntext\n** B")),
    Step::Do(Action::Ready("a.org")),
    Step::Is(Fact::Text(
        "a.org",
        b"* A\ntext\n** B\n",
        2,
        Some(Span { start: 9, end: 14 }),
    )),
    Step::Do(Action::Edit(("a.org", &[(4, 5, b"* C\n")]))),
    Step::Is(Fact::Text(
        "a.org",
        b"* A\n* C\n** B\n",
        3,
        Some(Span { start: 4, end: 13 }),
    )),
];

// A text keeps its place.
const IN_PLACE: &[Step] = &[
    Step::Do(Action::Hold("a.org", b"* A\n")),
    Step::Do(Action::Hold("b.org", b"* B\n")),
    Step::Do(Action::Edit(("a.org", &[(0, 0, b"")]))),
    Step::Do(Action::Edit(("b.org", &[(0, 0, b"")]))),
    Step::Is(Fact::Dirty(&[("a.org", b"* A\n"), ("b.org", b"* B\n")])),
    Step::Do(Action::Keep),
    Step::Do(Action::Edit(("a.org", &[(2, 1, b"C")]))),
    Step::Is(Fact::Dirty(&[("a.org", b"* C\n"), ("b.org", b"* B\n")])),
    Step::Is(Fact::Text("b.org", b"* B\n", 0, None)),
    Step::Is(Fact::Absent("c.org")),
];

// Texts are dirty in the order in which they are ready: the first is terminated as it is, and
// stands before the second, which gets a newline.
const IN_ORDER: &[Step] = &[
    Step::Do(Action::Hold("b.org", b"* B\n")),
    Step::Do(Action::Hold("a.org", b"* A")),
    Step::Do(Action::Ready("b.org")),
    Step::Do(Action::Ready("a.org")),
    Step::Is(Fact::Dirty(&[("b.org", b"* B\n"), ("a.org", b"* A\n")])),
    Step::Do(Action::Undo),
    NONE_DIRTY,
];

// Changes are the dirty texts: the last command changes b.org, which is dirty, and c.org, which is
// new.
const CHANGED: &[Step] = &[
    Step::Do(Action::Hold("a.org", b"* A")),
    Step::Do(Action::Hold("c.org", b"")),
    Step::Do(Action::Hold("b.org", b"* B")),
    Step::Do(Action::Hold("d.org", b"* E")),
    Step::Do(Action::Edit(("b.org", &[(3, 0, b"\n")]))),
    Step::Do(Action::Edit(("a.org", &[(3, 0, b"\n")]))),
    Step::Do(Action::Keep),
    Step::Is(Fact::Dirty(&[("b.org", b"* B\n"), ("a.org", b"* A\n")])),
    Step::Do(Action::EditTwo(("c.org", &[(0, 0, b"* C\n")]), ("b.org", &[(2, 1, b"D")]))),
    Step::Is(Fact::Dirty(&[
        ("b.org", b"* D\n"),
        ("a.org", b"* A\n"),
        ("c.org", b"* C\n"),
    ])),
];

// Settled texts have no changes.
const SETTLED: &[Step] = &[
    Step::Do(Action::Hold("a.org", b"* A\n")),
    Step::Do(Action::Hold("c.org", b"* C")),
    Step::Do(Action::Edit(("a.org", &[(4, 0, b"* B\n")]))),
    Step::Is(Fact::IsSettled("a.org", false)),
    Step::Do(Action::Settle),
    NONE_DIRTY,
    Step::Is(Fact::Text("a.org", b"* A\n* B\n", 0, None)),
    Step::Is(Fact::Text("c.org", b"* C", 0, None)),
    Step::Is(Fact::IsSettled("a.org", true)),
    Step::Is(Fact::IsSettled("c.org", true)),
];

/// Goes on through steps.
fn go_on(rt: &impl Abort, alloc: Global, states: &States, texts: &mut Texts, steps: &[Step]) {
    for (i, step) in steps.iter().enumerate() {
        assert!(rt; go(rt, alloc, states, texts, step), "step {i}");
    }
}

/// Goes through steps, after those that come before them, with texts of their own.
fn assert_goes(rt: &(impl Abort + AllocGlobal), before: &[Step], steps: &[Step]) {
    let alloc = rt.alloc();
    let states = states(rt, alloc);
    let mut texts = Texts::new(alloc);
    go_on(rt, alloc, &states, &mut texts, before);
    go_on(rt, alloc, &states, &mut texts, steps);
}

#[test]
fn held_texts(rt: HostRuntime) {
    assert_goes(&rt, READY, TAKEN_BACK);
    assert_goes(&rt, READY, KEPT);
    assert_goes(&rt, READY, COMMITTED);
    assert_goes(&rt, &[], SETTLED);
    assert_goes(&rt, &[], FOLLOWED);
    assert_goes(&rt, &[], IN_PLACE);
    assert_goes(&rt, &[], IN_ORDER);
    assert_goes(&rt, &[], CHANGED);
}
