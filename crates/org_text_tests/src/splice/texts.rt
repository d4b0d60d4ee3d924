//! Texts that are edited in place, whose edits are taken back, kept or settled, and what their
//! patches are.
use crate::shared::{NONE, Patched, Splice, edit_of, edits_of, has, make, patch_count};
use org_splice::{Editing, Patch, size_after};
use std::alloc::Global;
use std::process::Abort;

/// A call that takes nothing but the text.
enum Call {
    /// A last line without a newline gets one.
    Terminate,
    Keep,
    Undo,
    Settle,
}

/// What is done to a text, or said of it.
enum Step {
    /// A text that is not edited yet.
    Text(&'static [u8]),
    /// A place, how many bytes are removed there, and the bytes that take their place.
    Splice(usize, usize, &'static [u8]),
    /// The same by an edit.
    Apply(Splice),
    /// Edits that are made at once, and whether they lie near one another.
    Near(Splice, &'static [Splice], bool),
    /// How long a text is, edits of it, and how long it is after them, if it can be that long.
    Size(usize, &'static [Splice], Option<usize>),
    /// Whether an edit could be taken back, the bytes, and the patches.
    Is(bool, &'static [u8], &'static [Patched]),
    /// A call, and the same once it was made.
    After(Call, bool, &'static [u8], &'static [Patched]),
}

fn splice(rt: &impl Abort, text: &mut Editing, at: usize, removed: usize, bytes: &[u8]) {
    let size = text.bytes().len();
    assert!(rt; removed <= size && at <= size - removed);
    text.splice(at, removed, bytes).expect(rt, "memory");
}

/// A text with these bytes.
fn new_text(rt: &impl Abort, alloc: Global, bytes: &[u8]) -> Editing {
    Editing::new(bytes.to_vec(alloc).expect(rt, "memory"))
}

fn make_call(rt: &impl Abort, text: &mut Editing, call: &Call) {
    match call {
        Call::Terminate => text.terminate().expect(rt, "memory"),
        Call::Keep => text.keep(),
        Call::Undo => text.undo(),
        Call::Settle => text.settle(),
    }
}

/// Whether an edit of a text can be taken back or can't, and it has these bytes and patches.
fn is(rt: &impl Abort, text: &Editing, is_edited: bool, bytes: &[u8], patches: &[Patched]) -> bool {
    text.is_edited() == is_edited && has(rt, text, bytes, patches)
}

/// Does what a step says, or answers whether it is so.
fn go(rt: &impl Abort, alloc: Global, text: &mut Editing, step: &Step) -> bool {
    match step {
        Step::Text(bytes) => *text = new_text(rt, alloc, bytes),
        Step::Splice(at, removed, bytes) => splice(rt, text, *at, *removed, bytes),
        Step::Apply(splice) => make(rt, text, &edit_of(rt, alloc, splice)),
        Step::Near(first, rest, are_near) => {
            let first = edit_of(rt, alloc, first);
            let rest = edits_of(rt, alloc, rest);
            let part = text.apply_near(&first, &rest).expect(rt, "memory");
            return part.is_some() == *are_near;
        }
        Step::Size(old, splices, size) => {
            return size_after(*old, &edits_of(rt, alloc, splices)) == *size;
        }
        Step::Is(is_edited, bytes, patches) => return is(rt, text, *is_edited, bytes, patches),
        Step::After(made, is_edited, bytes, patches) => {
            make_call(rt, text, made);
            return is(rt, text, *is_edited, bytes, patches);
        }
    }
    true
}

const HEADINGS: &[u8] = b"* A\n* B\n";

/// A text, what is spliced into it, and its bytes and patches then.
type Spliced = (
    &'static [u8],
    &'static [Splice],
    &'static [u8],
    &'static [Patched],
);

const SPLICED: &[Spliced] = &[
    (HEADINGS, &[], b"* A\n* B\n", NONE),
    // Of one size.
    (HEADINGS, &[(2, 1, b"C")], b"* C\n* B\n", &[(2, b"C")]),
    (
        HEADINGS,
        &[(2, 1, b"C"), (6, 1, b"D")],
        b"* C\n* D\n",
        &[(2, b"C"), (6, b"D")],
    ),
    (
        HEADINGS,
        &[(6, 1, b"D"), (2, 1, b"C")],
        b"* C\n* D\n",
        &[(2, b"C"), (6, b"D")],
    ),
    (
        HEADINGS,
        &[(2, 1, b"C"), (3, 1, b" ")],
        b"* C * B\n",
        &[(2, b"C ")],
    ),
    (b"* A\n", &[(2, 1, b"B")], b"* B\n", &[(2, b"B")]),
    // Of other sizes.
    (
        HEADINGS,
        &[(2, 1, b"CC")],
        b"* CC\n* B\n",
        &[(2, b"CC\n* B\n")],
    ),
    (HEADINGS, &[(4, 4, b"")], b"* A\n", NONE),
    (
        HEADINGS,
        &[(5, 2, b"xy"), (6, 2, b"")],
        b"* A\n*x",
        &[(5, b"x")],
    ),
    (
        HEADINGS,
        &[(8, 0, b"* N\n")],
        b"* A\n* B\n* N\n",
        &[(8, b"* N\n")],
    ),
    (HEADINGS, &[(3, 0, b"")], b"* A\n* B\n", NONE),
];

const TERMINATED: &[Step] = &[
    Step::Text(b""),
    Step::After(Call::Terminate, false, b"", NONE),
    Step::Text(b"* A\n"),
    Step::After(Call::Terminate, false, b"* A\n", NONE),
    Step::Text(b"* A"),
    Step::After(Call::Terminate, true, b"* A\n", &[(3, b"\n")]),
    Step::Text(b"\n\n"),
    Step::After(Call::Terminate, false, b"\n\n", NONE),
];

// Edits made, taken back, kept and settled.
const EDITED: &[Step] = &[
    // An edit of a heading.
    Step::Text(b"* A\n"),
    Step::Apply((2, 1, b"BC")),
    Step::Is(true, b"* BC\n", &[(2, b"BC\n")]),
    // Edits taken back.
    Step::Text(b"* A\n* B"),
    Step::Splice(2, 1, b"CC"),
    Step::Splice(0, 3, b""),
    Step::Splice(2, 0, b"* Long\n"),
    Step::Is(true, b"C\n* Long\n* B", &[(0, b"C\n* Long\n* B")]),
    Step::After(
        Call::Terminate,
        true,
        b"C\n* Long\n* B\n",
        &[(0, b"C\n* Long\n* B\n")],
    ),
    Step::After(Call::Undo, false, b"* A\n* B", NONE),
    // An edit kept, others taken back, and all settled.
    Step::Text(HEADINGS),
    Step::Splice(2, 1, b"C"),
    Step::Is(true, b"* C\n* B\n", &[(2, b"C")]),
    Step::After(Call::Keep, false, b"* C\n* B\n", &[(2, b"C")]),
    Step::Splice(6, 1, b"D"),
    Step::Splice(0, 4, b""),
    Step::Is(true, b"* D\n", &[(0, b"* D\n")]),
    Step::After(Call::Undo, false, b"* C\n* B\n", &[(2, b"C")]),
    Step::After(Call::Settle, false, b"* C\n* B\n", NONE),
    Step::After(Call::Undo, false, b"* C\n* B\n", NONE),
    // Sizes after edits.
    Step::Size(8, &[(2, 3, b""), (0, 0, b"* A\n")], Some(9)),
    Step::Size(usize::MAX, &[(0, 0, b"* A\n")], None),
];

const LONG: &[u8] = &[b'\n'; 20_000];

// Edits made at once where they lie near one another.
const NEAR: &[Step] = &[
    // A later heading first.
    Step::Text(HEADINGS),
    Step::Near((6, 1, b"D"), &[(2, 1, b"C")], true),
    Step::Is(true, b"* C\n* D\n", &[(2, b"C"), (6, b"D")]),
    Step::After(Call::Undo, false, b"* A\n* B\n", NONE),
    // The places of later edits are those of the text after the first.
    Step::Near((2, 1, b"CC"), &[(7, 1, b"DDD"), (0, 1, b"**")], true),
    Step::Is(true, b"** CC\n* DDD\n", &[(0, b"** CC\n* DDD\n")]),
    Step::After(Call::Undo, false, b"* A\n* B\n", NONE),
    // What an edit puts in, another takes out again.
    Step::Near((3, 0, b"xyz"), &[(4, 1, b"")], true),
    Step::Is(true, b"* Axz\n* B\n", &[(3, b"xz\n* B\n")]),
    Step::Near((0, 6, b""), &[(0, 0, b"")], true),
    Step::Is(true, b"* B\n", &[(0, b"* B\n")]),
    // Edits that don't lie in the text, or lie far apart, change nothing.
    Step::Near((5, 0, b"x"), &[(0, 1, b"x")], false),
    Step::Is(true, b"* B\n", &[(0, b"* B\n")]),
    Step::After(Call::Undo, false, b"* A\n* B\n", NONE),
    Step::Text(LONG),
    Step::Near((19_999, 1, b"x"), &[(0, 1, b"x")], false),
    Step::Is(false, LONG, NONE),
];

/// Goes through steps, the first of which is a text.
fn assert_goes(rt: &impl Abort, alloc: Global, steps: &[Step]) {
    let mut text = new_text(rt, alloc, b"");
    for (i, step) in steps.iter().enumerate() {
        assert!(rt; go(rt, alloc, &mut text, step), "step {i}");
    }
    drop(text);
}

/// Splices the text of a row, and settles it.
fn is_spliced(rt: &impl Abort, alloc: Global, row: &Spliced) -> bool {
    let (text, splices, bytes, patches) = row;
    let mut text = new_text(rt, alloc, text);
    for (at, removed, new) in *splices {
        splice(rt, &mut text, *at, *removed, new);
    }
    let is_edited = text.is_edited() != splices.is_empty() && has(rt, &text, bytes, patches);
    text.settle();
    is_edited && !text.is_edited() && has(rt, &text, bytes, NONE)
}

#[test]
fn texts_spliced_and_settled(rt: HostRuntime) {
    for (i, row) in SPLICED.iter().enumerate() {
        assert!(rt; is_spliced(&rt, rt.alloc(), row), "row {i}");
    }
}

#[test]
fn texts_under_edit(rt: HostRuntime) {
    assert_goes(&rt, rt.alloc(), TERMINATED);
    assert_goes(&rt, rt.alloc(), EDITED);
    assert_goes(&rt, rt.alloc(), NEAR);
}

/// Changes every other byte of a text, and asserts that each is a patch of its own, up to a
/// thousand.
fn assert_counts(rt: &impl Abort, text: &mut Editing) {
    for i in 0..1_001usize {
        splice(rt, text, 2 * i, 1, b"b");
        assert!(rt;
            patch_count(rt, text) == (i + 1).min(1_000),
            "after splice {i}"
        );
    }
}

/// Whether the patches change every other byte, and the last of a thousand changes two.
fn are_every_other(patches: &[Patch]) -> bool {
    for (i, patch) in patches.iter().enumerate() {
        let bytes: &[u8] = if i == 999 { b"bab" } else { b"b" };
        if patch.from != 2 * i as u64 || patch.bytes.as_slice() != bytes {
            return false;
        }
    }
    true
}

#[test]
fn more_than_a_thousand_ranges(rt: HostRuntime) {
    let mut text = Editing::new(vec![in rt.alloc(); b'a'; 2_002].expect(&rt, "memory"));
    assert_counts(&rt, &mut text);
    assert!(rt; are_every_other(&text.patches().expect(&rt, "memory")));
    drop(text);
}
