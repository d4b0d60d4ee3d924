//! The patches of texts that are spliced at random give the new text.
ghost use Rattle.std.specs.Prelude.{◌<◌};

use org_splice::{Editing, Patch};
use std::alloc::Global;
use std::process::Abort;

/// A number below a bound, from a state that goes on.
fn below(state: &mut u64, bound: usize) -> usize
    requires { 0 < bound }
    ensures { result < bound }
{
    *state = state
        .wrapping_mul(6_364_136_223_846_793_005)
        .wrapping_add(1_442_695_040_888_963_407);
    (*state >> 40) as usize % bound
}

/// Writes bytes over a text, from a place on, or after it where it ends before that place.
fn write(rt: &impl Abort, text: &mut Vec<u8>, from: usize, bytes: &[u8]) {
    let from = from.min(text.len());
    let (over, added) = bytes.split_at(bytes.len().min(text.len() - from));
    text[from..from + over.len()].copy_from_slice(over);
    text.extend_from_slice(added).expect(rt, "memory");
}

/// Splices a text once, at random.
fn splice_somewhere(rt: &impl Abort, text: &mut Editing, state: &mut u64) {
    let letters: &[u8] = b"abcdefghijklmnop";
    let size = text.bytes().len();
    let at = below(state, size + 1);
    let most = if below(state, 4) == 0 { 400 } else { 9 };
    let removed = below(state, most.min(size - at + 1));
    let added = if below(state, 2) == 0 {
        removed
    } else {
        below(state, 9)
    };
    let first = below(state, 9);
    let bytes = &letters[first..first + added.min(8)];
    text.splice(at, removed, bytes).expect(rt, "memory");
}

/// Writes patches over a text.
fn write_all(rt: &impl Abort, text: &mut Vec<u8>, patches: &[Patch]) {
    for patch in patches {
        write(rt, text, patch.from as usize, patch.bytes.as_slice());
    }
}

/// Whether the patches of a text, written over what it was, and cut to its length, give it.
fn give(rt: &impl Abort, old: &mut Vec<u8>, text: &Editing) -> bool {
    write_all(rt, old, &text.patches().expect(rt, "memory"));
    old.truncate(text.bytes().len());
    old.as_slice() == text.bytes()
}

/// Splices a text at random, settles it, and splices it so often again: whether its patches then
/// give it.
fn give_text(
    rt: &impl Abort,
    alloc: Global,
    bytes: Vec<u8>,
    splices: usize,
    state: &mut u64,
) -> bool {
    let mut text = Editing::new(bytes);
    splice_somewhere(rt, &mut text, state);
    text.settle();
    let mut old = Vec::from_slice(alloc, text.bytes()).expect(rt, "memory");
    for _ in 0..splices {
        splice_somewhere(rt, &mut text, state);
    }
    let is_given = give(rt, &mut old, &text);
    drop(text);
    is_given
}

#[test]
fn patches_of_random_splices(rt: HostRuntime) {
    let mut state = 1;
    for _ in 0..4_000u32 {
        let splices = below(&mut state, 6);
        let text = Vec::new(rt.alloc());
        assert!(rt;
            give_text(&rt, rt.alloc(), text, splices, &mut state),
            "{splices} splices"
        );
    }
}

/// Some hundred lines.
fn long_text(rt: &impl Abort, alloc: Global, state: &mut u64) -> Vec<u8> {
    let mut text = Vec::new(alloc);
    for _ in 0..200 + below(state, 200) {
        let title: &[u8] = b"* TODO Call Ann about the letter of Monday";
        text.extend_from_slice(&title[..below(state, 43)])
            .expect(rt, "memory");
        text.push(b'\n').expect(rt, "memory");
    }
    text
}

#[test]
fn patches_of_long_texts(rt: HostRuntime) {
    let mut state = 1;
    for _ in 0..200u32 {
        let text = long_text(&rt, rt.alloc(), &mut state);
        let splices = below(&mut state, 60);
        assert!(rt;
            give_text(&rt, rt.alloc(), text, splices, &mut state),
            "{splices} splices"
        );
    }
}
