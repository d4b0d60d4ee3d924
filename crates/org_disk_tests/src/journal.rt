//! The worked journals, byte for byte, and journals that are not one.
mod gates;
mod records;

use org_fixtures::TEXT;
use org_journal::Record;
use org_splice::Patch;
use std::alloc::Global;
use std::process::Abort;

// A journal of version 2 with its gate open: an entry with a patch of one byte at each of two
// places.
const TWO: [u8; 77] = [
    0x01, 0x4f, 0x52, 0x47, 0x4a, 0x02, 0, 0, 0, 0, 0, 0, 0, 0, 0, 0x3d, // gate, header
    0, 0, 0, 1, 0, 9, 0x69, 0x6e, 0x62, 0x6f, 0x78, 0x2e, 0x6f, 0x72, 0x67, // inbox.org
    0, 0, 0, 0, 0, 0, 0, 8, 0, 0, 0, 2, // final length, number of patches
    0, 0, 0, 0, 0, 0, 0, 2, 0, 0, 0, 0, 0, 0, 0, 1, 0x43, // C at 2
    0, 0, 0, 0, 0, 0, 0, 6, 0, 0, 0, 0, 0, 0, 0, 1, 0x44, // D at 6
];

// The same in version 3, of a file that was `* A`, `* B`: two bytes stand before the first patch, and
// a newline after the last one.
const THREE: [u8; 90] = [
    0x01, 0x4f, 0x52, 0x47, 0x4a, 0x03, 0, 0, 0, 0, 0, 0, 0, 0, 0, 0x4a, // gate, header
    0, 0, 0, 1, 0, 9, 0x69, 0x6e, 0x62, 0x6f, 0x78, 0x2e, 0x6f, 0x72, 0x67, // inbox.org
    0, 0, 0, 0, 0, 0, 0, 8, 0, 0, 0, 0, 0, 0, 0, 8, // final length, old length
    2, 0x2a, 0x20, 1, 0x0a, 0, 0, 0, 2, // contexts, number of patches
    0, 0, 0, 0, 0, 0, 0, 2, 0, 0, 0, 0, 0, 0, 0, 1, 0x43, // C at 2
    0, 0, 0, 0, 0, 0, 0, 6, 0, 0, 0, 0, 0, 0, 0, 1, 0x44, // D at 6
];

// Others in place of bytes, at most to their end.
fn put(bytes: &mut [u8], at: usize, others: &[u8]) {
    for (i, other) in others.iter().enumerate() {
        if let Some(byte) = bytes.get_mut(at.saturating_add(i)) {
            *byte = *other;
        }
    }
}

// What stands after the gate of a journal: how many of a worked one's bytes, places of both with
// others, and what is added.
type Body = (
    &'static [u8],
    usize,
    &'static [(usize, &'static [u8])],
    &'static [u8],
);

const ALL: usize = usize::MAX;

// The worked journals, without their gates.
fn behind_gate(journal: &[u8]) -> &[u8] {
    match journal {
        [_, body @ ..] => body,
        [] => journal,
    }
}

// The bytes after the gate.
fn body_of(rt: &impl Abort, alloc: Global, body: &Body) -> Vec<u8> {
    let (journal, count, changes, added) = body;
    let worked = behind_gate(journal);
    let mut bytes = joined(rt, alloc, &worked[..worked.len().min(*count)], added);
    for (at, others) in *changes {
        put(&mut bytes, *at, others);
    }
    bytes
}

fn joined(rt: &impl Abort, alloc: Global, front: &[u8], back: &[u8]) -> Vec<u8> {
    let mut bytes = Vec::from_slice(alloc, front).expect(rt, "memory");
    bytes.extend_from_slice(back).expect(rt, "memory");
    bytes
}

// The patch is the whole text of the capture.
fn is_text(patch: &Patch) -> bool {
    patch.from == 0 && patch.bytes.as_slice() == TEXT.as_slice()
}

// The record has the one entry of the capture.
fn is_capture(record: &Record) -> bool {
    match record.as_slice() {
        [entry] => match entry.patches.as_slice() {
            [patch] => entry.name.as_str() == "inbox.org" && entry.length == 16 && is_text(patch),
            _ => false,
        },
        _ => false,
    }
}
