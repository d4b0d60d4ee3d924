//! Parts of sections, their properties and notes, and clocks that are opened where another one
//! runs, which no command leaves open: rows whose bytes the rules of sections and of clocking fix.
ghost use Rattle.std.specs.Prelude.{◌≡◌};
ghost use Rattle.org_splice.specs.Lines.{terminated};

use crate::shared::{becomes, now, states, titles};
use org_fault::{Fault, Refusal};
use org_headings::is_terminated;
use org_meta::{Lines, add_note, property, put_property, repeat_planning, sections, set_closed};
use org_outline::Outline;
use org_splice::Edit;
use org_stamp::Moment;
use org_state::clock_in;
use std::alloc::Global;
use std::process::Abort;

/// What is added to a section, or to a text.
enum Change {
    /// A note of 2005-10-03 09:05: the new and the old keyword.
    Noted(&'static [u8], &'static [u8]),
    /// A clock at the heading A of a text.
    Opened,
}

/// What is said of a section, or of a text.
enum Fact {
    /// Its planning, drawer and rest.
    Parts(&'static [u8], &'static [u8], &'static [u8]),
    /// The value of the property of a name.
    Property(&'static [u8], Option<&'static [u8]>),
    /// Its planning line is odd, to what repeats it and to what closes it.
    Odd,
    /// What becomes of it by a change.
    Changed(Change, &'static [u8]),
}

/// The edit that opens a clock at the heading A of an outline.
fn opening_in(rt: &impl Abort, alloc: Global, outline: &Outline<'_>) -> Edit {
    let path = titles(rt, alloc, &["A"]);
    let node = outline.find(path.as_slice()).expect(rt, "a heading");
    clock_in(alloc, outline, node, now(rt)).expect(rt, "an edit")
}

/// The edit that opens a clock at the heading A of a text.
fn opening(rt: &impl Abort, alloc: Global, text: &[u8]) -> Edit
    requires { terminated text.now ≡ text.now }
{
    let states = states(rt, alloc);
    let outline = Outline::read(alloc, text, &states).expect(rt, "memory");
    opening_in(rt, alloc, &outline)
}

/// The edit that makes a change.
fn edit_of(rt: &impl Abort, alloc: Global, text: Lines<'_>, change: &Change) -> Edit {
    match change {
        Change::Noted(new, old) => {
            let then = Moment::new(2005, 10, 3, 9, 5).expect(rt, "a moment");
            add_note(alloc, text, new, old, then).expect(rt, "an edit")
        }
        Change::Opened => opening(rt, alloc, text.bytes),
    }
}

/// Whether these are the planning, the drawer and the rest of a section.
fn are_parts(section: Lines<'_>, planning: &[u8], drawer: &[u8], rest: &[u8]) -> bool {
    let parts = sections(section);
    parts.planning.bytes == planning && parts.drawer.bytes == drawer && parts.rest.bytes == rest
}

/// Whether the planning line of a section is odd, to what repeats it and to what closes it.
fn is_odd(alloc: Global, section: Lines<'_>, now: Moment) -> bool {
    let odd = Some(Fault::Refused(Refusal::OddPlanning));
    repeat_planning(alloc, section, now).err() == odd
        && set_closed(alloc, section, now).err() == odd
}

/// Whether a fact holds of a section, or of a text.
fn is_so(rt: &impl Abort, alloc: Global, text: Lines<'_>, fact: &Fact) -> bool {
    match fact {
        Fact::Parts(planning, drawer, rest) => are_parts(text, planning, drawer, rest),
        Fact::Property(name, value) => property(text, name) == *value,
        Fact::Odd => is_odd(alloc, text, now(rt)),
        Fact::Changed(change, expected) => {
            becomes(text.bytes, &edit_of(rt, alloc, text, change), expected)
        }
    }
}

/// Sections and texts, and what is said of them.
const ROWS: &[(&[u8], Fact)] = &[
    (b"", Fact::Parts(b"", b"", b"")),
    (
        b" DEADLINE: soon\n:properties:\n:a:\n:END:\nx\n",
        Fact::Parts(b" DEADLINE: soon\n", b":properties:\n:a:\n:END:\n", b"x\n"),
    ),
    (
        b":PROPERTIES:\ntext\n:END:\n",
        Fact::Parts(b"", b"", b":PROPERTIES:\ntext\n:END:\n"),
    ),
    (
        b"CLOSED: x\nSCHEDULED: y\n",
        Fact::Parts(b"CLOSED: x\n", b"", b"SCHEDULED: y\n"),
    ),
    (OF_PROPERTIES, Fact::Property(b"category", Some(b"home"))),
    (OF_PROPERTIES, Fact::Property(b"A", Some(b""))),
    (OF_PROPERTIES, Fact::Property(b"x", None)),
    (b"DEADLINE: soon\n", Fact::Odd),
    // A note is added.
    (
        b":PROPERTIES:\n:END:\ntext\n",
        Fact::Changed(
            Change::Noted(b"DONE", b"TODO"),
            b":PROPERTIES:\n:END:\n\
                - State \"DONE\"       from \"TODO\"       [2005-10-03 Mon 09:05]\ntext\n",
        ),
    ),
    // A clock comes first in the drawer that is there, in whatever case it is written.
    (
        b"* A\nx\n:Logbook:\nCLOCK: [2026-06-01 Mon 10:00]\n:end:\n** B\n",
        Fact::Changed(
            Change::Opened,
            b"* A\nx\n:Logbook:\n\
                CLOCK: [2026-07-01 Wed 10:00]\nCLOCK: [2026-06-01 Mon 10:00]\n:end:\n** B\n",
        ),
    ),
    // No other clock is closed by it.
    (
        b"* B\nCLOCK: [2026-06-01 Mon 10:00]\n* A\n",
        Fact::Changed(
            Change::Opened,
            b"* B\nCLOCK: [2026-06-01 Mon 10:00]\n\
                * A\n:LOGBOOK:\nCLOCK: [2026-07-01 Wed 10:00]\n:END:\n",
        ),
    ),
];

/// A section, the value that its property A is given, and what becomes of it.
const PUT: &[(&[u8], &[u8], &[u8])] = &[
    (b"", b"v", b":PROPERTIES:\n:A: v\n:END:\n"),
    (
        b"SCHEDULED: x\ntext\n",
        b"",
        b"SCHEDULED: x\n:PROPERTIES:\n:A:\n:END:\ntext\n",
    ),
    (
        b" :properties:\n :a: 1\n :b: 2\n :end:\n",
        b"v",
        b" :properties:\n:A: v\n :b: 2\n :end:\n",
    ),
    (
        b":PROPERTIES:\n:b:\n:END:\nx\n",
        b"v",
        b":PROPERTIES:\n:b:\n:A: v\n:END:\nx\n",
    ),
    (
        b":PROPERTIES:\n\n:END:\n",
        b"v",
        b":PROPERTIES:\n:A: v\n:END:\n:PROPERTIES:\n\n:END:\n",
    ),
];

/// Whether a section becomes this where its property A is given a value.
fn is_put(rt: &impl Abort, alloc: Global, text: &[u8], value: &[u8], expected: &[u8]) -> bool {
    assert!(rt; is_terminated(text));
    let edit = put_property(alloc, Lines { bytes: text }, b"A", value).expect(rt, "an edit");
    becomes(text, &edit, expected)
}

#[test]
fn properties_put(rt: HostRuntime) {
    for (i, (text, value, expected)) in PUT.iter().enumerate() {
        assert!(rt; is_put(&rt, rt.alloc(), text, value, expected), "row {i}");
    }
}

const OF_PROPERTIES: &[u8] =
    b":PROPERTIES:\r\n :a: \n:CATEGORY:  home \r\n:category: b\n:END:\n:x: y\n";

/// The same of a text that is terminated.
fn is_right(rt: &impl Abort, alloc: Global, text: &[u8], fact: &Fact) -> bool {
    is_terminated(text) && is_so(rt, alloc, Lines { bytes: text }, fact)
}

#[test]
fn sections_and_clocks(rt: HostRuntime) {
    for (i, (text, fact)) in ROWS.iter().enumerate() {
        assert!(rt; is_right(&rt, rt.alloc(), text, fact), "row {i}");
    }
}
