//! The account of one merge as it should be, and with nine damages.
//!
//! Ours moves "Shop" below "Inbox" and adds two equal lines to "Call Ann". Theirs adds a line to
//! both and one before the first heading.

ghost use Rattle.std.specs.Prelude.{◌≡◌};
ghost use Rattle.org_splice.specs.Lines.{terminated};

use org_account::{File, FourFiles, Refused, Row, check_merge};
use org_headings::is_terminated;
use org_outline::States;
use std::alloc::Global;
use std::process::Abort;

/// The texts of home.org and inbox.org.
type Texts = (&'static [u8], &'static [u8]);

/// The numbers of a unit in base, ours, theirs and the result.
type Numbers = (usize, usize, usize, usize);

const BASE: Texts = (
    b"#+TITLE: Home\n* A\n* TODO Call Ann\n:PROPERTIES:\n:ID: ann\n:END:\n\
        :LOGBOOK:\nCLOCK: [2026-07-01 Wed 10:00]--[2026-07-01 Wed 10:30] =>  0:30\n\
        :END:\none\ntwo\nthree\n** Number\n* Shop\nmilk\nbread\n",
    b"* Inbox\n",
);

const OURS: Texts = (
    b"#+TITLE: Home\n* A\n* TODO Call Ann\n:PROPERTIES:\n:ID: ann\n:END:\n\
        :LOGBOOK:\nCLOCK: [2026-07-01 Wed 10:00]--[2026-07-01 Wed 10:30] =>  0:30\n\
        :END:\none\ntwo\nthree\n- egg\n- egg\n** Number\n",
    b"* Inbox\n** Shop\nmilk\nbread\n",
);

const THEIRS: Texts = (
    b"#+TITLE: Home\n#+FILETAGS: :home:\n* A\n* TODO Call Ann\n:PROPERTIES:\n\
        :ID: ann\n:END:\n:LOGBOOK:\n\
        CLOCK: [2026-07-01 Wed 10:00]--[2026-07-01 Wed 10:30] =>  0:30\n:END:\nzero\n\
        one\ntwo\nthree\n** Number\n* Shop\nmilk\nbread\nrice\n",
    b"* Inbox\n",
);

const RIGHT: Texts = (
    b"#+TITLE: Home\n#+FILETAGS: :home:\n* A\n* TODO Call Ann\n:PROPERTIES:\n\
        :ID: ann\n:END:\n:LOGBOOK:\n\
        CLOCK: [2026-07-01 Wed 10:00]--[2026-07-01 Wed 10:30] =>  0:30\n:END:\nzero\n\
        one\ntwo\nthree\n- egg\n- egg\n** Number\n",
    b"* Inbox\n** Shop\nmilk\nbread\nrice\n",
);

/// home.org, A, Call Ann, Number, Shop, inbox.org and Inbox.
const ROWS: [Numbers; 7] = [
    (0, 0, 0, 0),
    (1, 1, 1, 1),
    (2, 2, 2, 2),
    (3, 3, 3, 3),
    (4, 6, 4, 6),
    (5, 4, 5, 4),
    (6, 5, 6, 5),
];

/// The same with Call Ann and Number before A.
const SWAPPED: [Numbers; 7] = [
    (0, 0, 0, 0),
    (1, 1, 1, 3),
    (2, 2, 2, 1),
    (3, 3, 3, 2),
    (4, 6, 4, 6),
    (5, 4, 5, 4),
    (6, 5, 6, 5),
];

/// The same with Shop in home.org.
const UNMOVED: [Numbers; 7] = [
    (0, 0, 0, 0),
    (1, 1, 1, 1),
    (2, 2, 2, 2),
    (3, 3, 3, 3),
    (4, 6, 4, 4),
    (5, 4, 5, 5),
    (6, 5, 6, 6),
];

fn file(rt: &impl Abort, name: &'static [u8], text: &'static [u8]) -> File<'static> {
    assert!(rt; is_terminated(text), "a terminated text");
    File::new(name, text)
}

/// Checks a result by these rows, of which the one of "Call Ann" tells something, and a report.
fn check(
    rt: &impl Abort,
    alloc: Global,
    texts: &Texts,
    rows: &[Numbers; 7],
    told: &'static [u8],
    report: &'static [u8],
) -> Result<(), Refused> {
    let states = States::new(alloc, &["TODO"], &["DONE"]).expect(rt, "states");
    let base = [
        file(rt, b"home.org", BASE.0),
        file(rt, b"inbox.org", BASE.1),
    ];
    let ours = [
        file(rt, b"home.org", OURS.0),
        file(rt, b"inbox.org", OURS.1),
    ];
    let theirs = [
        file(rt, b"home.org", THEIRS.0),
        file(rt, b"inbox.org", THEIRS.1),
    ];
    let merged = [
        file(rt, b"home.org", texts.0),
        file(rt, b"inbox.org", texts.1),
    ];
    let mut table = Vec::new(alloc);
    for (k, row) in rows.iter().enumerate() {
        let row = Row {
            base: Some(row.0),
            ours: Some(row.1),
            theirs: Some(row.2),
            merged: Some(row.3),
            told: if k == 2 { told } else { b"" },
        };
        table.push(row).expect(rt, "memory");
    }
    let files = FourFiles {
        base: &base,
        ours: &ours,
        theirs: &theirs,
        merged: &merged,
    };
    check_merge(alloc, table.as_slice(), report, &files, &states)
}

#[test]
fn a_right_merge(rt: HostRuntime) {
    let alloc = rt.alloc();
    assert!(rt; check(&rt, alloc, &RIGHT, &ROWS, b"", b"").is_ok(), "right");
    let note: &[u8] = b"note\thome.org\tCall Ann\tadded\t\n";
    assert!(rt;
        check(&rt, alloc, &RIGHT, &ROWS, note, note).is_ok(),
        "right and told"
    );
    let untold = check(&rt, alloc, &RIGHT, &ROWS, b"", note);
    assert!(rt;
        matches!(untold, Err(Refused::Report)),
        "a line that no row tells"
    );
    let silent = check(&rt, alloc, &RIGHT, &ROWS, note, b"");
    assert!(rt;
        matches!(silent, Err(Refused::Report)),
        "a told row without its line"
    );
}

#[test]
fn lost_and_doubled_text(rt: HostRuntime) {
    let alloc = rt.alloc();
    let damaged: [Texts; 5] = [
        // a line that both kept is gone
        (
            b"#+TITLE: Home\n#+FILETAGS: :home:\n* A\n* TODO Call Ann\n:PROPERTIES:\n\
        :ID: ann\n:END:\n:LOGBOOK:\n\
        CLOCK: [2026-07-01 Wed 10:00]--[2026-07-01 Wed 10:30] =>  0:30\n:END:\nzero\n\
        one\nthree\n- egg\n- egg\n** Number\n",
            b"* Inbox\n** Shop\nmilk\nbread\nrice\n",
        ),
        // a line is doubled
        (
            b"#+TITLE: Home\n#+FILETAGS: :home:\n* A\n* TODO Call Ann\n:PROPERTIES:\n\
        :ID: ann\n:END:\n:LOGBOOK:\n\
        CLOCK: [2026-07-01 Wed 10:00]--[2026-07-01 Wed 10:30] =>  0:30\n:END:\nzero\n\
        one\ntwo\ntwo\nthree\n- egg\n- egg\n** Number\n",
            b"* Inbox\n** Shop\nmilk\nbread\nrice\n",
        ),
        // one of two equal added lines is lost
        (
            b"#+TITLE: Home\n#+FILETAGS: :home:\n* A\n* TODO Call Ann\n:PROPERTIES:\n\
        :ID: ann\n:END:\n:LOGBOOK:\n\
        CLOCK: [2026-07-01 Wed 10:00]--[2026-07-01 Wed 10:30] =>  0:30\n:END:\nzero\n\
        one\ntwo\nthree\n- egg\n** Number\n",
            b"* Inbox\n** Shop\nmilk\nbread\nrice\n",
        ),
        // the lines are scrambled
        (
            b"#+TITLE: Home\n#+FILETAGS: :home:\n* A\n* TODO Call Ann\n:PROPERTIES:\n\
        :ID: ann\n:END:\n:LOGBOOK:\n\
        CLOCK: [2026-07-01 Wed 10:00]--[2026-07-01 Wed 10:30] =>  0:30\n:END:\nthree\n\
        zero\n- egg\none\ntwo\n- egg\n** Number\n",
            b"* Inbox\n** Shop\nmilk\nbread\nrice\n",
        ),
        // drawer and clock are lost
        (
            b"#+TITLE: Home\n#+FILETAGS: :home:\n* A\n* TODO Call Ann\nzero\none\ntwo\n\
        three\n- egg\n- egg\n** Number\n",
            b"* Inbox\n** Shop\nmilk\nbread\nrice\n",
        ),
    ];
    for texts in &damaged {
        let refused = check(&rt, alloc, texts, &ROWS, b"", b"");
        assert!(rt; matches!(refused, Err(Refused::Row(2))), "damaged text");
    }
}

#[test]
fn lost_places(rt: HostRuntime) {
    let alloc = rt.alloc();
    // the preamble is dropped
    let preamble: Texts = (
        b"* A\n* TODO Call Ann\n:PROPERTIES:\n:ID: ann\n:END:\n:LOGBOOK:\n\
        CLOCK: [2026-07-01 Wed 10:00]--[2026-07-01 Wed 10:30] =>  0:30\n:END:\nzero\n\
        one\ntwo\nthree\n- egg\n- egg\n** Number\n",
        b"* Inbox\n** Shop\nmilk\nbread\nrice\n",
    );
    let refused = check(&rt, alloc, &preamble, &ROWS, b"", b"");
    assert!(rt;
        matches!(refused, Err(Refused::Row(0))),
        "the preamble is dropped"
    );
    // a level is changed
    let level: Texts = (
        b"#+TITLE: Home\n#+FILETAGS: :home:\n* A\n* TODO Call Ann\n:PROPERTIES:\n\
        :ID: ann\n:END:\n:LOGBOOK:\n\
        CLOCK: [2026-07-01 Wed 10:00]--[2026-07-01 Wed 10:30] =>  0:30\n:END:\nzero\n\
        one\ntwo\nthree\n- egg\n- egg\n*** Number\n",
        b"* Inbox\n** Shop\nmilk\nbread\nrice\n",
    );
    let refused = check(&rt, alloc, &level, &ROWS, b"", b"");
    assert!(rt;
        matches!(refused, Err(Refused::Row(3))),
        "a level is changed"
    );
    // siblings are swapped
    let swapped: Texts = (
        b"#+TITLE: Home\n#+FILETAGS: :home:\n* TODO Call Ann\n:PROPERTIES:\n:ID: ann\n\
        :END:\n:LOGBOOK:\n\
        CLOCK: [2026-07-01 Wed 10:00]--[2026-07-01 Wed 10:30] =>  0:30\n:END:\nzero\n\
        one\ntwo\nthree\n- egg\n- egg\n** Number\n* A\n",
        b"* Inbox\n** Shop\nmilk\nbread\nrice\n",
    );
    let refused = check(&rt, alloc, &swapped, &SWAPPED, b"", b"");
    assert!(rt;
        matches!(refused, Err(Refused::Order(0))),
        "siblings are swapped"
    );
    // our move is undone
    let unmoved: Texts = (
        b"#+TITLE: Home\n#+FILETAGS: :home:\n* A\n* TODO Call Ann\n:PROPERTIES:\n\
        :ID: ann\n:END:\n:LOGBOOK:\n\
        CLOCK: [2026-07-01 Wed 10:00]--[2026-07-01 Wed 10:30] =>  0:30\n:END:\nzero\n\
        one\ntwo\nthree\n- egg\n- egg\n** Number\n* Shop\nmilk\nbread\nrice\n",
        b"* Inbox\n",
    );
    let refused = check(&rt, alloc, &unmoved, &UNMOVED, b"", b"");
    assert!(rt;
        matches!(refused, Err(Refused::Row(4))),
        "our move is undone"
    );
}

/// Checks a merge of a file with one entry, whose row is this one.
fn check_entry(
    rt: &impl Abort,
    alloc: Global,
    texts: &[&'static [u8]; 4],
    row: &Row<'_>,
) -> Result<(), Refused> {
    let states = States::new(alloc, &["TODO"], &["DONE"]).expect(rt, "states");
    let base = [file(rt, b"a.org", texts[0])];
    let ours = [file(rt, b"a.org", texts[1])];
    let theirs = [file(rt, b"a.org", texts[2])];
    let merged = [file(rt, b"a.org", texts[3])];
    let whole = Row {
        base: Some(0),
        ours: Some(0),
        theirs: Some(0),
        merged: Some(0),
        told: b"",
    };
    let files = FourFiles {
        base: &base,
        ours: &ours,
        theirs: &theirs,
        merged: &merged,
    };
    check_merge(alloc, &[whole, *row], row.told, &files, &states)
}

/// The same of an entry that all four have.
fn check_text(
    rt: &impl Abort,
    alloc: Global,
    texts: &[&'static [u8]; 4],
    told: &'static [u8],
) -> Result<(), Refused> {
    let row = Row {
        base: Some(1),
        ours: Some(1),
        theirs: Some(1),
        merged: Some(1),
        told,
    };
    check_entry(rt, alloc, texts, &row)
}

#[test]
fn a_row_excuses_what_it_names(rt: HostRuntime) {
    let alloc = rt.alloc();
    let texts: [&[u8]; 4] = [b"* A\nx\n", b"", b"* A\ny\n", b"* A\ny\n"];
    let mut row = Row {
        base: Some(1),
        ours: None,
        theirs: Some(1),
        merged: Some(1),
        told: b"note\ta.org\tA\tkept against a deletion\t\n",
    };
    assert!(rt;
        check_entry(&rt, alloc, &texts, &row).is_ok(),
        "kept and told"
    );
    row.told = b"note\ta.org\tA\tmoved to two places, ours taken\tb.org\n";
    let refused = check_entry(&rt, alloc, &texts, &row);
    assert!(rt;
        matches!(refused, Err(Refused::Row(1))),
        "kept, and a move told"
    );
    let texts: [&[u8]; 4] = [
        b"* A\n",
        b"* B\n",
        b"* C\n",
        b"* B :CONFLICT:\n: CONFLICT: * C\n",
    ];
    let told = check_text(&rt, alloc, &texts, b"conflict\ta.org\tB\theading\t* C\n");
    assert!(rt; told.is_ok(), "the other heading is told");
    let refused = check_text(&rt, alloc, &texts, b"conflict\ta.org\tB\theading\t* D\n");
    assert!(rt;
        matches!(refused, Err(Refused::Row(1))),
        "a third heading is told"
    );
    let refused = check_text(&rt, alloc, &texts, b"note\ta.org\tB\theading\t* C\n");
    assert!(rt;
        matches!(refused, Err(Refused::Row(1))),
        "the mark of a note"
    );
    let texts: [&[u8]; 4] = [
        b"* A\nx\n",
        b"* A\ny\n",
        b"* A\nz\n",
        b"* A :CONFLICT:\ny\n: CONFLICT: z\n",
    ];
    let told = check_text(&rt, alloc, &texts, b"conflict\ta.org\tA\ttext\tz\n");
    assert!(rt; told.is_ok(), "the quoted line is told");
    let refused = check_text(&rt, alloc, &texts, b"conflict\ta.org\tA\ttext\tx\n");
    assert!(rt;
        matches!(refused, Err(Refused::Row(1))),
        "another line is told"
    );
}

#[test]
fn properties_stand_once(rt: HostRuntime) {
    let alloc = rt.alloc();
    let mut texts: [&[u8]; 4] = [
        b"* A\n:PROPERTIES:\n:P: 1\n:END:\n",
        b"* A\n:PROPERTIES:\n:P: 2\n:END:\n",
        b"* A\n:PROPERTIES:\n:P: 3\n:END:\n",
        b"* A :CONFLICT:\n:PROPERTIES:\n:P: 2\n:END:\n: CONFLICT: :P: 3\n",
    ];
    let conflict: &[u8] = b"conflict\ta.org\tA\tproperty\t:P: 3\n";
    let told = check_text(&rt, alloc, &texts, conflict);
    assert!(rt; told.is_ok(), "one value, and the other quoted");
    texts[3] = b"* A\n:PROPERTIES:\n:P: 2\n:P: 3\n:END:\n";
    let refused = check_text(&rt, alloc, &texts, b"");
    assert!(rt; matches!(refused, Err(Refused::Row(1))), "two values");
    texts[3] = b"* A\n:PROPERTIES:\n:END:\n";
    let notes: &[u8] = b"note\ta.org\tA\tx\t:P: 2\nnote\ta.org\tA\tx\t:P: 3\n";
    let refused = check_text(&rt, alloc, &texts, notes);
    assert!(rt;
        matches!(refused, Err(Refused::Row(1))),
        "no value, though told"
    );
    texts[3] = b"* A\n:PROPERTIES:\n:P: 2\n:END:\n";
    let older = check_text(&rt, alloc, &texts, b"note\ta.org\tA\tlater moment\t:P: 3\n");
    assert!(rt; older.is_ok(), "a value that gave way");
    let texts: [&[u8]; 4] = [
        b"* A\n",
        b"* A\n:PROPERTIES:\n:P: 1\n:END:\ny\n",
        b"* A\n:PROPERTIES:\n:P: 1\n:END:\nz\n",
        b"* A\n:PROPERTIES:\n:P: 1\n:P: 1\n:END:\ny\nz\n",
    ];
    let refused = check_text(&rt, alloc, &texts, b"");
    assert!(rt; matches!(refused, Err(Refused::Row(1))), "a value twice");
}

#[test]
fn clocks_and_planning_stand_once(rt: HostRuntime) {
    let alloc = rt.alloc();
    let mut texts: [&[u8]; 4] = [
        b"* A\nCLOCK: [2026-07-01 Wed 10:00]\n",
        b"* A\nCLOCK: [2026-07-01 Wed 10:00]--[2026-07-01 Wed 10:30] =>  0:30\n",
        b"* A\nCLOCK: [2026-07-01 Wed 10:00]--[2026-07-01 Wed 11:00] =>  1:00\n",
        b"* A\nCLOCK: [2026-07-01 Wed 10:00]--[2026-07-01 Wed 10:30] =>  0:30\n",
    ];
    let told: &[u8] = b"note\ta.org\tA\tclosed twice, the earlier end taken\t\
        CLOCK: [2026-07-01 Wed 10:00]--[2026-07-01 Wed 11:00] =>  1:00\n";
    assert!(rt;
        check_text(&rt, alloc, &texts, told).is_ok(),
        "the later end gave way"
    );
    let refused = check_text(&rt, alloc, &texts, b"");
    assert!(rt;
        matches!(refused, Err(Refused::Row(1))),
        "it gave way, untold"
    );
    texts[3] = b"* A\nCLOCK: [2026-07-01 Wed 10:00]--[2026-07-01 Wed 10:30] =>  0:30\n\
        CLOCK: [2026-07-01 Wed 10:00]--[2026-07-01 Wed 11:00] =>  1:00\n";
    let refused = check_text(&rt, alloc, &texts, b"");
    assert!(rt; matches!(refused, Err(Refused::Row(1))), "one clock twice");
    let mut texts: [&[u8]; 4] = [
        b"* A\n",
        b"* A\nSCHEDULED: <2026-07-02 Thu>\n",
        b"* A\nSCHEDULED: <2026-07-03 Fri>\n",
        b"* A\nSCHEDULED: <2026-07-02 Thu>\nSCHEDULED: <2026-07-03 Fri>\n",
    ];
    let refused = check_text(&rt, alloc, &texts, b"");
    assert!(rt; matches!(refused, Err(Refused::Row(1))), "scheduled twice");
    texts[3] = b"* A :CONFLICT:\nSCHEDULED: <2026-07-02 Thu>\n\
        : CONFLICT: SCHEDULED: <2026-07-03 Fri>\n";
    let other: &[u8] = b"conflict\ta.org\tA\tplanning\tSCHEDULED: <2026-07-03 Fri>\n";
    assert!(rt;
        check_text(&rt, alloc, &texts, other).is_ok(),
        "scheduled once"
    );
}

#[test]
fn headings_are_right_by_their_parts(rt: HostRuntime) {
    let alloc = rt.alloc();
    let mut texts: [&[u8]; 4] = [
        b"* TODO Call Ann :old:\n",
        b"* DONE Call Ann :old:\n",
        b"* TODO [#A] Call Ann :home:\n",
        b"* DONE [#A] Call Ann :home:\n",
    ];
    assert!(rt;
        check_text(&rt, alloc, &texts, b"").is_ok(),
        "keyword of ours, priority and tags of theirs"
    );
    let damaged: [&[u8]; 6] = [
        // the keyword is lost
        b"* TODO [#A] Call Ann :home:\n",
        // the priority is lost
        b"* DONE Call Ann :home:\n",
        // a title of neither
        b"* DONE [#A] Call Bob :home:\n",
        // the tag is lost
        b"* DONE [#A] Call Ann\n",
        // a tag came back
        b"* DONE [#A] Call Ann :old:home:\n",
        // a tag of neither
        b"* DONE [#A] Call Ann :home:work:\n",
    ];
    for merged in &damaged {
        texts[3] = *merged;
        let refused = check_text(&rt, alloc, &texts, b"");
        assert!(rt;
            matches!(refused, Err(Refused::Row(1))),
            "a damaged heading"
        );
    }
    // a state of ours before a title that begins like one
    texts = [
        b"* TODO [#B] Fix milk\n",
        b"* DONE [#B] Fix milk\n",
        b"* TODO TODO [#B] Fix milk\n",
        b"* DONE TODO [#B] Fix milk\n",
    ];
    assert!(rt;
        check_text(&rt, alloc, &texts, b"").is_ok(),
        "keyword of ours, title of theirs"
    );
    texts = [
        b"* Call Ann\n",
        b"* TODO Call Ann :a:\n",
        b"* DONE Call Ann :b:\n",
        b"* TODO Call Ann :a:b:CONFLICT:\n: CONFLICT: * DONE Call Ann :b:\n",
    ];
    let told: &[u8] = b"conflict\ta.org\tCall Ann\theading\t* DONE Call Ann :b:\n";
    let refused = check_text(&rt, alloc, &texts, b"");
    assert!(rt;
        matches!(refused, Err(Refused::Row(1))),
        "a conflict, untold"
    );
    assert!(rt; check_text(&rt, alloc, &texts, told).is_ok(), "a conflict");
}
