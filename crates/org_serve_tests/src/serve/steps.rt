//! Lines, and what they make of two files.
use crate::shared::two;
use org_test_disks::MemoryDisk;
use std::process::Abort;

// Lines: what a.org and b.org hold before them, and what shows of two files answer after none of
// them, after the first, and so on.
pub struct Step {
    pub a: &'static str,
    pub b: &'static str,
    pub lines: &'static str,
    pub shows: &'static str,
    pub shown: &'static [&'static str],
}

pub const BOTH: &str = "show\ta.org\nshow\tb.org\n";

// The files before a step.
pub fn files(rt: &(impl Abort + AllocGlobal), step: &Step) -> MemoryDisk {
    two(rt, step.a, step.b)
}

// How many lines the step has.
pub fn all_of(step: &Step) -> u64 {
    step.shown.len().saturating_sub(1) as u64
}

// How many lines of the step are done, where the shows answer this.
pub fn count_of(step: &Step, shown: &[u8]) -> Option<u64> {
    for (i, text) in step.shown.iter().enumerate() {
        if text.as_bytes() == shown {
            return Some(i as u64);
        }
    }
    None
}

// How many commands are acknowledged.
pub fn safe_in(written: &[u8]) -> u64 {
    if written.ends_with(b"safe 2\n") {
        2
    } else if written.starts_with(b"ok 1\nsafe 1\n") {
        1
    } else {
        0
    }
}

// So many lines of the step may be done: those that are acknowledged, or with these a whole group
// or all.
pub fn may_be_done(step: &Step, group: u32, safe: u64, done: u64) -> bool {
    done == safe || done == safe.saturating_add(u64::from(group)).min(all_of(step))
}

pub const TWO_LINES: &str = "capture\ta.org\ttop\tlast\t2026-07-01 10:00\t* N\t\n\
        capture\tb.org\ttop\tlast\t2026-07-01 10:00\t* K\t\n";

// A capture into each of two files.
pub const CAPTURES: &Step = &Step {
    a: "* A\n",
    b: "* Z",
    lines: TWO_LINES,
    shows: BOTH,
    shown: &[
        "text 4\n* A\n\ntext 3\n* Z\n",
        "text 8\n* A\n* N\n\ntext 3\n* Z\n",
        "text 8\n* A\n* N\n\ntext 8\n* Z\n* K\n\n",
    ],
};

// The last line of the target has no newline.
pub const ACROSS: &Step = &Step {
    a: "* A\n** B\nb\n",
    b: "* T",
    lines: "refile\ta.org\tA/B\tb.org\tT\tlast\n",
    shows: BOTH,
    shown: &[
        "text 11\n* A\n** B\nb\n\ntext 3\n* T\n",
        "text 4\n* A\n\ntext 11\n* T\n** B\nb\n\n",
    ],
};

// The last line of the source has no newline, and the source comes after the target in the order
// of names.
pub const BACK: &Step = &Step {
    a: "* T\n** K\n",
    b: "* A\n** B\n*** C",
    lines: "refile\tb.org\tA/B\ta.org\tT\tfirst\n",
    shows: BOTH,
    shown: &[
        "text 9\n* T\n** K\n\ntext 14\n* A\n** B\n*** C\n",
        "text 20\n* T\n** B\n*** C\n** K\n\ntext 4\n* A\n\n",
    ],
};

pub const REFILE_WITHIN: &Step = &Step {
    a: "* A\n** B\nb\n* T",
    b: "* Z",
    lines: "refile\ta.org\tA/B\ta.org\tT\tfirst\n",
    shows: BOTH,
    shown: &[
        "text 14\n* A\n** B\nb\n* T\ntext 3\n* Z\n",
        "text 15\n* A\n* T\n** B\nb\n\ntext 3\n* Z\n",
    ],
};

// Of headings with one title, by their numbers.
pub const BETWEEN_TWINS: &Step = &Step {
    a: "* A\n* A\nx\n",
    b: "* T\n* T\n",
    lines: "refile\ta.org\tA\\#2\tb.org\tT\\#2\tlast\n",
    shows: BOTH,
    shown: &[
        "text 10\n* A\n* A\nx\n\ntext 8\n* T\n* T\n\n",
        "text 4\n* A\n\ntext 15\n* T\n* T\n** A\nx\n\n",
    ],
};

// The same in one file: both are found before anything moves.
pub const WITHIN_TWINS: &Step = &Step {
    a: "* A\n* B\n* A\n** T\n* A\n",
    b: "* Z",
    lines: "refile\ta.org\tA\\#1\ta.org\tA\\#3\tlast\n",
    shows: BOTH,
    shown: &[
        "text 21\n* A\n* B\n* A\n** T\n* A\n\ntext 3\n* Z\n",
        "text 22\n* B\n* A\n** T\n* A\n** A\n\ntext 3\n* Z\n",
    ],
};

// There and back again, in one group: the target keeps the newline that it got.
pub const THERE_AND_BACK: &Step = &Step {
    a: "* A\n** B\nb\n",
    b: "* T",
    lines: "refile\ta.org\tA/B\tb.org\tT\tlast\nrefile\tb.org\tT/B\ta.org\tA\tlast\n",
    shows: BOTH,
    shown: &[
        "text 11\n* A\n** B\nb\n\ntext 3\n* T\n",
        "text 4\n* A\n\ntext 11\n* T\n** B\nb\n\n",
        "text 11\n* A\n** B\nb\n\ntext 4\n* T\n\n",
    ],
};

// The heading is made.
pub const TO_A_HEAD: &Step = &Step {
    a: "x",
    b: "* Z",
    lines: "capture\ta.org\thead:Tasks\tlast\t2026-07-01 10:00\t* N\t\n",
    shows: BOTH,
    shown: &[
        "text 1\nx\ntext 3\n* Z\n",
        "text 15\nx\n* Tasks\n** N\n\ntext 3\n* Z\n",
    ],
};

// The year is there, and the month and the day are made.
pub const TO_A_DAY: &Step = &Step {
    a: "* 2026\n* 2027\n",
    b: "* Z",
    lines: "capture\ta.org\tdate\tlast\t2026-07-01 10:00\t* N\t\n",
    shows: BOTH,
    shown: &[
        "text 14\n* 2026\n* 2027\n\ntext 3\n* Z\n",
        "text 62\n* 2026\n** 2026-07 July\n*** 2026-07-01 Wednesday\n**** N\n* 2027\n\n\
            text 3\n* Z\n",
    ],
};

// The archive file is absent before.
pub const TO_THE_ARCHIVE: &Step = &Step {
    a: "* Work :job:\n** P\n*** DONE T :own:\ntext\n",
    b: "* Z",
    lines: "archive\ta.org\tWork/P/T\t2026-07-01 10:00\n",
    shows: "show\ta.org\nshow\ta.org_archive\n",
    shown: &[
        "text 40\n* Work :job:\n** P\n*** DONE T :own:\ntext\n\ntext 0\n\n",
        "text 18\n* Work :job:\n** P\n\ntext 181\n* DONE T :own:\n:PROPERTIES:\n\
            :ARCHIVE_TIME: 2026-07-01 Wed 10:00\n:ARCHIVE_FILE: a.org\n:ARCHIVE_OLPATH: Work/P\n\
            :ARCHIVE_CATEGORY: a\n:ARCHIVE_TODO: DONE\n:ARCHIVE_ITAGS: job\n:END:\ntext\n\n",
    ],
};

// Neither file ends in a newline, the archive comes after the source in the order of names, and
// its heading is made.
pub const TO_ANOTHER_FILE: &Step = &Step {
    a: "#+ARCHIVE: b.org::* Old\n* A\n** B",
    b: "* Z",
    lines: "archive\ta.org\tA/B\t2026-07-01 10:00\n",
    shows: BOTH,
    shown: &[
        "text 32\n#+ARCHIVE: b.org::* Old\n* A\n** B\ntext 3\n* Z\n",
        "text 28\n#+ARCHIVE: b.org::* Old\n* A\n\ntext 131\n* Z\n* Old\n** B\n:PROPERTIES:\n\
            :ARCHIVE_TIME: 2026-07-01 Wed 10:00\n:ARCHIVE_FILE: a.org\n:ARCHIVE_OLPATH: A\n\
            :ARCHIVE_CATEGORY: a\n:END:\n\n",
    ],
};

pub const ARCHIVE_WITHIN: &Step = &Step {
    a: "#+ARCHIVE: ::* Old\n* A\n* B",
    b: "* Z",
    lines: "archive\ta.org\tA\t2026-07-01 10:00\n",
    shows: BOTH,
    shown: &[
        "text 26\n#+ARCHIVE: ::* Old\n* A\n* B\ntext 3\n* Z\n",
        "text 131\n#+ARCHIVE: ::* Old\n* B\n* Old\n** A\n:PROPERTIES:\n\
            :ARCHIVE_TIME: 2026-07-01 Wed 10:00\n:ARCHIVE_FILE: a.org\n\
            :ARCHIVE_CATEGORY: a\n:END:\n\
            \ntext 3\n* Z\n",
    ],
};

// Two in one group, of which the archive file is one text.
pub const TWO_ARCHIVES: &Step = &Step {
    a: "* A\n* B\n",
    b: "",
    lines: "archive\ta.org\tA\t2026-07-01 10:00\narchive\ta.org\tB\t2026-07-01 10:00\n",
    shows: "show\ta.org\nshow\ta.org_archive\n",
    shown: &[
        "text 8\n* A\n* B\n\ntext 0\n\n",
        "text 4\n* B\n\ntext 101\n* A\n:PROPERTIES:\n:ARCHIVE_TIME: 2026-07-01 Wed 10:00\n\
            :ARCHIVE_FILE: a.org\n:ARCHIVE_CATEGORY: a\n:END:\n\n",
        "text 0\n\ntext 202\n* A\n:PROPERTIES:\n:ARCHIVE_TIME: 2026-07-01 Wed 10:00\n\
            :ARCHIVE_FILE: a.org\n:ARCHIVE_CATEGORY: a\n:END:\n* B\n:PROPERTIES:\n\
            :ARCHIVE_TIME: 2026-07-01 Wed 10:00\n:ARCHIVE_FILE: a.org\n\
            :ARCHIVE_CATEGORY: a\n:END:\n\
            \n",
    ],
};

// The clock that is closed stands in the file that comes later by its name, and neither file ends
// in a newline.
pub const CLOCK_ELSEWHERE: &Step = &Step {
    a: "* A",
    b: "* B\nCLOCK: [2026-07-01 Wed 08:00]",
    lines: "clock-in\ta.org\tA\t2026-07-01 10:00\n",
    shows: BOTH,
    shown: &[
        "text 3\n* A\ntext 33\n* B\nCLOCK: [2026-07-01 Wed 08:00]\n",
        "text 50\n* A\n:LOGBOOK:\nCLOCK: [2026-07-01 Wed 10:00]\n:END:\n\ntext 67\n* B\n\
            CLOCK: [2026-07-01 Wed 08:00]--[2026-07-01 Wed 10:00] =>  2:00\n\n",
    ],
};

pub const CLOCK_OUT: &Step = &Step {
    a: "* A",
    b: "* B\nCLOCK: [2026-07-01 Wed 08:00]",
    lines: "clock-out\t2026-07-01 10:00\n",
    shows: BOTH,
    shown: &[
        "text 3\n* A\ntext 33\n* B\nCLOCK: [2026-07-01 Wed 08:00]\n",
        "text 3\n* A\ntext 67\n* B\n\
            CLOCK: [2026-07-01 Wed 08:00]--[2026-07-01 Wed 10:00] =>  2:00\n\n",
    ],
};

// In and out again, in one group.
pub const IN_AND_OUT: &Step = &Step {
    a: "* A",
    b: "* B\n",
    lines: "clock-in\tb.org\tB\t2026-07-01 10:00\nclock-out\t2026-07-01 10:30\n",
    shows: BOTH,
    shown: &[
        "text 3\n* A\ntext 4\n* B\n\n",
        "text 3\n* A\ntext 50\n* B\n:LOGBOOK:\nCLOCK: [2026-07-01 Wed 10:00]\n:END:\n\n",
        "text 3\n* A\ntext 83\n* B\n:LOGBOOK:\n\
            CLOCK: [2026-07-01 Wed 10:00]--[2026-07-01 Wed 10:30] =>  0:30\n:END:\n\n",
    ],
};

pub const REPEATED: &Step = &Step {
    a: "* TODO A\nSCHEDULED: <2026-06-30 Tue ++1d>\n* B",
    b: "* Z",
    lines: "todo\ta.org\tA\tDONE\t2026-07-01 10:00\n",
    shows: BOTH,
    shown: &[
        "text 45\n* TODO A\nSCHEDULED: <2026-06-30 Tue ++1d>\n* B\ntext 3\n* Z\n",
        "text 164\n* TODO A\nSCHEDULED: <2026-07-02 Thu ++1d>\n:PROPERTIES:\n\
            :LAST_REPEAT: [2026-07-01 Wed 10:00]\n:END:\n\
            - State \"DONE\"       from \"TODO\"       [2026-07-01 Wed 10:00]\n\
            * B\n\ntext 3\n* Z\n",
    ],
};

// Two edits take a line from one file into another, and are settled together.
pub const LINE_MOVED: &Step = &Step {
    a: "* A\nx\n",
    b: "* B\n",
    lines: "edit\ta.org\t4\tx\\n\t\nedit\tb.org\t4\t\tx\\n\nsettle\n",
    shows: BOTH,
    shown: &[
        "text 6\n* A\nx\n\ntext 4\n* B\n\n",
        "text 4\n* A\n\ntext 4\n* B\n\n",
        "text 4\n* A\n\ntext 6\n* B\nx\n\n",
    ],
};

// The last line gets no newline.
pub const EDITED: &Step = &Step {
    a: "* A",
    b: "* Z",
    lines: "edit\ta.org\t2\tA\tBC\n",
    shows: BOTH,
    shown: &["text 3\n* A\ntext 3\n* Z\n", "text 4\n* BC\ntext 3\n* Z\n"],
};

// The first of two captures.
pub const FIRST: &Step = &Step {
    a: "* A\n",
    b: "* Z",
    lines: "capture\ta.org\ttop\tlast\t2026-07-01 10:00\t* N\t\n",
    shows: BOTH,
    shown: &[
        "text 4\n* A\n\ntext 3\n* Z\n",
        "text 8\n* A\n* N\n\ntext 3\n* Z\n",
    ],
};

// No lines, over empty files.
pub const NOTHING: &Step = &Step {
    a: "",
    b: "",
    lines: "",
    shows: BOTH,
    shown: &["text 0\n\ntext 0\n\n"],
};
