//! The names of files.
use super::{hold, hold_row, name_of};
use org_disk::FileName;
use std::alloc::Global;
use std::process::Abort;

// So many letters in front of this.
fn with_letters(rt: &impl Abort, alloc: Global, letters: usize, end: &str) -> String {
    let mut text = "a".repeat(alloc, letters).expect(rt, "memory");
    text.push_str(end).expect(rt, "memory");
    text
}

// Whether so many letters and this after them are the name of a file.
fn is_accepted(rt: &impl Abort, alloc: Global, letters: usize, end: &str) -> bool {
    let text = with_letters(rt, alloc, letters, end);
    let text = text.as_str();
    FileName::accepts(text) && name_of(rt, alloc, text).as_str() == text
}

// Texts, each with letters in front of it, and whether each is the name of a file.
const NAMES: &[(usize, &str, bool)] = &[
    (0, "a.org", true),
    (0, "Zettel über.org", true),
    (0, "x.org_archive.org", true),
    (0, "~.org", true),
    (0, "a.org_archive", true),
    (0, "", false),
    (0, "a.txt", false),
    (0, ".org", false),
    (0, ".org_archive", false),
    (0, "a/b.org", true),
    (0, "a/b c/d.org_archive", true),
    (0, "a_archive/b.org", true),
    (0, "../b.org", false),
    (0, "a/../b.org", false),
    (0, "a/./b.org", false),
    (0, "/b.org", false),
    (0, "a//b.org", false),
    (0, "a/", false),
    (0, "a/.org", false),
    (0, "a/.git/b.org", false),
    (0, "a.org/b.org", false),
    (0, "a.org_archive/b.org", false),
    (200, "/b.org", true),
    (201, "/b.org", false),
    (0, "a\x1F.org", false),
    (0, "a\x7F.org", false),
    (0, "a.ORG", false),
    (0, "a.org_archive_archive", false),
    (0, "orgstore.journal", false),
    (196, ".org", true),
    (196, ".org_archive", true),
    (197, ".org", false),
    (197, ".org_archive", false),
];

#[test]
fn accepted_names(rt: HostRuntime) {
    let alloc = rt.alloc();
    for (i, (letters, end, accepted)) in NAMES.iter().enumerate() {
        hold_row(&rt, is_accepted(&rt, alloc, *letters, end) == *accepted, i);
    }
}

// A name, the path of the folder that it leads through, and its last part.
const WAYS: &[(&str, &str, &str)] = &[
    ("a.org", "", "a.org"),
    ("a/b.org", "a/", "b.org"),
    ("ä/b c/d.org_archive", "ä/b c/", "d.org_archive"),
];

#[test]
fn ways(rt: HostRuntime) {
    let alloc = rt.alloc();
    for (i, (name, folder, last)) in WAYS.iter().enumerate() {
        let name = name_of(&rt, alloc, name);
        let is_right = name.folder() == *folder && name.last_part() == *last;
        hold_row(&rt, is_right, i);
    }
}

// Nine folders of 99 letters each, and after them so many letters and this.
fn deep(rt: &impl Abort, alloc: Global, letters: usize, end: &str) -> String {
    let folder = with_letters(rt, alloc, 99, "/");
    let mut text = folder.as_str().repeat(alloc, 9).expect(rt, "memory");
    text.push_str(&with_letters(rt, alloc, letters, end))
        .expect(rt, "memory");
    text
}

#[test]
fn longest_names(rt: HostRuntime) {
    let alloc = rt.alloc();
    hold(&rt, FileName::accepts(&deep(&rt, alloc, 96, ".org")));
    hold(
        &rt,
        FileName::accepts(&deep(&rt, alloc, 96, ".org_archive")),
    );
    hold(&rt, !FileName::accepts(&deep(&rt, alloc, 97, ".org")));
    hold(
        &rt,
        !FileName::accepts(&deep(&rt, alloc, 97, ".org_archive")),
    );
}

// Whether this is the archive file of inbox.org, comes after it, and neither is the other.
fn is_archive_of(archive: &FileName, inbox: &FileName) -> bool {
    archive.as_str() == "inbox.org_archive"
        && archive.is_archive()
        && !inbox.is_archive()
        && inbox < archive
        && archive != inbox
}

// The name is no archive's.
fn is_journal(journal: &FileName) -> bool {
    journal.as_str() == "orgstore.journal" && !journal.is_archive()
}

#[test]
fn archives(rt: HostRuntime) {
    let alloc = rt.alloc();
    let inbox = name_of(&rt, alloc, "inbox.org");
    let archive = inbox.archive().expect(&rt, "memory");
    hold(&rt, is_archive_of(&archive, &inbox));
    hold(&rt, inbox.clone().expect(&rt, "memory") == inbox);
    let journal = FileName::journal_name(alloc).expect(&rt, "memory");
    hold(&rt, is_journal(&journal));
}
