//! How a file that an open record names stands, by the times that the system keeps.
//!
//! The store that crashed wrote its journal last before it wrote the files of the record, and it
//! wrote those at once. So a file that changed much later was changed by another program, and so
//! was one that changed since the system started, where the journal didn't. The times are those of
//! the last change of status, which no program can set, and of birth, where the system tells it:
//! what another program puts in a file's place may have an older time of the one kind.
ghost use Rattle.org_folder.specs.Raw.{OnlyAsks};

use super::reach::there;
use super::way::{Ways, is_foreign};
use crate::calls::{Calls, Status, Time};
use crate::list::is_org_file;
use org_disk::{FileName, Standing};
use std::io;
use std::io::{Error, ErrorKind};

// How much later than its journal a file may have been written by the store that crashed, in
// seconds: as long as the writes of a record may take.
const LATEST: i64 = 60;

/// When the status of a file changed last, and when it was born.
#[derive(Clone, Copy)]
pub(super) struct Times {
    changed: Time,
    born: Option<Time>,
}

impl Times {
    pub(super) fn of(status: &Status) -> Times {
        Times {
            changed: status.changed,
            born: status.born,
        }
    }

    // The later of the two.
    fn last(&self) -> Time {
        match self.born {
            Some(born) if born.is_later_than(&self.changed) => born,
            _ => self.changed,
        }
    }
}

// So many seconds later.
fn after(time: &Time, seconds: i64) -> Time {
    Time {
        seconds: time.seconds.saturating_add(seconds),
        nanoseconds: time.nanoseconds,
    }
}

// How the file of a name stands beside a journal with these times. A file that isn't there stands
// as it was left: it was still to be made. The folders that lead to it are looked at again: the file
// may be open already, and is written next.
pub(super) fn stands<C: Calls>(
    ways: &mut Ways,
    calls: &mut C,
    name: &FileName,
    journal: Option<Times>,
) -> io::Result<Standing>
    ensures { OnlyAsks (C.made calls.old) (C.made calls.new) }
{
    match ways.try_again(calls, name) {
        Err(error) if error.kind() == ErrorKind::NotFound => return Ok(Standing::Left),
        Err(error) if is_foreign(&error) => return Ok(Standing::Outside),
        answer => answer?,
    }
    let Some(entry) = there(calls.link_stat(name.as_str()))? else {
        return Ok(Standing::Left);
    };
    if !entry.is_symlink() {
        return beside_journal(calls, &entry, journal);
    }
    match linked(ways, calls, name.as_str())? {
        Some(file) => beside_journal(calls, &file, journal),
        None => Ok(Standing::Outside),
    }
}

fn beside_journal<C: Calls>(
    calls: &mut C,
    file: &Status,
    journal: Option<Times>,
) -> io::Result<Standing>
    ensures { OnlyAsks (C.made calls.old) (C.made calls.new) }
{
    let Some(journal) = journal else {
        return Err(Error::from(ErrorKind::NotFound));
    };
    Ok(of_file(calls, &Times::of(file), &journal))
}

// The file that a link leads to, where it is one of the folder's Org files. A link that leads
// nowhere may lead anywhere.
fn linked<C: Calls>(ways: &mut Ways, calls: &mut C, link: &str) -> io::Result<Option<Status>>
    ensures { OnlyAsks (C.made calls.old) (C.made calls.new) }
{
    let Some(end) = there(calls.real_path(link))? else {
        return Ok(None);
    };
    let folder = calls.real_path("")?;
    let end = end.as_path();
    let Some(name) = name_in(folder.as_path().as_str(), end.as_str()) else {
        return Ok(None);
    };
    if !ways.leads_to(calls, name)? {
        return Ok(None);
    }
    let file = calls.stat(end.as_str())?;
    Ok(if file.is_file() { Some(file) } else { None })
}

// The name that a path has in a folder, where it is an Org file's there.
fn name_in<'a>(folder: &str, path: &'a str) -> Option<&'a str> {
    let name = path.strip_prefix(folder)?.trim_start_matches('/');
    if is_org_file(name) { Some(name) } else { None }
}

// How a file with these times stands beside its journal. The system is asked when it started where
// that makes a difference.
fn of_file<C: Calls>(calls: &mut C, file: &Times, journal: &Times) -> Standing
    ensures { OnlyAsks (C.made calls.old) (C.made calls.new) }
{
    let last = file.last();
    if last.is_later_than(&after(&journal.last(), LATEST)) {
        return Standing::Changed;
    }
    if !last.is_later_than(&journal.changed) {
        return Standing::Left;
    }
    match boot(calls) {
        Some(boot) if journal.changed.seconds < boot && boot < last.seconds => Standing::Changed,
        _ => Standing::Left,
    }
}

// When the system started, in seconds since 1970, as proc(5) says it in /proc/stat.
fn boot<C: Calls>(calls: &mut C) -> Option<i64>
    ensures { OnlyAsks (C.made calls.old) (C.made calls.new) }
{
    let text = calls.text("/proc/stat").ok()?;
    started(text.as_str())
}

fn started(text: &str) -> Option<i64> {
    for line in text.lines() {
        if let Some(seconds) = line.strip_prefix("btime ") {
            return seconds.trim().parse().ok();
        }
    }
    None
}
