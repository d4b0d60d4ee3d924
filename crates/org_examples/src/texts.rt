//! Examples of the crates that know texts and no disk.
use crate::shared::{now, states, step};
use org_capture::{Target, capture, entry};
use org_outline::{Outline, Path, Place, Step};
use org_splice::{Bytes, Editing};
use org_stamp::{Moment, Stamp};
use org_state::todo;
use std::test::Fail;

/// `org_splice::Editing::splice`
#[test]
fn splice(rt: HostRuntime) -> Result<(), Fail> {
    let alloc = rt.alloc();
    // Shown:
    let mut text = Editing::new(b"* A\n* B\n".to_vec(alloc)?);
    text.splice(2, 1, b"C")?;
    text.splice(6, 1, b"D")?;
    assert_eq!(rt; text.bytes(), b"* C\n* D\n".as_slice());
    assert_eq!(rt; text.patches()?.len(), 2);
    text.undo();
    assert_eq!(rt; text.bytes(), b"* A\n* B\n".as_slice());
    Ok(())
}

/// `org_stamp::Stamp::read`
#[test]
fn stamp_read(rt: HostRuntime) -> Result<(), Fail> {
    // Shown:
    let (stamp, length) = Stamp::read(b"<2007-05-16 Wed 12:30 +1w> Sam").ok_or("no stamp")?;
    assert_eq!(rt; length, 26);
    assert!(rt; stamp.is_active() && stamp.has_time() && stamp.repeats());
    assert_eq!(rt; stamp.moment().day(), 16);
    assert!(rt; Stamp::read(b"<2026-02-29>").is_none());
    Ok(())
}

/// `org_stamp::Stamp::repeat`
#[test]
fn stamp_repeat(rt: HostRuntime) -> Result<(), Fail> {
    let alloc = rt.alloc();
    // Shown:
    let (rent, _) = Stamp::read(b"<2005-10-01 Sat +1m>").ok_or("no stamp")?;
    let now = Moment::new(2005, 10, 3, 9, 5).ok_or("no moment")?;
    let next = rent.repeat(now)?.print(alloc)?;
    assert_eq!(rt; next.as_slice(), b"<2005-11-01 Tue +1m>".as_slice());
    Ok(())
}

/// `org_outline::Outline::find`
#[test]
fn outline_find(rt: HostRuntime) -> Result<(), Fail> {
    let alloc = rt.alloc();
    let states = states(alloc)?;
    // Shown:
    let outline = Outline::read(alloc, b"* TODO A :x:\n* A\n", &states)?;
    let second = Step {
        title: Bytes::new(b"A".to_vec(alloc)?),
        number: Some(2),
    };
    assert_eq!(rt; outline.find(&[second])?.number(), 1);
    Ok(())
}

/// `org_capture::capture`
#[test]
fn capture_into_a_day(rt: HostRuntime) -> Result<(), Fail> {
    let alloc = rt.alloc();
    let states = states(alloc)?;
    let now = now()?;
    // Shown:
    let outline = Outline::read(alloc, b"* 2027\n", &states)?;
    let day = Target::Date(Path::new(Vec::new(alloc)));
    let entry = entry(b"* N".to_vec(alloc)?)?;
    let edit = capture(alloc, &outline, &day, Place::Last, now, entry)?;
    let made = b"* 2026\n** 2026-07 July\n*** 2026-07-01 Wednesday\n**** N\n";
    assert_eq!(rt; edit.at, 0);
    assert_eq!(rt; edit.bytes.as_slice(), made.as_slice());
    Ok(())
}

/// `org_state::todo`
#[test]
fn todo_turns_done(rt: HostRuntime) -> Result<(), Fail> {
    let alloc = rt.alloc();
    let states = states(alloc)?;
    let path = [step(alloc, "A")?];
    let now = now()?;
    // Shown:
    let outline = Outline::read(alloc, b"* TODO A\n", &states)?;
    let edits = todo(alloc, &outline, &path, b"DONE", now)?;
    assert_eq!(rt; edits.len(), 2);
    let mut text = Editing::new(outline.text().to_vec(alloc)?);
    text.apply_near(&edits[0], &edits[1..])?;
    let done = b"* DONE A\nCLOSED: [2026-07-01 Wed 10:00]\n";
    assert_eq!(rt; text.bytes(), done.as_slice());
    Ok(())
}
