//! Edits of the planning line (Org manual, "Closing items", "Repeated tasks").
//!
//! A line that isn't well formed is odd, and never edited. Entries that an edit doesn't mean keep
//! their bytes.
ghost use Rattle.std.specs.Prelude.{◌≡◌, ◌⊎◌, ◌<◌, ◌≤◌, ℕ, List, length, None, Some, Ok, Err, IfOk, IfErr, OnOk, MatchOption, true, false, [], ◌∷◌, ◌++◌};
ghost use Rattle.org_splice.specs.Lines.{print_lines, lines_of};
ghost use Rattle.org_meta.specs.Edits.{ChangesNothing};
ghost use Rattle.org_meta.specs.Sections.{parts_of, split};
ghost use Rattle.org_fault.specs.Faults.{IfRefused};
ghost use Rattle.org_fault.specs.declared.refusal.Refusal.TheVariants.{OddPlanning};
ghost use Rattle.org_meta.specs.Planning.{entries_at, each_once, planning_of, is_closed, has_closed_entry, entry_text, kept_text, closed_text, without_closed, with_closed, clear_closed, set_closed, is_repeating, has_repeater, AreRepeated, IsRepeatedEntry};
ghost use Rattle.org_meta.specs.Replans.{RewritesOk, PutsRepeated, PutsAllRepeated, RewritesRepeated, IsRefusedRepeat, repeated_line};

use crate::entry::{
    Entry, Planning, Word, entry_at, has_closed, has_others, is_closed, is_line_end, is_once,
    split_blanks, word_text,
};
use crate::lines::Lines;
use crate::moments::{moment_bytes, push_moment};
use crate::split::sections;
use crate::texts::push_all;
use org_fault::{Fault, Refusal};
use org_splice::{Bytes, Edit};
use org_stamp::Moment;
use std::alloc::{AllocError, Global};

/// The entries of a planning line from its first word on, at most three, and what is left of the
/// line: blanks and carriage returns. None where the line is odd.
fn read_entries<'a>(
    alloc: Global,
    text: &'a [u8],
) -> Result<Option<(Vec<Entry<'a>>, &'a [u8])>, AllocError>
    ensures { IfOk result (λ found. MatchOption found (entries_at 3 text.now ≡ None)
        (λ r. entries_at 3 text.now ≡ Some (r.0.items, r.1.now))) }
{
    let mut entries = Vec::new(alloc);
    let mut left = text;
    for _ in 0..3usize {
        if is_line_end(left) {
            return Ok(Some((entries, left)));
        }
        let Some((entry, rest)) = entry_at(left) else {
            return Ok(None);
        };
        entries.push(entry)?;
        left = rest;
    }
    if is_line_end(left) {
        Ok(Some((entries, left)))
    } else {
        Ok(None)
    }
}

/// The planning line, if it is well formed.
fn read_planning(alloc: Global, line: &[u8]) -> Result<Planning<'_>, Fault<Refusal>>
    ensures ok { IfOk result (λ p. planning_of line.now ≡ Some p) }
    ensures err { IfRefused result (λ why.
        (why ≡ OddPlanning) × (planning_of line.now ≡ None)) }
{
    let (indentation, text) = split_blanks(line);
    let Some((entries, tail)) = read_entries(alloc, text)? else {
        return Err(Fault::Refused(Refusal::OddPlanning));
    };
    if !each_once(&entries) {
        return Err(Fault::Refused(Refusal::OddPlanning));
    }
    Ok(Planning {
        indentation,
        entries,
        tail,
    })
}

/// Whether each word stands at most once.
fn each_once(entries: &[Entry]) -> bool
    ensures { result ≡ each_once entries.now }
{
    is_once(Word::Closed, entries)
        && is_once(Word::Deadline, entries)
        && is_once(Word::Scheduled, entries)
}

/// The entry's text with these bytes for those of its stamp.
fn push_with_stamp<'a>(
    out: &mut Vec<u8>,
    entry: &'a Entry<'a>,
    stamp: &'a [u8],
) -> Result<(), AllocError>
    ensures { OnOk result (out.new.items ≡ out.old.items
        ++ entry_text (record entry.now { text = stamp.now })) }
{
    out.extend_from_slice(word_text(entry.word))?;
    push_all(out, &[entry.gap, stamp, entry.after])
}

/// The entry's text.
fn push_entry(out: &mut Vec<u8>, entry: &Entry) -> Result<(), AllocError>
    ensures { OnOk result (out.new.items ≡ out.old.items ++ entry_text entry.now) }
{
    push_with_stamp(out, entry, entry.text)
}

/// The texts of all entries but CLOSED.
fn push_kept(out: &mut Vec<u8>, entries: &[Entry]) -> Result<(), AllocError>
    ensures { OnOk result (out.new.items ≡ out.old.items ++ kept_text entries.now) }
{
    for entry in entries {
        if !is_closed(entry) {
            push_entry(out, entry)?;
        }
    }
    Ok(())
}

/// `CLOSED:` and the moment's stamp, with a newline.
fn closed_line(alloc: Global, now: Moment) -> Result<Vec<u8>, AllocError>
    ensures { IfOk result (λ bytes. bytes.items ≡ closed_text now ++ 10 ∷ []) }
{
    moment_bytes(alloc, b"CLOSED: ", now, b"\n")
}

/// The texts of all entries but CLOSED, and the line's end with its newline.
fn push_others(out: &mut Vec<u8>, planning: &Planning) -> Result<(), AllocError>
    ensures { OnOk result (out.new.items ≡ out.old.items
        ++ (kept_text planning.now.entries ++ (planning.now.tail ++ 10 ∷ []))) }
{
    push_kept(out, &planning.entries)?;
    push_all(out, &[planning.tail, b"\n"])
}

/// The planning line without its CLOSED entry, if anything is left of it, with its newline.
fn without_closed(alloc: Global, planning: &Planning) -> Result<Vec<u8>, AllocError>
    ensures { IfOk result (λ bytes. bytes.items ≡ print_lines (without_closed planning.now)) }
{
    if !has_others(&planning.entries) {
        return Ok(Vec::new(alloc));
    }
    let mut bytes = Vec::from_slice(alloc, planning.indentation)?;
    push_others(&mut bytes, planning)?;
    Ok(bytes)
}

/// The planning line with the moment's CLOSED entry first, with its newline.
fn with_closed(alloc: Global, planning: &Planning, now: Moment) -> Result<Vec<u8>, AllocError>
    ensures { IfOk result (λ bytes. bytes.items ≡ with_closed now planning.now ++ 10 ∷ []) }
{
    if !has_others(&planning.entries) {
        return closed_line(alloc, now);
    }
    let mut bytes = Vec::from_slice(alloc, planning.indentation)?;
    push_moment(&mut bytes, b"CLOSED: ", now, b" ")?;
    push_others(&mut bytes, planning)?;
    Ok(bytes)
}

/// Whether the entry has an active SCHEDULED or DEADLINE stamp whose repeater isn't 0.
fn is_repeating(entry: &Entry) -> bool
    ensures { result ≡ is_repeating entry.now }
{
    !is_closed(entry) && entry.stamp.is_active() && entry.stamp.repeats()
}

/// The entry's text at its next repetition; one that doesn't repeat stays, and CLOSED has none.
fn push_repeated(out: &mut Vec<u8>, entry: &Entry, now: Moment) -> Result<(), Fault<Refusal>>
    ensures ok { OnOk result (PutsRepeated entry.now now out.old.items out.new.items) }
    ensures err { IfRefused result (λ why. IsRepeatedEntry entry.now now (Err why)) }
{
    if is_closed(entry) {
        return Ok(());
    }
    if !is_repeating(entry) {
        push_entry(out, entry)?;
        return Ok(());
    }
    let stamp = entry.stamp.repeat(now)?;
    let text = stamp.print(*out.allocator())?;
    push_with_stamp(out, entry, &text)?;
    Ok(())
}

/// The texts of all entries at their next repetition.
fn push_all_repeated(
    out: &mut Vec<u8>,
    entries: &[Entry],
    now: Moment,
) -> Result<(), Fault<Refusal>>
    ensures ok { OnOk result (PutsAllRepeated entries.now now out.old.items out.new.items) }
    ensures err { IfRefused result (λ why. AreRepeated entries.now now (Err why)) }
{
    for entry in entries {
        push_repeated(out, entry, now)?;
    }
    Ok(())
}

/// The planning line with each entry at its next repetition, with its newline.
fn repeated(alloc: Global, planning: &Planning, now: Moment) -> Result<Vec<u8>, Fault<Refusal>>
    ensures ok { IfOk result (λ bytes. (text : List ℕ)
        × AreRepeated planning.now.entries now (Ok text)
        × (bytes.items ≡ repeated_line planning.now text ++ 10 ∷ [])) }
    ensures err { IfRefused result (λ why. AreRepeated planning.now.entries now (Err why)) }
{
    let mut bytes = Vec::from_slice(alloc, planning.indentation)?;
    push_all_repeated(&mut bytes, &planning.entries, now)?;
    push_all(&mut bytes, &[planning.tail, b"\n"])?;
    Ok(bytes)
}

/// The edit that changes nothing.
fn nothing(alloc: Global) -> Edit
    ensures { ChangesNothing result }
{
    Edit {
        at: 0,
        removed: 0,
        bytes: Bytes::new(Vec::new(alloc)),
    }
}

/// The edit that puts these bytes in the place of the planning line, or before the drawer where
/// there is none.
fn replacing(line: &[u8], bytes: Vec<u8>) -> Edit
    ensures { result ≡ record { at = 0; removed = length line.now; bytes = bytes.items } }
{
    Edit {
        at: 0,
        removed: line.len(),
        bytes: Bytes::new(bytes),
    }
}

/// The edit that takes the CLOSED entry away, with the blanks after it; a planning line left
/// without entries goes whole. Where there is none, the edit changes nothing.
///
/// # Errors
///
/// - `OddPlanning`: the planning line isn't well formed (Org Syntax, "Planning").
/// - `OutOfMemory`.
pub fn clear_closed(alloc: Global, section: Lines<'_>) -> Result<Edit, Fault<Refusal>>
    ensures ok { let text = section.entry.bytes.now in
        IfOk result (RewritesOk (clear_closed (parts_of text)) text) }
    ensures nothing { IfOk result (λ edit.
        has_closed_entry (parts_of section.entry.bytes.now).planning ≡ false
        → ChangesNothing edit) }
    ensures err { IfRefused result (λ why.
        clear_closed (parts_of section.entry.bytes.now) ≡ Err why) }
{
    let line = sections(section).planning;
    let Some((text, _rest)) = line.first() else {
        return Ok(nothing(alloc));
    };
    let planning = read_planning(alloc, text)?;
    if !has_closed(&planning.entries) {
        return Ok(nothing(alloc));
    }
    Ok(replacing(line.bytes, without_closed(alloc, &planning)?))
}

/// The edit that puts `CLOSED: [stamp]` first in the planning line, in the place of the CLOSED
/// entry that it has, or as a new planning line (Org manual, "Closing items").
///
/// # Errors
///
/// - `OddPlanning`: the planning line isn't well formed.
/// - `OutOfMemory`.
pub fn set_closed(alloc: Global, section: Lines<'_>, now: Moment) -> Result<Edit, Fault<Refusal>>
    ensures ok { let text = section.entry.bytes.now in
        IfOk result (RewritesOk (set_closed now (parts_of text)) text) }
    ensures err { IfRefused result (λ why.
        set_closed now (parts_of section.entry.bytes.now) ≡ Err why) }
{
    let line = sections(section).planning;
    let Some((text, _rest)) = line.first() else {
        return Ok(replacing(line.bytes, closed_line(alloc, now)?));
    };
    let planning = read_planning(alloc, text)?;
    Ok(replacing(line.bytes, with_closed(alloc, &planning, now)?))
}

/// The edit that repeats each SCHEDULED or DEADLINE stamp that has a repeater, and takes the CLOSED
/// entry away (Org manual, "Repeated tasks"); None where no stamp repeats.
///
/// # Errors
///
/// - `OddPlanning`: the planning line isn't well formed.
/// - `BadRepeat`, `DateRange`: a stamp can't be repeated (`Stamp::repeat`); of several the first
///   entry's.
/// - `OutOfMemory`.
pub fn repeat_planning(
    alloc: Global,
    section: Lines<'_>,
    now: Moment,
) -> Result<Option<Edit>, Fault<Refusal>>
    ensures ok { let text = section.entry.bytes.now in
        IfOk result (RewritesRepeated now (parts_of text) text) }
    ensures err { IfRefused result
        (IsRefusedRepeat now (parts_of section.entry.bytes.now).planning) }
{
    let line = sections(section).planning;
    let Some((text, _rest)) = line.first() else {
        return Ok(None);
    };
    let planning = read_planning(alloc, text)?;
    if !has_repeater(&planning.entries) {
        return Ok(None);
    }
    let bytes = repeated(alloc, &planning, now)?;
    Ok(Some(replacing(line.bytes, bytes)))
}

/// Whether a stamp repeats.
fn has_repeater(entries: &[Entry]) -> bool
    ensures { result ≡ has_repeater entries.now }
{
    entries.iter().any(is_repeating)
}
