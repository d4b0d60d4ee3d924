//! A heading put into another state, with what its planning line and notes get from it.
//!
//! Edits are answered the last first, so that each stands where it does in the text as it was.
ghost use Rattle.std.specs.Prelude.{◌≡◌, ◌≤◌, ◌+◌, [], ◌∷◌, ℕ, List, length, codes, Some, Ok, IfOk, IfErr};
ghost use Rattle.org_splice.specs.Lines.{print_lines};
ghost use Rattle.org_meta.specs.Edits.{Rewrites, RewritesParts};
ghost use Rattle.org_meta.specs.Moments.{moment_text};
ghost use Rattle.org_meta.specs.Planning.{clear_closed, set_closed};
ghost use Rattle.org_meta.specs.Replans.{RewritesRepeated};
ghost use Rattle.org_meta.specs.Notes.{note_line, with_note};
ghost use Rattle.org_meta.specs.Sections.{split, parts_of, joined, put};
ghost use Rattle.org_state.specs.Answers.{AnswersTodo};
ghost use Rattle.org_state.specs.Change.{AnswersChange, states_of};
ghost use Rattle.org_state.specs.OwnLines.{document_of, own_of};
ghost use Rattle.org_fault.specs.declared.fault.Fault.TheVariants.{OutOfMemory};
ghost use Rattle.org_state.specs.Edits.{moved, section_start};
ghost use Rattle.org_state.specs.Todo.{with_lines, changed, repeating, TurnsDone, IsChanged};

use crate::keyword::is_state;
use crate::own::{OwnLines, above_rest};
use org_fault::{Fault, Refusal};
use org_meta::{
    Lines, add_note, clear_closed, put_property, repeat_planning, sections, set_closed,
};
use org_outline::{Outline, Step};
use org_splice::Edit;
use org_stamp::{Moment, Stamp};
use std::alloc::{AllocError, Global};

/// The edit that puts the property LAST_REPEAT into a section.
fn last_repeat(alloc: Global, section: Lines<'_>, now: Moment) -> Result<Edit, AllocError>
    ensures { IfOk result (λ edit. RewritesParts edit section.entry.bytes.now
        (put (codes "LAST_REPEAT") (moment_text now) (parts_of section.entry.bytes.now))) }
{
    let stamp = Stamp::at(now, false, true).print(alloc)?;
    put_property(alloc, section, b"LAST_REPEAT", &stamp)
}

/// The edits of a section that say of a repetition: the note of its two states, and the property
/// LAST_REPEAT, above the rest.
fn noted(
    alloc: Global,
    section: Lines<'_>,
    new: &[u8],
    old: &[u8],
    now: Moment,
) -> Result<(Edit, Edit), AllocError>
    ensures { let parts = parts_of section.entry.bytes.now in
        let above = print_lines (joined (record parts { rest = [] })) in
        IfOk result (λ edits.
        RewritesParts edits.0 section.entry.bytes.now
        (with_note (note_line new.now old.now now) parts)
        × RewritesParts edits.1 above
        (put (codes "LAST_REPEAT") (moment_text now) (parts_of above))) }
{
    let note = add_note(alloc, section, new, old, now)?;
    let property = last_repeat(alloc, above_rest(section), now)?;
    Ok((note, property))
}

/// A heading that is to get another state, and the moment.
#[derive(Drop)]
struct Change<'o, 't, 's> {
    own: OwnLines<'o, 't>,
    state: &'s [u8],
    moment: Moment,
}

impl Change<'_, '_, '_> {
    /// An edit of the heading's section, and that of its keyword.
    fn with_section(&self, alloc: Global, edit: Edit) -> Result<Vec<Edit>, Fault<Refusal>>
        requires { edit.at + edit.removed ≤ length (print_lines (own_of self.now.own).section) }
        ensures { let own = own_of self.now.own in
            (new : List (List ℕ)) → Rewrites edit (print_lines own.section) new
            → AnswersChange (λ r. r ≡ Ok (with_lines (states_of self.now) self.now.state.now own
            new)) self.now result }
    {
        let keyword = self.own.keyword_edit(alloc, self.state)?;
        Ok(vec![in alloc; self.own.in_section(edit), keyword]?)
    }

    /// The edits of an entry that turns back: its CLOSED entry goes.
    fn turn_back(&self, alloc: Global) -> Result<Vec<Edit>, Fault<Refusal>>
        ensures { let own = own_of self.now.own in
            AnswersChange (λ r. r ≡ changed (states_of self.now) self.now.state.now own
            (clear_closed (split own.section))) self.now result }
    {
        let edit = clear_closed(alloc, self.own.section())?;
        self.with_section(alloc, edit)
    }

    /// The edits of the heading's section, as edits of the text, and that of its keyword: the last
    /// first, so that each stands where it does in the text as it was.
    fn last_first(
        &self,
        alloc: Global,
        note: Edit,
        property: Edit,
        planning: Edit,
        keyword: Edit,
    ) -> Result<Vec<Edit>, Fault<Refusal>>
        requires note { note.at + note.removed
            ≤ length (print_lines (own_of self.now.own).section) }
        requires property { property.at + property.removed
            ≤ length (print_lines (own_of self.now.own).section) }
        requires planning { planning.at + planning.removed
            ≤ length (print_lines (own_of self.now.own).section) }
        ensures ok { let start = section_start (document_of self.now.own) self.now.own.node in
            IfOk result (λ edits. edits.items ≡ moved start note ∷ moved start property
            ∷ moved start planning ∷ keyword ∷ []) }
        ensures err { IfErr result (λ fault. fault ≡ OutOfMemory) }
    {
        let edits = [
            self.own.in_section(note),
            self.own.in_section(property),
            self.own.in_section(planning),
            keyword,
        ];
        Ok(Vec::from_array(alloc, edits)?)
    }

    /// The edits of a repeated task that turns done, where `planning` repeats its planning line.
    fn repeat(&self, alloc: Global, planning: Edit) -> Result<Vec<Edit>, Fault<Refusal>>
        requires { let line = print_lines (split (own_of self.now.own).section).planning in
            RewritesRepeated self.now.moment (parts_of line) line (Some planning) }
        ensures { let own = own_of self.now.own in
            AnswersChange (TurnsDone (states_of self.now) self.now.state.now self.now.moment
            own (repeating (split own.section).planning)) self.now result }
    {
        let active = self.own.outline.states().first_active().as_bytes();
        let keyword = self.own.keyword_edit(alloc, active)?;
        let section = self.own.section();
        let old = self.own.outline.parts(self.own.node).keyword;
        let (note, property) = noted(alloc, section, self.state, old, self.moment)?;
        self.last_first(alloc, note, property, planning, keyword)
    }

    /// The edits of an entry that turns done and isn't repeated: it gets a CLOSED entry.
    fn close(&self, alloc: Global) -> Result<Vec<Edit>, Fault<Refusal>>
        ensures { let own = own_of self.now.own in
            AnswersChange (λ r. r ≡ changed (states_of self.now) self.now.state.now own
            (set_closed self.now.moment (split own.section))) self.now result }
    {
        let edit = set_closed(alloc, self.own.section(), self.moment)?;
        self.with_section(alloc, edit)
    }

    /// The edits of an entry that turns done: its planning is repeated, or else it gets a CLOSED
    /// entry.
    fn turn_done(&self, alloc: Global) -> Result<Vec<Edit>, Fault<Refusal>>
        ensures { let own = own_of self.now.own in
            AnswersChange (TurnsDone (states_of self.now) self.now.state.now self.now.moment
            own (repeating (split own.section).planning)) self.now result }
    {
        let line = sections(self.own.section()).planning;
        match repeat_planning(alloc, line, self.moment)? {
            Some(planning) => self.repeat(alloc, planning),
            None => self.close(alloc),
        }
    }

    /// The edits of a heading whose keyword alone changes.
    fn reword(&self, alloc: Global) -> Result<Vec<Edit>, Fault<Refusal>>
        ensures { let own = own_of self.now.own in
            AnswersChange (λ r. r ≡ Ok (with_lines (states_of self.now) self.now.state.now
            own own.section)) self.now result }
    {
        let keyword = self.own.keyword_edit(alloc, self.state)?;
        Ok(vec![in alloc; keyword]?)
    }

    /// The edits of a heading that gets another state than it has.
    fn edits(&self, alloc: Global) -> Result<Vec<Edit>, Fault<Refusal>>
        ensures { AnswersChange (IsChanged (states_of self.now) self.now.state.now
            self.now.moment (own_of self.now.own)) self.now result }
    {
        let states = self.own.outline.states();
        let was_done = states.is_done(self.own.outline.parts(self.own.node).keyword);
        let is_done = states.is_done(self.state);
        if was_done && !is_done {
            return self.turn_back(alloc);
        }
        if is_done && !was_done {
            return self.turn_done(alloc);
        }
        self.reword(alloc)
    }
}

/// The edits, to be made in this order, that put the heading at `path` into another state, or into
/// none where `state` is empty (Org manual, "Basic TODO functionality"); no edits where it has that
/// state already, and then nothing changes.
///
/// An entry that turns done, from an active state or none, gets the CLOSED entry of the moment
/// ("Closing items"). But where an active SCHEDULED or DEADLINE timestamp of it has a repeater that
/// isn't 0, each such timestamp is repeated, the keyword becomes the first active state, a CLOSED
/// entry goes, the property LAST_REPEAT gets the moment, and a note of the two states goes before
/// the rest of the section ("Repeated tasks"). An entry that was done and turns back loses its
/// CLOSED entry. The heading that is left may read as one of another state again: `* TODO TODO A`
/// without its keyword is `* TODO A`.
///
/// # Errors
///
/// In this order: `NotFound` or `NotUnique` of `path`; `UnknownState`; for an entry that turns done
/// or back, `OddPlanning` where its planning line isn't well formed; for one that is repeated,
/// `BadRepeat` or `DateRange`, of several the first entry's; and `OutOfMemory`.
///
/// # Examples
///
/// `path` leads to `A`, and `now` is 2026-07-01 10:00:
///
/// ```
/// let outline = Outline::read(alloc, b"* TODO A\n", &states)?;
/// let edits = todo(alloc, &outline, &path, b"DONE", now)?;
/// assert_eq!(rt; edits.len(), 2);
/// let mut text = Editing::new(outline.text().to_vec(alloc)?);
/// text.apply_near(&edits[0], &edits[1..])?;
/// let done = b"* DONE A\nCLOSED: [2026-07-01 Wed 10:00]\n";
/// assert_eq!(rt; text.bytes(), done.as_slice());
/// ```
pub fn todo(
    alloc: Global,
    outline: &Outline<'_>,
    path: &[Step],
    state: &[u8],
    now: Moment,
) -> Result<Vec<Edit>, Fault<Refusal>>
    ensures { AnswersTodo outline.now.states path.now state.now now outline.now.text
        result }
{
    let node = outline.find(path)?;
    if !is_state(outline.states(), state) {
        return Err(Fault::Refused(Refusal::UnknownState));
    }
    if outline.parts(node).keyword == state {
        return Ok(Vec::new(alloc));
    }
    let change = Change {
        own: OwnLines { outline, node },
        state,
        moment: now,
    };
    change.edits(alloc)
}
