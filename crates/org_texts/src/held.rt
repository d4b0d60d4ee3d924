//! The text of one file, edited in place, with its headings.
//!
//! The headings, where they are held, are those of the text as it is, whether or not its last line
//! has a newline. So they stay where a command only looked at the text, and the newline that it got
//! for that is taken back. A command's edits can be taken back without memory.
ghost use Rattle.std.specs.Prelude.{◌≡◌, ◌+◌, ◌≤◌, ◌∷◌, false, true, is_some, length, IfOk, IfSome, IsFalse, IsTrue, OnOk};
ghost use Rattle.org_splice.specs.Lines.{terminated};
ghost use Rattle.org_splice.specs.Texts.{terminated_text, settled, spliced, spliced_each};
ghost use Rattle.org_headings.specs.Headings.{headings_of, IsEdit};
ghost use Rattle.org_texts.specs.Held.{AreHeadsOf};
ghost use Rattle.org_texts.specs.Plan.{LieIn};

use crate::plan::Edits;
use org_headings::{Heads, is_terminated};
use org_splice::{Edit, Editing, Replaced};
use std::alloc::{AllocError, Global};
use std::marker::Model;

/// The text of a file, as it is and as it was before the command that runs, with its headings where
/// they are held. They are read when a command first needs them, follow each edit, and are let go
/// where there is no memory for that, where a last line has no newline before or after an edit, and
/// when an edit is taken back.
///
/// A clause sees specs/Held.antt.
#[derive(Drop)]
pub struct Held {
    text: Editing,
    heads: Option<Heads>,
    // Whether an edit can be taken back, other than the newline that makes a text ready.
    has_edits: bool,
}

impl Model for Held {
    ghost use Rattle.std.specs.Prelude.{◌≡◌, ◌&&◌, false, is_some};
    ghost use Rattle.org_splice.specs.Lines.{is_terminated, lines_of};
    ghost use Rattle.org_texts.specs.Held.{AreHeadsOf, HeldText};

    ghost Value = { HeldText };

    ghost view = { λ h. record {
      text = h.text.text;
      before = h.text.before;
      ready = is_some h.heads && is_terminated h.text.text.bytes;
    } };

    ghost invariant = { λ h. AreHeadsOf h.text.text.bytes h.heads
        × (h.has_edits ≡ false → lines_of h.text.text.bytes ≡ lines_of h.text.before.bytes) };
}

impl Held {
    /// The text of a file that has these bytes on the disk. Takes no memory.
    pub fn new(bytes: Vec<u8>) -> Held
        ensures { result
            ≡ record { text = settled bytes.items; before = settled bytes.items; ready = false } }
    {
        Held {
            text: Editing::new(bytes),
            heads: None,
            has_edits: false,
        }
    }

    /// The bytes of the text.
    pub fn bytes(&self) -> &[u8]
        ensures { result.now ≡ self.now.text.bytes }
    {
        self.text.bytes()
    }

    /// The text, as a commit is given it.
    pub fn text(&self) -> &Editing
        ensures { result.now ≡ record { text = self.now.text; before = self.now.before } }
    {
        &self.text
    }

    /// The headings of the text, where they are held and it is terminated.
    pub fn heads(&self) -> Option<&Heads>
        ensures ready { is_some result ≡ self.now.ready }
        ensures heads { IfSome result (λ heads. heads.now ≡ headings_of self.now.text.bytes) }
        ensures stays_terminated { IfSome result
            (λ heads. terminated self.now.text.bytes ≡ self.now.text.bytes) }
    {
        if is_terminated(self.text.bytes()) {
            self.heads.as_ref()
        } else {
            None
        }
    }

    /// Makes the text ready for a command: a last line without a newline gets one, and the headings
    /// are read where they aren't held.
    ///
    /// # Errors
    ///
    /// `AllocError`: the text may be terminated already.
    pub fn make_ready(&mut self, alloc: Global) -> Result<(), AllocError>
        ensures ok { OnOk result
            (self.new
            ≡ record
            { text = terminated_text self.old.text; before = self.old.before; ready = true }) }
        ensures before { self.new.before ≡ self.old.before }
    {
        self.text.terminate()?;
        if self.heads.is_some() {
            return Ok(());
        }
        let heads = Heads::read(alloc, self.text.bytes())?;
        self.heads = Some(heads);
        Ok(())
    }

    /// Makes edits, one after another, in place; what stands after edits that lie near one another
    /// moves once. The headings follow, where the text stays terminated.
    ///
    /// # Errors
    ///
    /// `AllocError`: some of the edits may be made already.
    pub fn apply(&mut self, edits: &Edits) -> Result<(), AllocError>
        requires { LieIn edits.now.items self.old.text.bytes }
        ensures text { OnOk result
            (self.new.text ≡ spliced_each edits.now.items self.old.text) }
        ensures before { self.new.before ≡ self.old.before }
    {
        let (first, rest) = edits.parts();
        if !rest.is_empty() && self.apply_near(first, rest)? {
            return Ok(());
        }
        self.apply_one(first)?;
        self.apply_each(rest)
    }

    // `apply` of edits that lie near one another; false, with the text as it was, where they don't.
    fn apply_near(&mut self, first: &Edit, rest: &[Edit]) -> Result<bool, AllocError>
        ensures made { IfOk result (λ made. IsTrue made
            → self.new.text ≡ spliced_each (first.now ∷ rest.now) self.old.text) }
        ensures far { IfOk result (λ made. IsFalse made → self.new.text ≡ self.old.text) }
        ensures before { self.new.before ≡ self.old.before }
    {
        let size = self.text.bytes().len();
        let was_terminated = is_terminated(self.text.bytes());
        self.has_edits = true;
        let Some(part) = self.text.apply_near(first, rest)? else {
            return Ok(false);
        };
        prove!(part.removed <= size);
        follow(&mut self.heads, was_terminated, self.text.bytes(), part);
        Ok(true)
    }

    // `apply` of the edits after the first.
    fn apply_each(&mut self, edits: &[Edit]) -> Result<(), AllocError>
        requires { LieIn edits.now self.old.text.bytes }
        ensures text { OnOk result (self.new.text ≡ spliced_each edits.now self.old.text) }
        ensures before { self.new.before ≡ self.old.before }
    {
        for edit in edits {
            self.apply_one(edit)?;
        }
        Ok(())
    }

    // Makes one edit.
    fn apply_one(&mut self, edit: &Edit) -> Result<(), AllocError>
        requires { edit.now.at + edit.now.removed ≤ length self.old.text.bytes }
        ensures text { OnOk result
            (self.new.text ≡ spliced edit.now.at edit.now.removed edit.now.bytes self.old.text) }
        ensures before { self.new.before ≡ self.old.before }
    {
        let size = self.text.bytes().len();
        prove!(edit.removed <= size);
        let was_terminated = is_terminated(self.text.bytes());
        self.has_edits = true;
        self.text.apply(edit)?;
        let part = Replaced {
            at: edit.at,
            removed: edit.removed,
            added: edit.bytes.len(),
        };
        follow(&mut self.heads, was_terminated, self.text.bytes(), part);
        Ok(())
    }

    /// Takes all edits back. The headings of a text that was edited are let go; those of one that
    /// was only made ready stay. Takes no memory, and can't fail.
    pub fn undo(&mut self)
        ensures text { self.new.text ≡ self.old.before }
        ensures before { self.new.before ≡ self.old.before }
    {
        if self.has_edits {
            self.heads = None;
        }
        if self.text.is_edited() {
            self.text.undo();
        }
        self.has_edits = false;
    }

    /// Keeps all edits: they can't be taken back any more. Takes no memory.
    pub fn keep(&mut self)
        ensures { self.new
            ≡ record { text = self.old.text; before = self.old.text; ready = self.old.ready } }
    {
        self.text.keep();
        self.has_edits = false;
    }

    /// Takes the text as it is for what the disk has. Takes no memory.
    pub fn settle(&mut self)
        ensures { self.new ≡ record {
          text = settled self.old.text.bytes;
          before = settled self.old.text.bytes;
          ready = self.old.ready;
        } }
    {
        self.text.settle();
        self.has_edits = false;
    }
}

// The headings of a text in which a part was replaced; without memory, and where the text wasn't
// terminated or isn't any more, they are let go.
fn follow(heads: &mut Option<Heads>, was_terminated: bool, after: &[u8], part: Replaced)
    requires { was_terminated ≡ true → terminated after.now ≡ after.now → IfSome heads.old
        (λ heads. IsEdit heads after.now part.at part.removed part.added) }
    ensures { AreHeadsOf after.now heads.new }
{
    if !was_terminated || !is_terminated(after) {
        *heads = None;
        return;
    }
    if let Some(held) = heads {
        let followed = held.edited(after, part.at, part.removed, part.added);
        if followed.is_err() {
            *heads = None;
        }
    }
}
