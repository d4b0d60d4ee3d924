//! Bytes of a file put in the place of others, whatever lines they are part of.
//!
//! No heading is read, and no last line gets a newline.
ghost use Rattle.std.specs.Prelude.{◌≡◌, ◌≢◌, ◌+◌, ◌≤◌, [], length, IsTrue};
ghost use Rattle.org_splice.specs.Edits.{applied};
ghost use Rattle.org_splice.specs.Lines.{terminated};
ghost use Rattle.org_splice.specs.Replaced.{has_at};
ghost use Rattle.org_outline.specs.States.{Keywords};
ghost use Rattle.org_commands.specs.Edit.{Replaces};
ghost use Rattle.org_commands.specs.Files.{AreReadyForCommand};
ghost use Rattle.org_commands.specs.Planning.{PlansFor};

use crate::command::{Change, Edit, RunFault};
use crate::commands::plans::plan_of_one;
use crate::files::Files;
use org_disk::Disk;
use org_fault::Refusal;
use org_splice::{Bytes, Edit as Splice};
use org_texts::{NameOf, Plan};
use std::alloc::Global;

/// Whether a text has these bytes from the byte position `at` on.
fn has_at(text: &[u8], at: usize, old: &[u8]) -> bool
    ensures { result ≡ has_at text.now at old.now }
{
    at <= text.len() && text[at..].starts_with(old)
}

/// The edit of a text that a command asks for. It is refused where the bytes that are to give way
/// don't stand there.
fn replacement(alloc: Global, text: &[u8], command: &Edit<'_>) -> Result<Splice, RunFault>
    ensures { Replaces text.now command.now.at command.now.old command.now.new result }
{
    let old = command.old.as_slice();
    if !has_at(text, command.at, old) {
        return Err(RunFault::Refused(Refusal::NotThere));
    }
    let new = Vec::from_slice(alloc, command.new.as_slice())?;
    Ok(Splice {
        at: command.at,
        removed: old.len(),
        bytes: Bytes::new(new),
    })
}

/// Whether bytes end in a newline.
fn ends_line(bytes: &[u8]) -> bool
    ensures terminated { IsTrue result → terminated bytes.now ≡ bytes.now }
    ensures some { IsTrue result → bytes.now ≢ [] }
{
    match bytes.last() {
        Some(&last) => last == b'\n',
        None => false,
    }
}

/// Whether it is an edit of lines: the last byte of the text is a newline, and after the edit too.
fn edits_lines(text: &[u8], edit: &Splice) -> bool
    requires { edit.now.at + edit.now.removed ≤ length text.now }
    ensures before { IsTrue result → terminated text.now ≡ text.now }
    ensures behind { IsTrue result
        → terminated (applied edit.now text.now) ≡ applied edit.now text.now }
{
    if !ends_line(text) {
        return false;
    }
    edit.at + edit.removed < text.len() || ends_line(edit.bytes.as_slice())
}

/// What an edit is to change. It is refused for its file first, then where the bytes that are to
/// give way don't stand there.
pub(crate) fn plan_edit<'a, D: Disk>(
    files: &mut Files<D>,
    command: &'a Edit<'_>,
) -> Result<Plan<'a>, RunFault>
    requires between { AreReadyForCommand files.old }
    ensures { (states : Keywords) → PlansFor D.Disk states files.old (Change.Edit command.now) result
        files.new }
{
    files.check_name(&command.file)?;
    files.load(&command.file)?;
    let text = files.text(&command.file);
    let edit = replacement(files.alloc(), text, command)?;
    let of_lines = edits_lines(text, &edit);
    let mut plan = plan_of_one(files.alloc(), NameOf::given(&command.file), edit);
    plan.of_lines = of_lines;
    Ok(plan)
}
