//! New entries: the template is filled in before the file is read.
ghost use Rattle.std.specs.Prelude.{◌≡◌, [], Ok, IfOk, true};
ghost use Rattle.std.specs.Option.{unwrap_or};
ghost use Rattle.org_outline.specs.Tree.{Node, tree};
ghost use Rattle.org_capture.specs.Answers.{AnswersEdit};
ghost use Rattle.org_capture.specs.Capture.{captured};
ghost use Rattle.org_capture.specs.Entry.{IsEntry};
ghost use Rattle.org_commands.specs.Capture.{MakesEntry, new_entry};
ghost use Rattle.org_commands.specs.Files.{AreReadyForCommand, IsPlanFor};
ghost use Rattle.org_commands.specs.InOrder.{is_name, text_at};
ghost use Rattle.org_commands.specs.Keeping.{Plans};
ghost use Rattle.org_commands.specs.Outcome.{with_entry};
ghost use Rattle.org_commands.specs.Planning.{PlansFor};
ghost use Rattle.org_commands.specs.Reading.{OnlyReads};
ghost use Rattle.org_commands.specs.Session.{BetweenSessions};

use crate::command::{Capture, Change, RunFault};
use crate::commands::outline::outline_of;
use crate::commands::plans::plan_of_one;
use crate::files::Files;
use org_capture::{capture, entry, expand};
use org_disk::Disk;
use org_fault::{Fault, Refusal};
use org_outline::States;
use org_splice::Edit;
use org_texts::{Held, NameOf, Plan};
use std::alloc::Global;

/// The entry that the template of a capture stands for.
fn new_entry(alloc: Global, command: &Capture<'_>) -> Result<Vec<u8>, Fault<Refusal>>
    ensures { MakesEntry
        (new_entry command.now.moment command.now.template command.now.initial) result }
{
    let template = command.template.as_slice();
    let text = expand(alloc, template, command.moment, command.initial.as_slice())?;
    entry(text)
}

/// The edit of a text, which is ready, that puts an entry in.
fn insertion(
    alloc: Global,
    states: &States,
    held: &Held,
    command: &Capture<'_>,
    entry: Vec<u8>,
) -> Result<Edit, Fault<Refusal>>
    requires ready { held.now.ready ≡ true }
    requires entry { (node : Node) × IsEntry entry.items node }
    ensures { (node : Node) → IsEntry entry.items node
        → AnswersEdit (captured states.now command.now.target command.now.place
        command.now.moment node (tree held.now.text.bytes)) held.now.text.bytes result }
{
    let outline = outline_of(held, states);
    capture(
        alloc,
        &outline,
        &command.target,
        command.place,
        command.moment,
        entry,
    )
}

/// What a capture of this entry into one of the files is to change.
fn plan_entry<'a, D: Disk>(
    files: &mut Files<D>,
    states: &States,
    command: &'a Capture<'_>,
    entry: Vec<u8>,
) -> Result<Plan<'a>, RunFault>
    requires file { is_name files.old.names command.now.file ≡ true }
    requires between { AreReadyForCommand files.old }
    requires entry { (node : Node) × IsEntry entry.items node }
    ensures plan { IfOk result (λ plan. IsPlanFor files.new.names files.new.held plan) }
    ensures plans { BetweenSessions D.Disk states.now files.old files.new
        (λ old new. (node : Node) → IsEntry entry.items node
        → let text = unwrap_or (text_at old.names old.files command.now.file) [] in
        Plans old (with_entry old command.now.file command.now.target command.now.place
        command.now.moment (Ok node) text) result files.new.held new) }
    ensures disk { OnlyReads D.Disk files.old files.new result }
{
    files.ready(&command.file)?;
    let held = files.held(&command.file);
    let edit = insertion(files.alloc(), states, held, command, entry)?;
    Ok(plan_of_one(files.alloc(), NameOf::given(&command.file), edit))
}

/// What a capture into a file is to change. It is refused for its file first, then for its
/// template, then for its entry, then for its target.
pub(crate) fn plan_capture<'a, D: Disk>(
    files: &mut Files<D>,
    states: &States,
    command: &'a Capture<'_>,
) -> Result<Plan<'a>, RunFault>
    requires between { AreReadyForCommand files.old }
    ensures { PlansFor D.Disk states.now files.old (Change.Capture command.now) result files.new }
{
    files.check_name(&command.file)?;
    let entry = new_entry(files.alloc(), command)?;
    plan_entry(files, states, command, entry)
}
