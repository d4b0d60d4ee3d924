//! Headings put into other TODO states.
ghost use Rattle.std.specs.Prelude.{◌≡◌, true};
ghost use Rattle.org_outline.specs.Tree.{tree};
ghost use Rattle.org_state.specs.Todo.{todo};
ghost use Rattle.org_commands.specs.Files.{AreReadyForCommand};
ghost use Rattle.org_commands.specs.Planning.{PlansOrStaysFor};
ghost use Rattle.org_commands.specs.Todo.{PlansState};

use crate::command::{Change, RunFault, Todo};
use crate::commands::outline::outline_of;
use crate::commands::plans::plan_of;
use crate::files::Files;
use org_disk::Disk;
use org_fault::{Fault, Refusal};
use org_outline::States;
use org_state::todo;
use org_texts::{Held, Plan};
use std::alloc::Global;

/// The edits of a file, whose text is ready, that put one of its headings into another state; none
/// where nothing changes.
fn plan_state<'a>(
    alloc: Global,
    states: &States,
    held: &Held,
    command: &'a Todo<'_>,
) -> Result<Option<Plan<'a>>, Fault<Refusal>>
    requires ready { held.now.ready ≡ true }
    ensures { PlansState command.now.file held.now.text.bytes
        (todo states.now command.now.path command.now.state command.now.moment
        (tree held.now.text.bytes)) result }
{
    let edits = todo(
        alloc,
        &outline_of(held, states),
        command.path.as_slice(),
        command.state.as_slice(),
        command.moment,
    )?;
    Ok(plan_of(&command.file, edits))
}

/// What a change of a state is to change; no plan where nothing changes. It is refused for its file
/// first, then for its path, then for its state, then for the heading's planning.
pub(crate) fn plan_todo<'a, D: Disk>(
    files: &mut Files<D>,
    states: &States,
    command: &'a Todo<'_>,
) -> Result<Option<Plan<'a>>, RunFault>
    requires between { AreReadyForCommand files.old }
    ensures { PlansOrStaysFor D.Disk states.now files.old (Change.Todo command.now) result
        files.new }
{
    files.check_name(&command.file)?;
    files.ready(&command.file)?;
    let held = files.held(&command.file);
    Ok(plan_state(files.alloc(), states, held, command)?)
}
