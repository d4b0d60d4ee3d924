//! The time clocked at a heading and below it.
ghost use Rattle.std.specs.Prelude.{◌≡◌, true};
ghost use Rattle.std.specs.Result.{result_map_both};
ghost use Rattle.org_commands.specs.Files.{AreReadyForCommand};
ghost use Rattle.org_commands.specs.InOrder.{is_name};
ghost use Rattle.org_commands.specs.Outcome.{outcome_of_question};
ghost use Rattle.org_commands.specs.Questions.{AnswersQuestion};
ghost use Rattle.org_commands.specs.Reading.{OnlyReads};
ghost use Rattle.org_commands.specs.Session.{BetweenSessions};
ghost use Rattle.org_commands.specs.Step.{Steps};

use crate::command::{Question, Reply, RunFault};
use crate::commands::outline::outline_of;
use crate::files::Files;
use org_disk::{Disk, FileName};
use org_outline::{Path, States};
use org_state::clocked;

/// The minutes clocked at a heading, and below it, of one of the files. What was done to its text
/// is to be taken back.
fn clocked_in_file<D: Disk>(
    files: &mut Files<D>,
    states: &States,
    file: &FileName,
    path: &Path,
) -> Result<u64, RunFault>
    requires name { is_name files.old.names file.now ≡ true }
    requires between { AreReadyForCommand files.old }
    ensures does { BetweenSessions D.Disk states.now files.old files.new
        (λ old new. Steps old (outcome_of_question old (Question.Time file.now path.now))
        (result_map_both Reply.Time (λ fault. fault) result) new) }
    ensures disk { OnlyReads D.Disk files.old files.new result }
{
    files.ready(file)?;
    let held = files.held(file);
    Ok(clocked(&outline_of(held, states), path.as_slice())?)
}

/// Answers the time clocked at a heading and below it. `NoSuchFile` where the file is none of the
/// store's; then `NotFound` or `NotUnique` of the path. `Device`, which leaves the files broken,
/// comes only where reading the file failed, and `OutOfMemory` where memory ran out. All texts stay
/// as they are.
pub(crate) fn time<D: Disk>(
    files: &mut Files<D>,
    states: &States,
    file: &FileName,
    path: &Path,
) -> Result<Reply, RunFault>
    requires between { AreReadyForCommand files.old }
    ensures { AnswersQuestion D.Disk states.now files.old (Question.Time file.now path.now) result
        files.new }
{
    files.check_name(file)?;
    let minutes = clocked_in_file(files, states, file, path);
    files.undo();
    Ok(Reply::Time(minutes?))
}
