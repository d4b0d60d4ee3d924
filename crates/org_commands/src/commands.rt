//! What each command is to do: a change is planned, and a question is answered.
//!
//! A planner edits nothing that is kept, and counts nothing. After a fault its edits are to be
//! taken back.
ghost use Rattle.org_commands.specs.Files.{AreReadyForCommand};
ghost use Rattle.org_commands.specs.Planning.{PlansOrStaysFor};
ghost use Rattle.org_commands.specs.Questions.{AnswersQuestion};

pub(crate) mod archive;
pub(crate) mod capture;
pub(crate) mod clock;
pub(crate) mod edit;
mod outline;
mod plans;
pub(crate) mod refile;
pub(crate) mod running;
pub(crate) mod show;
pub(crate) mod time;
pub(crate) mod todo;

use crate::command::{Change, Question, Reply, RunFault};
use crate::commands::archive::plan_archive;
use crate::commands::capture::plan_capture;
use crate::commands::clock::{plan_clock_in, plan_clock_out};
use crate::commands::edit::plan_edit;
use crate::commands::refile::plan_refile;
use crate::commands::show::show;
use crate::commands::time::time;
use crate::commands::todo::plan_todo;
use crate::files::Files;
use org_disk::Disk;
use org_outline::States;
use org_texts::Plan;

/// What a command that changes files is to change: its files are read where they aren't held, and
/// made ready. Nothing is edited. There is no plan where nothing changes.
///
/// # Errors
///
/// - `Refused`: the command's own refusals.
/// - `Device`: the disk counted a failure in this call; the files are broken.
/// - `OutOfMemory`.
pub fn plan<'a, D: Disk>(
    files: &mut Files<D>,
    states: &States,
    change: &'a Change<'_>,
) -> Result<Option<Plan<'a>>, RunFault>
    requires between { AreReadyForCommand files.old }
    ensures { PlansOrStaysFor D.Disk states.now files.old change.now result files.new }
{
    match change {
        Change::Capture(command) => plan_capture(files, states, command).map(Some),
        Change::Refile(command) => plan_refile(files, states, command).map(Some),
        Change::Todo(command) => plan_todo(files, states, command),
        Change::Archive(command) => plan_archive(files, states, command).map(Some),
        Change::ClockIn(command) => plan_clock_in(files, states, command),
        Change::ClockOut { moment } => plan_clock_out(files, states, *moment),
        Change::Edit(command) => plan_edit(files, command).map(Some),
    }
}

/// Answers a question over files that aren't broken, of which nothing is edited that isn't kept.
/// All texts stay as they are.
///
/// # Errors
///
/// - `Refused`: its file is none of the store's, or no heading is at its path.
/// - `Device`: the disk counted a failure in this call; the files are broken.
/// - `OutOfMemory`.
pub fn answer<D: Disk>(
    files: &mut Files<D>,
    states: &States,
    question: &Question,
) -> Result<Reply, RunFault>
    requires between { AreReadyForCommand files.old }
    ensures { AnswersQuestion D.Disk states.now files.old question.now result files.new }
{
    match question {
        Question::Time { file, path } => time(files, states, file, path),
        Question::Show { file } => show(files, file),
    }
}
