//! How a change is made: planned on held texts, accepted, and committed where it fills its group.
//!
//! A planner edits nothing. From the first edit to the count a command can be taken back, which
//! takes no memory.
ghost use Rattle.std.specs.Prelude.{◌≡◌, ◌≢◌, ◌⊎◌, ℕ, List, false};
ghost use Rattle.org_outline.specs.States.{Keywords};
ghost use Rattle.org_commands.specs.Files.{AreReadyForCommand, AreSmallToWrite, texts_now};
ghost use Rattle.org_commands.specs.Outcome.{counted, outcome_of_change};
ghost use Rattle.org_commands.specs.Session.{view_over};
ghost use Rattle.org_store.specs.Dirty.{Dirties};
ghost use Rattle.org_store.specs.Executing.{Executes, KeepsHeld, SettlesPending, kept};

use org_commands::{Change, Files, Refusal, Reply, RunFault, Tally, plan};
use org_disk::Disk;
use org_outline::States;

/// Puts all texts on the disk as they are held: then all accepted commands are acknowledged. Some
/// of them are pending.
///
/// # Errors
///
/// - `OutOfMemory`: files and counts are as they were.
/// - `Device`: the disk counted a failure in this call; the files are broken.
pub(crate) fn commit<D: Disk>(files: &mut Files<D>, tally: &mut Tally) -> Result<(), RunFault>
    requires unbroken { files.old.broken ≡ false }
    requires small { (files.old.held.now ≡ files.old.held.before)
        ⊎ AreSmallToWrite files.old.held.now }
    requires pending { tally.old.acknowledged ≢ tally.old.accepted }
    ensures settles { (states : Keywords)
        → SettlesPending D.Disk (view_over D.files states (kept files.old) tally.old) result
        (view_over D.files states (kept files.new) tally.new) }
    ensures keeps { KeepsHeld files.old result files.new }
{
    files.commit()?;
    tally.acknowledged = tally.accepted;
    Ok(())
}

/// Counts one more command, which made the texts what they are, unless the accepted commands are as
/// many as can be counted. Where it fills the group all is settled, else its texts are kept in
/// memory. Where it is refused, or there is no memory, all of its edits are taken back.
fn count<D: Disk>(files: &mut Files<D>, tally: &mut Tally) -> Result<Reply, RunFault>
    requires unbroken { files.old.broken ≡ false }
    requires small { AreSmallToWrite files.old.held.now }
    ensures executes { (states : Keywords) (names : List (List ℕ))
        → Dirties files.old.held.before.dirty names files.old.held.now.dirty
        → let old = view_over D.files states files.old tally.old in
        Executes D.Disk old (counted old.session names (texts_now D.Disk files.old)) result
        (view_over D.files states files.new tally.new) }
    ensures unedited { files.new.held.now ≡ files.new.held.before }
{
    if tally.accepted == u64::MAX {
        files.undo();
        return Err(RunFault::Refused(Refusal::TooLarge));
    }
    let before = *tally;
    tally.accepted += 1;
    if !before.fills() {
        files.keep();
        return Ok(Reply::Done(tally.accepted));
    }
    match commit(files, tally) {
        Ok(()) => Ok(Reply::Done(tally.accepted)),
        Err(fault) => {
            files.undo();
            match fault {
                // A crash may leave the command, so it counts as accepted.
                RunFault::Device => Err(RunFault::Device),
                _ => {
                    *tally = before;
                    Err(fault)
                }
            }
        }
    }
}

/// Runs a command that changes files. Where it is accepted it is counted: where it fills its group
/// all dirty texts are committed, else its texts are kept in memory.
///
/// # Errors
///
/// - `Refused`, `OutOfMemory`: texts and counts are as they were; where a commit finds no memory,
///   this command is undone.
/// - `Device`: the disk counted a failure in this call; the files are broken.
pub(crate) fn change<D: Disk>(
    files: &mut Files<D>,
    states: &States,
    tally: &mut Tally,
    asked: &Change<'_>,
) -> Result<Reply, RunFault>
    requires between { AreReadyForCommand files.old }
    ensures executes { let old = view_over D.files states.now files.old tally.old in
        Executes D.Disk old (outcome_of_change old.session asked.now) result
        (view_over D.files states.now files.new tally.new) }
    ensures unedited { files.new.held.now ≡ files.new.held.before }
{
    match plan(files, states, asked) {
        Ok(Some(plan)) => {
            files.put(&plan)?;
            count(files, tally)
        }
        Ok(None) => {
            files.undo();
            count(files, tally)
        }
        Err(fault) => {
            files.undo();
            Err(fault)
        }
    }
}
