//! Clocks, started and stopped, where one clock runs over all files.
//!
//! Clocking in stops the clock that runs, in the same step, in whatever file it runs.
ghost use Rattle.std.specs.Prelude.{◌≡◌, ◌≢◌, ◌<◌, [], None, Some, Ok, IfOk, OnOk, true};
ghost use Rattle.std.specs.Option.{ForSome, unwrap_or};
ghost use Rattle.org_outline.specs.Paths.{find_path};
ghost use Rattle.org_outline.specs.Tree.{node_count, tree};
ghost use Rattle.org_state.specs.Clock.{running_in};
ghost use Rattle.org_commands.specs.Clocking.{PlansClocks, clock_moved, clocked_in, clocked_out};
ghost use Rattle.org_commands.specs.Clocks.{RunsHeld};
ghost use Rattle.org_commands.specs.Files.{AreReadyForCommand};
ghost use Rattle.org_commands.specs.Headings.{HasHeading};
ghost use Rattle.org_commands.specs.InOrder.{is_name, text_at};
ghost use Rattle.org_commands.specs.Keeping.{LooksUp};
ghost use Rattle.org_commands.specs.Outcome.{with_clock_moved, with_state};
ghost use Rattle.org_commands.specs.Planning.{PlansOrStaysAs, PlansOrStaysFor};
ghost use Rattle.org_commands.specs.Reading.{OnlyReads};
ghost use Rattle.org_commands.specs.Session.{BetweenSessions};
ghost use Rattle.org_commands.specs.Todo.{PlansState};

use crate::command::{Change, ClockIn, RunFault};
use crate::commands::outline::{heading_at, outline_of};
use crate::commands::plans::{plan_of, plan_of_one, plan_of_two};
use crate::commands::refile::both_ready;
use crate::commands::running::{Clock, running_clock};
use crate::files::Files;
use org_disk::Disk;
use org_fault::{Fault, Refusal};
use org_outline::{Node, States};
use org_stamp::Moment;
use org_state::{Running, clock_in, clock_out, switch_clock};
use org_texts::{Held, NameOf, Plan};
use std::alloc::Global;

/// The edits of a file, whose text is ready, that clock in at one of its headings. No clock runs in
/// it.
fn plan_start<'a>(
    alloc: Global,
    states: &States,
    held: &Held,
    command: &'a ClockIn,
    node: Node,
) -> Result<Option<Plan<'a>>, Fault<Refusal>>
    requires ready { held.now.ready ≡ true }
    requires node { node < node_count (tree held.now.text.bytes) }
    ensures { PlansState command.now.file held.now.text.bytes
        (clocked_in command.now.moment None (tree held.now.text.bytes) (Ok node)) result }
{
    let edit = clock_in(alloc, &outline_of(held, states), node, command.moment)?;
    Ok(Some(plan_of_one(alloc, NameOf::given(&command.file), edit)))
}

/// The edits of a file, whose text is ready, that clock in at one of its headings, where this clock
/// runs in it; none where it is the heading's own.
fn plan_switch<'a>(
    alloc: Global,
    states: &States,
    held: &Held,
    command: &'a ClockIn,
    node: Node,
    running: Running,
) -> Result<Option<Plan<'a>>, Fault<Refusal>>
    requires ready { held.now.ready ≡ true }
    requires node { node < node_count (tree held.now.text.bytes) }
    requires runs { running_in (tree held.now.text.bytes) ≡ Some running }
    ensures { PlansState command.now.file held.now.text.bytes
        (clocked_in command.now.moment (Some running) (tree held.now.text.bytes) (Ok node)) result }
{
    let outline = outline_of(held, states);
    let edits = switch_clock(alloc, &outline, node, running, command.moment)?;
    Ok(plan_of(&command.file, edits))
}

/// The edits of a file, whose text is ready, that clock in at one of its headings. This clock runs
/// in it, or none.
fn plan_in_text<'a>(
    alloc: Global,
    states: &States,
    held: &Held,
    command: &'a ClockIn,
    node: Node,
    running: Option<Running>,
) -> Result<Option<Plan<'a>>, Fault<Refusal>>
    requires ready { held.now.ready ≡ true }
    requires node { node < node_count (tree held.now.text.bytes) }
    requires runs { ForSome running
        (λ running. running_in (tree held.now.text.bytes) ≡ Some running) }
    ensures { PlansState command.now.file held.now.text.bytes
        (clocked_in command.now.moment running (tree held.now.text.bytes) (Ok node)) result }
{
    match running {
        None => plan_start(alloc, states, held, command, node),
        Some(running) => plan_switch(alloc, states, held, command, node, running),
    }
}

/// The edits of a file, whose text is ready, that stop the clock that runs in it.
fn plan_stop<'a>(
    alloc: Global,
    states: &States,
    held: &Held,
    clock: &Clock,
    moment: Moment,
) -> Result<Option<Plan<'a>>, Fault<Refusal>>
    requires ready { held.now.ready ≡ true }
    requires runs { running_in (tree held.now.text.bytes) ≡ Some clock.now.running }
    ensures { PlansState clock.now.file held.now.text.bytes
        (clocked_out moment clock.now.running (tree held.now.text.bytes)) result }
{
    let edit = clock_out(
        alloc,
        outline_of(held, states).text(),
        clock.running,
        moment,
    )?;
    let file = NameOf::made(clock.file.clone()?);
    Ok(Some(plan_of_one(alloc, file, edit)))
}

/// The edits of two files, whose texts are ready, that stop the clock that runs in the first, and
/// clock in at a heading of the second.
fn plan_move<'a>(
    alloc: Global,
    states: &States,
    other: &Held,
    held: &Held,
    clock: &Clock,
    command: &'a ClockIn,
    node: Node,
) -> Result<Plan<'a>, Fault<Refusal>>
    requires other { other.now.ready ≡ true }
    requires ready { held.now.ready ≡ true }
    requires node { node < node_count (tree held.now.text.bytes) }
    requires runs { running_in (tree other.now.text.bytes) ≡ Some clock.now.running }
    ensures { PlansClocks clock.now.file command.now.file other.now.text.bytes
        held.now.text.bytes (clock_moved command.now.moment clock.now.running
        (tree other.now.text.bytes) (tree held.now.text.bytes) (Ok node)) result }
{
    let start = clock_in(alloc, &outline_of(held, states), node, command.moment)?;
    let stop = clock_out(
        alloc,
        outline_of(other, states).text(),
        clock.running,
        command.moment,
    )?;
    let (file, to_file) = (
        NameOf::made(clock.file.clone()?),
        NameOf::given(&command.file),
    );
    Ok(plan_of_two(alloc, file, stop, to_file, start))
}

/// The heading at a path of one of the files. No text changes: where a clock is to be stopped in
/// another file, that one is touched first.
fn look_up_in<D: Disk>(
    files: &mut Files<D>,
    states: &States,
    command: &ClockIn,
) -> Result<Node, RunFault>
    requires file { is_name files.old.names command.now.file ≡ true }
    requires between { AreReadyForCommand files.old }
    ensures finds { BetweenSessions D.Disk states.now files.old files.new
        (λ old new. let text = unwrap_or (text_at old.names old.files command.now.file) [] in
        LooksUp old (find_path states.now (tree text) command.now.path) result new) }
    ensures heading { IfOk result
        (λ node. HasHeading files.new.held.before command.now.file node) }
    ensures unedited { OnOk result (files.new.held.now ≡ files.new.held.before) }
    ensures disk { OnlyReads D.Disk files.old files.new result }
{
    files.ready(&command.file)?;
    let node = heading_at(files.held(&command.file), states, &command.path)?;
    files.undo();
    Ok(node)
}

/// What clocking in at a heading of one of the files is to change, where no clock runs in another
/// one. This clock runs in it, or none.
fn start_in_one<'a, D: Disk>(
    files: &mut Files<D>,
    states: &States,
    command: &'a ClockIn,
    node: Node,
    running: Option<Running>,
) -> Result<Option<Plan<'a>>, RunFault>
    requires file { is_name files.old.names command.now.file ≡ true }
    requires between { AreReadyForCommand files.old }
    requires heading { HasHeading files.old.held.before command.now.file node }
    requires runs { ForSome running
        (λ running. RunsHeld files.old.held command.now.file running) }
    ensures { PlansOrStaysAs D.Disk states.now files.old
        (λ s. let d = tree (unwrap_or (text_at s.names s.files command.now.file) []) in
        with_state s command.now.file (clocked_in command.now.moment running d (Ok node)))
        result files.new }
{
    files.ready(&command.file)?;
    let held = files.held(&command.file);
    Ok(plan_in_text(files.alloc(), states, held, command, node, running)?)
}

/// What clocking in at a heading of one of the files is to change, where this clock runs in another
/// one.
fn start_beside<'a, D: Disk>(
    files: &mut Files<D>,
    states: &States,
    clock: &Clock,
    command: &'a ClockIn,
    node: Node,
) -> Result<Option<Plan<'a>>, RunFault>
    requires other { is_name files.old.names clock.now.file ≡ true }
    requires file { is_name files.old.names command.now.file ≡ true }
    requires apart { clock.now.file ≢ command.now.file }
    requires between { AreReadyForCommand files.old }
    requires heading { HasHeading files.old.held.before command.now.file node }
    requires runs { RunsHeld files.old.held clock.now.file clock.now.running }
    ensures { PlansOrStaysAs D.Disk states.now files.old
        (λ s. let d = tree (unwrap_or (text_at s.names s.files command.now.file) []) in
        let other = tree (unwrap_or (text_at s.names s.files clock.now.file) []) in
        with_clock_moved s clock.now.file command.now.file
        (clock_moved command.now.moment clock.now.running other d (Ok node))) result files.new }
{
    both_ready(files, &clock.file, &command.file)?;
    let other = files.held(&clock.file);
    let held = files.held(&command.file);
    let plan = plan_move(files.alloc(), states, other, held, clock, command, node)?;
    Ok(Some(plan))
}

/// What clocking in is to change; no plan where the clock that runs is the heading's own. It is
/// refused for its file first, then for its path, then where the moment is before the start of the
/// clock that is to be stopped. Where that one runs in another file, its text is the plan's first.
pub(crate) fn plan_clock_in<'a, D: Disk>(
    files: &mut Files<D>,
    states: &States,
    command: &'a ClockIn,
) -> Result<Option<Plan<'a>>, RunFault>
    requires between { AreReadyForCommand files.old }
    ensures { PlansOrStaysFor D.Disk states.now files.old (Change.ClockIn command.now) result
        files.new }
{
    files.check_name(&command.file)?;
    let node = look_up_in(files, states, command)?;
    let Some(clock) = running_clock(files, states)? else {
        return start_in_one(files, states, command, node, None);
    };
    if clock.file == command.file {
        return start_in_one(files, states, command, node, Some(clock.running));
    }
    start_beside(files, states, &clock, command, node)
}

/// What stopping the clock that runs in one of the files is to change.
fn stop_running<'a, D: Disk>(
    files: &mut Files<D>,
    states: &States,
    clock: &Clock,
    moment: Moment,
) -> Result<Option<Plan<'a>>, RunFault>
    requires file { is_name files.old.names clock.now.file ≡ true }
    requires between { AreReadyForCommand files.old }
    requires runs { RunsHeld files.old.held clock.now.file clock.now.running }
    ensures { PlansOrStaysAs D.Disk states.now files.old
        (λ s. let d = tree (unwrap_or (text_at s.names s.files clock.now.file) []) in
        with_state s clock.now.file (clocked_out moment clock.now.running d)) result files.new }
{
    files.ready(&clock.file)?;
    let held = files.held(&clock.file);
    Ok(plan_stop(files.alloc(), states, held, clock, moment)?)
}

/// What clocking out is to change. It is refused where no clock runs, and where the moment is
/// before the start of the one that does.
pub(crate) fn plan_clock_out<'a, D: Disk>(
    files: &mut Files<D>,
    states: &States,
    moment: Moment,
) -> Result<Option<Plan<'a>>, RunFault>
    requires between { AreReadyForCommand files.old }
    ensures { PlansOrStaysFor D.Disk states.now files.old (Change.ClockOut moment) result
        files.new }
{
    let Some(clock) = running_clock(files, states)? else {
        return Err(RunFault::Refused(Refusal::NoClock));
    };
    stop_running(files, states, &clock, moment)
}
