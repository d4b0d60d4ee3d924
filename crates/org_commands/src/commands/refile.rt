//! Subtrees moved to other headings, within a file or across two.
ghost use Rattle.std.specs.Prelude.{◌≡◌, ◌∷◌, [], OnOk, false, true};
ghost use Rattle.org_outline.specs.Tree.{tree};
ghost use Rattle.org_move.specs.Answers.{IsMadeAs};
ghost use Rattle.org_move.specs.Refile.{refile_across, refile_within};
ghost use Rattle.org_commands.specs.Files.{AreReadyForCommand, MakesReady};
ghost use Rattle.org_commands.specs.InOrder.{is_name};
ghost use Rattle.org_commands.specs.Planning.{PlansFor};
ghost use Rattle.org_commands.specs.Reading.{ReadsFiles};
ghost use Rattle.org_commands.specs.Refile.{MakesDocument, MakesDocuments};

use crate::command::{Change, Refile, RunFault};
use crate::commands::outline::outline_of;
use crate::commands::plans::{plan_of_two, plan_of_two_edits};
use crate::files::Files;
use org_disk::{Disk, FileName};
use org_fault::{Fault, Refusal};
use org_move::{refile_across, refile_within};
use org_outline::States;
use org_texts::{Held, NameOf, Plan};
use std::alloc::Global;

/// The edits of a file, whose text is ready, that move a subtree within it.
fn plan_within<'a>(
    alloc: Global,
    states: &States,
    held: &Held,
    command: &'a Refile,
) -> Result<Plan<'a>, Fault<Refusal>>
    requires ready { held.now.ready ≡ true }
    ensures { IsMadeAs (refile_within states.now command.now.path command.now.to_path
        command.now.place (tree held.now.text.bytes))
        (MakesDocument command.now.file held.now.text.bytes) result }
{
    let outline = outline_of(held, states);
    let edits = refile_within(
        alloc,
        &outline,
        command.path.as_slice(),
        command.to_path.as_slice(),
        command.place,
    )?;
    Ok(plan_of_two_edits(alloc, &command.file, edits)?)
}

/// The edits of two files, whose texts are ready, that move a subtree from the first into the
/// second.
fn plan_across<'a>(
    alloc: Global,
    states: &States,
    source: &Held,
    target: &Held,
    command: &'a Refile,
) -> Result<Plan<'a>, Fault<Refusal>>
    requires source { source.now.ready ≡ true }
    requires target { target.now.ready ≡ true }
    ensures { IsMadeAs (refile_across states.now command.now.path (tree source.now.text.bytes)
        states.now command.now.to_path (tree target.now.text.bytes) command.now.place)
        (MakesDocuments command.now.file command.now.to_file source.now.text.bytes
        target.now.text.bytes) result }
{
    let (goes_out, goes_in) = refile_across(
        alloc,
        &outline_of(source, states),
        &outline_of(target, states),
        command.path.as_slice(),
        command.to_path.as_slice(),
        command.place,
    )?;
    let (file, to_file) = (
        NameOf::given(&command.file),
        NameOf::given(&command.to_file),
    );
    Ok(plan_of_two(alloc, file, goes_out, to_file, goes_in))
}

/// Makes two files ready: see `Files::ready`.
pub(crate) fn both_ready<D: Disk>(
    files: &mut Files<D>,
    file: &FileName,
    to_file: &FileName,
) -> Result<(), RunFault>
    requires file { is_name files.old.names file.now ≡ true }
    requires to_file { is_name files.old.names to_file.now ≡ true }
    requires unbroken { files.old.broken ≡ false }
    ensures ready { OnOk result
        (MakesReady (to_file.now ∷ file.now ∷ []) files.old.held files.new.held) }
    ensures files { ReadsFiles D.Disk files.old files.new result }
{
    files.ready(file)?;
    files.ready(to_file)
}

/// What a refile is to change. It is refused for the name of its source first, then for that of its
/// target, then for the path in the source, then for the one in the target, then where the target
/// lies in what is moved.
pub(crate) fn plan_refile<'a, D: Disk>(
    files: &mut Files<D>,
    states: &States,
    command: &'a Refile,
) -> Result<Plan<'a>, RunFault>
    requires between { AreReadyForCommand files.old }
    ensures { PlansFor D.Disk states.now files.old (Change.Refile command.now) result files.new }
{
    files.check_name(&command.file)?;
    files.check_name(&command.to_file)?;
    if command.file == command.to_file {
        files.ready(&command.file)?;
        let held = files.held(&command.file);
        return Ok(plan_within(files.alloc(), states, held, command)?);
    }
    both_ready(files, &command.file, &command.to_file)?;
    let source = files.held(&command.file);
    let target = files.held(&command.to_file);
    Ok(plan_across(files.alloc(), states, source, target, command)?)
}
