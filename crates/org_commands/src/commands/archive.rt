//! Subtrees moved to their archives, within a file or across two.
ghost use Rattle.std.specs.Prelude.{◌≡◌, ◌<◌, [], ◌∷◌, List, ℕ, Some, Ok, IfOk, false, true};
ghost use Rattle.org_outline.specs.Paths.{find_path};
ghost use Rattle.org_outline.specs.Tree.{node_count, tree};
ghost use Rattle.org_texts.specs.Texts.{bytes_or, text_of};
ghost use Rattle.org_move.specs.Answers.{IsMadeAs, IsPlaceAs};
ghost use Rattle.org_move.specs.Archive.{archive_across_at, archive_within_at};
ghost use Rattle.org_move.specs.Location.{location_at};
ghost use Rattle.org_commands.specs.Files.{AreReadyForCommand, AreReady, IsPlanFor, IsReady};
ghost use Rattle.org_commands.specs.Headings.{HasHeading};
ghost use Rattle.org_commands.specs.InOrder.{is_name, text_at};
ghost use Rattle.org_commands.specs.Keeping.{Plans};
ghost use Rattle.org_commands.specs.Outcome.{archive_to};
ghost use Rattle.org_commands.specs.Planning.{PlansFor};
ghost use Rattle.org_commands.specs.Reading.{OnlyReads};
ghost use Rattle.org_commands.specs.Refile.{MakesDocument, MakesDocuments};
ghost use Rattle.org_commands.specs.Session.{BetweenSessions};

use crate::command::{Archive, Change, RunFault};
use crate::commands::outline::{heading_at, outline_of};
use crate::commands::plans::{plan_of_two, plan_of_two_edits};
use crate::files::Files;
use org_disk::{Disk, FileName};
use org_fault::{Fault, Refusal};
use org_move::{Location, archive, archive_within, location_searched};
use org_outline::{Node, Outline, States};
use org_texts::{NameOf, Plan};
use std::alloc::Global;

/// The outline of one of the files, whose text is ready. Takes no memory.
fn outline_in<'a, D: Disk>(files: &'a Files<D>, states: &'a States, file: &FileName) -> Outline<'a>
    requires { IsReady file.now files.now.held }
    ensures { (result.text ≡ bytes_or [] (text_of files.now.held.now file.now))
        × (result.states ≡ states.now) }
{
    outline_of(files.held(file), states)
}

/// Where a subtree of one of the files, whose text is ready, goes: see `location_searched`. What
/// was searched for it isn't searched again until it changes.
fn find_location<D: Disk>(
    files: &mut Files<D>,
    states: &States,
    command: &Archive,
    node: Node,
) -> Result<Location, Fault<Refusal>>
    requires ready { AreReady (command.now.file ∷ []) files.old.held }
    requires heading { HasHeading files.old.held.now command.now.file node }
    ensures place { let seen = bytes_or [] (text_of files.new.held.now command.now.file) in
        IsPlaceAs (location_at states.now command.now.file seen node) result }
    ensures same { files.new ≡ files.old }
{
    let file = &command.file;
    let mut searches = files.searched(file);
    let found = location_searched(
        files.alloc(),
        &outline_in(files, states, file),
        file,
        node,
        &mut searches.archive_lines,
    );
    files.note(file, searches);
    found
}

/// The edits of the command's file that archive a subtree within it.
fn plan_within<'a>(
    alloc: Global,
    outline: &Outline<'_>,
    command: &'a Archive,
    node: Node,
    to: &Location,
) -> Result<Plan<'a>, Fault<Refusal>>
    requires { node < node_count (tree outline.now.text) }
    ensures { IsMadeAs (archive_within_at outline.now.states command.now.file command.now.moment
        to.now (tree outline.now.text) node)
        (MakesDocument command.now.file outline.now.text) result }
{
    let edits = archive_within(alloc, outline, &command.file, node, command.moment, to)?;
    Ok(plan_of_two_edits(alloc, &command.file, edits)?)
}

/// The edits of two files that archive a subtree of the command's file in the location's file.
fn plan_across<'a>(
    alloc: Global,
    source: &Outline<'_>,
    target: &Outline<'_>,
    command: &'a Archive,
    node: Node,
    to: &Location,
) -> Result<Plan<'a>, Fault<Refusal>>
    requires { node < node_count (tree source.now.text) }
    ensures { IsMadeAs (archive_across_at source.now.states command.now.file command.now.moment
        (tree source.now.text) target.now.states to.now (tree target.now.text) node)
        (MakesDocuments command.now.file to.now.file source.now.text target.now.text) result }
{
    let file = &command.file;
    let (goes_out, goes_in) = archive(alloc, source, target, file, node, command.moment, to)?;
    let to_file = NameOf::made(to.file().clone()?);
    Ok(plan_of_two(alloc, NameOf::given(file), goes_out, to_file, goes_in))
}

/// What an archiving of the heading at the command's path to this location is to change, from a
/// file that is ready. It is refused for the location's file first, then for the heading there.
fn plan_archive_to<'a, D: Disk>(
    files: &mut Files<D>,
    states: &States,
    command: &'a Archive,
    node: Node,
    to: &Location,
) -> Result<Plan<'a>, RunFault>
    requires unbroken { files.old.broken ≡ false }
    requires name { is_name files.old.names command.now.file ≡ true }
    requires ready { AreReady (command.now.file ∷ []) files.old.held }
    requires heading { HasHeading files.old.held.now command.now.file node }
    ensures plan { IfOk result (λ plan. IsPlanFor files.new.names files.new.held plan) }
    ensures plans { BetweenSessions D.Disk states.now files.old files.new
        (λ old new. (text : List ℕ) → text_at old.names old.files command.now.file ≡ Some text
        → find_path states.now (tree text) command.now.path ≡ Ok node
        → Plans old (archive_to old command.now.file command.now.path command.now.moment text
        to.now (text_at old.names old.files to.now.file)) result files.new.held new) }
    ensures disk { OnlyReads D.Disk files.old files.new result }
{
    let to_file = to.file();
    if command.file == *to_file {
        let outline = outline_in(files, states, &command.file);
        return Ok(plan_within(files.alloc(), &outline, command, node, to)?);
    }
    if !files.has(to_file) {
        return Err(RunFault::Refused(Refusal::NoSuchFile));
    }
    files.ready(to_file)?;
    let source = outline_in(files, states, &command.file);
    let target = outline_in(files, states, to_file);
    Ok(plan_across(files.alloc(), &source, &target, command, node, to)?)
}

/// What an archiving is to change. It is refused for its file first, then for its path, then where
/// the file is an archive file, then for its location, then for the location's file and the heading
/// there.
pub(crate) fn plan_archive<'a, D: Disk>(
    files: &mut Files<D>,
    states: &States,
    command: &'a Archive,
) -> Result<Plan<'a>, RunFault>
    requires between { AreReadyForCommand files.old }
    ensures { PlansFor D.Disk states.now files.old (Change.Archive command.now) result files.new }
{
    files.check_name(&command.file)?;
    files.ready(&command.file)?;
    let node = heading_at(files.held(&command.file), states, &command.path)?;
    let to = find_location(files, states, command, node)?;
    plan_archive_to(files, states, command, node, &to)
}
