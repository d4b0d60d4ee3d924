//! Laws of the definitions of lines, replies and runs, for all values.
//!
//! Each is the contract of a function with nothing to do.
ghost use Rattle.std.specs.Prelude.{ℕ, List, [], ◌≡◌, ◌∷◌, ◌++◌, ◌<◌, ◌≤◌, ◌^◌, slice_get};
ghost use Rattle.std.specs.List.{AllByRecursion};
ghost use Rattle.std.specs.Prelude.{All, Some, Result, IsFalse, IsSomeAnd};
ghost use Rattle.org_disk.specs.CountsFailures.{LeavesOver};
ghost use Rattle.org_disk.specs.Disk.{FileState, IsImage};
ghost use Rattle.org_disk.specs.Names.{IsOrgFile, journal_name};
ghost use Rattle.org_disk.specs.OwnImages.{IsOwnImage};
ghost use Rattle.org_journal.specs.Gate.{is_open};
ghost use Rattle.org_journal.specs.Recovered.{Image, IsRecoverable};
ghost use Rattle.org_fileset.specs.Left.{EachIsLeft};
ghost use Rattle.org_fileset.specs.Replay.{RestsOn, files_on};
ghost use Rattle.org_fileset.specs.Names.{AreFew};
ghost use Rattle.org_fileset.specs.Writes.{LeavesAlone};
ghost use Rattle.org_outline.specs.declared.steps.Step.{Step as PathStep};
ghost use Rattle.org_outline.specs.States.{Keywords};
ghost use Rattle.org_outline.specs.Tree.{Document, node_count};
ghost use Rattle.org_outline.specs.Paths.{path_of as heading_path};
ghost use Rattle.org_commands.specs.declared.command.Command.{Command};
ghost use Rattle.org_commands.specs.declared.command.Reply.{Reply};
ghost use Rattle.org_commands.specs.declared.command.RunFault.{RunFault};
ghost use Rattle.org_commands.specs.declared.tally.Group.TheVariants.{Whole};
ghost use Rattle.org_store.specs.History.{Trace, Lists, HoldsPrefix};
ghost use Rattle.org_commands.specs.InOrder.{AreNames, texts_of};
ghost use Rattle.org_store.specs.Left.{IsApart};
ghost use Rattle.org_store.specs.OnePlace.{HaveSameNodes, HasNodesOf, HasNodesOfPrefix, IsSessionOf};
ghost use Rattle.org_store.specs.Opening.{opened};
ghost use Rattle.org_store.specs.Reopening.{AreSameNames, IsOpenable, AreSmall};
ghost use Rattle.org_store.specs.Runs.{IsOnDisk};
ghost use Rattle.org_commands.specs.Session.{Session, StoreView};
ghost use Rattle.org_commands.specs.Step.{Step};
ghost use Rattle.org_serve.specs.History.{HoldsSettled, HoldsSince, OnlyRefiles};
ghost use Rattle.org_serve.specs.declared.end.ServeEnd.{ServeEnd};
ghost use Rattle.org_serve.specs.Serving.{RunsAndWrites, RunsLines, stores_while_honest, traces_while_honest};
ghost use Rattle.org_serve.specs.Pipes.{Exchange};
ghost use Rattle.org_serve.specs.Promises.{IsAfterPrefix, files_after};
ghost use Rattle.org_serve.specs.Whole.{IsIntermediate, ServesOver};
ghost use Rattle.org_serve.specs.declared.whole.Setup.{Setup};
ghost use Rattle.org_serve.specs.Spelling.{line_of, IsSpellable};
ghost use Rattle.org_serve.specs.Syncing.{IsRecoverableOnceSynced, OutsideStable};
ghost use Rattle.org_serve.specs.Grammar.{command_of, IsWritten, escaped, unescaped, path_of, path_field};
ghost use Rattle.org_serve.specs.Lines.{cut, joined, HasNoNewline};
ghost use Rattle.org_serve.specs.Replies.{answer_text, safe_line, reported_safe};

use org_disk::Disk;

/// The lines of any bytes, each with its newline, and what stands after the last newline are those
/// bytes; and no line holds a newline, nor does the rest.
pub fn lines_and_rest_are_the_bytes()
    ensures whole { (bytes : List ℕ) → joined (cut bytes).lines (cut bytes).rest ≡ bytes }
    ensures lines { (bytes : List ℕ) → All HasNoNewline (cut bytes).lines }
    ensures rest { (bytes : List ℕ) → HasNoNewline (cut bytes).rest }
{}

/// Each text has a field that stands for it.
pub fn escaped_text_reads_back()
    ensures { (text : List ℕ) → unescaped (escaped text) ≡ Some text }
{}

/// Each path of one step or more has a field that stands for it, where each of its numbers has at
/// most nine digits and is from 1 on. So has each heading of a text of fewer than 10^9 headings
/// (`every_heading_has_a_path`, a law of org_outline).
pub fn written_path_reads_back()
    ensures steps { (step : PathStep) (path : List PathStep)
        → AllByRecursion (λ s. IsWritten s.number) (step ∷ path)
        → path_of (path_field (step ∷ path)) ≡ Some (step ∷ path) }
    ensures headings { (states : Keywords) (d : Document) (i : ℕ) → i < node_count d
        → node_count d < 10 ^ 9
        → path_of (path_field (heading_path states d i)) ≡ Some (heading_path states d i) }
{}

/// Each command whose parts can be spelled has a line, which is read as the command, and no two
/// have the same one. No line is read as any other command.
pub fn spelled_command_reads_back()
    ensures read { (command : Command) → IsSpellable command
        → command_of (line_of command) ≡ Some command }
    ensures one { (a b : Command) → IsSpellable a → IsSpellable b → line_of a ≡ line_of b → a ≡ b }
    ensures only { (line : List ℕ) (command : Command) → command_of line ≡ Some command
        → IsSpellable command }
{}

/// A reply that says `safe a` ends with that line, and a commands are acknowledged as it is
/// written, by a store that isn't broken. What a crash leaves from then on is said of such a store:
/// `serve_synced`.
pub fn safe_is_acknowledged()
    ensures written { (answer : Result Reply RunFault) (old new a : ℕ)
        → reported_safe answer old new ≡ Some a
        → (front : List ℕ) × (answer_text answer old new ≡ front ++ safe_line a) }
    ensures acknowledged { (old new : Session) (command : Command)
        (answer : Result Reply RunFault) (a : ℕ) → Step old command answer new
        → reported_safe answer old.acknowledged new.acknowledged ≡ Some a
        → (new.acknowledged ≡ a) × IsFalse new.broken }
{}

/// What a crash leaves while lines are served, by `calls` of `serve`. Where the list of a
/// store has the texts of all files as its session has them, it goes on with those after each
/// command that `serve` accepts. Where the disk is honest at the end, and was at rest with the
/// settled texts of a store that wasn't broken, as it is between calls (`settled_is_on_disk`, a law
/// of org_store), at every moment since then what a crash leaves recovers to the files after the
/// commands that were acknowledged as it began, or after a prefix of the accepted commands that has
/// all that were accepted then. A command in which the disk failed may be the last of them.
pub fn crashes_leave_a_prefix<D: Disk>()
    // a store that was just opened has such a list
    ensures opened { (states : Keywords) (names texts : List (List ℕ))
        → Lists (opened states names texts) (texts ∷ []) }
    // one that the lines go on with has it too
    ensures served { (first : Trace D) (new : StoreView D) (end : ServeEnd)
        (io : Exchange) → D.honest new.disk
        → RestsOn D.Disk first.store.disk
        → IsOnDisk first.store.session (files_on D.Disk first.store.disk)
        → IsFalse first.store.session.broken → Lists first.store.session first.texts
        → RunsLines (stores_while_honest D.Disk) first.store new end io
        → (last : Trace D) × (last.store ≡ new) × Lists last.store.session last.texts
        × RunsLines (traces_while_honest D.Disk) first last end io
        × LeavesOver D.Disk first.store.disk last.store.disk
        (HoldsSince first.store.session (files_on D.Disk first.store.disk) first last) }
    // such an image recovers to a prefix that has all commands that were acknowledged then
    ensures prefix { (first : Session) (others image : Image) (here later : Trace D)
        → HoldsSince first others here later image
        → HoldsPrefix first others later.texts here.store.session.acknowledged image }
    // where the group is whole: the commands that were acknowledged as it began, or all that were
    // accepted as a line `settle` was run
    ensures whole { (first : Trace D) (new : StoreView D) (end : ServeEnd) (io : Exchange)
        → D.honest new.disk → RestsOn D.Disk first.store.disk
        → IsOnDisk first.store.session (files_on D.Disk first.store.disk)
        → IsFalse first.store.session.broken → Lists first.store.session first.texts
        → first.store.session.group ≡ Whole
        → RunsAndWrites (stores_while_honest D.Disk) first.store new end io
        → (last : Trace D) × (last.store ≡ new) × Lists last.store.session last.texts
        × (run : RunsLines (traces_while_honest D.Disk) first last end io)
        × LeavesOver D.Disk first.store.disk last.store.disk
        (HoldsSettled (traces_while_honest D.Disk) first.store.session
        (files_on D.Disk first.store.disk) first run.ran run.out last) }
{}

/// Every image of a store's disk opens again while lines are served, with the names that the store
/// was opened with: what that says stands at `every_image_opens` of org_store's laws.
pub fn every_image_opens<D: Disk>()
    // what `crashes_leave_a_prefix` says of `serve`, where no text of the list was past the limit
    ensures served { (given : List (List ℕ)) (first last : Trace D) (end : ServeEnd)
        (io : Exchange) (others image : Image) (least : ℕ)
        → AreFew given → IsSessionOf given first.store.session
        → Lists first.store.session first.texts
        → All (AreSmall first.store.session.names) first.texts → D.honest last.store.disk
        → RunsLines (traces_while_honest D.Disk) first last end io
        → HoldsPrefix first.store.session others last.texts least image → IsOpenable given image }
    // `IsDurable` of `serve_synced`, after the opening
    ensures whole { (setup : Setup) (disk now : D) (end : ServeEnd) (io : Exchange)
        (served : ServesOver D.Disk setup disk now end io) (here : Trace D) (least : ℕ)
        (image : Image) → IsIntermediate served here → D.honest here.store.disk
        → HoldsPrefix served.first.store.session
        (files_on D.Disk served.first.store.disk) here.texts least image
        → IsOpenable setup.names.items image }
{}

/// One run after another, whichever files each has. Where the second is given a disk that reads as
/// what a crash left of the first, it begins with all files as they are after a prefix of the first
/// one's accepted commands: the one of which `Promises` speaks, and which has at least as many as
/// it says. So a file of both has its text after these commands, and a file of the second one alone
/// is as it was once the first had opened.
pub fn next_run_goes_on<D: Disk, E: Disk>()
    ensures any { (one other : Setup) (disk now : D) (left after : E) (end last : ServeEnd)
        (io more : Exchange) (first : ServesOver D.Disk one disk now end io)
        (second : ServesOver E.Disk other left after last more)
        (state : Trace D) (least : ℕ) (image : Image)
        → All IsOrgFile other.names.items
        → IsAfterPrefix first state least image
        → ((name : List ℕ) → files_on E.Disk left name ≡ image name)
        → E.honest second.first.store.disk
        → (n : ℕ) × (least ≤ n) × (n ≤ state.store.session.accepted)
        × IsSomeAnd (slice_get state.texts n) (λ texts.
        second.first.store.session.files
        ≡ texts_of (files_after first texts) second.first.store.session.names) }
    // with the same names: its texts are those of the first one's list
    ensures same { (one other : Setup) (disk now : D) (left after : E) (end last : ServeEnd)
        (io more : Exchange) (first : ServesOver D.Disk one disk now end io)
        (second : ServesOver E.Disk other left after last more)
        (state : Trace D) (least : ℕ) (image : Image)
        → All IsOrgFile one.names.items
        → IsIntermediate first state → D.honest state.store.disk
        → IsAfterPrefix first state least image
        → AreSameNames one.names.items other.names.items
        → ((name : List ℕ) → files_on E.Disk left name ≡ image name)
        → E.honest second.first.store.disk
        → (n : ℕ) × (least ≤ n) × (n ≤ state.store.session.accepted)
        × (slice_get state.texts n ≡ Some second.first.store.session.files) }
{}

/// Over which folders a run promises one prefix, and that what was acknowledged stays
/// (`KeepsPromises`): those that are recoverable once the store's files are synced. A folder of
/// which all other files are on the disk is one of them. So is one that is recoverable as it is,
/// such as a run leaves that was cut short, whichever files the next run has.
pub fn folders_are_recoverable_once_synced()
    ensures outside { (given : List (List ℕ)) (files : List ℕ → FileState)
        → OutsideStable given files → IsRecoverableOnceSynced given files }
    // each file reads as a crash may leave it, as on any honest disk
    ensures recoverable { (given : List (List ℕ)) (files : List ℕ → FileState)
        → ((name : List ℕ) → IsOwnImage (files name)) → IsRecoverable files
        → IsRecoverableOnceSynced given files }
{}

/// Of which folders a run supposes that a crash leaves no file which an opening finds changed by its
/// bytes (`left_once_synced`): of those whose journal is closed, whatever a crash leaves of it. A
/// run leaves such a folder, and `crashed_disk_opens_again` of org_fileset says it of one that a
/// crash left.
pub fn closed_folders_have_no_changed_file()
    ensures { (files : List ℕ → FileState)
        → ((bytes : List ℕ) → IsImage (files journal_name) bytes → IsFalse (is_open bytes))
        → EachIsLeft files }
{}

/// No file is written but the store's own and the journal while lines are served
/// (`crashes_leave_a_prefix`), however that ends: where the disk is honest at the end, each other
/// file is as it was, and a crash meanwhile leaves of it what it might have left before. The files
/// that are dirty at first are to be the store's own: where it was just opened, none is.
pub fn only_own_files_are_written<D: Disk>()
    ensures alone { (first last : Trace D) (end : ServeEnd) (io : Exchange)
        → AreNames first.store.session.names first.store.dirty → D.honest last.store.disk
        → RunsLines (traces_while_honest D.Disk) first last end io
        → LeavesAlone D.Disk (IsApart first.store.session.names)
        first.store.disk last.store.disk }
    // so it goes on
    ensures dirty_files { (first last : Trace D) (end : ServeEnd) (io : Exchange)
        → AreNames first.store.session.names first.store.dirty → D.honest last.store.disk
        → RunsLines (traces_while_honest D.Disk) first last end io
        → (last.store.session.names ≡ first.store.session.names)
        × AreNames last.store.session.names last.store.dirty }
{}

/// Each node in one place, in what a crash leaves while lines are served
/// (`crashes_leave_a_prefix`): each node is there as often, over all files of the store, as after
/// one prefix of the accepted commands, which has all that were acknowledged when serving began.
/// Where no line that is run is a command but a refile, a question or a settling, that is as often
/// as when serving began. Other commands make nodes, and an edit may lose some.
pub fn one_place<D: Disk>()
    ensures any_moment { (given : List (List ℕ)) (first last : Trace D) (end : ServeEnd)
        (io : Exchange) (others image : Image) (least : ℕ)
        → IsSessionOf given first.store.session → Lists first.store.session first.texts
        → All (AreSmall first.store.session.names) first.texts → D.honest last.store.disk
        → RunsLines (traces_while_honest D.Disk) first last end io
        → HoldsPrefix first.store.session others last.texts least image
        → HasNodesOfPrefix first.store.session.names last.texts least image }
    ensures refiles { (given : List (List ℕ)) (first last : Trace D) (end : ServeEnd)
        (io : Exchange) (others image : Image) (least : ℕ)
        → IsSessionOf given first.store.session → Lists first.store.session first.texts
        → All (AreSmall first.store.session.names) first.texts → D.honest last.store.disk
        → (run : RunsLines (traces_while_honest D.Disk) first last end io)
        → All OnlyRefiles run.ran
        → All (λ texts. HaveSameNodes texts first.store.session.files) first.texts
        → HoldsPrefix first.store.session others last.texts least image
        → HasNodesOf first.store.session.names first.store.session.files image }
{}
