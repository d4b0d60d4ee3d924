//! What follows from the relation between a store before and after a call, for all values.
//!
//! Each law is the contract of a function with nothing to do.
ghost use Rattle.std.specs.Prelude.{◌≡◌, ◌<◌, ◌≤◌, ◌+◌, ◌++◌, ◌⊎◌, List, [], ◌∷◌, ℕ, length, slice_get, None, Some, Result, Ok, IsTrue, IsFalse, IsErrOf};
ghost use Rattle.std.specs.List.{All, IsDistinct};
ghost use Rattle.std.specs.Str.{bytes_eq};
ghost use Rattle.org_disk.specs.CountsFailures.{LeavesOver};
ghost use Rattle.org_journal.specs.Recovered.{Image, IsRecoverable};
ghost use Rattle.org_disk.specs.Names.{IsDiskName, IsOrgFile};
ghost use Rattle.org_fileset.specs.Names.{with_archives, AreSorted, AreFew, first_large};
ghost use Rattle.org_fileset.specs.Laws.{AreOtherFiles, IsBetween};
ghost use Rattle.org_fileset.specs.Opening.{IsReason};
ghost use Rattle.org_fileset.specs.Replay.{RestsOn, files_on};
ghost use Rattle.org_fileset.specs.Writes.{LeavesAlone};
ghost use Rattle.org_fileset.specs.declared.open.OpenFault.{OpenFault};
ghost use Rattle.org_fileset.specs.declared.open.OpenFault.TheVariants.{OutOfMemory, Device};
ghost use Rattle.org_outline.specs.States.{Keywords};
ghost use Rattle.org_move.specs.Counts.{count_over};
ghost use Rattle.org_commands.specs.declared.command.Archive.{Archive as Archiving};
ghost use Rattle.org_commands.specs.declared.command.Refile.{Refile as Refiling};
ghost use Rattle.org_commands.specs.declared.command.Command.{Command};
ghost use Rattle.org_commands.specs.declared.command.Command.TheVariants.{Change, Settle};
ghost use Rattle.org_commands.specs.declared.command.Change.TheVariants.{Archive, Refile};
ghost use Rattle.org_commands.specs.declared.command.Reply.{Reply};
ghost use Rattle.org_commands.specs.declared.command.Reply.TheVariants.{Done};
ghost use Rattle.org_commands.specs.declared.command.RunFault.{RunFault};
ghost use Rattle.org_commands.specs.declared.command.RunFault.TheVariants as run_fault;
ghost use Rattle.org_commands.specs.declared.tally.Group.TheVariants.{Of, Whole};
ghost use Rattle.org_store.specs.Calls.{Call, MakesAll, MakesOver, Traces, grouped, traces};
ghost use Rattle.org_store.specs.Calls.Call.{Ran};
ghost use Rattle.org_store.specs.History.{Trace, Lists, HoldsPrefix};
ghost use Rattle.org_store.specs.Left.{IsApart, IsLeft, PutsOnDisk};
ghost use Rattle.org_store.specs.OnePlace.{ArchivesOne, HaveNodesButFew, HaveSameNodes, HasNodesOf, HasNodesOfPrefix, IsSessionOf, MayMove, MayRefile, OnlyRefiles};
ghost use Rattle.org_commands.specs.Outcome.{AsksToSettle, IsAccepted, outcome, written};
ghost use Rattle.org_store.specs.Reopening.{AreSameNames, AreSmall, IsOpenable, CountsFailure};
ghost use Rattle.org_store.specs.Opening.{opened, IsWithheld};
ghost use Rattle.org_store.specs.Runs.{RunsOver, SettlesOver, IsOnDisk};
ghost use Rattle.org_commands.specs.InOrder.{AreNames, texts_of, with_texts};
ghost use Rattle.org_commands.specs.Session.{Session, StoreView, Holds};
ghost use Rattle.org_commands.specs.Step.{Step, Run, IsReply};

use org_disk::Disk;

/// An answer that is no fault is the only one, and so is the store after it.
pub fn one_answer()
    ensures { (old new other : Session) (command : Command) (answer second : Result Reply RunFault)
        → IsReply answer → IsReply second
        → Step old command answer new → Step old command second other
        → (answer ≡ second) × (new ≡ other) }
{}

/// Where a command is accepted, fewer commands than its group has are left without
/// acknowledgement.
pub fn few_unacknowledged()
    ensures { (old new : Session) (command : Command) (n size : ℕ) → old.group ≡ Of size
        → 0 < size → Step old command (Ok (Done n)) new
        → new.accepted < new.acknowledged + size }
{}

/// Where the group is all commands up to the next settling, no command that is accepted settles:
/// what is acknowledged rises by `settle` alone.
pub fn whole_groups_wait()
    ensures accepted { (old new : Session) (command : Command) (n : ℕ) → old.group ≡ Whole
        → Step old command (Ok (Done n)) new
        → (new.acknowledged ≡ old.acknowledged) × (new.settled ≡ old.settled) }
    ensures acknowledged { (old new : Session) (command : Command)
        (answer : Result Reply RunFault) → old.group ≡ Whole → Step old command answer new
        → (new.acknowledged ≡ old.acknowledged)
        ⊎ ((command ≡ Settle) × (new.acknowledged ≡ old.accepted)) }
{}

/// No command changes the states, the names or the group.
pub fn keeps_setting()
    ensures { (old new : Session) (command : Command) (answer : Result Reply RunFault)
        → Step old command answer new
        → (new.states ≡ old.states) × (new.names ≡ old.names) × (new.group ≡ old.group) }
{}

/// Commands after commands are one run.
pub fn runs_join()
    ensures { (old mid new : Session) (commands later : List Command)
        (answers more : List (Result Reply RunFault))
        → Run old commands answers mid → Run mid later more new
        → Run old (commands ++ later) (answers ++ more) new }
{}

/// The texts that are settled are those of the disk's files: on a store that was just opened
/// (`Store::open`), and after each call in which the disk didn't fail.
pub fn settled_is_on_disk<D: Disk>()
    ensures opened { (states : Keywords) (names : List (List ℕ)) (files : Image)
        → IsOnDisk (opened states names (texts_of files names)) files }
    ensures run { (old new : StoreView D) (command : Command) (answer : Result Reply RunFault)
        → (IsErrOf answer run_fault.Device → ⊥)
        → RunsOver D.Disk old command answer new
        → IsOnDisk new.session (files_on D.Disk new.disk) }
    ensures settle { (old new : StoreView D) (answer : Result (Unit {0}) RunFault)
        → (IsErrOf answer run_fault.Device → ⊥)
        → SettlesOver D.Disk old answer new
        → IsOnDisk new.session (files_on D.Disk new.disk) }
{}

/// A store writes no file but its own and the journal: the files that a command gives new texts,
/// and so those that are dirty, are files of the store's names. Calls of a store that was
/// just opened (`Store::open`), for which no file is dirty, leave every other file alone: each is
/// as it was, and a crash meanwhile leaves of it what it might have left before, whatever lies in
/// the folder and whether it is on the disk or not.
pub fn only_its_own_files_are_written<D: Disk>()
    ensures written { (s : Session) (command : Command)
        → AreNames s.names (written (outcome s command)) }
    ensures calls { (first last : Trace D) (calls : List Call)
        → AreNames first.store.session.names first.store.dirty
        → MakesAll (traces D.Disk) first calls last
        → LeavesAlone D.Disk (IsApart first.store.session.names) first.store.disk last.store.disk }
    // so it goes on with further calls
    ensures dirty_files { (first last : Trace D) (calls : List Call)
        → AreNames first.store.session.names first.store.dirty
        → MakesAll (traces D.Disk) first calls last
        → (last.store.session.names ≡ first.store.session.names)
        × AreNames last.store.session.names last.store.dirty }
{}

/// What a crash leaves of a run of the calls that change a store: commands, settlings and new
/// groups. A run is described by one list, of the texts of all files after each accepted
/// command. On a disk that was at rest and honest when it began, under a store that wasn't broken,
/// a crash since then leaves the files as they were settled then, or as they were after one prefix
/// of the accepted commands, which has all that were accepted then; a command in which the disk
/// failed may be the last of them. What is settled is on the disk between calls
/// (`settled_is_on_disk`).
///
/// `Traces` is what a call promises where the disk is honest after it, with what it adds to the
/// list. The list needs the texts only where the session has them: others may be any.
pub fn calls_leave_a_prefix<D: Disk>()
    // a store that was just opened has such a list
    ensures opened { (states : Keywords) (names texts : List (List ℕ))
        → Lists (opened states names texts) (texts ∷ []) }
    // with each call it goes on
    ensures goes_on { (old : Trace D) (new : StoreView D) (call : Call)
        → MakesOver D.Disk old.store call new
        → (now : Trace D) × (now.store ≡ new)
        × Traces D.Disk old call now }
    ensures lists { (first last : Trace D) (calls : List Call)
        → Lists first.store.session first.texts
        → MakesAll (traces D.Disk) first calls last
        → Lists last.store.session last.texts }
    ensures any_moment { (first last : Trace D) (calls : List Call) → D.honest first.store.disk
        → RestsOn D.Disk first.store.disk
        → IsOnDisk first.store.session (files_on D.Disk first.store.disk)
        → IsFalse first.store.session.broken → Lists first.store.session first.texts
        → MakesAll (traces D.Disk) first calls last
        → let begin = first.store.session in let others = files_on D.Disk first.store.disk in
        LeavesOver D.Disk first.store.disk last.store.disk
        (λ image. Holds begin others begin.settled image
        ⊎ HoldsPrefix begin others last.texts begin.accepted image) }
    // what a crash leaves of such a run is opened again, as in `every_image_opens`
    ensures opens { (given : List (List ℕ)) (first last : Trace D) (calls : List Call)
        (others image : Image) (least : ℕ) → AreFew given
        → AreSorted (with_archives given) first.store.session.names
        → Lists first.store.session first.texts
        → All (AreSmall first.store.session.names) first.texts
        → MakesAll (traces D.Disk) first calls last
        → HoldsPrefix first.store.session others last.texts least image
        → IsOpenable given image }
{}

/// What a run of such calls does to a disk that was at rest when it began: it is recoverable then,
/// and at rest where the store isn't broken.
pub fn calls_keep_the_disk_recoverable<D: Disk>()
    // A broken store leaves its disk as it is, and all else but the group.
    ensures broken { (first last : Trace D) (calls : List Call)
        → IsTrue first.store.session.broken
        → MakesAll (traces D.Disk) first calls last
        → (last.store ≡ grouped last.store.session.group first.store)
        × (last.texts ≡ first.texts) }
    ensures recoverable { (first last : Trace D) (calls : List Call)
        → RestsOn D.Disk first.store.disk
        → MakesAll (traces D.Disk) first calls last
        → IsRecoverable (D.files last.store.disk) }
    ensures rest { (first last : Trace D) (calls : List Call) → IsFalse last.store.session.broken
        → RestsOn D.Disk first.store.disk
        → MakesAll (traces D.Disk) first calls last
        → RestsOn D.Disk last.store.disk }
{}

/// The middle of a call counts. What a call of a store promises of a crash at any moment since it
/// began it promises of every disk that it passes through: what lies there recovers to the files
/// after the commands that were acknowledged when it began, or to those that the call puts on the
/// disk.
pub fn middle_of_a_call_counts<D: Disk>()
    ensures run { (old new : StoreView D) (mid : D) (command : Command)
        (answer : Result Reply RunFault)
        → D.honest mid → RestsOn D.Disk old.disk
        → IsBetween D.Disk old.disk mid new.disk
        → RunsOver D.Disk old command answer new
        → IsLeft old.session (files_on D.Disk old.disk) (outcome old.session command) answer
        new.session.accepted (files_on D.Disk mid) }
    ensures settle { (old new : StoreView D) (mid : D) (answer : Result (Unit {0}) RunFault)
        → D.honest mid → RestsOn D.Disk old.disk
        → IsBetween D.Disk old.disk mid new.disk
        → SettlesOver D.Disk old answer new
        → IsLeft old.session (files_on D.Disk old.disk) AsksToSettle answer
        new.session.accepted (files_on D.Disk mid) }
    // So the promise is false of a body that puts other files on the disk on its way, as one does
    // that takes an acknowledged subtree away and puts it back.
    ensures apart { (old new : StoreView D) (mid : D) (command : Command)
        (answer : Result Reply RunFault) → D.honest mid → RestsOn D.Disk old.disk
        → RestsOn D.Disk mid → IsBetween D.Disk old.disk mid new.disk
        → let s = old.session in let others = files_on D.Disk old.disk in
        AreOtherFiles (files_on D.Disk mid) (with_texts s.names s.settled others)
        → ((texts : List (List ℕ)) → PutsOnDisk s (outcome s command) new.session.accepted texts
        → AreOtherFiles (files_on D.Disk mid) (with_texts s.names texts others))
        → RunsOver D.Disk old command answer new → ⊥ }
{}

/// Each node in one place. What a crash leaves of a run of calls (`calls_leave_a_prefix`) has each
/// node as often, over all files of the store, as the texts that it recovers to: as after the
/// commands that were acknowledged when the run began, or after one prefix of the accepted
/// commands. Where no command but refiles is accepted, that is as often as when the run began: a
/// crash within a refile loses no node of the subtree and doubles none, in the old place or the
/// new. An edit may make nodes and lose some, so the clauses from `refiles` on speak of runs in
/// which none is accepted; what a crash leaves within one has each node as often as after the
/// acknowledged commands or as after the edit.
pub fn one_place<D: Disk>()
    ensures held { (given : List (List ℕ)) (s : Session) (others image : Image)
        (texts : List (List ℕ)) → IsSessionOf given s → AreSmall s.names texts
        → Holds s others texts image → HasNodesOf s.names texts image }
    ensures any_moment { (given : List (List ℕ)) (first last : Trace D) (calls : List Call)
        (others image : Image) (least : ℕ) → IsSessionOf given first.store.session
        → Lists first.store.session first.texts
        → All (AreSmall first.store.session.names) first.texts
        → MakesAll (traces D.Disk) first calls last
        → HoldsPrefix first.store.session others last.texts least image
        → HasNodesOfPrefix first.store.session.names last.texts least image }
    ensures refiles { (given : List (List ℕ)) (first last : Trace D) (calls : List Call)
        (others image : Image) (least : ℕ) → IsSessionOf given first.store.session
        → Lists first.store.session first.texts
        → All (AreSmall first.store.session.names) first.texts
        → MakesAll (traces D.Disk) first calls last → All MayRefile calls
        → All (λ texts. HaveSameNodes texts first.store.session.files) first.texts
        → HoldsPrefix first.store.session others last.texts least image
        → HasNodesOf first.store.session.names first.store.session.files image }
    // after such a run, so it is of the next one
    ensures kept { (given : List (List ℕ)) (old new : Session) (commands : List Command)
        (answers : List (Result Reply RunFault)) → IsSessionOf given old
        → Run old commands answers new → IsFalse new.broken → OnlyRefiles commands answers
        → HaveSameNodes new.files old.files
        × (HaveSameNodes old.settled old.files → HaveSameNodes new.settled new.files) }
    // One archiving: what may be on the disk then is as before, or each node of its subtree is in
    // the old place or the new, the root there with its properties.
    ensures archive { (given : List (List ℕ)) (first last : Trace D) (it : Archiving)
        (answer : Result Reply RunFault)
        → IsSessionOf given first.store.session → IsFalse first.store.session.broken
        → Lists first.store.session first.texts → IsDiskName it.file
        → Traces D.Disk first (Ran (Change (Archive it)) answer) last
        → (k : ℕ) (texts : List (List ℕ)) → first.store.session.accepted ≤ k
        → slice_get last.texts k ≡ Some texts → (texts ≡ first.store.session.files)
        ⊎ ArchivesOne first.store.session it.file it.path it.moment texts }
    // Where none but refiles and archivings are accepted: from one text of the list to another,
    // which is k commands later, as often, but that for each of these at most one node has another
    // section under the same heading line, and at most one heading is made.
    ensures moves { (given : List (List ℕ)) (first last : Trace D) (calls : List Call)
        → IsSessionOf given first.store.session → Lists first.store.session first.texts
        → All (AreSmall first.store.session.names) first.texts
        → MakesAll (traces D.Disk) first calls last → All MayMove calls
        → (i k : ℕ) (one other : List (List ℕ)) → first.store.session.accepted ≤ i
        → slice_get last.texts i ≡ Some one → slice_get last.texts (i + k) ≡ Some other
        → HaveNodesButFew k other one }
{}

/// There is one way to put names in order, each once. So the given names are few or too many, and
/// never both.
pub fn one_sorting()
    ensures { (given first second : List (List ℕ)) → AreSorted given first → AreSorted given second
        → first ≡ second }
{}

/// No text of a store's files is past the limit after an opening, nor after any command that is
/// accepted.
pub fn texts_stay_small()
    ensures opened { (files : Image) (names : List (List ℕ)) → first_large files names ≡ None
        → AreSmall names (texts_of files names) }
    ensures accepted { (s : Session) (command : Command) (files : List (List ℕ))
        → AreSmall s.names s.files → IsAccepted (outcome s command) files → AreSmall s.names files }
{}

/// A refile that is accepted keeps how often each node is there over all files, by its heading line
/// without the stars and by the lines of its section: none is lost, none doubled. No name of a
/// store's files stands twice, and each has a text.
pub fn refiles_keep_counts()
    ensures { (s : Session) (it : Refiling)
        (files : List (List ℕ)) → IsDistinct bytes_eq s.names → length s.files ≡ length s.names
        → IsAccepted (outcome s (Change (Refile it))) files
        → (rest : List ℕ) (section : List (List ℕ))
        → count_over rest section files ≡ count_over rest section s.files }
{}

/// An archiving that is accepted keeps how often each node is there over all files, but that its
/// entry becomes one with the same rest of the heading line and with the section that has the
/// archive's properties, and that a heading is made where the location's isn't there: the nodes
/// below the entry, and all others, are as often there as before.
pub fn archives_keep_counts()
    ensures { (s : Session) (it : Archiving)
        (files : List (List ℕ)) → IsDistinct bytes_eq s.names → length s.files ≡ length s.names
        → IsDiskName it.file → IsAccepted (outcome s (Change (Archive it))) files
        → ArchivesOne s it.file it.path it.moment files }
{}

/// Every image of a store's disk opens again, with the names that the store was opened with: over a
/// disk that holds such an image, `Store::open` answers Ok, OutOfMemory, Device with a counted
/// failure, or Changed or Outside of a file that an open journal's record names, and nothing else.
pub fn every_image_opens<D: Disk>()
    // what a refused opening of such an image says
    ensures faults { (given : List (List ℕ)) (disk now : D) (fault : OpenFault)
        → All IsOrgFile given → D.honest now → IsOpenable given (files_on D.Disk disk)
        → IsReason given (D.honest now) (files_on D.Disk disk) (files_on D.Disk now) fault
        → (fault ≡ Device → CountsFailure D.Disk disk now)
        → (fault ≡ OutOfMemory) ⊎ ((fault ≡ Device) × CountsFailure D.Disk disk now)
        ⊎ IsWithheld (files_on D.Disk disk) fault }
    // what a crash left of a store's files is such an image, as long as no text of them was past
    // the limit
    ensures held { (given : List (List ℕ)) (s : Session) (others image : Image)
        (texts : List (List ℕ)) → AreFew given → AreSorted (with_archives given) s.names
        → AreSmall s.names texts → Holds s others texts image → IsOpenable given image }
    // so is what a crash leaves while a command runs; of a run of calls: `calls_leave_a_prefix`
    ensures left { (given : List (List ℕ)) (s : Session) (others image : Image) (command : Command)
        (answer : Result Reply RunFault) (accepted : ℕ) → AreFew given
        → AreSorted (with_archives given) s.names
        → AreSmall s.names s.settled → AreSmall s.names s.files
        → IsLeft s others (outcome s command) answer accepted image → IsOpenable given image }
    // the names may be given in another order, and repeated
    ensures names { (given more : List (List ℕ)) (image : Image) → AreSameNames given more
        → IsOpenable given image → IsOpenable more image }
{}
