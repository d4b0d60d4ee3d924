//! A store over a disk: commands over all files, one at a time.
//!
//! Between two calls the texts are those of the session, and the disk has those that were
//! acknowledged. After a failure of the disk the store is broken, and makes no call.
ghost use Rattle.std.specs.Prelude.{◌≡◌, ◌⊎◌, IfOk, IfErr, IsErrOf};
ghost use Rattle.std.specs.List.{All};
ghost use Rattle.org_disk.specs.CountsFailures.{CountsFailures};
ghost use Rattle.org_disk.specs.Names.{IsOrgFile};
ghost use Rattle.org_fileset.specs.Opening.{Opens};
ghost use Rattle.org_fileset.specs.Replay.{files_on};
ghost use Rattle.org_store.specs.Group.{IsGroup};
ghost use Rattle.org_store.specs.Opening.{IsOpened, IsTransient, IsWithheld, disk_of};
ghost use Rattle.org_store.specs.Reopening.{IsOpenable};
ghost use Rattle.org_store.specs.Runs.{SaysBroken, StaysWhereNeedless, Runs, SettlesAll};
ghost use Rattle.org_store.specs.Counts.{Counts, SettledCounts};

use crate::changing::{change, commit};
use org_commands::{Command, Files, Group, Reply, RunFault, Tally, answer};
use org_disk::{Disk, FileName};
use org_fileset::OpenRefused;
use org_outline::States;
use std::alloc::Global;
use std::marker::Model;

/// Org files on a disk, and what was done to them since the store was opened.
///
/// A clause sees its disk, its session (`Session` of org_commands) and which of its files are
/// dirty. What is said of replies, files and crashes is said where the disk is honest after the
/// call; of crashes in `run` and `settle` also only where it was at rest, as an opening of a
/// recoverable disk and each call without a failure leave it (`LeavesDisk`). A store that is broken
/// does nothing any more: open its files anew.
#[derive(Drop)]
pub struct Store<D: Disk> {
    // The files, with what is held of their texts.
    files: Files<D>,
    // The words that are TODO keywords.
    states: States,
    // How many commands were accepted and acknowledged.
    tally: Tally,
}

impl<D: Disk> Model for Store<D> {
    ghost use Rattle.std.specs.Prelude.{◌≡◌};
    ghost use Rattle.org_commands.specs.Session.{StoreView, view_over};
    ghost use Rattle.org_commands.specs.Step.{IsSettled};
    ghost use Rattle.org_store.specs.Dirty.{NoneDirty};

    ghost Value = { StoreView D };

    ghost view = { λ s. view_over D.files s.states s.files s.tally };

    // Between commands nothing is edited that isn't kept, and where all commands are acknowledged,
    // none of their texts is dirty, and they are on the disk.
    ghost invariant = { λ s. (s.files.held.now ≡ s.files.held.before) × (D.honest s.files.disk
        → IsSettled (view_over D.files s.states s.files s.tally).session
        × NoneDirty (view_over D.files s.states s.files s.tally)) };
}

impl<D: Disk> Store<D> {
    /// A store over the files of the given names and of their archive files, with nothing accepted
    /// and a group of 1. What it finishes first and writes, and what a crash leaves meanwhile, is
    /// said at `FileSet::open`.
    ///
    /// # Errors
    ///
    /// Those of `FileSet::open`, with the disk handed back. On a disk that recovers to files of
    /// these names, none past the limit, `Device` and `OutOfMemory` alone; and over an open journal
    /// `Changed` and `Outside` of a file that its record names.
    ///
    /// # Examples
    ///
    /// Over a disk in memory that has no file:
    ///
    /// ```
    /// let names = vec![in alloc; org_file(alloc, "a.org")?]?;
    /// let states = States::new(alloc, &["TODO"], &["DONE"])?;
    /// let Ok(store) = Store::open(alloc, MemoryDisk::new(alloc), names, states) else {
    ///     panic!(rt; "not opened")
    /// };
    /// assert_eq!(rt; store.accepted(), 0);
    /// assert_eq!(rt; store.acknowledged(), 0);
    /// ```
    pub fn open(
        alloc: Global,
        disk: D,
        names: Vec<FileName>,
        states: States,
    ) -> Result<Store<D>, OpenRefused<D>>
        requires { All IsOrgFile names.items }
        ensures opened { IfOk result (λ store. IsOpened D.Disk states names.items store) }
        ensures opens { Opens D.Disk names.items disk (disk_of result) result }
        ensures again { IfErr result (λ refused. D.honest refused.disk
            → IsOpenable names.items (files_on D.Disk disk)
            → IsTransient refused.fault ⊎ IsWithheld (files_on D.Disk disk) refused.fault) }
    {
        match Files::open(alloc, disk, names) {
            Ok(files) => Ok(Store {
                files,
                states,
                tally: Tally {
                    accepted: 0,
                    acknowledged: 0,
                    group: Group::Of(1),
                },
            }),
            Err(refused) => Err(refused),
        }
    }

    /// How many commands were accepted since the store was opened.
    pub fn accepted(&self) -> u64
        ensures { result ≡ self.now.session.accepted }
    {
        self.tally.accepted
    }

    /// How many of the accepted commands are on the disk for certain.
    pub fn acknowledged(&self) -> u64
        ensures { result ≡ self.now.session.acknowledged }
    {
        self.tally.acknowledged
    }

    /// Whether the store is broken: a call of its disk failed since it was opened.
    pub fn is_broken(&self) -> bool
        ensures { result ≡ self.now.session.broken }
    {
        self.files.is_broken()
    }

    /// How many accepted commands are settled together.
    pub fn group(&self) -> Group
        ensures { result ≡ self.now.session.group }
    {
        self.tally.group
    }

    /// Sets how many accepted commands are settled together. It settles nothing by itself.
    pub fn set_group(&mut self, group: Group)
        requires { IsGroup group }
        ensures { self.new ≡ record self.old {
          session = record self.old.session
              { group = group };
        } }
    {
        self.tally.group = group;
    }

    /// The disk. What is accepted and not acknowledged is given up.
    pub fn into_disk(self) -> D
        ensures { result ≡ self.disk }
    {
        let Store { files, .. } = self;
        files.into_disk()
    }

    /// Puts all accepted commands on the disk. Where none of them is pending, it does nothing;
    /// where no file is dirty, it makes no call of the disk. No file is written but the dirty ones
    /// and the journal.
    ///
    /// At every moment since the call began, what a crash leaves recovers to the files after the
    /// commands that were acknowledged then, or to those after all that are accepted.
    ///
    /// # Errors
    ///
    /// - `Broken`: exactly where the store was broken before.
    /// - `OutOfMemory`: files and counts are as they were.
    /// - `Device`: the disk counted a failure in this call; the store is broken.
    ///
    /// # Examples
    ///
    /// In groups of 1,000 the command `todo` is pending once it is accepted:
    ///
    /// ```
    /// store.set_group(Group::Of(1_000));
    /// assert!(rt; store.run(&todo).is_ok());
    /// assert_eq!(rt; (store.accepted(), store.acknowledged()), (1, 0));
    /// assert!(rt; store.settle().is_ok());
    /// assert_eq!(rt; (store.accepted(), store.acknowledged()), (1, 1));
    /// ```
    pub fn settle(&mut self) -> Result<(), RunFault>
        ensures did { SettlesAll D.Disk self.old result self.new }
        ensures counts { SettledCounts self.old.session result self.new.session }
        ensures idle { StaysWhereNeedless (Unit {0}) self.old result self.new }
        ensures broken { SaysBroken self.old.session result self.new.session }
        ensures accounts { CountsFailures D.Disk self.old.disk self.new.disk
            (IsErrOf result RunFault.Device) }
    {
        if self.files.is_broken() {
            return Err(RunFault::Broken);
        }
        if self.tally.acknowledged == self.tally.accepted {
            return Ok(());
        }
        commit(&mut self.files, &mut self.tally)
    }

    /// Runs one command, and answers as the model does (`Step` of org_commands). `Settle` does as
    /// `settle` does.
    ///
    /// At every moment since the call began, what a crash leaves recovers to the files after the
    /// commands that were acknowledged then, or, where this command settles, to those after all
    /// that are accepted when it ends. It writes only where it settles, and no file then but the
    /// dirty ones, those that it gives new texts, and the journal; where no file is dirty and it
    /// gives none a new text, it writes nothing (`IsLeftAlone`).
    ///
    /// # Errors
    ///
    /// - `Broken`: exactly where the store was broken before.
    /// - `Refused`, `OutOfMemory`: files and counts are as they were; where a settling finds no
    ///   memory, this command is undone, and those before it stay pending.
    /// - `Device`: the disk counted a failure in this call; the store is broken.
    ///
    /// # Examples
    ///
    /// In a store whose a.org is `* TODO A`, where no clock runs:
    ///
    /// ```
    /// let line = b"todo\ta.org\tA\tDONE\t2026-07-01 10:00";
    /// let todo = read_command(alloc, line).expect(&rt, "a command");
    /// assert!(rt; matches!(store.run(&todo), Ok(Reply::Done(1))));
    /// let clock_out = Command::Change(Change::ClockOut { moment: now });
    /// assert!(rt; store.run(&clock_out).is_err());
    /// assert_eq!(rt; store.accepted(), 1);
    /// ```
    pub fn run(&mut self, command: &Command<'_>) -> Result<Reply, RunFault>
        ensures did { Runs D.Disk self.old command.now result self.new }
        ensures counts { Counts self.old.session result self.new.session }
        ensures idle { StaysWhereNeedless (command.now ≡ Command.Settle) self.old result self.new }
        ensures broken { SaysBroken self.old.session result self.new.session }
        ensures accounts { CountsFailures D.Disk self.old.disk self.new.disk
            (IsErrOf result RunFault.Device) }
    {
        if self.files.is_broken() {
            return Err(RunFault::Broken);
        }
        match command {
            Command::Change(asked) => {
                change(&mut self.files, &self.states, &mut self.tally, asked)
            }
            Command::Ask(question) => answer(&mut self.files, &self.states, question),
            Command::Settle => {
                self.settle()?;
                Ok(Reply::Safe(self.tally.acknowledged))
            }
        }
    }
}
