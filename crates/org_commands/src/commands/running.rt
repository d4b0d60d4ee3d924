//! The clock that runs over all files: the first in byte order of their names.
//!
//! A file that was searched and has none isn't searched again until it changes, and then only where
//! it did.
ghost use Rattle.std.specs.Prelude.{◌≡◌, IfOk, OnOk, Some, true};
ghost use Rattle.std.specs.Option.{ForSome, option_map};
ghost use Rattle.org_commands.specs.Clocks.{RunsHeld, RunsIn, running_over};
ghost use Rattle.org_commands.specs.Files.{AreReadyForCommand};
ghost use Rattle.org_commands.specs.InOrder.{is_name};
ghost use Rattle.org_commands.specs.Reading.{ReadsFiles};
ghost use Rattle.org_commands.specs.Session.{BetweenSessions};

use crate::command::RunFault;
use crate::commands::outline::outline_of;
use crate::files::Files;
use crate::searches::Searches;
use org_disk::{Disk, FileName};
use org_outline::States;
use org_state::{Running, search};

/// The clock that runs, and the file that it runs in.
#[derive(Drop)]
pub(crate) struct Clock {
    pub(crate) file: FileName,
    pub(crate) running: Running,
}

/// The clock that runs in one of the files. Its text stays as it is.
fn running_in_file<D: Disk>(
    files: &mut Files<D>,
    states: &States,
    file: &FileName,
) -> Result<Option<Running>, RunFault>
    requires name { is_name files.old.names file.now ≡ true }
    requires between { AreReadyForCommand files.old }
    ensures runs { IfOk result (λ found. RunsIn files.new.held.before file.now found) }
    ensures files { ReadsFiles D.Disk files.old files.new result }
    ensures unedited { OnOk result (files.new.held.now ≡ files.new.held.before) }
{
    files.ready(file)?;
    let before = files.searched(file);
    let (found, clocks) = search(&outline_of(files.held(file), states), before.clocks);
    files.undo();
    files.note(file, Searches { clocks, ..before });
    Ok(found)
}

/// The clock that runs: the first over the files in byte order of their names. Each file is read
/// where it isn't held, up to the one where a clock runs; all texts stay as they are. What was
/// searched isn't searched again until it changes.
pub(crate) fn running_clock<D: Disk>(
    files: &mut Files<D>,
    states: &States,
) -> Result<Option<Clock>, RunFault>
    requires between { AreReadyForCommand files.old }
    ensures clock { BetweenSessions D.Disk states.now files.old files.new
        (λ old new. IfOk result (λ found. option_map (λ clock. (clock.file, clock.running)) found
        ≡ running_over old.names old.files)) }
    ensures found { IfOk result (λ found. ForSome found
        (λ clock. RunsHeld files.new.held clock.file clock.running
        × (is_name files.new.names clock.file ≡ true))) }
    ensures files { ReadsFiles D.Disk files.old files.new result }
    ensures unedited { OnOk result (files.new.held.now ≡ files.new.held.before) }
{
    for index in 0..files.count() {
        if files.is_clockless(index) {
            continue;
        }
        let file = files.name(index)?;
        if let Some(running) = running_in_file(files, states, &file)? {
            return Ok(Some(Clock { file, running }));
        }
    }
    Ok(None)
}
