//! The text of a file, as the next commit would write it.
ghost use Rattle.org_outline.specs.States.{Keywords};
ghost use Rattle.org_commands.specs.Files.{AreReadyForCommand};
ghost use Rattle.org_commands.specs.Questions.{AnswersQuestion};

use crate::command::{Question, Reply, RunFault};
use crate::files::Files;
use org_disk::{Disk, FileName};
use org_splice::Bytes;

/// Answers the text of a file, as it is. `NoSuchFile` where it is none of the store's. `Device`,
/// which leaves the files broken, comes only where reading it failed, and `OutOfMemory` where
/// memory ran out.
pub(crate) fn show<D: Disk>(files: &mut Files<D>, file: &FileName) -> Result<Reply, RunFault>
    requires between { AreReadyForCommand files.old }
    ensures { (states : Keywords) → AnswersQuestion D.Disk states files.old
        (Question.Show file.now) result files.new }
{
    files.check_name(file)?;
    files.load(file)?;
    let alloc = files.alloc();
    match files.get(file) {
        Some(held) => Ok(Reply::Text(Bytes::new(held.bytes().to_vec(alloc)?))),
        None => unreachable!(),
    }
}
