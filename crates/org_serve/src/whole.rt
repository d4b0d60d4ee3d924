//! A whole run over a disk, from the opening to the end of the input.
ghost use Rattle.std.specs.Prelude.{◌≡◌, All, IfErr};
ghost use Rattle.org_disk.specs.Names.{IsOrgFile};
ghost use Rattle.org_store.specs.Group.{IsGroup};
ghost use Rattle.org_serve.specs.Promises.{Promises};
ghost use Rattle.org_serve.specs.Whole.{RunsSynced};
ghost use Rattle.org_serve.specs.Writes.{exchange};

use crate::end::ServeEnd;
use crate::pipes::{Sink, Source};
use crate::serving::serve;
use crate::syncing::sync_files;
use org_disk::{Disk, FileName};
use org_outline::States;
use org_store::{Group, OpenFault, OpenRefused, Store};
use std::alloc::Global;

/// What a store is opened with.
#[derive(Drop)]
pub struct Setup {
    /// The names of its files. No name is an archive file's or the journal's; a repeated one counts
    /// once.
    pub names: Vec<FileName>,
    /// The words that are TODO keywords.
    pub states: States,
    /// How many accepted commands are settled together.
    pub group: Group,
}

/// How a run over a disk ended.
#[derive(Drop)]
pub struct Served<D> {
    /// The disk as the run left it.
    pub disk: D,
    /// How serving ended, or why the store wasn't opened.
    pub end: Result<ServeEnd, OpenFault>,
}

/// Syncs the files of a store, opens it over them, answers the lines of a reader by it as `serve`
/// does, and gives the disk back. The files are the journal, those of the names, and their archive
/// files.
///
/// What a user is promised of a run is one record of `specs/Promises.antt` (`promises`). All that
/// is known of it is another, of `specs/Whole.antt` (`runs`): what was served, what a crash leaves
/// at each moment and over which disks, and why the run ended. What is said of a step is said where
/// the disk is honest after it: a wrong answer later takes nothing from it.
///
/// # Errors
///
/// The faults are those of `Store::open`, and then nothing is read or written. A sync that fails is
/// an opening that is refused with `Device`. The ends are those of `serve`.
pub fn serve_synced<D: Disk, R: Source, W: Sink>(
    alloc: Global,
    disk: D,
    setup: Setup,
    reader: &mut R,
    writer: &mut W,
    max_reads: u64,
) -> Served<D>
    requires names { All IsOrgFile setup.names.items }
    requires group { IsGroup setup.group }
    ensures runs { RunsSynced D.Disk setup max_reads disk result.disk result.end
        (exchange R.Source W.Sink reader.old reader.new writer.old writer.new) }
    ensures promises { Promises D.Disk setup disk result.disk result.end
        (exchange R.Source W.Sink reader.old reader.new writer.old writer.new) }
    ensures unserved { IfErr result.end (λ _. (reader.new ≡ reader.old)
        × (writer.new ≡ writer.old)) }
{
    let Setup {
        names,
        states,
        group,
    } = setup;
    let mut disk = disk;
    if let Err(fault) = sync_files(alloc, &mut disk, &names) {
        return Served {
            disk,
            end: Err(fault),
        };
    }
    match Store::open(alloc, disk, names, states) {
        Ok(mut store) => {
            store.set_group(group);
            let end = serve(alloc, &mut store, reader, writer, max_reads);
            Served {
                disk: store.into_disk(),
                end: Ok(end),
            }
        }
        Err(OpenRefused { disk, fault }) => Served {
            disk,
            end: Err(fault),
        },
    }
}
