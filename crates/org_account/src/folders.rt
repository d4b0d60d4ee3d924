//! The four folders of a merge in its table.
ghost use Rattle.std.specs.Prelude.{◌≡◌, IfErr, IfOk};
ghost use Rattle.org_account.specs.Account.{AreInTable, HaveUnits};
ghost use Rattle.org_account.specs.Place.{IsPlace, counts_of};

use crate::placed::Placed;
use crate::refused::Refused;
use crate::table::{Folder, Row};
use crate::units::Unit;
use org_outline::States;
use std::alloc::Global;
use std::marker::Model;

/// The four folders, and the states of their headings.
#[derive(Drop)]
pub(crate) struct Folders<'u, 'a> {
    pub(crate) states: &'a States,
    pub(crate) base: Placed<'u, 'a>,
    pub(crate) ours: Placed<'u, 'a>,
    pub(crate) theirs: Placed<'u, 'a>,
    pub(crate) merged: Placed<'u, 'a>,
}

impl<'u, 'a> Model for Folders<'u, 'a> {
    ghost use Rattle.org_account.specs.Account.{Folders};

    ghost Value = { Folders };

    ghost view = { λ f. record {
      states = f.states.now;
      base = f.base;
      ours = f.ours;
      theirs = f.theirs;
      merged = f.merged;
    } };
}

/// The folders with these units.
pub(crate) fn place<'u, 'a>(
    alloc: Global,
    states: &'a States,
    table: &[Row<'_>],
    base: &'u [Unit<'a>],
    ours: &'u [Unit<'a>],
    theirs: &'u [Unit<'a>],
    merged: &'u [Unit<'a>],
) -> Result<Folders<'u, 'a>, Refused>
    ensures states { IfOk result (λ of. of.states ≡ states.now) }
    ensures table { IfOk result (λ of. AreInTable table.now of) }
    ensures units { IfOk result (λ of. HaveUnits of base.now ours.now theirs.now merged.now) }
    ensures place { IfErr result
        (IsPlace table.now (counts_of base.now ours.now theirs.now merged.now)) }
{
    let base = Placed::new(alloc, table, Folder::Base, base)?;
    let ours = Placed::new(alloc, table, Folder::Ours, ours)?;
    let theirs = Placed::new(alloc, table, Folder::Theirs, theirs)?;
    let merged = Placed::new(alloc, table, Folder::Merged, merged)?;
    Ok(Folders {
        states,
        base,
        ours,
        theirs,
        merged,
    })
}
