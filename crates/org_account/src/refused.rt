//! Why a table and a report aren't an account.
use crate::table::Folder;
use std::alloc::AllocError;

/// Why a table and a report aren't accepted. It names the first fault that was found: the merge may
/// have others.
#[derive(Clone, Copy, Drop)]
pub enum Refused {
    /// The report isn't what the rows tell, or a row doesn't tell whole lines.
    Report,
    /// The row names a unit that the folder doesn't have, or that an earlier row names.
    Name(Folder, usize),
    /// No row names this unit of the folder.
    Unit(Folder, usize),
    /// The result has the unit of the row otherwise than the sides allow.
    Row(usize),
    /// The result has what stands below the unit of the row in another order than the sides allow.
    Order(usize),
    /// The row says that a side deleted a unit, and another row says that the side added the same
    /// text.
    Deletion(Folder, usize),
    /// There is no memory.
    Memory,
}

impl From<AllocError> for Refused {
    ghost use Rattle.org_account.specs.declared.refused.Refused.TheVariants.{Memory};
    ghost use Rattle.std.specs.Prelude.{◌≡◌};

    ghost from_gives = { λ why refused. refused ≡ Memory };

    fn from(_why: AllocError) -> Self {
        Refused::Memory
    }
}
