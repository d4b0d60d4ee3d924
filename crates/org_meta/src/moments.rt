//! How a moment is written into sections: one inactive stamp, with its time.
ghost use Rattle.std.specs.Prelude.{◌≡◌, IfOk, OnOk, ◌++◌};
ghost use Rattle.org_meta.specs.Moments.{moment_text};

use crate::texts::push_all;
use org_stamp::{Moment, Stamp};
use std::alloc::{AllocError, Global};

/// The moment as an inactive timestamp with its time, as `[2026-07-01 Wed 10:00]`, between two
/// texts.
pub(crate) fn push_moment(
    out: &mut Vec<u8>,
    before: &[u8],
    now: Moment,
    after: &[u8],
) -> Result<(), AllocError>
    ensures { OnOk result (out.new.items
        ≡ out.old.items ++ (before.now ++ (moment_text now ++ after.now))) }
{
    let stamp = Stamp::at(now, false, true).print(*out.allocator())?;
    push_all(out, &[before, &stamp, after])
}

/// The moment between two texts, as new bytes.
pub(crate) fn moment_bytes(
    alloc: Global,
    before: &[u8],
    now: Moment,
    after: &[u8],
) -> Result<Vec<u8>, AllocError>
    ensures { IfOk result (λ bytes. bytes.items
        ≡ before.now ++ (moment_text now ++ after.now)) }
{
    let mut bytes = Vec::new(alloc);
    push_moment(&mut bytes, before, now, after)?;
    Ok(bytes)
}
