//! Durations as clock lines and totals have them: hours and minutes, no days.
ghost use Rattle.std.specs.Prelude.{◌≡◌, ◌≤◌, IfOk};
ghost use Rattle.org_stamp.specs.Stamp.{duration_text};

use std::alloc::{AllocError, Global};

/// The duration as `H:MM` (Org manual, "Clocking commands"): the hours right-aligned in `width`
/// places, 1 or 2, and wider where they have more digits; the minutes in two.
///
/// # Errors
///
/// `AllocError`.
pub fn duration(alloc: Global, minutes: u64, width: usize) -> Result<Vec<u8>, AllocError>
    requires low { 1 ≤ width }
    requires high { width ≤ 2 }
    ensures { IfOk result (λ v. v.items ≡ duration_text minutes width) }
{
    let text = format!(in alloc; "{:width$}:{:02}", minutes / 60, minutes % 60)?;
    Ok(text.into_bytes())
}
