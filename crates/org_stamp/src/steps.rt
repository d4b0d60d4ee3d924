//! How often a repeater has to be applied to lead past a moment: by arithmetic, without a loop over
//! the steps.
ghost use Rattle.std.specs.Prelude.{◌≡◌, ◌≤◌, ◌<◌, ◌*◌, ◌+◌, ◌^◌, ◌⊎◌, ℕ, pos, neg_ℤ, ◌+ℤ◌, ◌≤ℤ◌, ◌<ℤ◌};
ghost use Rattle.jiff_core.specs.Calendar.{IsBetween};
ghost use Rattle.org_stamp.specs.Calendar.{day_number, days_after, months_after, month_number};

use crate::calendar::Day;

/// The least number from 1 on that, times the step, is at least the gap.
pub fn least_steps(gap: u64, step: u64) -> u64
    requires { 1 ≤ step }
    ensures some { 1 ≤ result }
    ensures reached { gap ≤ result * step }
    ensures least { (j : ℕ) → 1 ≤ j → j < result → j * step < gap }
    ensures bound { result ≤ gap + 1 }
{
    if gap <= step { 1 } else { (gap - 1) / step + 1 }
}

fn gap(from: i64, to: i64) -> u64
    requires from { IsBetween (neg_ℤ (pos (2 ^ 34))) (pos (2 ^ 34)) from }
    requires to { IsBetween (neg_ℤ (pos (2 ^ 34))) (pos (2 ^ 34)) to }
    ensures reached { to ≤ℤ (from +ℤ pos result) }
    ensures least { (result ≡ 0) ⊎ (from +ℤ pos result ≡ to) }
    ensures bound { result ≤ 2 ^ 35 }
{
    if to <= from { 0 } else { (to - from) as u64 }
}

/// The least number from 1 on that, times the step, leads from the one number past the other.
pub fn least_steps_past(from: i64, step: u64, past: i64) -> u64
    requires step { 1 ≤ step }
    requires from { IsBetween (neg_ℤ (pos (2 ^ 33))) (pos (2 ^ 33)) from }
    requires past { IsBetween (neg_ℤ (pos (2 ^ 33))) (pos (2 ^ 33)) past }
    ensures some { 1 ≤ result }
    ensures reached { past <ℤ (from +ℤ pos (result * step)) }
    ensures least { (j : ℕ) → 1 ≤ j → j < result → (from +ℤ pos (j * step)) ≤ℤ past }
    ensures bound { result ≤ 2 ^ 36 }
{
    least_steps(gap(from, past + 1), step)
}

/// The least number from 1 on that, times the step, leads from the day by days to the target or
/// past it.
pub fn least_day_steps(day: Day, step: u64, target: i64) -> u64
    requires step { 1 ≤ step }
    requires target { IsBetween (neg_ℤ (pos (2 ^ 30))) (pos (2 ^ 30)) target }
    ensures some { 1 ≤ result }
    ensures reached { target ≤ℤ day_number (days_after day (result * step)) }
    ensures least { (j : ℕ) → 1 ≤ j → j < result
        → day_number (days_after day (j * step)) <ℤ target }
    ensures bound { result ≤ 2 ^ 36 }
{
    least_steps(gap(day.number() as i64, target), step)
}

/// The least number from 1 on that, times the step, leads from the day by months to the target or
/// past it; the target is the number of the day of now, or of the one after it.
pub fn least_month_steps(day: Day, step: u64, now: Day, target: i64) -> u64
    requires step { 1 ≤ step }
    requires bound { step < 2 ^ 40 }
    requires target { (target ≡ day_number now) ⊎ (target ≡ day_number now +ℤ pos 1) }
    ensures some { 1 ≤ result }
    ensures reached { target ≤ℤ day_number (months_after day (result * step)) }
    ensures least { (j : ℕ) → 1 ≤ j → j < result
        → day_number (months_after day (j * step)) <ℤ target }
    ensures bound { result ≤ 2 ^ 20 }
{
    let from = day.month_number();
    let to = now.month_number();
    if to < from + step {
        return 1;
    }
    let whole = (to - from) / step;
    match day.plus_months(whole * step) {
        Some(reached) if target <= reached.number() as i64 => whole,
        _ => whole + 1,
    }
}
