// Angles that change over a piece of time.

ghost use Rattle.std.specs.Prelude.{◌≡◌, pos, ◌^◌, ◌≤ℤ◌, unsigned_abs, IfSome};
ghost use Rattle.std.specs.Option.{option_map};
ghost use Rattle.fix_interval.specs.Intervals.{ends, IsWithin};
ghost use Rattle.time_forms.specs.Programs.{form, IsNumberWithin, IsFormWithin};
ghost use Rattle.satellite_forms.specs.Checked.{checked_moved, checked_moved_back};

use angle_forms::{steady, steady_wide};
use fix_interval::Iv;
use time_forms::{TimeForm, add, linear, narrow, sub_wide};

/// An angle that is at `start`, in turns in units of 2^-38, and moves by `rate`, in turns per millisecond in units of 2^-76, for
/// `k` milliseconds up to the middle of a piece of half length `half`.
pub(crate) fn moved(start: Iv, rate: Iv, k: i64, half: i64) -> Option<TimeForm>
    requires start_small { IsWithin start (2 ^ 41) }
    requires rate_small { IsWithin rate (2 ^ 52) }
    requires k_small { IsNumberWithin k (2 ^ 50) }
    requires half_positive { pos 1 ≤ℤ half }
    requires half_small { IsNumberWithin half (2 ^ 50) }
    ensures exact { option_map form result ≡ checked_moved (ends start) (ends rate) k (unsigned_abs half) }
    ensures small { IfSome result (λ f. IsFormWithin (form f) (2 ^ 59)) }
{
    let motion = narrow(linear(rate, k, half))?;
    Some(add(steady(start), motion))
}

/// The same of an angle that has turned back by `turned` before, in turns in units of 2^-76.
pub(crate) fn moved_back(start: Iv, rate: Iv, turned: Iv, k: i64, half: i64) -> Option<TimeForm>
    requires start_small { IsWithin start (2 ^ 41) }
    requires rate_small { IsWithin rate (2 ^ 52) }
    requires turned_small { IsWithin turned (2 ^ 80) }
    requires k_small { IsNumberWithin k (2 ^ 50) }
    requires half_positive { pos 1 ≤ℤ half }
    requires half_small { IsNumberWithin half (2 ^ 50) }
    ensures exact { option_map form result ≡ checked_moved_back (ends start) (ends rate) (ends turned) k (unsigned_abs half) }
    ensures small { IfSome result (λ f. IsFormWithin (form f) (2 ^ 59)) }
{
    let motion = narrow(sub_wide(linear(rate, k, half), steady_wide(turned)))?;
    Some(add(steady(start), motion))
}
