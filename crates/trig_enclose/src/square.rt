// The square of at most four fifths of a radian.

ghost use Rattle.std.specs.Prelude.{◌≡◌, ◌+◌, ◌-◌, ◌*◌, ◌/◌, ◌^◌, ◌≤◌};
ghost use Rattle.fix_interval.specs.Ends.{IsInside};
ghost use Rattle.fix_interval.specs.Products.{sqr_of};
ghost use Rattle.fix_interval.specs.Ranges.{from_to};
ghost use Rattle.trig_laws.specs.Quarter.{radian_ends};
ghost use Rattle.fix_interval.specs.Intervals.{ends_64};
ghost use Rattle.trig_enclose.specs.Views.{unit_iv_ends};

use crate::unit_iv::UnitIv;
use fix_interval::{Iv64, UNITS_IN_ONE};

/// A unit less than 1, in units of 2^-38.
const BELOW_ONE: u128 = (UNITS_IN_ONE - 1) as u128;

#[inline(always)]
fn square_down(n: u64) -> u64
    requires { n ≤ 2 ^ 38 }
    ensures { result ≡ n * n / 2 ^ 38 }
{
    ((n as u128 * n as u128) >> 38) as u64
}

#[inline(always)]
fn square_up(n: u64) -> u64
    requires { n ≤ 2 ^ 38 }
    ensures { result ≡ (n * n + (2 ^ 38 - 1)) / 2 ^ 38 }
{
    ((n as u128 * n as u128 + BELOW_ONE) >> 38) as u64
}

/// The squares of numbers from `low` to `high`.
#[inline(always)]
fn squares(low: u64, high: u64) -> UnitIv
    requires order { low ≤ high }
    requires small { high ≤ 2 ^ 38 }
    ensures { unit_iv_ends result ≡ from_to (low * low / 2 ^ 38) ((high * high + (2 ^ 38 - 1)) / 2 ^ 38) }
{
    UnitIv {
        lo: square_down(low),
        hi: square_up(high),
    }
}

/// The square, whose least is 0 where `x` holds 0.
#[inline(always)]
pub(crate) fn square(x: Iv64) -> UnitIv
    requires { IsInside (ends_64 x) radian_ends }
    ensures { unit_iv_ends result ≡ sqr_of (ends_64 x) }
{
    if x.lo >= 0 {
        squares(x.lo as u64, x.hi as u64)
    } else if x.hi <= 0 {
        squares((-x.hi) as u64, (-x.lo) as u64)
    } else {
        squares(0, ((-x.lo) as u64).max(x.hi as u64))
    }
}
