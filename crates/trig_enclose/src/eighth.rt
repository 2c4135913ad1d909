// The sine and the cosine of at most an eighth of a turn, an end at a time.

ghost use Rattle.std.specs.Prelude.{◌≡◌, ◌≤◌, pos, neg_ℤ, ◌^◌, ◌≤ℤ◌, ◌*ℤ◌, true, false};
ghost use Rattle.fix_interval.specs.Ends.{IsInside};
ghost use Rattle.fix_interval.specs.Ranges.{full_ends};
ghost use Rattle.trig_laws.specs.Quarter.{sine_of, cosine_of, sine_divisors, cosine_divisors, eighth_ends};
ghost use Rattle.trig_laws.specs.Chains.{nest_end, eighth_sine_low_of, eighth_sine_high_of, eighth_cosine_low_of, eighth_cosine_high_of};
ghost use Rattle.fix_interval.specs.Intervals.{ends_64};

use crate::nested::{cosine_nest_high, cosine_nest_low, sine_nest_high, sine_nest_low};
use crate::pair::Pair64;
use crate::radians::in_radians;
use crate::square::square;
use crate::unit_iv::UnitIv;
use fix_interval::{Iv64, UNITS_IN_ONE, product_down, product_up};

/// 1 in units of 2^-38.
const ONE: i64 = UNITS_IN_ONE as i64;

/// The lower end of the sine, where the radians begin at `x` and `y` is their square.
#[inline(always)]
pub(crate) fn eighth_sine_low(x: i64, y: UnitIv) -> i64
    requires low { neg_ℤ (pos (2 ^ 38)) ≤ℤ x }
    requires high { x ≤ℤ pos (2 ^ 38) }
    ensures { result ≡ eighth_sine_low_of x (nest_end false y.lo y.hi sine_divisors) (nest_end true y.lo y.hi sine_divisors) }
{
    if x >= 0 {
        (product_down(x, sine_nest_low(y)) - 1).max(-ONE)
    } else {
        (product_down(x, sine_nest_high(y)) - 1).max(-ONE)
    }
}

/// The upper end of the sine, where the radians end at `x` and `y` is their square.
#[inline(always)]
pub(crate) fn eighth_sine_high(x: i64, y: UnitIv) -> i64
    requires low { neg_ℤ (pos (2 ^ 38)) ≤ℤ x }
    requires high { x ≤ℤ pos (2 ^ 38) }
    ensures value { result ≡ eighth_sine_high_of x (nest_end false y.lo y.hi sine_divisors) (nest_end true y.lo y.hi sine_divisors) }
    ensures above { neg_ℤ (pos (2 ^ 38)) ≤ℤ result }
{
    if x >= 0 {
        (product_up(x, sine_nest_high(y)) + 1).min(ONE)
    } else {
        (product_up(x, sine_nest_low(y)) + 1).min(ONE)
    }
}

/// The lower end of the cosine, where `y` is the square of the radians.
#[inline(always)]
pub(crate) fn eighth_cosine_low(y: UnitIv) -> i64
    ensures { result ≡ eighth_cosine_low_of (nest_end false y.lo y.hi cosine_divisors) }
{
    (cosine_nest_low(y) as i64 - 1).max(-ONE)
}

/// The upper end of the cosine, where `y` is the square of the radians.
#[inline(always)]
pub(crate) fn eighth_cosine_high(y: UnitIv) -> i64
    ensures { result ≡ eighth_cosine_high_of (nest_end true y.lo y.hi cosine_divisors) }
{
    (cosine_nest_high(y) as i64 + 1).min(ONE)
}

/// The sine and the cosine of at most an eighth of a turn.
pub(crate) fn of_eighth(r: Iv64) -> Pair64
    requires { IsInside (ends_64 r) eighth_ends }
    ensures sine { ends_64 result.sine ≡ sine_of (ends_64 r) }
    ensures cosine { ends_64 result.cosine ≡ cosine_of (ends_64 r) }
    ensures sine_full { IsInside (ends_64 result.sine) full_ends }
    ensures cosine_full { IsInside (ends_64 result.cosine) full_ends }
{
    let x = in_radians(r);
    let y = square(x);
    Pair64 {
        sine: Iv64 {
            lo: eighth_sine_low(x.lo, y),
            hi: eighth_sine_high(x.hi, y),
        },
        cosine: Iv64 {
            lo: eighth_cosine_low(y),
            hi: eighth_cosine_high(y),
        },
    }
}
