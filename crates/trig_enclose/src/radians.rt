// Turns in radians, without a division: the radians of a turn are taken to 80 binary places, which are enough to round as
// the exact quotient does.

ghost use Rattle.std.specs.Prelude.{◌≡◌, pos, neg_ℤ, ◌+◌, ◌-◌, ◌*◌, ◌/◌, ◌^◌, ◌≤◌, ◌≤ℤ◌, ◌*ℤ◌};
ghost use Rattle.whole_numbers.specs.Rounding.{floor_of, ceil_of};
ghost use Rattle.fix_interval.specs.Ends.{IsInside};
ghost use Rattle.trig_laws.specs.Quarter.{turn_parts, radians_of, eighth_ends, radian_ends};
ghost use Rattle.fix_interval.specs.Intervals.{ends_64};

use fix_interval::Iv64;

/// The radians of a turn in units of 2^-80, rounded up.
const TURN_UP: u128 = 7595904947272693509970169;

/// The radians of a turn in units of 2^-80, rounded down.
const TURN_DOWN: u128 = 7595904947272693509970168;

/// 2^80 - 1.
const BELOW_ONE: u128 = 1208925819614629174706175;

/// `n` units of turns in radians, rounded down.
#[inline(always)]
fn floor_radians(n: u64) -> u64
    requires { n ≤ 2 ^ 35 }
    ensures { result ≡ n * turn_parts / 10 ^ 13 }
{
    ((n as u128 * TURN_UP) >> 80) as u64
}

/// `n` units of turns in radians, rounded up.
#[inline(always)]
fn ceil_radians(n: u64) -> u64
    requires { n ≤ 2 ^ 35 }
    ensures { result ≡ (n * turn_parts + (10 ^ 13 - 1)) / 10 ^ 13 }
{
    ((n as u128 * TURN_DOWN + BELOW_ONE) >> 80) as u64
}

#[inline(always)]
fn radians_down(r: i64) -> i64
    requires low { neg_ℤ (pos (2 ^ 35)) ≤ℤ r }
    requires high { r ≤ℤ pos (2 ^ 35) }
    ensures { result ≡ floor_of (r *ℤ pos turn_parts) (10 ^ 13) }
{
    if r >= 0 {
        floor_radians(r as u64) as i64
    } else {
        -(ceil_radians((-r) as u64) as i64)
    }
}

#[inline(always)]
fn radians_up(r: i64) -> i64
    requires low { neg_ℤ (pos (2 ^ 35)) ≤ℤ r }
    requires high { r ≤ℤ pos (2 ^ 35) }
    ensures { result ≡ ceil_of (r *ℤ pos turn_parts) (10 ^ 13) }
{
    if r >= 0 {
        ceil_radians(r as u64) as i64
    } else {
        -(floor_radians((-r) as u64) as i64)
    }
}

/// At most an eighth of a turn, in radians.
#[inline(always)]
pub(crate) fn in_radians(r: Iv64) -> Iv64
    requires { IsInside (ends_64 r) eighth_ends }
    ensures exact { ends_64 result ≡ radians_of (ends_64 r) }
    ensures small { IsInside (ends_64 result) radian_ends }
{
    Iv64 {
        lo: radians_down(r.lo),
        hi: radians_up(r.hi),
    }
}
