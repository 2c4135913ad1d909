// The series by nested multiplication, an end at a time: each is one chain of six products.

ghost use Rattle.std.specs.Prelude.{◌≡◌, ◌^◌, ◌<◌, ◌≤◌, true, false};
ghost use Rattle.trig_laws.specs.Quarter.{sine_divisors, cosine_divisors};
ghost use Rattle.trig_laws.specs.Chains.{step_down, step_up, nest_end};

use crate::unit_iv::UnitIv;
use fix_interval::UNITS_IN_ONE;

/// 1 in units of 2^-38.
const ONE: u64 = UNITS_IN_ONE as u64;

/// A unit less.
const BELOW_ONE: u128 = (UNITS_IN_ONE - 1) as u128;

/// 1 - y h / k, rounded down.
#[inline(always)]
fn stepped_down(y: u64, h: u64, k: u64) -> u64
    requires y_unit { y ≤ 2 ^ 38 }
    requires h_unit { h ≤ 2 ^ 38 }
    requires some { 0 < k }
    requires small { k ≤ 256 }
    ensures value { result ≡ step_down y h k }
    ensures unit { result ≤ 2 ^ 38 }
{
    let product = ((y as u128 * h as u128 + BELOW_ONE) >> 38) as u64;
    ONE - (product + (k - 1)) / k
}

/// 1 - y h / k, rounded up.
#[inline(always)]
fn stepped_up(y: u64, h: u64, k: u64) -> u64
    requires y_unit { y ≤ 2 ^ 38 }
    requires h_unit { h ≤ 2 ^ 38 }
    requires some { 0 < k }
    ensures value { result ≡ step_up y h k }
    ensures unit { result ≤ 2 ^ 38 }
{
    let product = ((y as u128 * h as u128) >> 38) as u64;
    ONE - product / k
}

#[inline(always)]
pub(crate) fn sine_nest_low(y: UnitIv) -> u64
    ensures value { result ≡ nest_end false y.lo y.hi sine_divisors }
    ensures unit { result ≤ 2 ^ 38 }
{
    let a = stepped_up(y.lo, ONE, 156);
    let b = stepped_down(y.hi, a, 110);
    let c = stepped_up(y.lo, b, 72);
    let d = stepped_down(y.hi, c, 42);
    let e = stepped_up(y.lo, d, 20);
    stepped_down(y.hi, e, 6)
}

#[inline(always)]
pub(crate) fn sine_nest_high(y: UnitIv) -> u64
    ensures value { result ≡ nest_end true y.lo y.hi sine_divisors }
    ensures unit { result ≤ 2 ^ 38 }
{
    let a = stepped_down(y.hi, ONE, 156);
    let b = stepped_up(y.lo, a, 110);
    let c = stepped_down(y.hi, b, 72);
    let d = stepped_up(y.lo, c, 42);
    let e = stepped_down(y.hi, d, 20);
    stepped_up(y.lo, e, 6)
}

#[inline(always)]
pub(crate) fn cosine_nest_low(y: UnitIv) -> u64
    ensures value { result ≡ nest_end false y.lo y.hi cosine_divisors }
    ensures unit { result ≤ 2 ^ 38 }
{
    let a = stepped_up(y.lo, ONE, 132);
    let b = stepped_down(y.hi, a, 90);
    let c = stepped_up(y.lo, b, 56);
    let d = stepped_down(y.hi, c, 30);
    let e = stepped_up(y.lo, d, 12);
    stepped_down(y.hi, e, 2)
}

#[inline(always)]
pub(crate) fn cosine_nest_high(y: UnitIv) -> u64
    ensures value { result ≡ nest_end true y.lo y.hi cosine_divisors }
    ensures unit { result ≤ 2 ^ 38 }
{
    let a = stepped_down(y.hi, ONE, 132);
    let b = stepped_up(y.lo, a, 90);
    let c = stepped_down(y.hi, b, 56);
    let d = stepped_up(y.lo, c, 30);
    let e = stepped_down(y.hi, d, 12);
    stepped_up(y.lo, e, 2)
}
