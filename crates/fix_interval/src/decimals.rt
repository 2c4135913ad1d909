// Decimals as intervals: the fraction that a decimal stands for, rounded outward.

ghost use Rattle.std.specs.Prelude.{◌≡◌, ◌≤◌, ◌<◌, ◌*◌, ◌^◌, pos, neg_ℤ, unsigned_abs, ◌*ℤ◌, ◌≤ℤ◌};
ghost use Rattle.whole_numbers.specs.Rounding.{floor_of, ceil_of};
ghost use Rattle.fractions.specs.Fraction.{whole, abs, ◌≤ᶠ◌};
ghost use Rattle.fractions.specs.Inverse.{◌/ᶠ◌};
ghost use Rattle.raim_model.specs.Decimal.{IsCanonical, signed, value_of};
ghost use Rattle.fix_interval.specs.Lies.{Lies};
ghost use Rattle.fix_interval.specs.Decimals.{from_dec_of, from_dec_over_of, dec56_milli_of, dec76_of};
ghost use Rattle.fix_interval.specs.Intervals.{ends, IsWithin};

use crate::interval::Iv;
use crate::points::UNITS_IN_ONE;
use crate::quotients::outward;
use raim_model::Dec;
use whole_numbers::rounding::floor_by;

/// 2^56: 1 in units of 2^-56.
const UNITS_56: i128 = 72057594037927936;

/// 2^64, by which the digits of a decimal are multiplied within 128 bits.
const PLACES_64: i128 = 18446744073709551616;

/// 10 to the power `places`.
fn ten_to(places: u8) -> i128
    requires { places ≤ 30 }
    ensures { result ≡ pos (10 ^ places) }
{
    10u128.pow(places as u32) as i128
}

/// The digits of a decimal with its sign.
fn signed_digits(d: &Dec) -> i128
    requires { d.now.digits < 10 ^ 18 }
    ensures { result ≡ signed d.now.neg d.now.digits }
{
    let digits = d.digits as i128;
    if d.neg { -digits } else { digits }
}

impl Iv {
    /// A decimal, rounded outward to units of 2^-38.
    pub fn from_dec(d: &Dec) -> Iv
        requires { IsCanonical d.now }
        ensures exact { ends result ≡ from_dec_of d.now }
        ensures encloses { Lies (ends result) 38 (value_of d.now) }
    {
        Iv::from_dec_over(d, 1)
    }

    /// A decimal over `k`, rounded outward to units of 2^-38.
    pub fn from_dec_over(d: &Dec, k: u32) -> Iv
        requires canonical { IsCanonical d.now }
        requires positive { 1 ≤ k }
        requires small { k ≤ 1000000 }
        ensures exact { ends result ≡ from_dec_over_of d.now k }
        ensures encloses { Lies (ends result) 38 (value_of d.now /ᶠ whole (pos k)) }
    {
        outward(
            signed_digits(d) * UNITS_IN_ONE,
            ten_to(d.places) * k as i128,
        )
    }
}

/// A thousandth of a decimal, rounded outward to units of 2^-56.
pub fn dec56_milli(d: &Dec) -> Iv
    requires { IsCanonical d.now }
    ensures exact { ends result ≡ dec56_milli_of d.now }
    ensures encloses { Lies (ends result) 56 (value_of d.now /ᶠ whole (pos 1000)) }
{
    outward(signed_digits(d) * UNITS_56, ten_to(d.places) * 1000)
}

/// `num 2^12 / den`, rounded outward: the quotient, and behind it twelve binary places of what is left. The product of
/// `num` with 2^12 may need more than 128 bits.
fn twelve_more_places(num: i128, den: i128) -> Iv
    requires positive { pos 1 ≤ℤ den }
    requires den_small { den ≤ℤ pos (10 ^ 30) }
    requires num_small { unsigned_abs num ≤ 2 ^ 124 }
    requires low { neg_ℤ (pos (10 * 2 ^ 64) *ℤ den) ≤ℤ num }
    requires high { num ≤ℤ (pos (10 * 2 ^ 64) *ℤ den) }
    ensures lo { result.lo ≡ floor_of (num *ℤ pos 4096) (unsigned_abs den) }
    ensures hi { result.hi ≡ ceil_of (num *ℤ pos 4096) (unsigned_abs den) }
{
    let quotient = floor_by(num, den);
    let multiple = quotient * den;
    let rest = num - multiple;
    let more = outward(rest * 4096, den);
    let shifted = quotient * 4096;
    Iv {
        lo: more.lo + shifted,
        hi: more.hi + shifted,
    }
}

/// A decimal of at most 10 either way, rounded outward to units of 2^-76.
pub fn dec76(d: &Dec) -> Iv
    requires canonical { IsCanonical d.now }
    requires small { abs (value_of d.now) ≤ᶠ whole (pos 10) }
    ensures within { IsWithin result (10 * 2 ^ 76) }
    ensures exact { ends result ≡ dec76_of d.now }
    ensures encloses { Lies (ends result) 76 (value_of d.now) }
{
    twelve_more_places(signed_digits(d) * PLACES_64, ten_to(d.places))
}
