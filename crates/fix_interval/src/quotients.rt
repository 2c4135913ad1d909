// Quotients of intervals, rounded outward.

ghost use Rattle.std.specs.Prelude.{◌≡◌, ℕ, pos, ◌^◌, ◌≤◌, ◌≤ℤ◌, unsigned_abs};
ghost use Rattle.std.specs.Int.{int_min, int_max};
ghost use Rattle.whole_numbers.specs.Rounding.{floor_of, ceil_of};
ghost use Rattle.fractions.specs.Fraction.{Fraction, ratio, ◌*ᶠ◌};
ghost use Rattle.fractions.specs.Inverse.{◌/ᶠ◌};
ghost use Rattle.fix_interval.specs.Ends.{Ends, IsInside};
ghost use Rattle.fix_interval.specs.Lies.{Lies};
ghost use Rattle.fix_interval.specs.Quotients.{div_int_of, from_ratio_of, div_of};
ghost use Rattle.fix_interval.specs.Intervals.{ends, IsWithin};

use crate::interval::Iv;
use crate::points::UNITS_IN_ONE;
use whole_numbers::rounding::{ceil_by, floor_by};

/// An interval over a whole number, at its scale.
pub fn div_int(a: Iv, k: i128) -> Iv
    requires { pos 1 ≤ℤ k }
    ensures exact { ends result ≡ div_int_of (ends a) (unsigned_abs k) }
    ensures encloses { (s : ℕ) (x : Fraction) → Lies (ends a) s x
        → Lies (ends result) s (ratio (pos 1) (unsigned_abs k) *ᶠ x) }
    ensures isotone { (c : Ends) → IsInside (ends a) c
        → IsInside (ends result) (div_int_of c (unsigned_abs k)) }
{
    Iv {
        lo: floor_by(a.lo, k),
        hi: ceil_by(a.hi, k),
    }
}

/// `num / den`, rounded outward.
pub(crate) fn outward(num: i128, den: i128) -> Iv
    requires { pos 1 ≤ℤ den }
    ensures lo { result.lo ≡ floor_of num (unsigned_abs den) }
    ensures hi { result.hi ≡ ceil_of num (unsigned_abs den) }
{
    Iv {
        lo: floor_by(num, den),
        hi: ceil_by(num, den),
    }
}

impl Iv {
    /// The fraction `num / den`, rounded outward to units of 2^-38.
    pub fn from_ratio(num: i128, den: i128) -> Iv
        requires small { unsigned_abs num ≤ 2 ^ 88 }
        requires positive { pos 1 ≤ℤ den }
        ensures exact { ends result ≡ from_ratio_of num (unsigned_abs den) }
        ensures encloses { Lies (ends result) 38 (ratio num (unsigned_abs den)) }
    {
        outward(num * UNITS_IN_ONE, den)
    }
}

/// The least quotient of `z` by a number from `low` to `high`, rounded down: by the smaller where `z` is below 0, and else by
/// the greater.
fn least_quotient(z: i128, low: i128, high: i128) -> i128
    requires positive { pos 1 ≤ℤ low }
    requires ordered { low ≤ℤ high }
    ensures { result ≡ int_min (floor_of z (unsigned_abs low)) (floor_of z (unsigned_abs high)) }
{
    if z < 0 {
        floor_by(z, low)
    } else {
        floor_by(z, high)
    }
}

/// The greatest quotient of `z` by a number from `low` to `high`, rounded up.
fn greatest_quotient(z: i128, low: i128, high: i128) -> i128
    requires positive { pos 1 ≤ℤ low }
    requires ordered { low ≤ℤ high }
    ensures { result ≡ int_max (ceil_of z (unsigned_abs low)) (ceil_of z (unsigned_abs high)) }
{
    if z < 0 {
        ceil_by(z, high)
    } else {
        ceil_by(z, low)
    }
}

/// The quotient of two intervals of one scale, in units of 2^-38. The divisor is above 0, so each end of the answer is over
/// one end of it, which the sign tells.
pub fn div(a: Iv, b: Iv) -> Iv
    requires small { IsWithin a (2 ^ 88) }
    requires positive { pos 1 ≤ℤ b.lo }
    ensures exact { ends result ≡ div_of (ends a) (ends b) }
    ensures encloses { (s : ℕ) (x y : Fraction) → Lies (ends a) s x → Lies (ends b) s y
        → Lies (ends result) 38 (x /ᶠ y) }
    ensures isotone { (c d : Ends) → pos 1 ≤ℤ d.lo → IsInside (ends a) c → IsInside (ends b) d
        → IsInside (ends result) (div_of c d) }
{
    Iv {
        lo: least_quotient(a.lo * UNITS_IN_ONE, b.lo, b.hi),
        hi: greatest_quotient(a.hi * UNITS_IN_ONE, b.lo, b.hi),
    }
}
