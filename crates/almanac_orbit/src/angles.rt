// Angles in turns, and rates in turns per millisecond.

ghost use Rattle.std.specs.Prelude.{◌≡◌, pos, neg_ℤ, ◌*◌, ◌^◌, ◌≤◌, ◌≤ℤ◌, unsigned_abs};
ghost use Rattle.raim_model.specs.Ranges.{IsDecimalBetween};
ghost use Rattle.fractions.specs.Fraction.{whole};
ghost use Rattle.fix_interval.specs.Intervals.{ends, mag_of};
ghost use Rattle.fix_interval.specs.Quotients.{scale_of};
ghost use Rattle.orbit_laws.specs.Angles.{turns_of, rate_of, above_three_tenths, IsAngle, IsRate};

use fix_interval::{Iv, UNITS_IN_ONE, add, dec76, div_int};
use raim_model::{Angle, Dec};
use whole_numbers::rounding::{ceil_by, floor_by};

/// A turn is so many of 10^13 parts of a radian.
pub(crate) const TURN_PARTS: i128 = 62831853071796;

/// 10^13.
pub(crate) const PARTS: i128 = 10000000000000;

/// 0.30, in units of 2^-76.
const THREE_TENTHS: Iv = Iv {
    lo: 22667359117774297025740,
    hi: 22667359117774297025741,
};

/// The Earth's rotation in turns per millisecond, in units of 2^-76.
pub(crate) const EARTH_RATE: Iv = Iv {
    lo: 876906561865126,
    hi: 876906561865127,
};

/// An interval times `num / den`, rounded outward at its scale.
pub(crate) fn scale(a: Iv, num: i128, den: i128) -> Iv
    requires num_positive { pos 1 ≤ℤ num }
    requires den_positive { pos 1 ≤ℤ den }
    requires small { mag_of a * unsigned_abs num ≤ 2 ^ 126 }
    ensures { ends result ≡ scale_of (ends a) (unsigned_abs num) (unsigned_abs den) }
{
    Iv {
        lo: floor_by(a.lo * num, den),
        hi: ceil_by(a.hi * num, den),
    }
}

/// The semicircles of `d` above 0.30, in units of 2^-76.
fn above(d: &Dec) -> Iv
    requires { IsDecimalBetween (whole (neg_ℤ (pos 10))) (whole (pos 10)) d.now }
    ensures { ends result ≡ above_three_tenths d.now }
{
    add(dec76(d), THREE_TENTHS)
}

/// An angle in turns, in units of 2^-38.
pub(crate) fn turns(a: &Angle) -> Iv
    requires { IsAngle a.now }
    ensures { ends result ≡ turns_of a.now }
{
    match a {
        Angle::Rad(d) => scale(dec76(d), PARTS, TURN_PARTS * UNITS_IN_ONE),
        Angle::Semi(d) => div_int(dec76(d), 2 * UNITS_IN_ONE),
        Angle::Semi30(d) => div_int(above(d), 2 * UNITS_IN_ONE),
    }
}

/// A rate, which is given per second, in turns per millisecond, in units of 2^-76.
pub(crate) fn rate(a: &Angle) -> Iv
    requires { IsRate a.now }
    ensures { ends result ≡ rate_of a.now }
{
    match a {
        Angle::Rad(d) => scale(dec76(d), 10000000000, TURN_PARTS),
        Angle::Semi(d) => div_int(dec76(d), 2000),
        Angle::Semi30(d) => div_int(above(d), 2000),
    }
}
