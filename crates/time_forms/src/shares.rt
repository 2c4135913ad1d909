// Numbers of 128 bits that roots and quotients of forms are made of.

ghost use Rattle.std.specs.Prelude.{◌≡◌, pos, ◌+◌, ◌^◌, ◌+ℤ◌, ◌*ℤ◌, ◌≤ℤ◌, ◌&&◌, unsigned_abs};
ghost use lib.Signed.{le_z};
ghost use Rattle.whole_numbers.specs.Rounding.{floor_of};
ghost use Rattle.whole_numbers.specs.Root.{root_of};
ghost use Rattle.time_forms.specs.Programs.{is_below, IsNumberWithin};

use whole_numbers::root::whole_root;
use whole_numbers::rounding::{floor_by, floor_shift};

/// 2^38.
const UNITS_IN_ONE: i128 = 274877906944;

/// A number times the units in one.
#[inline(always)]
pub(crate) fn in_units(z: i128) -> i128
    requires small { IsNumberWithin z (2 ^ 86) }
    ensures value { result ≡ z *ℤ pos (2 ^ 38) }
    ensures small { IsNumberWithin result (2 ^ 124) }
{
    z * UNITS_IN_ONE
}

/// A quotient, rounded down.
#[inline(always)]
pub(crate) fn part(z: i128, k: i128) -> i128
    requires small { IsNumberWithin z (2 ^ 124) }
    requires positive { pos 1 ≤ℤ k }
    ensures value { result ≡ floor_of z (unsigned_abs k) }
    ensures small { IsNumberWithin result (2 ^ 124) }
{
    floor_by(z, k)
}

/// A quotient, rounded down, and one: at least the quotient.
#[inline(always)]
pub(crate) fn share(z: i128, k: i128) -> i128
    requires small { IsNumberWithin z (2 ^ 124) }
    requires positive { pos 1 ≤ℤ k }
    ensures value { result ≡ floor_of z (unsigned_abs k) +ℤ pos 1 }
    ensures small { IsNumberWithin result (2 ^ 124 + 1) }
{
    part(z, k) + 1
}

/// The square root of a number from 1 on, rounded down.
#[inline(always)]
pub(crate) fn root(z: i128) -> i128
    requires positive { pos 1 ≤ℤ z }
    requires small { z ≤ℤ pos (2 ^ 126) }
    ensures value { result ≡ pos (root_of z) }
    ensures positive { pos 1 ≤ℤ result }
    ensures small { result ≤ℤ pos (2 ^ 63) }
{
    whole_root(z)
}

/// Whether a number has a magnitude below 2^62, so that its square fits.
#[inline(always)]
pub(crate) fn has_square(z: i128) -> bool
    ensures { result ≡ is_below z (2 ^ 62) }
{
    -4611686018427387904 < z && z < 4611686018427387904
}

/// The square of such a number.
#[inline(always)]
pub(crate) fn squared(z: i128) -> i128
    requires small { IsNumberWithin z (2 ^ 62) }
    ensures value { result ≡ z *ℤ z }
    ensures small { IsNumberWithin result (2 ^ 124) }
{
    z * z
}

/// Twice a root.
#[inline(always)]
pub(crate) fn double(z: i128) -> i128
    requires positive { pos 1 ≤ℤ z }
    requires small { z ≤ℤ pos (2 ^ 63) }
    ensures value { result ≡ pos 2 *ℤ z }
    ensures positive { pos 1 ≤ℤ result }
{
    2 * z
}

/// Whether two numbers are above 0.
#[inline(always)]
pub(crate) fn are_positive(x: i128, y: i128) -> bool
    ensures { result ≡ (le_z (pos 1) x && le_z (pos 1) y) }
{
    1 <= x && 1 <= y
}

/// Whether a number has a magnitude below 2^86, so that it fits in units.
#[inline(always)]
pub(crate) fn fits_in_units(z: i128) -> bool
    ensures { result ≡ is_below z (2 ^ 86) }
{
    -77371252455336267181195264 < z && z < 77371252455336267181195264
}

/// From units of 2^-76 to units of 2^-38, rounded down.
#[inline(always)]
pub(crate) fn shifted(z: i128) -> i128
    requires small { IsNumberWithin z (2 ^ 119) }
    ensures value { result ≡ floor_of z (2 ^ 38) }
    ensures small { IsNumberWithin result (2 ^ 82) }
{
    floor_shift(z, 38)
}

/// The product of two positive numbers.
#[inline(always)]
pub(crate) fn positive_product(x: i128, y: i128) -> i128
    requires x_positive { pos 1 ≤ℤ x }
    requires x_small { x ≤ℤ pos (2 ^ 58) }
    requires y_positive { pos 1 ≤ℤ y }
    requires y_small { y ≤ℤ pos (2 ^ 60) }
    ensures value { result ≡ x *ℤ y }
    ensures positive { pos 1 ≤ℤ result }
{
    x * y
}
