// The elements of an orbit.

ghost use Rattle.std.specs.Prelude.{◌≡◌, pos, ◌*◌, ◌<◌, ◌^◌, ◌≤◌, ◌≤ℤ◌, ◌+◌, ℤ, unsigned_abs};
ghost use Rattle.std.specs.Int.{int_rem_euclid};
ghost use Rattle.raim_model.specs.Constants.{week_ms};
ghost use Rattle.fix_interval.specs.Intervals.{ends, mag_of, IsWithin};
ghost use Rattle.whole_numbers.specs.Rounding.{floor_of, ceil_of};
ghost use Rattle.fix_interval.specs.Ends.{IsInside};
ghost use Rattle.fix_interval.specs.Products.{mul_of, scale_int_of};
ghost use Rattle.orbit_laws.specs.Angles.{rate_of, earth_rate};
ghost use Rattle.orbit_laws.specs.Elements.{motion_units, product_of, semi_major_axis_of, cube_of, motion_of, in_turns_of, axis_ratio_of};
ghost use Rattle.orbit_laws.specs.Sizes.{root_ends, cube_ends, axis_ends, eccentricity_ends};

use crate::angles::{EARTH_RATE, PARTS, TURN_PARTS, scale};
use fix_interval::{Iv, UNITS_IN_ONE, add, mul, scale_int, sqr_wide, sqrt, sub};
use raim_model::WEEK_MS;
use whole_numbers::rounding::{ceil_by, ceil_shift, floor_by, floor_shift};

/// The root of the Earth's gravitational constant over a turn, in units of 2^-132, rounded down.
const MOTION_UNITS: i128 = 17300094636726601251629613198629222;

/// A unit outward.
const OUTWARD: Iv = Iv { lo: -1, hi: 1 };

/// 1, in units of 2^-76.
const ONE_76: Iv = Iv {
    lo: UNITS_IN_ONE * UNITS_IN_ONE,
    hi: UNITS_IN_ONE * UNITS_IN_ONE,
};

/// The product of what is not negative, `bits` places fewer and rounded outward.
fn product(a: Iv, b: Iv, bits: u32) -> Iv
    requires a_low { pos 0 ≤ℤ a.lo }
    requires b_low { pos 0 ≤ℤ b.lo }
    requires small { mag_of a * mag_of b ≤ 2 ^ 126 }
    requires places { bits < 128 }
    ensures { ends result ≡ product_of bits (ends a) (ends b) }
{
    Iv {
        lo: floor_shift(a.lo * b.lo, bits),
        hi: ceil_shift(a.hi * b.hi, bits),
    }
}

/// The semi-major axis in megametres, of its root in units of 2^-56.
pub(crate) fn semi_major_axis(root: Iv) -> Iv
    requires { IsInside (ends root) root_ends }
    ensures { ends result ≡ semi_major_axis_of (ends root) }
{
    product(root, root, 74)
}

/// The cube of the root, in units of 2^-56.
fn cube(root: Iv) -> Iv
    requires { IsInside (ends root) root_ends }
    ensures { ends result ≡ cube_of (ends root) }
{
    product(product(root, root, 56), root, 56)
}

/// The units of motion over the cube of the root.
fn units_over(cube: Iv) -> Iv
    requires { IsInside (ends cube) cube_ends }
    ensures lo { result.lo ≡ floor_of (pos motion_units) (unsigned_abs cube.hi) }
    ensures hi { result.hi ≡ ceil_of (pos (motion_units + 1)) (unsigned_abs cube.lo) }
    ensures small { IsWithin result (2 ^ 60) }
{
    Iv {
        lo: floor_by(MOTION_UNITS, cube.hi),
        hi: ceil_by(MOTION_UNITS + 1, cube.lo),
    }
}

/// The same a unit outward.
fn motion_over(cube: Iv) -> Iv
    requires { IsInside (ends cube) cube_ends }
    ensures { ends result ≡ motion_of (ends cube) }
{
    add(units_over(cube), OUTWARD)
}

/// The mean motion in turns per millisecond, in units of 2^-76.
pub(crate) fn motion(root: Iv) -> Iv
    requires { IsInside (ends root) root_ends }
    ensures { ends result ≡ motion_of (cube_of (ends root)) }
{
    motion_over(cube(root))
}

/// An eccentricity over the radians of a turn.
pub(crate) fn in_turns(eccentricity: Iv) -> Iv
    requires { IsInside (ends eccentricity) eccentricity_ends }
    ensures { ends result ≡ in_turns_of (ends eccentricity) }
{
    scale(eccentricity, PARTS, TURN_PARTS)
}

/// The semi-minor axis over the semi-major one.
fn axis_ratio(eccentricity: Iv) -> Iv
    requires { IsInside (ends eccentricity) eccentricity_ends }
    ensures { ends result ≡ axis_ratio_of (ends eccentricity) }
{
    sqrt(sub(ONE_76, sqr_wide(eccentricity)))
}

/// The semi-minor axis in megametres.
pub(crate) fn semi_minor_axis(semi_major_axis: Iv, eccentricity: Iv) -> Iv
    requires axis { IsInside (ends semi_major_axis) axis_ends }
    requires ratio { IsInside (ends eccentricity) eccentricity_ends }
    ensures { ends result ≡ mul_of (ends semi_major_axis) (axis_ratio_of (ends eccentricity)) }
{
    mul(semi_major_axis, axis_ratio(eccentricity))
}

/// The milliseconds from the start of its week up to the millisecond `toa`.
fn week_time(toa: i64) -> i64
    ensures value { result ≡ int_rem_euclid toa (pos week_ms) }
    ensures low { pos 0 ≤ℤ result }
{
    toa.rem_euclid(WEEK_MS)
}

/// The Earth's turn from the start of the week up to the millisecond `toa`, in units of 2^-76.
pub(crate) fn turned(toa: i64) -> Iv
    ensures { ends result ≡ scale_int_of (rate_of earth_rate) (int_rem_euclid toa (pos week_ms)) (int_rem_euclid toa (pos week_ms)) }
{
    let elapsed = week_time(toa);
    scale_int(EARTH_RATE, elapsed, elapsed)
}
