// Numbers of units of 2^-38 in 128 bits.

ghost use Rattle.std.specs.Prelude.{◌≡◌, ℕ, pos, ◌*◌, ◌^◌, ◌+ℤ◌, ◌*ℤ◌};
ghost use Rattle.whole_numbers.specs.Rounding.{floor_of};
ghost use Rattle.time_forms.specs.Forms.{size};
ghost use Rattle.time_forms.specs.Programs.{form, wide, IsNumberWithin};
ghost use Rattle.orbit_forms.specs.Lines.{radians_of, bend_of};

use time_forms::{TimeForm, WideForm};
use whole_numbers::rounding::floor_shift;

/// The radians of a turn, rounded.
const TURN: i128 = 1727108826179;

/// A form in 128 bits.
#[inline(always)]
pub(crate) fn widened(a: TimeForm) -> WideForm
    ensures { wide result ≡ form a }
{
    WideForm {
        centre: a.centre as i128,
        turning: a.turning as i128,
        remainder: a.remainder as i128,
    }
}

/// The product of two numbers of units, rounded down to units.
#[inline(always)]
pub(crate) fn scaled(x: i128, y: i128) -> i128
    requires fits { IsNumberWithin (x *ℤ y) (2 ^ 126) }
    ensures value { result ≡ floor_of (x *ℤ y) (2 ^ 38) }
    ensures small { (n : ℕ) → IsNumberWithin (x *ℤ y) (n * 2 ^ 38) → IsNumberWithin result n }
{
    floor_shift(x * y, 38)
}

/// Turns in radians, rounded down.
#[inline(always)]
pub(crate) fn radians(turns: i128) -> i128
    requires { IsNumberWithin turns (2 ^ 60) }
    ensures value { result ≡ radians_of turns }
    ensures small { (n : ℕ) → IsNumberWithin turns n → IsNumberWithin result (8 * n) }
{
    scaled(TURN, turns)
}

/// How far sines leave their line within `reach` turns, at most.
#[inline(always)]
pub(crate) fn bend(reach: i128) -> i128
    requires { IsNumberWithin reach (2 ^ 60) }
    ensures value { result ≡ bend_of reach }
    ensures small { IsNumberWithin result (2 ^ 88) }
{
    scaled(20 * reach, reach) + 2
}
