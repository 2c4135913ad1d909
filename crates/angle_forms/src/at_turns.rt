// The sine and the cosine of turns that stay.

ghost use Rattle.std.specs.Prelude.{◌≡◌, ℕ, ℤ, ◌*◌, ◌^◌, ◌+ℤ◌};
ghost use Rattle.whole_numbers.specs.Rounding.{floor_of};
ghost use Rattle.fix_interval.specs.Intervals.{ends, IsWithin};
ghost use Rattle.fix_interval.specs.Pairs.{pair_ends, full_pair, PairInside};
ghost use Rattle.time_forms.specs.Forms.{Holds};
ghost use Rattle.time_forms.specs.Operations.{fixed_of};
ghost use Rattle.time_forms.specs.Programs.{form, wide, IsNumberWithin, IsFormWithin};
ghost use Rattle.orbit_forms.specs.Positions.{PairHolds, fixed_pair};
ghost use Rattle.angle_forms.specs.Pairs.{pair_form, IsPairWithin};
ghost use Rattle.angle_forms.specs.Checked.{sines_at};

use crate::sine_cosine::SineCosine;
use fix_interval::Iv;
use time_forms::{TimeForm, WideForm};
use whole_numbers::rounding::floor_shift;

/// The middle of an interval, rounded down.
#[inline(always)]
fn middle_of(e: Iv) -> i128
    requires { IsWithin e (2 ^ 120) }
    ensures value { result ≡ floor_of (e.lo +ℤ e.hi) 2 }
    ensures small { (m : ℕ) → IsWithin e m → IsNumberWithin result m }
{
    floor_shift(e.lo + e.hi, 1)
}

/// The form of a short interval that stays, in its unit.
#[inline(always)]
pub fn steady(e: Iv) -> TimeForm
    requires { IsWithin e (2 ^ 60) }
    ensures exact { form result ≡ fixed_of (ends e) }
    ensures holds { (h : ℕ) (d : ℤ) → Holds h d (form result) (ends e) }
    ensures small { (m : ℕ) → IsWithin e m → IsFormWithin (form result) (2 * m) }
{
    let middle = middle_of(e);
    TimeForm {
        centre: middle as i64,
        turning: 0,
        remainder: (e.hi - middle) as i64,
    }
}

/// The same in 128 bits.
#[inline(always)]
pub fn steady_wide(e: Iv) -> WideForm
    requires { IsWithin e (2 ^ 120) }
    ensures exact { wide result ≡ fixed_of (ends e) }
    ensures holds { (h : ℕ) (d : ℤ) → Holds h d (wide result) (ends e) }
    ensures small { (m : ℕ) → IsWithin e m → IsFormWithin (wide result) (2 * m) }
{
    let middle = middle_of(e);
    WideForm {
        centre: middle,
        turning: 0,
        remainder: e.hi - middle,
    }
}

/// The forms of a sine and a cosine that stay.
pub fn sines_that_stay(sine: Iv, cosine: Iv) -> SineCosine
    requires { PairInside (pair_ends sine cosine) full_pair }
    ensures exact { pair_form result ≡ fixed_pair (pair_ends sine cosine) }
    ensures holds { (h : ℕ) (d : ℤ) → PairHolds h d (pair_form result) (pair_ends sine cosine) }
    ensures small { IsPairWithin (pair_form result) (2 ^ 39) }
{
    SineCosine {
        sine: steady(sine),
        cosine: steady(cosine),
    }
}

/// The sine and the cosine of `turns`.
pub(crate) fn sines_of_point(turns: i64) -> SineCosine
    requires { IsNumberWithin turns (2 ^ 60) }
    ensures exact { pair_form result ≡ sines_at turns }
    ensures small { IsPairWithin (pair_form result) (2 ^ 39) }
{
    let pair = trig_enclose::sin_cos(Iv::point(turns as i128));
    sines_that_stay(pair.0, pair.1)
}
