// Values along a leg, over a piece of time.

ghost use Rattle.std.specs.Prelude.{◌≡◌, ℕ, pos, ◌*◌, ◌^◌, ◌+ℤ◌, ◌-ℤ◌, ◌*ℤ◌, ◌≤ℤ◌, ◌<ℤ◌, unsigned_abs};
ghost use Rattle.std.specs.Option.{option_map};
ghost use Rattle.whole_numbers.specs.Rounding.{floor_of};
ghost use Rattle.raim_model.specs.Constants.{day_ms};
ghost use Rattle.fix_interval.specs.Intervals.{ends, IsWithin};
ghost use Rattle.site_laws.specs.Places.{times_of};
ghost use Rattle.time_forms.specs.Operations.{moving_of, coarser_form};
ghost use Rattle.time_forms.specs.Programs.{form, wide, short_of, IsNumberWithin, IsFormWithin};
ghost use Rattle.site_forms.specs.Places.{weighted_of, growth_of, along_form};

use fix_interval::{Iv, add, scale_int};
use time_forms::{TimeForm, WideForm, in_64_bits};
use whole_numbers::rounding::{floor_by, floor_shift};

/// The piece from `middle - half` to `middle + half` of the leg from `start` to `stop`, in milliseconds.
#[derive(Clone, Copy)]
pub(crate) struct Leg {
    pub(crate) start: i64,
    pub(crate) stop: i64,
    pub(crate) middle: i64,
    pub(crate) half: i64,
    ghost started: { start ≤ℤ middle },
    ghost not_over: { middle <ℤ stop },
    ghost short: { stop ≤ℤ (start +ℤ pos day_ms) },
    ghost half_positive: { pos 1 ≤ℤ half },
    ghost half_short: { half ≤ℤ pos day_ms },
}

/// The milliseconds from `from` to `to`.
fn apart(from: i64, to: i64) -> i64
    requires ordered { from ≤ℤ to }
    requires short { to ≤ℤ (from +ℤ pos day_ms) }
    ensures { result ≡ to -ℤ from }
{
    to - from
}

/// `k` times `a`.
fn times(a: Iv, k: i64) -> Iv
    requires small { IsWithin a (2 ^ 39) }
    requires not_negative { pos 0 ≤ℤ k }
    requires short { k ≤ℤ pos day_ms }
    ensures exact { ends result ≡ times_of (ends a) k }
    ensures bound { IsWithin result (2 ^ 66) }
{
    scale_int(a, k, k)
}

/// The length of the leg times the value at the middle, on the line from `a` at its start to `b` at its end.
fn weighted(leg: &Leg, a: Iv, b: Iv) -> Iv
    requires a_small { IsWithin a (2 ^ 39) }
    requires b_small { IsWithin b (2 ^ 39) }
    ensures exact { ends result ≡ weighted_of leg.now.start leg.now.stop leg.now.middle (ends a) (ends b) }
    ensures small { IsWithin result (2 ^ 67) }
{
    add(
        times(a, apart(leg.middle, leg.stop)),
        times(b, apart(leg.start, leg.middle)),
    )
}

/// The middle of an interval, rounded down.
#[inline(always)]
fn middle_of(e: Iv) -> i128
    requires { IsWithin e (2 ^ 67) }
    ensures value { result ≡ floor_of (e.lo +ℤ e.hi) 2 }
    ensures small { IsNumberWithin result (2 ^ 67) }
{
    floor_shift(e.lo + e.hi, 1)
}

/// How a number grows each millisecond, times the length of the leg.
#[inline(always)]
fn growth(a: i128, b: i128) -> i128
    requires a_small { IsNumberWithin a (2 ^ 41) }
    requires b_small { IsNumberWithin b (2 ^ 41) }
    ensures value { result ≡ b -ℤ a }
    ensures small { (m : ℕ) → IsNumberWithin a m → IsNumberWithin b m → IsNumberWithin result (2 * m) }
{
    b - a
}

/// The same over half the piece.
#[inline(always)]
fn over_half(growth: i128, half: i128) -> i128
    requires growth_small { IsNumberWithin growth (2 ^ 42) }
    requires half_small { IsNumberWithin half (2 ^ 40) }
    ensures value { result ≡ growth *ℤ half }
    ensures small { IsNumberWithin result (2 ^ 82) }
{
    growth * half
}

/// How far the values are from the line of their lower ends, at most.
#[inline(always)]
fn spread(high: i128, middle: i128, apart: i128) -> i128
    requires high_small { IsNumberWithin high (2 ^ 67) }
    requires middle_small { IsNumberWithin middle (2 ^ 67) }
    requires apart_small { IsNumberWithin apart (2 ^ 82) }
    ensures value { result ≡ (high -ℤ middle) +ℤ apart }
    ensures small { IsNumberWithin result (2 ^ 83) }
{
    (high - middle) + apart
}

/// What is `e` at the middle, and grows by what `b` is more than `a` each millisecond, each end by its own.
fn moving(e: Iv, a: Iv, b: Iv, half: i128) -> WideForm
    requires e_small { IsWithin e (2 ^ 67) }
    requires a_small { IsWithin a (2 ^ 39) }
    requires b_small { IsWithin b (2 ^ 39) }
    requires half_positive { pos 1 ≤ℤ half }
    requires half_small { IsNumberWithin half (2 ^ 40) }
    ensures exact { wide result ≡ moving_of (ends e) (growth_of (ends a) (ends b)) (unsigned_abs half) }
    ensures small { IsFormWithin (wide result) (2 ^ 83) }
{
    let middle = middle_of(e);
    let low = growth(a.lo, b.lo);
    let high = growth(a.hi, b.hi);
    let apart = growth(low, high).abs();
    WideForm {
        centre: middle,
        turning: over_half(low, half),
        remainder: spread(e.hi, middle, over_half(apart, half)),
    }
}

/// A form over a length in milliseconds.
fn over(f: WideForm, length: i128) -> Option<TimeForm>
    requires small { IsFormWithin (wide f) (2 ^ 83) }
    requires positive { pos 1 ≤ℤ length }
    ensures { option_map form result ≡ short_of (coarser_form (wide f) (unsigned_abs length)) }
{
    in_64_bits(WideForm {
        centre: floor_by(f.centre, length),
        turning: floor_by(f.turning, length),
        remainder: floor_by(f.remainder, length) + 4,
    })
}

/// The values over a piece of a leg, on the line from `a` at its start to `b` at its end.
pub(crate) fn along(leg: &Leg, a: Iv, b: Iv) -> Option<TimeForm>
    requires a_small { IsWithin a (2 ^ 39) }
    requires b_small { IsWithin b (2 ^ 39) }
    ensures { option_map form result ≡ short_of (along_form leg.now.start leg.now.stop leg.now.middle (unsigned_abs leg.now.half) (ends a) (ends b)) }
{
    let value = weighted(leg, a, b);
    let length = apart(leg.start, leg.stop);
    over(moving(value, a, b, leg.half as i128), length as i128)
}
