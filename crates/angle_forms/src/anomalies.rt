// Kepler's equation over a form of mean anomalies: the eccentric anomaly follows its line about that of the middle.

ghost use Rattle.std.specs.Prelude.{◌≡◌, ℕ, ℤ, pos, ◌+◌, ◌^◌, ◌+ℤ◌, ◌-ℤ◌, ◌*ℤ◌, ◌≤ℤ◌, unsigned_abs, IfSome};
ghost use Rattle.std.specs.Option.{option_map};
ghost use Rattle.whole_numbers.specs.Rounding.{floor_of};
ghost use Rattle.fix_interval.specs.Ends.{Ends, width_of};
ghost use Rattle.fix_interval.specs.Intervals.{ends};
ghost use Rattle.fix_interval.specs.Ranges.{point};
ghost use Rattle.trig_laws.specs.SinCos.{sin_cos_of};
ghost use Rattle.kepler_laws.specs.EccentricSine.{ecc_sin_cos_of};
ghost use Rattle.time_forms.specs.Forms.{IsTime, Holds, size};
ghost use Rattle.time_forms.specs.Operations.{fixed_of};
ghost use Rattle.time_forms.specs.Programs.{form, wide, short_of, IsNumberWithin, IsFormWithin};
ghost use Rattle.orbit_forms.specs.Lines.{radians_of};
ghost use Rattle.orbit_forms.specs.Anomalies.{anomaly_at, mean_bend_of, anomaly_form, ecc_slack};
ghost use Rattle.orbit_forms.specs.Positions.{PairHolds};
ghost use Rattle.angle_forms.specs.Pairs.{pair_form, IsPairWithin};
ghost use Rattle.angle_forms.specs.Checked.{checked_ecc_sin_cos};

use crate::at_turns::sines_of_point;
use crate::brackets::bracket;
use crate::lines::lines;
use crate::numbers::{radians, scaled, widened};
use crate::sine_cosine::SineCosine;
use fix_interval::{Iv, UNITS_IN_ONE};
use time_forms::{TimeForm, WideForm, in_64_bits};
use whole_numbers::rounding::{floor_by, floor_shift};

/// How the mean anomaly rises with the eccentric one, in units: 1 - e cos E.
#[inline(always)]
fn slope(cosine: i128, eps: i128) -> i128
    requires cosine_small { IsNumberWithin cosine (2 ^ 39) }
    requires eps_small { IsNumberWithin eps (2 ^ 31) }
    ensures value { result ≡ pos (2 ^ 38) -ℤ floor_of (cosine *ℤ radians_of eps) (2 ^ 38) }
    ensures positive { pos 1 ≤ℤ result }
{
    UNITS_IN_ONE - scaled(cosine, radians(eps))
}

/// What turns of the mean anomaly, over that slope.
#[inline(always)]
fn turning_of(turning: i128, slope: i128) -> i128
    requires small { IsNumberWithin turning (2 ^ 59) }
    requires positive { pos 1 ≤ℤ slope }
    ensures { result ≡ floor_of (turning *ℤ pos (2 ^ 38)) (unsigned_abs slope) }
{
    floor_by(turning * UNITS_IN_ONE, slope)
}

/// What is lost of the mean anomaly, by its own remainder and by that of the middle's eccentric one.
#[inline(always)]
fn missed(remainder: i128, own: i128) -> i128
    requires remainder_small { IsNumberWithin remainder (2 ^ 59) }
    requires own_small { IsNumberWithin own (2 ^ 42) }
    ensures value { result ≡ (remainder +ℤ pos 2 *ℤ own) +ℤ pos 10 }
    ensures small { IsNumberWithin result (2 ^ 60) }
{
    (remainder + 2 * own) + 10
}

/// How far the mean anomalies are from that of the middle, at most.
#[inline(always)]
fn reach(turning: i128, remainder: i128, own: i128) -> i128
    requires turning_small { IsNumberWithin turning (2 ^ 59) }
    requires remainder_small { IsNumberWithin remainder (2 ^ 59) }
    requires own_small { IsNumberWithin own (2 ^ 42) }
    ensures value { result ≡ ((size turning +ℤ remainder) +ℤ pos 2 *ℤ own) +ℤ pos 1 }
    ensures small { IsNumberWithin result (2 ^ 60 + 2 ^ 44) }
{
    ((turning.abs() + remainder) + 2 * own) + 1
}

/// How far the eccentric anomaly bends from its line within that reach.
#[inline(always)]
fn mean_bend(eps: i128, reach: i128) -> i128
    requires eps_small { IsNumberWithin eps (2 ^ 31) }
    requires reach_small { IsNumberWithin reach (2 ^ 60 + 2 ^ 44) }
    ensures value { result ≡ mean_bend_of eps reach }
    ensures small { IsNumberWithin result (2 ^ 90) }
{
    scaled(eps, scaled(25 * reach, reach) + 1) + 2
}

/// The remainder of the eccentric anomaly: what is lost, over the least slope, and the bend.
#[inline(always)]
fn remainder_of(missed: i128, bend: i128) -> i128
    requires missed_small { IsNumberWithin missed (2 ^ 60) }
    requires bend_small { IsNumberWithin bend (2 ^ 90) }
    ensures { result ≡ ((missed +ℤ floor_of missed 8) +ℤ pos 1) +ℤ bend }
{
    ((missed + floor_shift(missed, 3)) + 1) + bend
}

/// The eccentric anomaly, by that of the middle and by its cosine.
fn anomaly(m: WideForm, eps: Iv, at: WideForm, cosine: i128) -> Option<TimeForm>
    requires m_small { IsFormWithin (wide m) (2 ^ 59) }
    requires eps_low { pos 0 ≤ℤ eps.lo }
    requires eps_high { eps.hi ≤ℤ pos (2 ^ 31) }
    requires at { wide at ≡ anomaly_at (wide m) (ends eps) }
    requires at_small { IsNumberWithin at.remainder (2 ^ 42) }
    requires cosine { cosine ≡ (fixed_of (sin_cos_of (point at.centre)).cosine).centre }
    requires cosine_small { IsNumberWithin cosine (2 ^ 39) }
    ensures { option_map form result ≡ short_of (anomaly_form (wide m) (ends eps)) }
{
    let slope = slope(cosine, eps.lo);
    let reach = reach(m.turning, m.remainder, at.remainder);
    in_64_bits(WideForm {
        centre: at.centre,
        turning: turning_of(m.turning, slope),
        remainder: remainder_of(missed(m.remainder, at.remainder), mean_bend(eps.lo, reach)),
    })
}

/// How wide the interval answer is at one millisecond, at most.
#[inline(always)]
fn slack_of(m: TimeForm) -> i128
    requires { IsFormWithin (form m) (2 ^ 59) }
    ensures value { result ≡ ecc_slack (form m) }
    ensures small { IsNumberWithin result (2 ^ 70) }
{
    64 * m.remainder as i128 + 2048
}

/// The sine and the cosine of the eccentric anomaly of mean anomalies that change over a piece of time, where `eps` is the
/// eccentricity over 2 pi: turns, sines and cosines in units of 2^-38. None where the eccentric anomaly changes by more than
/// half a turn either way, or where a number would be 2^58 or more in size.
pub fn ecc_sin_cos(m: TimeForm, eps: Iv) -> Option<SineCosine>
    requires small { IsFormWithin (form m) (2 ^ 59) }
    requires eps_low { pos 0 ≤ℤ eps.lo }
    requires eps_high { eps.hi ≤ℤ pos (2 ^ 31) }
    ensures exact { option_map pair_form result ≡ checked_ecc_sin_cos (form m) (ends eps) }
    ensures holds { width_of (ends eps) ≤ℤ pos 4 → (h : ℕ) (d : ℤ) (a : Ends) → IsTime h d → Holds h d (form m) a
        → IfSome result (λ p. PairHolds h d (pair_form p) (ecc_sin_cos_of a (ends eps))) }
    ensures small { IfSome result (λ p. IsPairWithin (pair_form p) (2 ^ 58)) }
{
    let mean = widened(m);
    let middle = bracket(mean, eps);
    let at = sines_of_point(middle.centre);
    let anomaly = anomaly(mean, eps, widened(middle), at.cosine.centre as i128)?;
    lines(at, anomaly, slack_of(m))
}
