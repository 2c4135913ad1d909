// The eccentric anomalies of one mean anomaly, put back by the whole turn that is nearest.

ghost use Rattle.std.specs.Prelude.{◌≡◌, pos, neg_ℤ, ◌^◌, ◌≤ℤ◌, ◌+ℤ◌, ◌*ℤ◌};
ghost use Rattle.fix_interval.specs.Intervals.{ends, IsWithin};
ghost use Rattle.fix_interval.specs.Ranges.{point};
ghost use Rattle.kepler_laws.specs.EccentricSine.{nearest_turn_of, wrapped_of};
ghost use Rattle.time_forms.specs.Programs.{form, wide, IsNumberWithin, IsFormWithin};
ghost use Rattle.orbit_forms.specs.Anomalies.{anomaly_at};

use crate::at_turns::steady;
use fix_interval::{Iv, UNITS_IN_ONE, clamp, sub};
use kepler_bracket::anomalies;
use time_forms::{TimeForm, WideForm};
use whole_numbers::rounding::floor_shift;

/// Half a turn.
const HALF: i128 = UNITS_IN_ONE / 2;

/// The whole turn that is nearest.
#[inline(always)]
fn nearest_turn(z: i128) -> i128
    requires { IsNumberWithin z (2 ^ 59) }
    ensures value { result ≡ nearest_turn_of z }
    ensures small { IsNumberWithin result (2 ^ 21) }
{
    floor_shift(z + HALF, 38)
}

/// `w` whole turns.
#[inline(always)]
fn whole_turns(w: i128) -> i128
    requires { IsNumberWithin w (2 ^ 21) }
    ensures value { result ≡ w *ℤ pos (2 ^ 38) }
    ensures small { IsNumberWithin result (2 ^ 59) }
{
    w * UNITS_IN_ONE
}

/// The turns `z` from their nearest whole turn on, `w`.
#[inline(always)]
fn wrapped(z: i128, w: i128) -> Iv
    requires small { IsNumberWithin z (2 ^ 59) }
    requires nearest { w ≡ nearest_turn_of z }
    requires turns { IsNumberWithin w (2 ^ 21) }
    ensures exact { ends result ≡ wrapped_of (point z) w }
    ensures half { IsWithin result (2 ^ 37) }
{
    clamp(sub(Iv::point(z), Iv::point(whole_turns(w))), HALF)
}

/// An interval, `turns` units on.
#[inline(always)]
fn further(a: Iv, turns: i128) -> Iv
    requires small { IsWithin a (2 ^ 40) }
    requires turns_small { IsNumberWithin turns (2 ^ 59) }
    ensures lo { result.lo ≡ a.lo +ℤ turns }
    ensures hi { result.hi ≡ a.hi +ℤ turns }
{
    Iv {
        lo: a.lo + turns,
        hi: a.hi + turns,
    }
}

/// The eccentric anomaly of the middle of the mean anomalies `m`: its own middle, and how far it may be from there.
pub(crate) fn bracket(m: WideForm, eps: Iv) -> TimeForm
    requires m_small { IsFormWithin (wide m) (2 ^ 59) }
    requires eps_low { pos 0 ≤ℤ eps.lo }
    requires eps_high { eps.hi ≤ℤ pos (2 ^ 31) }
    ensures exact { form result ≡ anomaly_at (wide m) (ends eps) }
    ensures centre_small { IsNumberWithin result.centre (2 ^ 60) }
    ensures remainder_small { IsNumberWithin result.remainder (2 ^ 42) }
{
    let turns = nearest_turn(m.centre);
    let anomaly = anomalies(wrapped(m.centre, turns), eps);
    steady(further(anomaly, whole_turns(turns)))
}
