// The whole turns that mean anomalies meet.

ghost use Rattle.std.specs.Prelude.{◌≡◌, pos, neg_ℤ, ◌^◌, ◌≤ℤ◌, ◌+ℤ◌, ◌-ℤ◌, ◌*ℤ◌};
ghost use Rattle.fractions.specs.Fraction.{Fraction};
ghost use Rattle.raim_model.specs.Level.{Level};
ghost use Rattle.raim_model.specs.Sine.{IsSineCosine};
ghost use Rattle.raim_model.specs.Kepler.{SolvesKepler};
ghost use Rattle.fix_interval.specs.Ends.{Ends, IsInside, width_of};
ghost use Rattle.fix_interval.specs.Lies.{Lies};
ghost use Rattle.fix_interval.specs.Intervals.{ends, IsWithin};
ghost use Rattle.fix_interval.specs.Pairs.{pair_ends, PairLies, PairInside};
ghost use Rattle.fix_interval.specs.Ranges.{point};
ghost use Rattle.kepler_laws.specs.Anomalies.{IsEccentricityInTurns};
ghost use Rattle.kepler_laws.specs.EccentricSine.{nearest_turn_of, wrapped_of, wrap_pair, ecc_sin_cos_of};
ghost use Rattle.kepler_bracket.specs.Turns.{MeetsTurn};

use crate::anomaly::MeanAnomalies;
use crate::ends::anomalies;
use fix_interval::{Iv, PairsOver, UNITS_IN_ONE, clamp, hull_over, sub};
use trig_enclose::sin_cos;

/// Half a turn, in units of 2^-38.
const HALF: i128 = UNITS_IN_ONE / 2;

/// The whole turn that is nearest.
fn nearest_turn(z: i128) -> i64
    requires low { neg_ℤ (pos (2 ^ 60)) ≤ℤ z }
    requires high { z ≤ℤ pos (2 ^ 60) }
    ensures value { result ≡ nearest_turn_of z }
    ensures low { neg_ℤ (pos (2 ^ 23)) ≤ℤ result }
    ensures high { result ≤ℤ pos (2 ^ 23) }
{
    ((z + HALF) >> 38) as i64
}

/// `w` whole turns.
fn whole_turns(w: i64) -> Iv
    requires low { neg_ℤ (pos (2 ^ 23)) ≤ℤ w }
    requires high { w ≤ℤ pos (2 ^ 23) }
    ensures exact { ends result ≡ point (w *ℤ pos (2 ^ 38)) }
    ensures small { IsWithin result (2 ^ 61) }
{
    Iv::point(w as i128 * UNITS_IN_ONE)
}

/// What of `m` is nearest to the whole turn `w`, from there.
fn wrapped(m: Iv, w: i64) -> Iv
    requires small { IsWithin m (2 ^ 60) }
    requires wrap_low { neg_ℤ (pos (2 ^ 23)) ≤ℤ w }
    requires wrap_high { w ≤ℤ pos (2 ^ 23) }
    requires low { (m.lo -ℤ (w *ℤ pos (2 ^ 38))) ≤ℤ pos (2 ^ 37) }
    requires high { neg_ℤ (pos (2 ^ 37)) ≤ℤ (m.hi -ℤ (w *ℤ pos (2 ^ 38))) }
    ensures exact { ends result ≡ wrapped_of (ends m) w }
    ensures half { IsWithin result (2 ^ 37) }
{
    clamp(sub(m, whole_turns(w)), HALF)
}

/// The sine and the cosine of the eccentric anomalies of what of `m` is nearest to the whole turn `w`.
fn at_wrap(m: Iv, eps: Iv, w: i64) -> (Iv, Iv)
    requires small { IsWithin m (2 ^ 60) }
    requires eps_low { pos 0 ≤ℤ eps.lo }
    requires eps_high { eps.hi ≤ℤ pos (2 ^ 31) }
    requires wrap_low { neg_ℤ (pos (2 ^ 23)) ≤ℤ w }
    requires wrap_high { w ≤ℤ pos (2 ^ 23) }
    requires low { (m.lo -ℤ (w *ℤ pos (2 ^ 38))) ≤ℤ pos (2 ^ 37) }
    requires high { neg_ℤ (pos (2 ^ 37)) ≤ℤ (m.hi -ℤ (w *ℤ pos (2 ^ 38))) }
    ensures { pair_ends result.0 result.1 ≡ wrap_pair (ends m) (ends eps) w }
{
    sin_cos(anomalies(wrapped(m, w), eps))
}

/// The sine and the cosine over the whole turns that mean anomalies meet: at most two where these are narrower than a turn.
impl PairsOver for MeanAnomalies {
    ghost meets = { λ a. MeetsTurn (ends a.mean) };

    ghost pair_of = { λ a. wrap_pair (ends a.mean) (ends a.eps) };

    fn pair_at(&self, k: i64) -> (Iv, Iv) {
        at_wrap(self.mean, self.eps, k)
    }
}

/// The sine and the cosine of the eccentric anomaly of an interval of mean anomalies `m`, where `eps` is the eccentricity
/// over 2 pi: turns, sines and cosines in units of 2^-38.
pub fn ecc_sin_cos(m: Iv, eps: Iv) -> (Iv, Iv)
    requires small { IsWithin m (2 ^ 60) }
    requires eps_low { pos 0 ≤ℤ eps.lo }
    requires eps_high { eps.hi ≤ℤ pos (2 ^ 31) }
    ensures exact { pair_ends result.0 result.1 ≡ ecc_sin_cos_of (ends m) (ends eps) }
    ensures encloses { (N : Level) (M ε E s c : Fraction) → Lies (ends m) 38 M → Lies (ends eps) 38 ε
        → SolvesKepler N M ε E → IsSineCosine N E s c → PairLies (pair_ends result.0 result.1) s c }
    ensures isotone { (d f : Ends) → IsEccentricityInTurns f → IsInside (ends m) d → IsInside (ends eps) f
        → PairInside (pair_ends result.0 result.1) (ecc_sin_cos_of d f) }
    ensures narrow_sine { width_of (ends eps) ≤ℤ pos 4
        → width_of (ends result.0) ≤ℤ (pos 32 *ℤ width_of (ends m) +ℤ pos 2048) }
    ensures narrow_cosine { width_of (ends eps) ≤ℤ pos 4
        → width_of (ends result.1) ≤ℤ (pos 32 *ℤ width_of (ends m) +ℤ pos 2048) }
{
    if m.hi - m.lo >= UNITS_IN_ONE {
        (Iv::FULL, Iv::FULL)
    } else {
        let first = nearest_turn(m.lo);
        let last = nearest_turn(m.hi);
        hull_over(&MeanAnomalies { mean: m, eps }, first, last)
    }
}
