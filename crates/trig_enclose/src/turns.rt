// The sine and the cosine of turns.

ghost use Rattle.std.specs.Prelude.{◌≡◌, ℕ, ℤ, pos, ◌^◌, ◌≤ℤ◌, ◌+ℤ◌, ◌*ℤ◌};
ghost use Rattle.fractions.specs.Fraction.{Fraction};
ghost use Rattle.raim_model.specs.Level.{Level};
ghost use Rattle.raim_model.specs.Sine.{IsSineCosine};
ghost use Rattle.fix_interval.specs.Ends.{Ends, IsInside, width_of};
ghost use Rattle.fix_interval.specs.Lies.{Lies};
ghost use Rattle.fix_interval.specs.Intervals.{ends, IsWithin};
ghost use Rattle.fix_interval.specs.Pairs.{pair_ends, PairLies, PairInside};
ghost use Rattle.trig_laws.specs.SinCos.{sin_cos_of};

use crate::interval_of_turns::Turns;
use crate::quarters::nearest_quarter;
use fix_interval::{Iv, UNITS_IN_ONE, hull_over};

/// The sine and the cosine of an interval of turns, both from -1 to 1: turns and sines in units of 2^-38.
pub fn sin_cos(u: Iv) -> (Iv, Iv)
    requires { IsWithin u (2 ^ 60) }
    ensures exact { pair_ends result.0 result.1 ≡ sin_cos_of (ends u) }
    ensures encloses { (N : Level) (x s c : Fraction) → Lies (ends u) 38 x → IsSineCosine N x s c
        → PairLies (pair_ends result.0 result.1) s c }
    ensures isotone { (d : Ends) → IsInside (ends u) d → PairInside (pair_ends result.0 result.1) (sin_cos_of d) }
    ensures narrow_sine { width_of (ends result.0) ≤ℤ (pos 16 *ℤ width_of (ends u) +ℤ pos 256) }
    ensures narrow_cosine { width_of (ends result.1) ≤ℤ (pos 16 *ℤ width_of (ends u) +ℤ pos 256) }
{
    if u.hi - u.lo >= UNITS_IN_ONE {
        (Iv::FULL, Iv::FULL)
    } else {
        let turns = u.in_64_bits();
        let first = nearest_quarter(turns.lo);
        let last = nearest_quarter(turns.hi);
        hull_over(&Turns { turns }, first, last)
    }
}
