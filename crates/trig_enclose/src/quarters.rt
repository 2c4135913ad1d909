// The quarter turns that an interval of turns meets.

ghost use Rattle.std.specs.Prelude.{◌≡◌, pos, neg_ℤ, ◌^◌, ◌≤ℤ◌, ◌-ℤ◌, ◌*ℤ◌};
ghost use Rattle.std.specs.Int.{int_rem_euclid};
ghost use Rattle.fix_interval.specs.Ends.{IsInside};
ghost use Rattle.fix_interval.specs.Ranges.{full_ends};
ghost use Rattle.fix_interval.specs.Sums.{neg_of};
ghost use Rattle.fix_interval.specs.Pairs.{full_pair, PairInside};
ghost use Rattle.trig_laws.specs.Quarter.{left_of, eighth_ends};
ghost use Rattle.trig_laws.specs.SinCos.{turn_of, pair_at, nearest_quarter_of};
ghost use Rattle.fix_interval.specs.Intervals.{ends_64, IsWithin64};
ghost use Rattle.trig_enclose.specs.Views.{pair_ends_64};
ghost use Rattle.trig_enclose.specs.Quarters.{MeetsQuarter};

use crate::eighth::of_eighth;
use crate::interval_of_turns::Turns;
use crate::pair::Pair64;
use fix_interval::{Iv, Iv64, PairsOver, UNITS_IN_ONE};

/// A quarter of a turn in units of 2^-38.
const QUARTER: i64 = UNITS_IN_ONE as i64 / 4;

/// An eighth of a turn in units of 2^-38.
const EIGHTH: i64 = UNITS_IN_ONE as i64 / 8;

/// The quarter turn that is nearest.
#[inline(always)]
pub(crate) fn nearest_quarter(z: i64) -> i64
    requires low { neg_ℤ (pos (2 ^ 60)) ≤ℤ z }
    requires high { z ≤ℤ pos (2 ^ 60) }
    ensures value { result ≡ nearest_quarter_of z }
    ensures low { neg_ℤ (pos (2 ^ 25)) ≤ℤ result }
    ensures high { result ≤ℤ pos (2 ^ 25) }
{
    (z + EIGHTH) >> 36
}

/// What of `u` is nearest to the quarter turn `q`, from there.
#[inline(always)]
pub(crate) fn left(u: Iv64, q: i64) -> Iv64
    requires small { IsWithin64 u (2 ^ 60) }
    requires quarter_low { neg_ℤ (pos (2 ^ 25)) ≤ℤ q }
    requires quarter_high { q ≤ℤ pos (2 ^ 25) }
    requires low { (u.lo -ℤ (q *ℤ pos (2 ^ 36))) ≤ℤ pos (2 ^ 35) }
    requires high { neg_ℤ (pos (2 ^ 35)) ≤ℤ (u.hi -ℤ (q *ℤ pos (2 ^ 36))) }
    ensures exact { ends_64 result ≡ left_of (ends_64 u) q }
    ensures eighth { IsInside (ends_64 result) eighth_ends }
{
    let turns = q * QUARTER;
    Iv64 {
        lo: (u.lo - turns).max(-EIGHTH),
        hi: (u.hi - turns).min(EIGHTH),
    }
}

fn negative(a: Iv64) -> Iv64
    requires { IsInside (ends_64 a) full_ends }
    ensures { ends_64 result ≡ neg_of (ends_64 a) }
{
    Iv64 {
        lo: -a.hi,
        hi: -a.lo,
    }
}

/// A sine and a cosine, `q` quarters of a turn on.
fn turned(q: i64, pair: Pair64) -> Pair64
    requires { PairInside (pair_ends_64 pair) full_pair }
    ensures { pair_ends_64 result ≡ turn_of (int_rem_euclid q (pos 4)) (ends_64 pair.sine) (ends_64 pair.cosine) }
{
    let k = q.rem_euclid(4);
    if k == 0 {
        pair
    } else if k == 1 {
        Pair64 {
            sine: pair.cosine,
            cosine: negative(pair.sine),
        }
    } else if k == 2 {
        Pair64 {
            sine: negative(pair.sine),
            cosine: negative(pair.cosine),
        }
    } else {
        Pair64 {
            sine: negative(pair.cosine),
            cosine: pair.sine,
        }
    }
}

/// The sine and the cosine of what of `u` is nearest to the quarter turn `q`.
fn at_quarter(u: Iv64, q: i64) -> Pair64
    requires small { IsWithin64 u (2 ^ 60) }
    requires quarter_low { neg_ℤ (pos (2 ^ 25)) ≤ℤ q }
    requires quarter_high { q ≤ℤ pos (2 ^ 25) }
    requires low { (u.lo -ℤ (q *ℤ pos (2 ^ 36))) ≤ℤ pos (2 ^ 35) }
    requires high { neg_ℤ (pos (2 ^ 35)) ≤ℤ (u.hi -ℤ (q *ℤ pos (2 ^ 36))) }
    ensures { pair_ends_64 result ≡ pair_at (ends_64 u) q }
{
    turned(q, of_eighth(left(u, q)))
}

/// The sine and the cosine over the quarter turns that an interval of turns meets: at most five where it is narrower than a
/// turn.
impl PairsOver for Turns {
    ghost meets = { λ t. MeetsQuarter (ends_64 t.turns) };

    ghost pair_of = { λ t. pair_at (ends_64 t.turns) };

    fn pair_at(&self, k: i64) -> (Iv, Iv) {
        let pair = at_quarter(self.turns, k);
        (pair.sine.in_128_bits(), pair.cosine.in_128_bits())
    }
}
