// Pairs of intervals over a range of whole numbers, as a sine and a cosine over quarter turns.

ghost use Rattle.std.specs.Prelude.{◌≡◌, ℤ, ◌≤ℤ◌, ◌-ℤ◌, unsigned_abs};
ghost use Rattle.fix_interval.specs.Pairs.{PairEnds, pair_ends, pair_hull, hull_from};

use crate::comparisons::hull;
use crate::interval::Iv;

/// A pair of intervals for each whole number of a range.
pub trait PairsOver {
    /// which whole numbers have one
    ghost meets: { Self → ℤ → Type 0 };
    /// and its ends
    ghost pair_of: { Self → ℤ → PairEnds };

    fn pair_at(&self, k: i64) -> (Iv, Iv)
        requires { meets self.now k }
        ensures { pair_ends result.0 result.1 ≡ pair_of self.now k };
}

/// The least pair round two.
fn joined(p: (Iv, Iv), q: (Iv, Iv)) -> (Iv, Iv)
    ensures { pair_ends result.0 result.1 ≡ pair_hull (pair_ends p.0 p.1) (pair_ends q.0 q.1) }
{
    (hull(p.0, q.0), hull(p.1, q.1))
}

/// The least pair of intervals round those of each whole number from `first` to `last`.
pub fn hull_over<P: PairsOver>(pairs: &P, first: i64, last: i64) -> (Iv, Iv)
    requires order { first ≤ℤ last }
    requires each { (k : ℤ) → first ≤ℤ k → k ≤ℤ last → P.meets pairs.now k }
    ensures { pair_ends result.0 result.1 ≡ hull_from (P.pair_of pairs.now) first (unsigned_abs (last -ℤ first)) }
{
    let mut pair = pairs.pair_at(first);
    let mut k = first;
    while k < last {
        k += 1;
        pair = joined(pair, pairs.pair_at(k));
    }
    pair
}
