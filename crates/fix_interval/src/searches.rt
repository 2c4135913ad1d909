// The search for the place where a test changes.

ghost use Rattle.std.specs.Prelude.{◌≡◌, ℤ, Bool, pos, neg_ℤ, ◌^◌, ◌≤ℤ◌, ◌<ℤ◌, ◌+ℤ◌, true, false};
ghost use Rattle.fix_interval.specs.Searches.{IsLastPassing};

/// A test of whole numbers of at most 2^40 either way.
pub trait Probe {
    ghost passes: { Self → ℤ → Bool };

    /// Whether `k` passes, and the number to try next. Any number may be named: it is tried where it is still in question.
    fn probe(&self, k: i64) -> (bool, i64)
        requires low { neg_ℤ (pos (2 ^ 40)) ≤ℤ k }
        requires high { k ≤ℤ pos (2 ^ 40) }
        ensures { result.0 ≡ passes self.now k };
}

/// `next` where it lies between `low` and `high`, and else the middle.
#[inline(always)]
fn between(low: i64, next: i64, high: i64) -> i64
    requires low { neg_ℤ (pos (2 ^ 40)) ≤ℤ low }
    requires high { high ≤ℤ pos (2 ^ 40) }
    requires some { (low +ℤ pos 1) <ℤ high }
    ensures above { low <ℤ result }
    ensures below { result <ℤ high }
{
    if low < next && next < high {
        next
    } else {
        low + (high - low) / 2
    }
}

/// A number from `first` on and below `end` that passes where the next one does not, looked for from `start` on. For a test
/// that no greater number passes once one has failed it, that is the greatest number that passes.
pub fn last_passing<P: Probe>(test: &P, first: i64, end: i64, start: i64) -> i64
    requires low { neg_ℤ (pos (2 ^ 40)) ≤ℤ first }
    requires high { end ≤ℤ pos (2 ^ 40) }
    requires order { first <ℤ end }
    requires passes { P.passes test.now first ≡ true }
    requires fails { P.passes test.now end ≡ false }
    ensures { IsLastPassing (P.passes test.now) first end result }
{
    let mut low = first;
    let mut high = end;
    let mut next = start;
    while high - low > 1 {
        let k = between(low, next, high);
        let (passes, then) = test.probe(k);
        if passes {
            low = k;
        } else {
            high = k;
        }
        next = then;
    }
    low
}
