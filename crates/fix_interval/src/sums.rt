// Sums and differences of intervals.

ghost use Rattle.std.specs.Prelude.{◌≡◌, ℕ, ◌^◌, ◌+ℤ◌, ◌-ℤ◌};
ghost use Rattle.fractions.specs.Fraction.{Fraction, ◌+ᶠ◌, ◌-ᶠ◌};
ghost use Rattle.fix_interval.specs.Ends.{Ends, IsInside};
ghost use Rattle.fix_interval.specs.Lies.{Lies};
ghost use Rattle.fix_interval.specs.Sums.{add_of, sub_of};
ghost use Rattle.fix_interval.specs.Intervals.{ends, IsWithin};

use crate::interval::Iv;

/// The sum of two intervals of one scale, at that scale.
pub fn add(a: Iv, b: Iv) -> Iv
    requires a_small { IsWithin a (2 ^ 125) }
    requires b_small { IsWithin b (2 ^ 125) }
    ensures lo { result.lo ≡ a.lo +ℤ b.lo }
    ensures hi { result.hi ≡ a.hi +ℤ b.hi }
    ensures exact { ends result ≡ add_of (ends a) (ends b) }
    ensures encloses { (s : ℕ) (x y : Fraction) → Lies (ends a) s x → Lies (ends b) s y
        → Lies (ends result) s (x +ᶠ y) }
    ensures isotone { (c d : Ends) → IsInside (ends a) c → IsInside (ends b) d
        → IsInside (ends result) (add_of c d) }
{
    Iv {
        lo: a.lo + b.lo,
        hi: a.hi + b.hi,
    }
}

/// The difference of two intervals of one scale, at that scale.
pub fn sub(a: Iv, b: Iv) -> Iv
    requires a_small { IsWithin a (2 ^ 125) }
    requires b_small { IsWithin b (2 ^ 125) }
    ensures lo { result.lo ≡ a.lo -ℤ b.hi }
    ensures hi { result.hi ≡ a.hi -ℤ b.lo }
    ensures exact { ends result ≡ sub_of (ends a) (ends b) }
    ensures encloses { (s : ℕ) (x y : Fraction) → Lies (ends a) s x → Lies (ends b) s y
        → Lies (ends result) s (x -ᶠ y) }
    ensures isotone { (c d : Ends) → IsInside (ends a) c → IsInside (ends b) d
        → IsInside (ends result) (sub_of c d) }
{
    Iv {
        lo: a.lo - b.hi,
        hi: a.hi - b.lo,
    }
}
