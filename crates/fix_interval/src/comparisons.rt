// What is found by comparing ends: the order of two intervals, the least interval around both, and the part of one
// within a bound.

ghost use Rattle.std.specs.Prelude.{◌≡◌, ℕ, pos, neg_ℤ, ◌^◌, ◌≤ℤ◌, ◌<ℤ◌, ◌↔◌, ◌⊎◌, IsTrue};
ghost use Rattle.std.specs.Int.{int_min, int_max};
ghost use Rattle.fractions.specs.Fraction.{Fraction, ratio, ◌≤ᶠ◌, ◌<ᶠ◌};
ghost use Rattle.fix_interval.specs.Ends.{Ends, IsInside};
ghost use Rattle.fix_interval.specs.Lies.{Lies};
ghost use Rattle.fix_interval.specs.Bounds.{hull_of, clamp_of};
ghost use Rattle.fix_interval.specs.Intervals.{ends};

use crate::interval::Iv;

/// The least interval that holds what either of two holds.
pub fn hull(a: Iv, b: Iv) -> Iv
    ensures lo { result.lo ≡ int_min a.lo b.lo }
    ensures hi { result.hi ≡ int_max a.hi b.hi }
    ensures exact { ends result ≡ hull_of (ends a) (ends b) }
    ensures encloses { (s : ℕ) (x : Fraction) → Lies (ends a) s x ⊎ Lies (ends b) s x
        → Lies (ends result) s x }
    ensures isotone { (c d : Ends) → IsInside (ends a) c → IsInside (ends b) d
        → IsInside (ends result) (hull_of c d) }
{
    Iv {
        lo: a.lo.min(b.lo),
        hi: a.hi.max(b.hi),
    }
}

/// The part of `a` from `-m` to `m` units.
pub fn clamp(a: Iv, m: i128) -> Iv
    requires not_negative { pos 0 ≤ℤ m }
    requires meets_low { neg_ℤ m ≤ℤ a.hi }
    requires meets_high { a.lo ≤ℤ m }
    ensures lo { result.lo ≡ int_max a.lo (neg_ℤ m) }
    ensures hi { result.hi ≡ int_min a.hi m }
    ensures exact { ends result ≡ clamp_of (ends a) m }
    ensures encloses { (s : ℕ) (x : Fraction) → Lies (ends a) s x
        → ratio (neg_ℤ m) (2 ^ s) ≤ᶠ x → x ≤ᶠ ratio m (2 ^ s) → Lies (ends result) s x }
    ensures isotone { (c : Ends) → IsInside (ends a) c → IsInside (ends result) (clamp_of c m) }
{
    Iv {
        lo: a.lo.max(-m),
        hi: a.hi.min(m),
    }
}

/// Whether every choice in `a` is at most every choice in `b`, for intervals of one scale.
pub fn certainly_le(a: Iv, b: Iv) -> bool
    ensures exact { IsTrue result ↔ (a.hi ≤ℤ b.lo) }
    ensures encloses { IsTrue result
        → (s : ℕ) (x y : Fraction) → Lies (ends a) s x → Lies (ends b) s y → x ≤ᶠ y }
    // what holds of wider intervals holds of those inside
    ensures isotone { (c d : Ends) → IsInside (ends a) c → IsInside (ends b) d
        → c.hi ≤ℤ d.lo → IsTrue result }
{
    a.hi <= b.lo
}

/// Whether every choice in `a` is below every choice in `b`, for intervals of one scale.
pub fn certainly_lt(a: Iv, b: Iv) -> bool
    ensures exact { IsTrue result ↔ (a.hi <ℤ b.lo) }
    ensures encloses { IsTrue result
        → (s : ℕ) (x y : Fraction) → Lies (ends a) s x → Lies (ends b) s y → x <ᶠ y }
    // what holds of wider intervals holds of those inside
    ensures isotone { (c d : Ends) → IsInside (ends a) c → IsInside (ends b) d
        → c.hi <ℤ d.lo → IsTrue result }
{
    a.hi < b.lo
}
