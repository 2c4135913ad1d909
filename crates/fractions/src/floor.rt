// The floor of a fraction, and rounding at a coarser scale.

ghost use Rattle.std.specs.Prelude.{◌≡◌, ℕ, ℤ, pos, ◌*◌, ◌<◌, ◌+ℤ◌, ◌≤ℤ◌, ◌↔◌};
ghost use Rattle.whole_numbers.specs.Rounding.{floor_of, ceil_of};
ghost use Rattle.fractions.specs.Fraction.{Fraction, whole, ratio, ◌≤ᶠ◌, ◌<ᶠ◌};
ghost use Rattle.fractions.specs.Floor.{floor};

/// The floor of x is the one whole number m with m <= x < m + 1.
pub fn floor_is_the_whole_number_below()
    ensures low { (x : Fraction) → whole (floor x) ≤ᶠ x }
    ensures high { (x : Fraction) → x <ᶠ whole (floor x +ℤ pos 1) }
    ensures unique { (x : Fraction) (m : ℤ) → whole m ≤ᶠ x → x <ᶠ whole (m +ℤ pos 1) → floor x ≡ m }
    ensures greatest { (m : ℤ) (x : Fraction) → ((m ≤ℤ floor x) ↔ (whole m ≤ᶠ x)) }
    ensures of_ratio { (m : ℤ) (k : ℕ) → 0 < k → floor (ratio m k) ≡ floor_of m k }
{}

/// A whole number that is rounded by k is outside where it was: over n it is at most, or at least, itself over k n.
pub fn rounding_goes_outward()
    ensures down { (z : ℤ) (k n : ℕ) → 0 < k → 0 < n → ratio (floor_of z k) n ≤ᶠ ratio z (k * n) }
    ensures up { (z : ℤ) (k n : ℕ) → 0 < k → 0 < n → ratio z (k * n) ≤ᶠ ratio (ceil_of z k) n }
{}
