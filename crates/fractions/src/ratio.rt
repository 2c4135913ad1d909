// What a fraction is: a whole number over a positive one, compared by cross-multiplication.

ghost use Rattle.std.specs.Prelude.{◌≡◌, ℕ, ℤ, pos, ◌+◌, ◌*◌, ◌<◌, ◌+ℤ◌, ◌*ℤ◌, neg_ℤ, ◌≤ℤ◌, ◌<ℤ◌, ◌↔◌, Bool, IsTrue};
ghost use Rattle.fractions.specs.Fraction.{Fraction, ratio, ◌≤ᶠ◌, ◌<ᶠ◌, ◌+ᶠ◌, ◌*ᶠ◌, neg, zeroᶠ, abs, IsNear, ◌-ᶠ◌};

/// Every fraction is a whole number over a positive one, and two of them are equal, ordered, added and multiplied as
/// such ratios are.
pub fn fractions_are_ratios()
    ensures every { (P : Fraction → Bool) → ((m : ℤ) (k : ℕ) → 0 < k → IsTrue (P (ratio m k)))
        → (x : Fraction) → IsTrue (P x) }
    ensures equal { (m n : ℤ) (k l : ℕ) → 0 < k → 0 < l
        → ((ratio m k ≡ ratio n l) ↔ (m *ℤ pos l ≡ n *ℤ pos k)) }
    ensures at_most { (m n : ℤ) (k l : ℕ) → 0 < k → 0 < l
        → ((ratio m k ≤ᶠ ratio n l) ↔ ((m *ℤ pos l) ≤ℤ (n *ℤ pos k))) }
    ensures below { (m n : ℤ) (k l : ℕ) → 0 < k → 0 < l
        → ((ratio m k <ᶠ ratio n l) ↔ ((m *ℤ pos l) <ℤ (n *ℤ pos k))) }
    ensures sum { (m n : ℤ) (k l : ℕ) → 0 < k → 0 < l
        → ratio m k +ᶠ ratio n l ≡ ratio (m *ℤ pos l +ℤ n *ℤ pos k) (k * l) }
    ensures product { (m n : ℤ) (k l : ℕ) → 0 < k → 0 < l
        → ratio m k *ᶠ ratio n l ≡ ratio (m *ℤ n) (k * l) }
    ensures negation { (m : ℤ) (k : ℕ) → neg (ratio m k) ≡ ratio (neg_ℤ m) k }
{}

/// The absolute value of x is x or -x, and two fractions are near by r where that of their
/// difference is at most r.
pub fn absolute_values_are_distances()
    ensures at_least_zero { (x : Fraction) → zeroᶠ ≤ᶠ x → abs x ≡ x }
    ensures at_most_zero { (x : Fraction) → x ≤ᶠ zeroᶠ → abs x ≡ neg x }
    ensures near { (x y r : Fraction) → ((IsNear x y r) ↔ (abs (x -ᶠ y) ≤ᶠ r)) }
    ensures near_through { (x y z d e : Fraction) → IsNear x y d → IsNear y z e
        → IsNear x z (d +ᶠ e) }
    ensures near_times { (x a b e : Fraction) → IsNear a b e
        → IsNear (x *ᶠ a) (x *ᶠ b) (abs x *ᶠ e) }
{}
