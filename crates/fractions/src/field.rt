// The fractions are an ordered field.

ghost use Rattle.std.specs.Prelude.{◌≡◌, ◌≢◌, ℕ, suc, ◌+◌};
ghost use Rattle.whole_numbers.specs.Algebra.{IsCommutativeRing, IsTotalOrder, IsStrictOrder, IsCompatibleOrder};
ghost use Rattle.fractions.specs.Fraction.{Fraction, ◌+ᶠ◌, ◌*ᶠ◌, neg, ◌≤ᶠ◌, ◌<ᶠ◌, zeroᶠ, oneᶠ, pow};
ghost use Rattle.fractions.specs.Inverse.{inverse};

/// Sum, product, inverse and order of the fractions obey the laws of an ordered field.
pub fn fractions_are_an_ordered_field()
    ensures ring { IsCommutativeRing zeroᶠ oneᶠ ◌+ᶠ◌ ◌*ᶠ◌ neg }
    ensures inverses { (x : Fraction) → x ≢ zeroᶠ → x *ᶠ inverse x ≡ oneᶠ }
    ensures inverse_of_zero { inverse zeroᶠ ≡ zeroᶠ }
    ensures zero_below_one { zeroᶠ <ᶠ oneᶠ }
    ensures order { IsTotalOrder ◌≤ᶠ◌ }
    ensures strict { IsStrictOrder ◌≤ᶠ◌ ◌<ᶠ◌ }
    ensures compatible { IsCompatibleOrder zeroᶠ ◌+ᶠ◌ ◌*ᶠ◌ ◌≤ᶠ◌ }
    ensures strict_sums { (x y z : Fraction) → x <ᶠ y → (x +ᶠ z) <ᶠ (y +ᶠ z) }
    ensures strict_products { (x y z : Fraction) → zeroᶠ <ᶠ z → x <ᶠ y → (x *ᶠ z) <ᶠ (y *ᶠ z) }
{}

/// Powers are products of equal factors.
pub fn powers_multiply()
    ensures none { (x : Fraction) → pow x 0 ≡ oneᶠ }
    ensures more { (x : Fraction) (n : ℕ) → pow x (n + 1) ≡ x *ᶠ pow x n }
    ensures sum { (x : Fraction) (m n : ℕ) → pow x (m + n) ≡ pow x m *ᶠ pow x n }
{}

/// The product of a number of [l, h] and one of [m, k] is at most what bounds the four corners from above, and at least
/// what bounds them from below.
pub fn products_lie_between_corners()
    ensures above { (l h m k x y c : Fraction) → l ≤ᶠ x → x ≤ᶠ h → m ≤ᶠ y → y ≤ᶠ k
        → l *ᶠ m ≤ᶠ c → l *ᶠ k ≤ᶠ c → h *ᶠ m ≤ᶠ c → h *ᶠ k ≤ᶠ c → x *ᶠ y ≤ᶠ c }
    ensures below { (l h m k x y c : Fraction) → l ≤ᶠ x → x ≤ᶠ h → m ≤ᶠ y → y ≤ᶠ k
        → c ≤ᶠ l *ᶠ m → c ≤ᶠ l *ᶠ k → c ≤ᶠ h *ᶠ m → c ≤ᶠ h *ᶠ k → c ≤ᶠ x *ᶠ y }
{}

/// Squares are not negative, and order what is not negative as it is ordered.
pub fn squares_are_ordered()
    ensures not_negative { (x : Fraction) → zeroᶠ ≤ᶠ x *ᶠ x }
    ensures order { (x y : Fraction) → zeroᶠ ≤ᶠ x → zeroᶠ ≤ᶠ y → x *ᶠ x ≤ᶠ y *ᶠ y → x ≤ᶠ y }
{}
