// Worked examples of identities, inequalities by a certificate and comparisons of constants, each proved in one line, over
// the whole numbers and over the fractions.

ghost use Rattle.std.specs.Prelude.{◌≡◌, ℤ, pos, ◌+ℤ◌, ◌*ℤ◌, ◌≤ℤ◌, ◌<ℤ◌};
ghost use Rattle.fractions.specs.Fraction.{Fraction, ratio, whole, zeroᶠ, ◌+ᶠ◌, ◌-ᶠ◌, ◌*ᶠ◌, ◌≤ᶠ◌, ◌<ᶠ◌};

/// Over the whole numbers.
pub fn worked_over_whole_numbers()
    ensures identity { (x y : ℤ) → (x +ℤ y) *ℤ (x +ℤ y) ≡ x *ℤ x +ℤ pos 2 *ℤ (x *ℤ y) +ℤ y *ℤ y }
    ensures inequality { (x y : ℤ) → (pos 2 *ℤ (x *ℤ y)) ≤ℤ (x *ℤ x +ℤ y *ℤ y) }
    ensures strict { (x y : ℤ) → pos 0 <ℤ x → x <ℤ y → (x *ℤ x) <ℤ (y *ℤ y) }
    ensures scaled { (x y : ℤ) → (pos 3 *ℤ x) ≤ℤ (pos 3 *ℤ y) → x ≤ℤ y }
    ensures equation { (a b c : ℤ) → a *ℤ a +ℤ b *ℤ b ≡ c *ℤ c
        → (a +ℤ b) *ℤ (a +ℤ b) ≡ c *ℤ c +ℤ pos 2 *ℤ (a *ℤ b) }
    ensures constants { (pos 22 *ℤ pos 100) ≤ℤ (pos 315 *ℤ pos 7) }
    ensures constants_below { (pos 314159 *ℤ pos 113) <ℤ (pos 355 *ℤ pos 100000) }
{}

/// Over the fractions.
pub fn worked_over_fractions()
    ensures identity { (x y : Fraction)
        → (x +ᶠ y) *ᶠ (x +ᶠ y) ≡ x *ᶠ x +ᶠ whole (pos 2) *ᶠ (x *ᶠ y) +ᶠ y *ᶠ y }
    ensures inequality { (x y : Fraction) → (whole (pos 2) *ᶠ (x *ᶠ y)) ≤ᶠ (x *ᶠ x +ᶠ y *ᶠ y) }
    ensures strict { (x y : Fraction) → x <ᶠ y → x <ᶠ ratio (pos 1) 2 *ᶠ (x +ᶠ y) }
    ensures scaled { (x y : Fraction) → zeroᶠ <ᶠ x → x *ᶠ x ≤ᶠ x *ᶠ y → x ≤ᶠ y }
    ensures equation { (a b c : Fraction) → a *ᶠ a +ᶠ b *ᶠ b ≡ c *ᶠ c
        → (a +ᶠ b) *ᶠ (a +ᶠ b) ≡ c *ᶠ c +ᶠ whole (pos 2) *ᶠ (a *ᶠ b) }
    ensures constants { ratio (pos 1) 3 ≤ᶠ (ratio (pos 1) 2 -ᶠ ratio (pos 1) 10) }
    ensures constants_below { ratio (pos 314159) 100000 <ᶠ ratio (pos 355) 113 }
{}
