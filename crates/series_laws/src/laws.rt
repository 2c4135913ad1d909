// Laws of the model's sines and cosines, each the contract of a function that does nothing.
ghost use Rattle.std.specs.Prelude.{ℤ, pos, ◌^◌, ◌*◌};
ghost use Rattle.fractions.specs.Fraction.{Fraction, ratio, whole, oneᶠ, ◌+ᶠ◌, ◌-ᶠ◌, ◌*ᶠ◌, neg, abs, ◌≤ᶠ◌, IsNear};
ghost use Rattle.raim_model.specs.Level.{Level};
ghost use Rattle.raim_model.specs.Series.{sine_series, cosine_series, sine_remainder, cosine_remainder};
ghost use Rattle.raim_model.specs.Sine.{IsSineCosine};

/// Within four fifths of a radian, what a series of any level admits is within a fifth of 2^-38 of its first seven terms.
pub fn seven_terms_suffice()
    ensures sine { (N : Level) (x s : Fraction) → abs x ≤ᶠ ratio (pos 4) 5
        → IsNear s (sine_series N.terms x) (sine_remainder N.terms x) → IsNear s (sine_series 7 x) (ratio (pos 1) (5 * 2 ^ 38)) }
    ensures cosine { (N : Level) (x c : Fraction) → abs x ≤ᶠ ratio (pos 4) 5
        → IsNear c (cosine_series N.terms x) (cosine_remainder N.terms x) → IsNear c (cosine_series 7 x) (ratio (pos 1) (5 * 2 ^ 38)) }
{}

/// A sine and a cosine of the model lie from -1 to 1.
pub fn sines_lie_within_one()
    ensures sine { (N : Level) (u s c : Fraction) → IsSineCosine N u s c → (neg oneᶠ ≤ᶠ s) × (s ≤ᶠ oneᶠ) }
    ensures cosine { (N : Level) (u s c : Fraction) → IsSineCosine N u s c → (neg oneᶠ ≤ᶠ c) × (c ≤ᶠ oneᶠ) }
{}

/// Two sines of the model, at any two levels, differ by at most ten times the difference of their turns, and 2^-45.
pub fn sines_move_slowly()
    ensures { (N M : Level) (u v s c t d : Fraction) → IsSineCosine N u s c → IsSineCosine M v t d
        → IsNear s t (ratio (pos 10) 1 *ᶠ abs (u -ᶠ v) +ᶠ ratio (pos 1) (2 ^ 45)) }
{}

/// At each level the model has a sine and a cosine of each number of turns.
pub fn sines_exist()
    ensures { (N : Level) (u : Fraction) → (s : Fraction) × (c : Fraction) × IsSineCosine N u s c }
{}

/// The model's sines and cosines are the same a whole number of turns on.
pub fn sines_repeat()
    ensures { (N : Level) (u s c : Fraction) (w : ℤ) → IsSineCosine N u s c → IsSineCosine N (u +ᶠ whole w) s c }
{}
