// The first-order laws of the model's sines and cosines and of its eccentric anomalies, each the contract of a function
// that does nothing. Angles are in turns, and `eps` is the eccentricity over tau.
ghost use Rattle.std.specs.Prelude.{pos, ◌^◌};
ghost use Rattle.fractions.specs.Fraction.{Fraction, ratio, zeroᶠ, oneᶠ, ◌+ᶠ◌, ◌-ᶠ◌, ◌*ᶠ◌, ◌≤ᶠ◌, IsNear};
ghost use Rattle.fractions.specs.Inverse.{◌/ᶠ◌};
ghost use Rattle.raim_model.specs.Constants.{tau};
ghost use Rattle.raim_model.specs.Level.{Level};
ghost use Rattle.raim_model.specs.Sine.{IsSineCosine};
ghost use Rattle.raim_model.specs.Kepler.{SolvesKepler};

/// The sine and the cosine of v turns, at any level, are where the tangents at u turns have them, but for twenty times the
/// square of the difference, and 2^-44.
pub fn sines_follow_their_lines()
    ensures sine { (N M : Level) (u v s c t d : Fraction) → IsSineCosine N u s c → IsSineCosine M v t d
        → IsNear t (s +ᶠ (tau *ᶠ c) *ᶠ (v -ᶠ u)) (ratio (pos 20) 1 *ᶠ ((v -ᶠ u) *ᶠ (v -ᶠ u)) +ᶠ ratio (pos 1) (2 ^ 44)) }
    ensures cosine { (N M : Level) (u v s c t d : Fraction) → IsSineCosine N u s c → IsSineCosine M v t d
        → IsNear d (c -ᶠ (tau *ᶠ s) *ᶠ (v -ᶠ u)) (ratio (pos 20) 1 *ᶠ ((v -ᶠ u) *ᶠ (v -ᶠ u)) +ᶠ ratio (pos 1) (2 ^ 44)) }
{}

/// For `eps` from 0 to 1/128, the eccentric anomalies E and F of the mean anomalies m and w, each at any level, differ by
/// what the tangent at the first has. The mean anomaly rises with the eccentric one by 1 - tau eps cos E.
pub fn anomalies_follow_their_lines()
    // that slope times the difference of the eccentric anomalies is the difference of the mean ones
    ensures mean { (N M L : Level) (eps m w E F s c : Fraction) → zeroᶠ ≤ᶠ eps → eps ≤ᶠ ratio (pos 1) 128
        → SolvesKepler N m eps E → SolvesKepler M w eps F → IsSineCosine L E s c
        → IsNear ((oneᶠ -ᶠ (tau *ᶠ eps) *ᶠ c) *ᶠ (F -ᶠ E)) (w -ᶠ m)
        (eps *ᶠ (ratio (pos 20) 1 *ᶠ ((F -ᶠ E) *ᶠ (F -ᶠ E)) +ᶠ ratio (pos 1) (2 ^ 43)) +ᶠ ratio (pos 1) (2 ^ 98)) }
    // the slope is at least 19/20
    ensures slope { (L : Level) (eps E s c : Fraction) → zeroᶠ ≤ᶠ eps → eps ≤ᶠ ratio (pos 1) 128
        → IsSineCosine L E s c → ratio (pos 19) 20 ≤ᶠ oneᶠ -ᶠ (tau *ᶠ eps) *ᶠ c }
    // so the difference of the eccentric anomalies is that of the mean ones, over the slope
    ensures eccentric { (N M L : Level) (eps m w E F s c : Fraction) → zeroᶠ ≤ᶠ eps → eps ≤ᶠ ratio (pos 1) 128
        → SolvesKepler N m eps E → SolvesKepler M w eps F → IsSineCosine L E s c
        → IsNear (F -ᶠ E) ((w -ᶠ m) /ᶠ (oneᶠ -ᶠ (tau *ᶠ eps) *ᶠ c)) (ratio (pos 20) 19
        *ᶠ (eps *ᶠ (ratio (pos 20) 1 *ᶠ ((F -ᶠ E) *ᶠ (F -ᶠ E)) +ᶠ ratio (pos 1) (2 ^ 43)) +ᶠ ratio (pos 1) (2 ^ 98))) }
    // the same, with what is lost by the mean anomalies alone
    ensures by_mean { (N M L : Level) (eps m w E F s c : Fraction) → zeroᶠ ≤ᶠ eps → eps ≤ᶠ ratio (pos 1) 128
        → SolvesKepler N m eps E → SolvesKepler M w eps F → IsSineCosine L E s c
        → IsNear (F -ᶠ E) ((w -ᶠ m) /ᶠ (oneᶠ -ᶠ (tau *ᶠ eps) *ᶠ c))
        (eps *ᶠ (ratio (pos 25) 1 *ᶠ ((w -ᶠ m) *ᶠ (w -ᶠ m)) +ᶠ ratio (pos 1) (2 ^ 42)) +ᶠ ratio (pos 1) (2 ^ 97)) }
{}
