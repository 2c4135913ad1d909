// Laws of Kepler's equation over intervals, each the contract of a function that does nothing.
ghost use Rattle.std.specs.Prelude.{ℤ, pos, ◌^◌, ◌≤ℤ◌, ◌+ℤ◌, ◌-ℤ◌, ◌*ℤ◌, neg_ℤ};
ghost use Rattle.fractions.specs.Fraction.{Fraction, ratio, zeroᶠ, ◌+ᶠ◌, ◌-ᶠ◌, ◌*ᶠ◌, ◌≤ᶠ◌};
ghost use Rattle.raim_model.specs.Level.{Level};
ghost use Rattle.raim_model.specs.Sine.{IsSineCosine};
ghost use Rattle.raim_model.specs.Kepler.{SolvesKepler};
ghost use Rattle.fix_interval.specs.Ends.{Ends, IsInside, width_of};
ghost use Rattle.fix_interval.specs.Lies.{Lies};
ghost use Rattle.fix_interval.specs.Pairs.{PairLies, PairInside};
ghost use Rattle.kepler_laws.specs.Anomalies.{IsEccentricityInTurns, IsWithinHalfTurn, mean_of, is_below, is_above, bracket, anomalies_of, IsGreatest, IsLeast};
ghost use Rattle.kepler_laws.specs.EccentricSine.{ecc_sin_cos_of, HasAnomaly};

/// For an eccentricity in turns from 0 to 1/128, the mean anomaly of the model rises with the eccentric one, but for 2^-52.
pub fn mean_anomaly_rises()
    ensures { (N M : Level) (eps u v s c t d : Fraction) → zeroᶠ ≤ᶠ eps → eps ≤ᶠ ratio (pos 1) 128 → u ≤ᶠ v → IsSineCosine N u s c → IsSineCosine M v t d
        → ratio (pos 118) 128 *ᶠ (v -ᶠ u) ≤ᶠ ((v -ᶠ eps *ᶠ t) -ᶠ (u -ᶠ eps *ᶠ s)) +ᶠ ratio (pos 1) (2 ^ 52) }
{}

/// The ends that forty halvings find, so that any other search that finds such numbers finds these.
pub fn ends_are_found()
    // a unit inside the lower end is the greatest number whose mean anomaly is certainly at most the given one
    ensures lower { (eps m : Ends) → IsEccentricityInTurns eps → IsWithinHalfTurn m → IsGreatest (is_below eps m.lo) (neg_ℤ bracket) bracket ((anomalies_of eps m).lo +ℤ pos 1) }
    // a unit inside the upper end is the least number whose mean anomaly is certainly at least the given one
    ensures upper { (eps m : Ends) → IsEccentricityInTurns eps → IsWithinHalfTurn m → IsLeast (is_above eps m.hi) (neg_ℤ bracket) bracket ((anomalies_of eps m).hi -ℤ pos 1) }
    // both ends of the mean anomaly rise from one number to the next
    ensures rises { (eps : Ends) (k : ℤ) → IsEccentricityInTurns eps → ((mean_of eps k).hi ≤ℤ (mean_of eps (k +ℤ pos 1)).hi) × ((mean_of eps k).lo ≤ℤ (mean_of eps (k +ℤ pos 1)).lo) }
    // each eccentric anomaly of the model lies between the ends
    ensures encloses { (eps m : Ends) → IsEccentricityInTurns eps → IsWithinHalfTurn m → (N : Level) (M ε E : Fraction) → Lies m 38 M → Lies eps 38 ε → SolvesKepler N M ε E → Lies (anomalies_of eps m) 38 E }
    ensures isotone { (eps m f c : Ends) → IsEccentricityInTurns f → IsWithinHalfTurn c → IsInside eps f → IsInside m c → IsInside (anomalies_of eps m) (anomalies_of f c) }
{}

/// The sine and cosine of the eccentric anomalies of an interval of mean anomalies.
pub fn anomalies_are_enclosed()
    // they hold each pair that the model admits for an eccentric anomaly of a mean anomaly and an eccentricity inside
    ensures encloses { (m eps : Ends) → m.lo ≤ℤ m.hi → IsEccentricityInTurns eps → (N : Level) (M ε E s c : Fraction) → Lies m 38 M → Lies eps 38 ε → SolvesKepler N M ε E → IsSineCosine N E s c → PairLies (ecc_sin_cos_of m eps) s c }
    // they lie inside those of wider mean anomalies and eccentricities
    ensures isotone { (m eps d f : Ends) → IsEccentricityInTurns f → IsInside m d → IsInside eps f → PairInside (ecc_sin_cos_of m eps) (ecc_sin_cos_of d f) }
    // and each is at most 32 times as wide as the mean anomalies, and 2048 units
    ensures narrow { (m eps : Ends) → m.lo ≤ℤ m.hi → IsEccentricityInTurns eps → width_of eps ≤ℤ pos 4 → (width_of (ecc_sin_cos_of m eps).sine ≤ℤ (pos 32 *ℤ width_of m +ℤ pos 2048)) × (width_of (ecc_sin_cos_of m eps).cosine ≤ℤ (pos 32 *ℤ width_of m +ℤ pos 2048)) }
{}

/// For an eccentricity in turns from 0 to 1/128, each mean anomaly has an eccentric one, at each level.
pub fn anomalies_exist()
    ensures { (N : Level) (M eps : Fraction) → zeroᶠ ≤ᶠ eps → eps ≤ᶠ ratio (pos 1) 128 → HasAnomaly N M eps }
{}
