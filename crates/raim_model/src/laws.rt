// Laws of the definitions, each the contract of a function that does nothing.
ghost use Rattle.std.specs.Prelude.{◌≡◌, ◌≤◌, ◌+◌, ◌*◌, ◌^◌, ℕ, ℤ, List, Bool, true, false, pos};
ghost use Rattle.fractions.specs.Fraction.{Fraction, ratio, whole, ◌-ᶠ◌, ◌*ᶠ◌};
ghost use Rattle.raim_model.specs.declared.almanac.AlmRecord.{AlmRecord};
ghost use Rattle.raim_model.specs.declared.span.Span.{Span};
ghost use Rattle.raim_model.specs.declared.verdict.Verdict.{Verdict};
ghost use Rattle.raim_model.specs.AlmanacRanges.{AreRecords};
ghost use Rattle.raim_model.specs.Solution.{Case, HasVerdict, HasVerticalVerdict};
ghost use Rattle.raim_model.specs.Constants.{tau, mu, earth_rotation, earth_axis, flattening, eccentricity_squared};
ghost use Rattle.raim_model.specs.Decimal.{decimal, value_of};
ghost use Rattle.raim_model.specs.Level.{Level};
ghost use Rattle.raim_model.specs.Root.{IsRoot};

/// The constants in the units of their sources, and against each other.
pub fn constants_are_those_of_their_sources()
    // 3.986005 x 10^14 m^3/s^2: 10^18 cubic metres are a cubic megametre, 10^6 square milliseconds a square second.
    ensures gravity { mu *ᶠ whole (pos (10 ^ 24)) ≡ whole (pos 398600500000000) }
    // 7.2921151467 x 10^-5 rad/s
    ensures rotation { earth_rotation *ᶠ (whole (pos 1000) *ᶠ tau) ≡ ratio (pos 72921151467) (10 ^ 15) }
    ensures axis { earth_axis *ᶠ whole (pos 1000000) ≡ whole (pos 6378137) }
    ensures eccentricity { eccentricity_squared ≡ flattening *ᶠ (whole (pos 2) -ᶠ flattening) }
    // written out as one fraction
    ensures eccentricity_written_out { eccentricity_squared ≡ ratio (pos (595514447126 * 10 ^ 9)) (298257223563 * 298257223563) }
{}

/// A decimal is the fraction of its digits, whatever zeros are written behind its point.
pub fn decimals_are_fractions()
    // 0.1086759567E-001
    ensures published { value_of (decimal false 1086759567 11) ≡ ratio (pos 1086759567) 100000000000 }
    ensures negative { value_of (decimal true 5 1) *ᶠ whole (pos 2) ≡ whole (pos 0) -ᶠ whole (pos 1) }
    ensures trailing_zero { (neg : Bool) (digits places : ℕ) → value_of (decimal neg (10 * digits) (places + 1)) ≡ value_of (decimal neg digits places) }
{}

/// A root at a level is one at each level below.
pub fn roots_hold_below()
    ensures { (high low : Level) (x w : Fraction) → low.terms ≤ high.terms → IsRoot high x w → IsRoot low x w }
{}
