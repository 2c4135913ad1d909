// The eccentric anomalies of at most half a turn of mean anomaly.

ghost use Rattle.std.specs.Prelude.{◌≡◌, pos, neg_ℤ, ◌^◌, ◌≤ℤ◌, ◌+ℤ◌, ◌-ℤ◌};
ghost use Rattle.fractions.specs.Fraction.{Fraction};
ghost use Rattle.raim_model.specs.Level.{Level};
ghost use Rattle.raim_model.specs.Kepler.{SolvesKepler};
ghost use Rattle.fix_interval.specs.Ends.{Ends, IsInside};
ghost use Rattle.fix_interval.specs.Lies.{Lies};
ghost use Rattle.fix_interval.specs.Intervals.{ends, IsWithin};
ghost use Rattle.kepler_laws.specs.Anomalies.{IsEccentricityInTurns, IsWithinHalfTurn, anomalies_of, bracket, is_below, is_above, IsGreatest, IsLeast};
ghost use Rattle.kepler_bracket.specs.Eccentricities.{eccentricity_ends};

use crate::eccentricity::EccentricityInTurns;
use crate::lead::Lead;
use crate::search::{greatest_below, least_above};
use fix_interval::Iv;

fn eccentricity_of(eps: Iv) -> EccentricityInTurns
    requires low { pos 0 ≤ℤ eps.lo }
    requires high { eps.hi ≤ℤ pos (2 ^ 31) }
    ensures { eccentricity_ends result ≡ ends eps }
{
    EccentricityInTurns {
        lo: eps.lo as u64,
        hi: eps.hi as u64,
    }
}

/// From `low` to `high`, a unit outward.
fn unit_outward(low: i64, high: i64) -> Iv
    requires { (low -ℤ pos 1) ≤ℤ (high +ℤ pos 1) }
    ensures lo { result.lo ≡ low -ℤ pos 1 }
    ensures hi { result.hi ≡ high +ℤ pos 1 }
{
    Iv {
        lo: low as i128 - 1,
        hi: high as i128 + 1,
    }
}

/// The eccentric anomalies of mean anomalies of at most half a turn either way, where `eps` is the eccentricity over 2 pi:
/// all in turns, in units of 2^-38.
pub fn anomalies(m: Iv, eps: Iv) -> Iv
    requires half { IsWithin m (2 ^ 37) }
    requires eps_low { pos 0 ≤ℤ eps.lo }
    requires eps_high { eps.hi ≤ℤ pos (2 ^ 31) }
    ensures exact { ends result ≡ anomalies_of (ends eps) (ends m) }
    // a unit inside its lower end is the greatest number whose mean anomaly is certainly at most m's lower end
    ensures lower { IsGreatest (is_below (ends eps) m.lo) (neg_ℤ bracket) bracket (result.lo +ℤ pos 1) }
    // a unit inside its upper end is the least number whose mean anomaly is certainly at least m's upper end
    ensures upper { IsLeast (is_above (ends eps) m.hi) (neg_ℤ bracket) bracket (result.hi -ℤ pos 1) }
    ensures encloses { (N : Level) (M ε E : Fraction) → Lies (ends m) 38 M → Lies (ends eps) 38 ε → SolvesKepler N M ε E → Lies (ends result) 38 E }
    ensures isotone { (d f : Ends) → IsWithinHalfTurn d → IsEccentricityInTurns f → IsInside (ends m) d → IsInside (ends eps) f → IsInside (ends result) (anomalies_of f d) }
    ensures small { IsWithin result (2 ^ 40) }
{
    let eccentricity = eccentricity_of(eps);
    let first = m.lo as i64;
    let last = m.hi as i64;
    let lead = Lead::near(eccentricity, first);
    let low = greatest_below(eccentricity, first, lead);
    let start = low + lead.ahead(last - first);
    let high = least_above(eccentricity, last, start, lead);
    unit_outward(low, high)
}
