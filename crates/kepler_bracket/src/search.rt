// The ends of the eccentric anomalies, looked for between the ends of a bracket. A probe decides one side of it; the next one
// is where the mean anomaly is about the wanted one.

ghost use Rattle.std.specs.Prelude.{◌≡◌, pos, neg_ℤ, ◌^◌, ◌≤ℤ◌, not};
ghost use Rattle.kepler_laws.specs.Anomalies.{bracket, is_below, is_above, IsGreatest, IsLeast};
ghost use Rattle.kepler_bracket.specs.Eccentricities.{eccentricity_ends};

use crate::eccentricity::EccentricityInTurns;
use crate::lead::Lead;
use crate::mean::{mean_high, mean_low};
use crate::mean_tests::{MayBeBelow, MustBeBelow};
use fix_interval::{Probe, UNITS_IN_ONE, last_passing};

/// Five eighths of a turn, in units of 2^-38.
const BRACKET: i64 = UNITS_IN_ONE as i64 / 8 * 5;

/// Whether the mean anomaly of `k` is certainly at most the given one.
impl Probe for MustBeBelow {
    ghost passes = { λ t. is_below (eccentricity_ends t.eps) t.mean };

    fn probe(&self, k: i64) -> (bool, i64) {
        let mean = mean_high(self.eps, k);
        if mean <= self.mean {
            (true, k + self.lead.ahead(self.mean - mean))
        } else {
            (false, k - self.lead.ahead(mean - self.mean))
        }
    }
}

/// Whether the mean anomaly of `k` is not certainly at least the given one.
impl Probe for MayBeBelow {
    ghost passes = { λ t k. not (is_above (eccentricity_ends t.eps) t.mean k) };

    fn probe(&self, k: i64) -> (bool, i64) {
        let mean = mean_low(self.eps, k);
        if mean < self.mean {
            (true, k + self.lead.ahead(self.mean - mean))
        } else {
            (false, k - self.lead.ahead(mean - self.mean))
        }
    }
}

/// The greatest number whose mean anomaly is certainly at most `mean`.
pub(crate) fn greatest_below(eps: EccentricityInTurns, mean: i64, lead: Lead) -> i64
    requires low { neg_ℤ (pos (2 ^ 37)) ≤ℤ mean }
    requires high { mean ≤ℤ pos (2 ^ 37) }
    ensures { IsGreatest (is_below (eccentricity_ends eps) mean) (neg_ℤ bracket) bracket result }
{
    last_passing(&MustBeBelow { eps, mean, lead }, -BRACKET, BRACKET, mean)
}

/// The least number whose mean anomaly is certainly at least `mean`, looked for from `start` on.
pub(crate) fn least_above(eps: EccentricityInTurns, mean: i64, start: i64, lead: Lead) -> i64
    requires low { neg_ℤ (pos (2 ^ 37)) ≤ℤ mean }
    requires high { mean ≤ℤ pos (2 ^ 37) }
    ensures { IsLeast (is_above (eccentricity_ends eps) mean) (neg_ℤ bracket) bracket result }
{
    last_passing(&MayBeBelow { eps, mean, lead }, -BRACKET, BRACKET, start) + 1
}
