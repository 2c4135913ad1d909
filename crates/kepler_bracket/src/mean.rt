// The mean anomaly of one eccentric anomaly, an end at a time.

ghost use Rattle.std.specs.Prelude.{◌≡◌, ◌≤◌, pos, neg_ℤ, ◌^◌, ◌≤ℤ◌, ◌*ℤ◌};
ghost use Rattle.kepler_laws.specs.Anomalies.{mean_of};
ghost use Rattle.kepler_bracket.specs.Eccentricities.{eccentricity_ends};

use crate::eccentricity::EccentricityInTurns;
use fix_interval::{product_down, product_up};
use trig_enclose::{sine_high, sine_low};

/// The upper end of k - eps sin k.
#[inline(always)]
pub(crate) fn mean_high(eps: EccentricityInTurns, k: i64) -> i64
    requires low { neg_ℤ (pos (2 ^ 40)) ≤ℤ k }
    requires high { k ≤ℤ pos (2 ^ 40) }
    ensures value { result ≡ (mean_of (eccentricity_ends eps) k).hi }
    ensures low { neg_ℤ (pos (2 ^ 41)) ≤ℤ result }
    ensures high { result ≤ℤ pos (2 ^ 41) }
{
    let s = sine_low(k);
    if s >= 0 {
        k - product_down(s, eps.lo)
    } else {
        k - product_down(s, eps.hi)
    }
}

/// The lower end of k - eps sin k.
#[inline(always)]
pub(crate) fn mean_low(eps: EccentricityInTurns, k: i64) -> i64
    requires low { neg_ℤ (pos (2 ^ 40)) ≤ℤ k }
    requires high { k ≤ℤ pos (2 ^ 40) }
    ensures value { result ≡ (mean_of (eccentricity_ends eps) k).lo }
    ensures low { neg_ℤ (pos (2 ^ 41)) ≤ℤ result }
    ensures high { result ≤ℤ pos (2 ^ 41) }
{
    let s = sine_high(k);
    if s >= 0 {
        k - product_up(s, eps.hi)
    } else {
        k - product_up(s, eps.lo)
    }
}
