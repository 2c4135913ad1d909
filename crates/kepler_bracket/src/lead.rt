// How far an eccentric anomaly is from another, where their mean anomalies are so far apart.
ghost use Rattle.std.specs.Prelude.{pos, neg_ℤ, ◌^◌, ◌≤ℤ◌};

use crate::eccentricity::EccentricityInTurns;
use fix_interval::{UNITS_IN_ONE, product_down};
use trig_enclose::sine_low;

/// A turn in units of 2^-38.
const ONE: i64 = UNITS_IN_ONE as i64;

/// A quarter of a turn in units of 2^-38.
const QUARTER: i64 = ONE / 4;

/// The radians of a turn in units of 2^-12, rounded.
const TURN: i64 = 25736;

/// 8 in units of 2^-16.
const EIGHT: i64 = 524288;

/// The nearest number from a unit to a turn.
#[inline(always)]
fn within_a_turn(units: i64) -> i64
    ensures low { pos 1 ≤ℤ result }
    ensures high { result ≤ℤ pos (2 ^ 38) }
{
    if units < 1 {
        1
    } else if units > ONE {
        ONE
    } else {
        units
    }
}

/// The nearest number of parts that is at most 8 either way.
#[inline(always)]
fn at_most_eight(parts: i64) -> i64
    ensures low { neg_ℤ (pos (2 ^ 19)) ≤ℤ result }
    ensures high { result ≤ℤ pos (2 ^ 19) }
{
    if parts < -EIGHT {
        -EIGHT
    } else if parts > EIGHT {
        EIGHT
    } else {
        parts
    }
}

/// By how much more the eccentric anomaly rises than the mean one, near some mean anomaly: about e cos M, in units of 2^-16. It
/// steers a search, and nothing is promised of how near it is.
#[derive(Clone, Copy)]
pub(crate) struct Lead {
    parts: i64,
    ghost low: { neg_ℤ (pos (2 ^ 19)) ≤ℤ parts },
    ghost high: { parts ≤ℤ pos (2 ^ 19) },
}

impl Lead {
    /// Near the mean anomaly `mean`.
    #[inline(always)]
    pub(crate) fn near(eps: EccentricityInTurns, mean: i64) -> Lead
        requires low { neg_ℤ (pos (2 ^ 37)) ≤ℤ mean }
        requires high { mean ≤ℤ pos (2 ^ 37) }
    {
        let cosine = sine_low(mean + QUARTER);
        Lead {
            parts: at_most_eight((product_down(cosine, eps.hi) * TURN) >> 34),
        }
    }

    /// How far the eccentric anomaly is to go, where the mean one is to go `mean`: a unit at least, and a turn at most.
    #[inline(always)]
    pub(crate) fn ahead(self, mean: i64) -> i64
        requires low { neg_ℤ (pos (2 ^ 42)) ≤ℤ mean }
        requires high { mean ≤ℤ pos (2 ^ 42) }
        ensures low { pos 1 ≤ℤ result }
        ensures high { result ≤ℤ pos (2 ^ 38) }
    {
        within_a_turn(mean + ((mean * self.parts + 32768) >> 16))
    }
}
