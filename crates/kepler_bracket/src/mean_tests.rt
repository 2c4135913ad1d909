// What is asked of an eccentric anomaly: how its mean anomaly stands to one of at most half a turn either way.

ghost use Rattle.std.specs.Prelude.{pos, neg_ℤ, ◌^◌, ◌≤ℤ◌};

use crate::eccentricity::EccentricityInTurns;
use crate::lead::Lead;

/// That it is certainly at most the given one.
#[derive(Clone, Copy)]
pub(crate) struct MustBeBelow {
    pub(crate) eps: EccentricityInTurns,
    pub(crate) mean: i64,
    /// Where to look next.
    pub(crate) lead: Lead,
    ghost low: { neg_ℤ (pos (2 ^ 37)) ≤ℤ mean },
    ghost high: { mean ≤ℤ pos (2 ^ 37) },
}

/// That it is not certainly at least the given one.
#[derive(Clone, Copy)]
pub(crate) struct MayBeBelow {
    pub(crate) eps: EccentricityInTurns,
    pub(crate) mean: i64,
    /// Where to look next.
    pub(crate) lead: Lead,
    ghost low: { neg_ℤ (pos (2 ^ 37)) ≤ℤ mean },
    ghost high: { mean ≤ℤ pos (2 ^ 37) },
}
