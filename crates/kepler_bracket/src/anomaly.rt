// Mean anomalies of one orbit.

ghost use Rattle.std.specs.Prelude.{pos, ◌^◌, ◌≤ℤ◌};
ghost use Rattle.fix_interval.specs.Intervals.{IsWithin};

use fix_interval::Iv;

/// Mean anomalies of a magnitude of at most 2^22 turns, and the eccentricity in turns, from 0 to 2^-7: in units of 2^-38.
#[derive(Clone, Copy)]
pub(crate) struct MeanAnomalies {
    pub(crate) mean: Iv,
    pub(crate) eps: Iv,
    ghost small: { IsWithin mean (2 ^ 60) },
    ghost eps_low: { pos 0 ≤ℤ eps.lo },
    ghost eps_high: { eps.hi ≤ℤ pos (2 ^ 31) },
}
