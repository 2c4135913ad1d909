// Calls on turns, each on intervals that its number determines.

ghost use Rattle.std.specs.Prelude.{pos, ◌^◌, ◌≤ℤ◌};
ghost use Rattle.fix_interval.specs.Intervals.{IsWithin};

use crate::sums::{added, from, scattered};
use fix_interval::Iv;
use kepler_bracket::ecc_sin_cos;
use trig_enclose::sin_cos;

/// Up to two turns either way, at most three units wide.
fn turns(i: u32) -> Iv
    ensures { IsWithin result (2 ^ 60) }
{
    from((scattered(i) % 1099511627776) as i128 - 549755813888, i % 4)
}

/// An eccentricity in turns, a unit wide.
fn eccentricity(i: u32) -> Iv
    ensures low { pos 0 ≤ℤ result.lo }
    ensures high { result.hi ≤ℤ pos (2 ^ 31) }
{
    from((scattered(i) % 1367130551) as i128, 1)
}

/// The sum of N sines and cosines.
pub fn sum_of_sines(n: u32) -> i128 {
    let mut sum: i128 = 0;
    for i in 0..n {
        let (sine, cosine) = sin_cos(turns(i));
        sum = added(sum, &[sine, cosine]);
    }
    sum
}

/// The sum of N sines and cosines of eccentric anomalies, whose mean anomalies are the turns.
pub fn sum_of_anomalies(n: u32) -> i128 {
    let mut sum: i128 = 0;
    for i in 0..n {
        let (sine, cosine) = ecc_sin_cos(turns(i), eccentricity(i));
        sum = added(sum, &[sine, cosine]);
    }
    sum
}
