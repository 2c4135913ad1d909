// Places of a satellite, each at a millisecond that its number determines.

ghost use Rattle.std.specs.Prelude.{◌≡◌, pos, ◌≤ℤ◌};
ghost use Rattle.raim_model.specs.AlmanacRanges.{IsAlmRecord};

use crate::sums::added;
use almanac_orbit::{Orbit, position, prepare};
use raim_model::{AlmRecord, Angle, Dec};

/// A record as a SEM file has it.
pub(crate) fn record_of() -> AlmRecord
    ensures accepted { IsAlmRecord result }
    ensures toa { result.toa_ms ≡ pos 1414022400000 }
{
    AlmRecord {
        prn: 24,
        health: 0,
        e: Dec {
            neg: false,
            digits: 1,
            places: 2,
        },
        toa_ms: 1414022400000,
        incl: Angle::Semi30(Dec {
            neg: false,
            digits: 56,
            places: 4,
        }),
        rate: Angle::Semi(Dec {
            neg: true,
            digits: 26,
            places: 10,
        }),
        sqrt_a: Dec {
            neg: false,
            digits: 51536,
            places: 1,
        },
        omega0: Angle::Semi(Dec {
            neg: true,
            digits: 6667,
            places: 4,
        }),
        perigee: Angle::Semi(Dec {
            neg: false,
            digits: 25,
            places: 2,
        }),
        m0: Angle::Semi(Dec {
            neg: false,
            digits: 9165,
            places: 4,
        }),
    }
}

/// The millisecond of a call: seven seconds a call from the time of applicability on, within 90 days.
pub(crate) fn time(i: u32) -> i64
    ensures low { pos 1414022400000 ≤ℤ result }
    ensures high { result ≤ℤ pos 1421798400000 }
{
    1414022400000 + ((i as i64 * 7000) % 7776000000)
}

/// The sum of the places at N milliseconds.
fn sum_over(orbit: &Orbit, n: u32) -> i128
    requires toa { orbit.now.toa_ms ≡ pos 1414022400000 }
{
    let mut sum: i128 = 0;
    for i in 0..n {
        let t = time(i);
        sum = added(sum, &position(orbit, t, t));
    }
    sum
}

/// The sum of N places of the satellite of one record.
pub fn sum_of(n: u32) -> i128 {
    sum_over(&prepare(&record_of()), n)
}
