// Records of almanacs for the tests: each is accepted.

ghost use Rattle.std.specs.Prelude.{pos, neg_ℤ, ◌^◌, ◌≤ℤ◌};
ghost use Rattle.raim_model.specs.AlmanacRanges.{IsAlmRecord};

use raim_model::{AlmRecord, Angle, Dec};

/// A circle in the plane of 90 degrees, with its satellite at the node, from a time of applicability at a week's begin.
pub(crate) fn circle() -> AlmRecord
    ensures accepted { IsAlmRecord result }
    ensures early { neg_ℤ (pos (2 ^ 60)) ≤ℤ result.toa_ms }
    ensures late { result.toa_ms ≤ℤ pos (2 ^ 60) }
{
    AlmRecord {
        prn: 5,
        health: 0,
        e: Dec {
            neg: false,
            digits: 0,
            places: 0,
        },
        toa_ms: 1414022400000,
        incl: Angle::Semi30(Dec {
            neg: false,
            digits: 2,
            places: 1,
        }),
        rate: Angle::Semi(Dec {
            neg: false,
            digits: 0,
            places: 0,
        }),
        sqrt_a: Dec {
            neg: false,
            digits: 51536,
            places: 1,
        },
        omega0: Angle::Semi(Dec {
            neg: false,
            digits: 0,
            places: 0,
        }),
        perigee: Angle::Semi(Dec {
            neg: false,
            digits: 0,
            places: 0,
        }),
        m0: Angle::Semi(Dec {
            neg: false,
            digits: 0,
            places: 0,
        }),
    }
}

/// A record as a YUMA file has it, with angles in radians.
pub(crate) fn yuma() -> AlmRecord
    ensures accepted { IsAlmRecord result }
    ensures early { neg_ℤ (pos (2 ^ 60)) ≤ℤ result.toa_ms }
    ensures late { result.toa_ms ≤ℤ pos (2 ^ 60) }
{
    AlmRecord {
        prn: 1,
        health: 0,
        e: Dec {
            neg: false,
            digits: 1086759567,
            places: 11,
        },
        toa_ms: 1414427904000,
        incl: Angle::Rad(Dec {
            neg: false,
            digits: 96013574,
            places: 8,
        }),
        rate: Angle::Rad(Dec {
            neg: true,
            digits: 8126052768,
            places: 18,
        }),
        sqrt_a: Dec {
            neg: false,
            digits: 5153636719,
            places: 6,
        },
        omega0: Angle::Rad(Dec {
            neg: false,
            digits: 1296372856,
            places: 9,
        }),
        perigee: Angle::Rad(Dec {
            neg: false,
            digits: 812318933,
            places: 9,
        }),
        m0: Angle::Rad(Dec {
            neg: true,
            digits: 9442756846,
            places: 10,
        }),
    }
}

/// A record as a SEM file has it, with angles in semicircles.
pub(crate) fn sem() -> AlmRecord
    ensures accepted { IsAlmRecord result }
    ensures early { neg_ℤ (pos (2 ^ 60)) ≤ℤ result.toa_ms }
    ensures late { result.toa_ms ≤ℤ pos (2 ^ 60) }
{
    AlmRecord {
        prn: 24,
        health: 0,
        e: Dec {
            neg: false,
            digits: 1,
            places: 2,
        },
        toa_ms: 1414022400000,
        incl: Angle::Semi30(Dec {
            neg: false,
            digits: 56,
            places: 4,
        }),
        rate: Angle::Semi(Dec {
            neg: true,
            digits: 26,
            places: 10,
        }),
        sqrt_a: Dec {
            neg: false,
            digits: 51536,
            places: 1,
        },
        omega0: Angle::Semi(Dec {
            neg: true,
            digits: 6667,
            places: 4,
        }),
        perigee: Angle::Semi(Dec {
            neg: false,
            digits: 25,
            places: 2,
        }),
        m0: Angle::Semi(Dec {
            neg: false,
            digits: 9165,
            places: 4,
        }),
    }
}

/// A record at the ends of its ranges, in radians.
pub(crate) fn extreme() -> AlmRecord
    ensures accepted { IsAlmRecord result }
    ensures early { neg_ℤ (pos (2 ^ 60)) ≤ℤ result.toa_ms }
    ensures late { result.toa_ms ≤ℤ pos (2 ^ 60) }
{
    AlmRecord {
        prn: 32,
        health: 0,
        e: Dec {
            neg: false,
            digits: 3125,
            places: 5,
        },
        toa_ms: -123456789,
        incl: Angle::Rad(Dec {
            neg: false,
            digits: 31415926535898,
            places: 13,
        }),
        rate: Angle::Rad(Dec {
            neg: true,
            digits: 1,
            places: 6,
        }),
        sqrt_a: Dec {
            neg: false,
            digits: 7000,
            places: 0,
        },
        omega0: Angle::Rad(Dec {
            neg: true,
            digits: 10,
            places: 0,
        }),
        perigee: Angle::Rad(Dec {
            neg: false,
            digits: 10,
            places: 0,
        }),
        m0: Angle::Rad(Dec {
            neg: true,
            digits: 10,
            places: 0,
        }),
    }
}

/// A record at the ends of its ranges, in semicircles, from a millisecond before the epoch.
pub(crate) fn fast() -> AlmRecord
    ensures accepted { IsAlmRecord result }
    ensures early { neg_ℤ (pos (2 ^ 60)) ≤ℤ result.toa_ms }
    ensures late { result.toa_ms ≤ℤ pos (2 ^ 60) }
{
    AlmRecord {
        prn: 31,
        health: 0,
        e: Dec {
            neg: false,
            digits: 3125,
            places: 5,
        },
        toa_ms: -1,
        incl: Angle::Semi30(Dec {
            neg: true,
            digits: 5,
            places: 2,
        }),
        rate: Angle::Semi(Dec {
            neg: false,
            digits: 1,
            places: 6,
        }),
        sqrt_a: Dec {
            neg: false,
            digits: 40005,
            places: 1,
        },
        omega0: Angle::Semi(Dec {
            neg: false,
            digits: 39,
            places: 1,
        }),
        perigee: Angle::Semi(Dec {
            neg: true,
            digits: 35,
            places: 1,
        }),
        m0: Angle::Semi(Dec {
            neg: true,
            digits: 4,
            places: 0,
        }),
    }
}

/// A record in radians, from the last millisecond of a week.
pub(crate) fn late() -> AlmRecord
    ensures accepted { IsAlmRecord result }
    ensures early { neg_ℤ (pos (2 ^ 60)) ≤ℤ result.toa_ms }
    ensures late { result.toa_ms ≤ℤ pos (2 ^ 60) }
{
    AlmRecord {
        prn: 7,
        health: 0,
        e: Dec {
            neg: false,
            digits: 2,
            places: 2,
        },
        toa_ms: 1414022399999,
        incl: Angle::Rad(Dec {
            neg: false,
            digits: 96,
            places: 2,
        }),
        rate: Angle::Rad(Dec {
            neg: true,
            digits: 81,
            places: 10,
        }),
        sqrt_a: Dec {
            neg: false,
            digits: 51537,
            places: 1,
        },
        omega0: Angle::Rad(Dec {
            neg: true,
            digits: 225,
            places: 2,
        }),
        perigee: Angle::Rad(Dec {
            neg: false,
            digits: 31,
            places: 1,
        }),
        m0: Angle::Rad(Dec {
            neg: false,
            digits: 175,
            places: 2,
        }),
    }
}

/// A satellite of a published almanac in radians.
pub(crate) fn published_yuma() -> AlmRecord
    ensures accepted { IsAlmRecord result }
    ensures early { neg_ℤ (pos (2 ^ 60)) ≤ℤ result.toa_ms }
    ensures late { result.toa_ms ≤ℤ pos (2 ^ 60) }
{
    AlmRecord {
        prn: 2,
        health: 0,
        e: Dec {
            neg: false,
            digits: 9608650696,
            places: 12,
        },
        toa_ms: 962037504000,
        incl: Angle::Rad(Dec {
            neg: false,
            digits: 9393661061,
            places: 10,
        }),
        rate: Angle::Rad(Dec {
            neg: true,
            digits: 8186769583,
            places: 18,
        }),
        sqrt_a: Dec {
            neg: false,
            digits: 5153599472,
            places: 6,
        },
        omega0: Angle::Rad(Dec {
            neg: true,
            digits: 127509041,
            places: 8,
        }),
        perigee: Angle::Rad(Dec {
            neg: false,
            digits: 3097910679,
            places: 9,
        }),
        m0: Angle::Rad(Dec {
            neg: true,
            digits: 2171226212,
            places: 9,
        }),
    }
}

/// The same satellite of the same almanac in semicircles.
pub(crate) fn published_sem() -> AlmRecord
    ensures accepted { IsAlmRecord result }
    ensures early { neg_ℤ (pos (2 ^ 60)) ≤ℤ result.toa_ms }
    ensures late { result.toa_ms ≤ℤ pos (2 ^ 60) }
{
    AlmRecord {
        prn: 2,
        health: 0,
        e: Dec {
            neg: false,
            digits: 9608650696460001,
            places: 18,
        },
        toa_ms: 962037504000,
        incl: Angle::Semi30(Dec {
            neg: true,
            digits: 9904816805941796,
            places: 19,
        }),
        rate: Angle::Semi(Dec {
            neg: true,
            digits: 2605929694254038,
            places: 24,
        }),
        sqrt_a: Dec {
            neg: false,
            digits: 515359947205,
            places: 8,
        },
        omega0: Angle::Semi(Dec {
            neg: true,
            digits: 4058738833407042,
            places: 16,
        }),
        perigee: Angle::Semi(Dec {
            neg: false,
            digits: 9860955956400375,
            places: 16,
        }),
        m0: Angle::Semi(Dec {
            neg: true,
            digits: 6911227684553344,
            places: 16,
        }),
    }
}
