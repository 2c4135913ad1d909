// Intervals of one number, and those that bound sines.

ghost use Rattle.std.specs.Prelude.{◌≡◌};
ghost use Rattle.fix_interval.specs.Ranges.{point};
ghost use Rattle.fix_interval.specs.Intervals.{ends};

use crate::interval::Iv;

/// How many units of 2^-38 are in one: 2^38.
pub const UNITS_IN_ONE: i128 = 274877906944;

impl Iv {
    /// 0.
    pub const ZERO: Iv = Iv { lo: 0, hi: 0 };

    /// 1, in units of 2^-38.
    pub const ONE: Iv = Iv {
        lo: UNITS_IN_ONE,
        hi: UNITS_IN_ONE,
    };

    /// From -1 to 1, in units of 2^-38.
    pub const FULL: Iv = Iv {
        lo: -UNITS_IN_ONE,
        hi: UNITS_IN_ONE,
    };

    /// One number of units, at any scale.
    pub fn point(units: i128) -> Iv
        ensures { ends result ≡ point units }
    {
        Iv {
            lo: units,
            hi: units,
        }
    }
}
