// A row of the geometry.

ghost use Rattle.std.specs.Prelude.{pos, ◌+◌, ◌^◌, ◌≤ℤ◌};
ghost use Rattle.fix_interval.specs.Intervals.{IsWithin64};

use fix_interval::Iv64;

/// Nothing.
const ZERO: Iv64 = Iv64 { lo: 0, hi: 0 };

/// A satellite's direction to the east, to the north and up, and 1, each times the satellite's weight: in units of 2^-38.
#[derive(Clone, Copy)]
pub struct Row {
    pub prn: u8,
    pub e: Iv64,
    pub n: Iv64,
    pub u: Iv64,
    pub k: Iv64,
    ghost e_small: { IsWithin64 e (2 ^ 38 + 1) },
    ghost n_small: { IsWithin64 n (2 ^ 38 + 1) },
    ghost u_small: { IsWithin64 u (2 ^ 38 + 1) },
    ghost k_not_negative: { pos 0 ≤ℤ k.lo },
    ghost k_small: { k.hi ≤ℤ pos (2 ^ 38) },
}

impl Default for Row {
    fn default() -> Row {
        Row {
            prn: 0,
            e: ZERO,
            n: ZERO,
            u: ZERO,
            k: ZERO,
        }
    }
}
