// The entries of a normal matrix.

ghost use Rattle.std.specs.Prelude.{◌+◌, ◌^◌};
ghost use Rattle.fix_interval.specs.Intervals.{IsWithin64};

use fix_interval::Iv64;

/// The entries on and above the diagonal, in units of 2^-38.
#[derive(Clone, Copy)]
pub(crate) struct Entries {
    pub(crate) a11: Iv64,
    pub(crate) a12: Iv64,
    pub(crate) a13: Iv64,
    pub(crate) a14: Iv64,
    pub(crate) a22: Iv64,
    pub(crate) a23: Iv64,
    pub(crate) a24: Iv64,
    pub(crate) a33: Iv64,
    pub(crate) a34: Iv64,
    pub(crate) a44: Iv64,
    ghost a11_small: { IsWithin64 a11 (2 ^ 43 + 2 ^ 7) },
    ghost a12_small: { IsWithin64 a12 (2 ^ 43 + 2 ^ 7) },
    ghost a13_small: { IsWithin64 a13 (2 ^ 43 + 2 ^ 7) },
    ghost a14_small: { IsWithin64 a14 (2 ^ 43 + 2 ^ 7) },
    ghost a22_small: { IsWithin64 a22 (2 ^ 43 + 2 ^ 7) },
    ghost a23_small: { IsWithin64 a23 (2 ^ 43 + 2 ^ 7) },
    ghost a24_small: { IsWithin64 a24 (2 ^ 43 + 2 ^ 7) },
    ghost a33_small: { IsWithin64 a33 (2 ^ 43 + 2 ^ 7) },
    ghost a34_small: { IsWithin64 a34 (2 ^ 43 + 2 ^ 7) },
    ghost a44_small: { IsWithin64 a44 (2 ^ 43 + 2 ^ 7) },
}
