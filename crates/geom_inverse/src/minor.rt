// The two by two minors of two rows of a normal matrix.

ghost use Rattle.std.specs.Prelude.{◌+◌, ◌^◌};
ghost use Rattle.fix_interval.specs.Intervals.{IsWithin64};

use fix_interval::Iv64;

/// By the places of their columns.
#[derive(Clone, Copy)]
pub(crate) struct Minors {
    pub(crate) m12: Iv64,
    pub(crate) m13: Iv64,
    pub(crate) m14: Iv64,
    pub(crate) m23: Iv64,
    pub(crate) m24: Iv64,
    pub(crate) m34: Iv64,
    ghost m12_small: { IsWithin64 m12 (2 ^ 49 + 2 ^ 16) },
    ghost m13_small: { IsWithin64 m13 (2 ^ 49 + 2 ^ 16) },
    ghost m14_small: { IsWithin64 m14 (2 ^ 49 + 2 ^ 16) },
    ghost m23_small: { IsWithin64 m23 (2 ^ 49 + 2 ^ 16) },
    ghost m24_small: { IsWithin64 m24 (2 ^ 49 + 2 ^ 16) },
    ghost m34_small: { IsWithin64 m34 (2 ^ 49 + 2 ^ 16) },
}
