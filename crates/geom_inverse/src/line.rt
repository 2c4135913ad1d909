// A row of a normal matrix.

ghost use Rattle.std.specs.Prelude.{◌+◌, ◌^◌};
ghost use Rattle.fix_interval.specs.Intervals.{IsWithin64};

use fix_interval::Iv64;

/// The entries to the east, to the north, up and of the clock.
#[derive(Clone, Copy)]
pub(crate) struct Line {
    pub(crate) e: Iv64,
    pub(crate) n: Iv64,
    pub(crate) u: Iv64,
    pub(crate) k: Iv64,
    ghost e_small: { IsWithin64 e (2 ^ 43 + 2 ^ 7) },
    ghost n_small: { IsWithin64 n (2 ^ 43 + 2 ^ 7) },
    ghost u_small: { IsWithin64 u (2 ^ 43 + 2 ^ 7) },
    ghost k_small: { IsWithin64 k (2 ^ 43 + 2 ^ 7) },
}
