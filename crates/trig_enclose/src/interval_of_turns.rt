// An interval of turns.

ghost use Rattle.std.specs.Prelude.{◌^◌};
ghost use Rattle.fix_interval.specs.Intervals.{IsWithin64};

use fix_interval::Iv64;

/// Turns of a magnitude of at most 2^22, in units of 2^-38.
#[derive(Clone, Copy)]
pub(crate) struct Turns {
    pub(crate) turns: Iv64,
    ghost small: { IsWithin64 turns (2 ^ 60) },
}
