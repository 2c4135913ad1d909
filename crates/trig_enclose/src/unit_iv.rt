// Intervals from 0 to 1.

ghost use Rattle.std.specs.Prelude.{◌≤◌, ◌^◌};

/// An interval from 0 to 1, in units of 2^-38.
#[derive(Clone, Copy)]
pub(crate) struct UnitIv {
    pub(crate) lo: u64,
    pub(crate) hi: u64,
    ghost ordered: { lo ≤ hi },
    ghost unit: { hi ≤ 2 ^ 38 },
}
