// An interval, from one whole number of units to another.

ghost use Rattle.std.specs.Prelude.{◌≤ℤ◌};

/// An interval: at scale s it holds the fractions from `lo 2^-s` to `hi 2^-s`. The scale is 38 unless a call names
/// another, so that a unit is 2^-38.
#[derive(Clone, Copy)]
pub struct Iv {
    pub lo: i128,
    pub hi: i128,
    ghost ordered: { lo ≤ℤ hi },
}
