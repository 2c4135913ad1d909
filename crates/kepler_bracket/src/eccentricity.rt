// Eccentricities that fit 64 bits.

ghost use Rattle.std.specs.Prelude.{◌≤◌, ◌^◌};

/// An eccentricity over 2 pi, from 0 to 2^-7, in units of 2^-38.
#[derive(Clone, Copy)]
pub(crate) struct EccentricityInTurns {
    pub(crate) lo: u64,
    pub(crate) hi: u64,
    ghost ordered: { lo ≤ hi },
    ghost small: { hi ≤ 2 ^ 31 },
}
