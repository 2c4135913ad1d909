// Intervals whose ends fit 64 bits.

ghost use Rattle.std.specs.Prelude.{◌≤ℤ◌};

/// An interval whose ends fit 64 bits, as where the products of such ends are to take one machine product each.
#[derive(Clone, Copy)]
pub struct Iv64 {
    pub lo: i64,
    pub hi: i64,
    ghost ordered: { lo ≤ℤ hi },
}
