// Rows of a direction, with the weight 1 and with any.

ghost use Rattle.std.specs.Prelude.{◌≡◌, pos, ◌+◌, ◌^◌, ◌≤ℤ◌, All, [], ◌∷◌};
ghost use Rattle.fractions.specs.Fraction.{Fraction};
ghost use Rattle.raim_model.specs.Geometry.{row_of, weighed};
ghost use Rattle.fix_interval.specs.Ends.{Ends, IsInside};
ghost use Rattle.fix_interval.specs.Lies.{Lies};
ghost use Rattle.fix_interval.specs.Intervals.{ends, ends_64, IsWithin, IsWithin64};
ghost use Rattle.geom_laws.specs.Rows.{row_of_ends, weighed_of, RowLies, RowInside};
ghost use Rattle.geom_inverse.specs.Views.{row_ends};

use crate::row::Row;
use fix_interval::{Iv, Iv64, mul};

/// A part of a row, by ends of 64 bits.
fn part(a: Iv) -> Iv64
    requires { IsWithin a (2 ^ 38 + 1) }
    ensures exact { ends_64 result ≡ ends a }
    ensures small { IsWithin64 result (2 ^ 38 + 1) }
{
    a.in_64_bits()
}

/// A weight, by ends of 64 bits.
fn weight(k: Iv) -> Iv64
    requires not_negative { pos 0 ≤ℤ k.lo }
    requires at_most_one { k.hi ≤ℤ pos (2 ^ 38) }
    ensures exact { ends_64 result ≡ ends k }
    ensures not_negative { pos 0 ≤ℤ result.lo }
    ensures at_most_one { result.hi ≤ℤ pos (2 ^ 38) }
{
    k.in_64_bits()
}

impl Row {
    /// The row of a direction to the east, to the north and up, with the weight 1.
    pub fn new(prn: u8, dir: &[Iv; 3]) -> Row
        requires { All (λ x. IsWithin x (2 ^ 38 + 1)) dir.now }
        ensures prn { result.prn ≡ prn }
        ensures exact { (e n u : Iv) → dir.now ≡ e ∷ n ∷ u ∷ [] → row_ends result ≡ row_of_ends (ends e) (ends n) (ends u) }
        ensures encloses { (e n u : Iv) (x y z : Fraction) → dir.now ≡ e ∷ n ∷ u ∷ []
            → Lies (ends e) 38 x → Lies (ends n) 38 y → Lies (ends u) 38 z → RowLies (row_ends result) (row_of x y z) }
        ensures isotone { (e n u : Iv) (a b c : Ends) → dir.now ≡ e ∷ n ∷ u ∷ []
            → IsInside (ends e) a → IsInside (ends n) b → IsInside (ends u) c → RowInside (row_ends result) (row_of_ends a b c) }
    {
        Row {
            prn,
            e: part(dir[0]),
            n: part(dir[1]),
            u: part(dir[2]),
            k: weight(Iv::ONE),
        }
    }

    /// The row of a direction to the east, to the north and up, and of a weight from 0 to 1.
    pub fn weighed(prn: u8, dir: &[Iv; 3], k: Iv) -> Row
        requires small { All (λ x. IsWithin x (2 ^ 38 + 1)) dir.now }
        requires not_negative { pos 0 ≤ℤ k.lo }
        requires at_most_one { k.hi ≤ℤ pos (2 ^ 38) }
        ensures prn { result.prn ≡ prn }
        ensures exact { (e n u : Iv) → dir.now ≡ e ∷ n ∷ u ∷ [] → row_ends result ≡ weighed_of (ends e) (ends n) (ends u) (ends k) }
        ensures encloses { (e n u : Iv) (x y z w : Fraction) → dir.now ≡ e ∷ n ∷ u ∷ []
            → Lies (ends e) 38 x → Lies (ends n) 38 y → Lies (ends u) 38 z → Lies (ends k) 38 w
            → RowLies (row_ends result) (weighed w (row_of x y z)) }
        ensures isotone { (e n u : Iv) (a b c d : Ends) → dir.now ≡ e ∷ n ∷ u ∷ []
            → IsInside (ends e) a → IsInside (ends n) b → IsInside (ends u) c → IsInside (ends k) d
            → RowInside (row_ends result) (weighed_of a b c d) }
    {
        Row {
            prn,
            e: part(mul(k, dir[0])),
            n: part(mul(k, dir[1])),
            u: part(mul(k, dir[2])),
            k: weight(k),
        }
    }
}
