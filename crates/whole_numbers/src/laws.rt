// What the definitions of this crate are, each law a function with no body.

ghost use Rattle.std.specs.Prelude.{◌≡◌, ℕ, ℤ, pos, ◌+◌, ◌*◌, ◌<◌, ◌≤◌, ◌+ℤ◌, ◌*ℤ◌, neg_ℤ, ◌≤ℤ◌, ◌<ℤ◌};
ghost use Rattle.whole_numbers.specs.Algebra.{IsCommutativeRing, IsTotalOrder, IsStrictOrder, IsCompatibleOrder};
ghost use Rattle.whole_numbers.specs.Rounding.{floor_of, ceil_of};
ghost use Rattle.whole_numbers.specs.Corners.{least_corner, greatest_corner};
ghost use Rattle.whole_numbers.specs.Root.{root_of};

/// The whole numbers are an ordered commutative ring.
pub fn integers_are_an_ordered_ring()
    ensures ring { IsCommutativeRing (pos 0) (pos 1) ◌+ℤ◌ ◌*ℤ◌ neg_ℤ }
    ensures order { IsTotalOrder ◌≤ℤ◌ }
    ensures strict { IsStrictOrder ◌≤ℤ◌ ◌<ℤ◌ }
    ensures compatible { IsCompatibleOrder (pos 0) ◌+ℤ◌ ◌*ℤ◌ ◌≤ℤ◌ }
{}

/// The floor of `z / k` is the one `q` with `q k <= z < q k + k`, it grows with `z`, and to divide twice is to divide
/// by the product.
pub fn floor_is_rounded_down()
    ensures low { (z : ℤ) (k : ℕ) → 0 < k → (floor_of z k *ℤ pos k) ≤ℤ z }
    ensures high { (z : ℤ) (k : ℕ) → 0 < k → z <ℤ (floor_of z k *ℤ pos k +ℤ pos k) }
    ensures unique { (z q : ℤ) (k : ℕ) → 0 < k → (q *ℤ pos k) ≤ℤ z → z <ℤ (q *ℤ pos k +ℤ pos k)
        → q ≡ floor_of z k }
    ensures grows { (y z : ℤ) (k : ℕ) → 0 < k → y ≤ℤ z → floor_of y k ≤ℤ floor_of z k }
    ensures twice { (z : ℤ) (k l : ℕ) → 0 < k → 0 < l
        → floor_of (floor_of z k) l ≡ floor_of z (k * l) }
{}

/// The ceiling of `z / k` is the one `q` with `z <= q k < z + k`, it grows with `z`, and to divide twice is to divide
/// by the product.
pub fn ceiling_is_rounded_up()
    ensures high { (z : ℤ) (k : ℕ) → 0 < k → z ≤ℤ (ceil_of z k *ℤ pos k) }
    ensures low { (z : ℤ) (k : ℕ) → 0 < k → (ceil_of z k *ℤ pos k) <ℤ (z +ℤ pos k) }
    ensures unique { (z q : ℤ) (k : ℕ) → 0 < k → z ≤ℤ (q *ℤ pos k) → (q *ℤ pos k) <ℤ (z +ℤ pos k)
        → q ≡ ceil_of z k }
    ensures grows { (y z : ℤ) (k : ℕ) → 0 < k → y ≤ℤ z → ceil_of y k ≤ℤ ceil_of z k }
    ensures twice { (z : ℤ) (k l : ℕ) → 0 < k → 0 < l
        → ceil_of (ceil_of z k) l ≡ ceil_of z (k * l) }
{}

/// The product of a number of [a, b] and one of [c, d] lies between the least corner and the greatest.
pub fn products_lie_between_corners()
    ensures least { (a b c d x y : ℤ) → a ≤ℤ x → x ≤ℤ b → c ≤ℤ y → y ≤ℤ d
        → least_corner a b c d ≤ℤ (x *ℤ y) }
    ensures greatest { (a b c d x y : ℤ) → a ≤ℤ x → x ≤ℤ b → c ≤ℤ y → y ≤ℤ d
        → (x *ℤ y) ≤ℤ greatest_corner a b c d }
{}

/// The whole root of `z` is the one `n` with `n^2 <= z < (n + 1)^2`, and it grows with `z`.
pub fn root_is_rounded_down()
    ensures low { (z : ℤ) → pos 0 ≤ℤ z → pos (root_of z * root_of z) ≤ℤ z }
    ensures high { (z : ℤ) → z <ℤ pos ((root_of z + 1) * (root_of z + 1)) }
    ensures unique { (z : ℤ) (n : ℕ) → pos (n * n) ≤ℤ z → z <ℤ pos ((n + 1) * (n + 1))
        → root_of z ≡ n }
    ensures grows { (y z : ℤ) → pos 0 ≤ℤ y → y ≤ℤ z → root_of y ≤ root_of z }
{}
