// Products with a number from 0 to 1, an end at a time.

ghost use Rattle.std.specs.Prelude.{◌≡◌, ◌≤◌, pos, neg_ℤ, ◌^◌, ◌≤ℤ◌, ◌*ℤ◌};
ghost use Rattle.whole_numbers.specs.Rounding.{floor_of, ceil_of};

/// x h, rounded down, in units of 2^-38: `h` is from 0 to 1, and `x` from -1 to 1.
#[inline(always)]
pub fn product_down(x: i64, h: u64) -> i64
    requires low { neg_ℤ (pos (2 ^ 38)) ≤ℤ x }
    requires high { x ≤ℤ pos (2 ^ 38) }
    requires unit { h ≤ 2 ^ 38 }
    ensures value { result ≡ floor_of (x *ℤ pos h) (2 ^ 38) }
    ensures low { neg_ℤ (pos (2 ^ 38)) ≤ℤ result }
    ensures high { result ≤ℤ pos (2 ^ 38) }
{
    ((x as i128 * h as i128) >> 38) as i64
}

/// x h, rounded up.
#[inline(always)]
pub fn product_up(x: i64, h: u64) -> i64
    requires low { neg_ℤ (pos (2 ^ 38)) ≤ℤ x }
    requires high { x ≤ℤ pos (2 ^ 38) }
    requires unit { h ≤ 2 ^ 38 }
    ensures value { result ≡ ceil_of (x *ℤ pos h) (2 ^ 38) }
    ensures low { neg_ℤ (pos (2 ^ 38)) ≤ℤ result }
    ensures high { result ≤ℤ pos (2 ^ 38) }
{
    -product_down(-x, h)
}
