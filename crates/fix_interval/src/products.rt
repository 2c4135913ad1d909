// Products and squares of intervals, wide and rounded outward.

ghost use Rattle.std.specs.Prelude.{◌≡◌, ℕ, pos, ◌+◌, ◌^◌, ◌*◌, ◌≤◌, ◌≤ℤ◌, if◌then◌else◌, ◌&&◌, IsSome, IfSome};
ghost use Rattle.std.specs.Int.{int_min, int_max};
ghost use Rattle.std.specs.Option.{option_map};
ghost use lib.Signed.{le_z};
ghost use Rattle.whole_numbers.specs.Corners.{least_corner, greatest_corner};
ghost use Rattle.fractions.specs.Fraction.{Fraction, whole, ◌*ᶠ◌, ◌≤ᶠ◌};
ghost use Rattle.fix_interval.specs.Ends.{Ends, IsInside};
ghost use Rattle.fix_interval.specs.Lies.{Lies};
ghost use Rattle.fix_interval.specs.Products.{mul_wide_of, narrow76_of, mul_of, sqr_wide_of, sqr_of, scale_int_of, checked_mul_of};
ghost use Rattle.fix_interval.specs.Intervals.{ends, mag_of, IsWithin};

use crate::interval::Iv;
use whole_numbers::rounding::{ceil_shift, floor_shift};

/// The least of the four products of ends, which the signs of the ends tell.
#[inline(always)]
fn least_product(a: Iv, b: Iv) -> i128
    requires { mag_of a * mag_of b ≤ 2 ^ 126 }
    ensures { result ≡ least_corner a.lo a.hi b.lo b.hi }
{
    if a.lo >= 0 {
        if b.lo >= 0 { a.lo * b.lo } else { a.hi * b.lo }
    } else if a.hi <= 0 {
        if b.hi >= 0 { a.lo * b.hi } else { a.hi * b.hi }
    } else {
        (a.lo * b.hi).min(a.hi * b.lo)
    }
}

/// The greatest of the four products of ends.
#[inline(always)]
fn greatest_product(a: Iv, b: Iv) -> i128
    requires { mag_of a * mag_of b ≤ 2 ^ 126 }
    ensures { result ≡ greatest_corner a.lo a.hi b.lo b.hi }
{
    if a.lo >= 0 {
        if b.hi >= 0 { a.hi * b.hi } else { a.lo * b.hi }
    } else if a.hi <= 0 {
        if b.lo >= 0 { a.hi * b.lo } else { a.lo * b.lo }
    } else {
        (a.lo * b.lo).max(a.hi * b.hi)
    }
}

/// The product at the sum of the two scales: two intervals in units of 2^-38 have one in units of 2^-76.
pub fn mul_wide(a: Iv, b: Iv) -> Iv
    requires { mag_of a * mag_of b ≤ 2 ^ 126 }
    ensures exact { ends result ≡ mul_wide_of (ends a) (ends b) }
    ensures encloses { (s t : ℕ) (x y : Fraction) → Lies (ends a) s x → Lies (ends b) t y
        → Lies (ends result) (s + t) (x *ᶠ y) }
    ensures isotone { (c d : Ends) → IsInside (ends a) c → IsInside (ends b) d
        → IsInside (ends result) (mul_wide_of c d) }
{
    Iv {
        lo: least_product(a, b),
        hi: greatest_product(a, b),
    }
}

/// From units of 2^-76 to units of 2^-38, rounded outward.
pub fn narrow76(a: Iv) -> Iv
    ensures exact { ends result ≡ narrow76_of (ends a) }
    ensures encloses { (s : ℕ) (x : Fraction) → Lies (ends a) (38 + s) x → Lies (ends result) s x }
    ensures isotone { (c : Ends) → IsInside (ends a) c → IsInside (ends result) (narrow76_of c) }
{
    Iv {
        lo: floor_shift(a.lo, 38),
        hi: ceil_shift(a.hi, 38),
    }
}

/// The product of two intervals in units of 2^-38, in such units.
pub fn mul(a: Iv, b: Iv) -> Iv
    requires { mag_of a * mag_of b ≤ 2 ^ 126 }
    ensures exact { ends result ≡ mul_of (ends a) (ends b) }
    ensures encloses { (x y : Fraction) → Lies (ends a) 38 x → Lies (ends b) 38 y
        → Lies (ends result) 38 (x *ᶠ y) }
    ensures isotone { (c d : Ends) → IsInside (ends a) c → IsInside (ends b) d
        → IsInside (ends result) (mul_of c d) }
{
    narrow76(mul_wide(a, b))
}

/// The least square between two ends: 0 where they hold 0, and else the smaller of their squares.
fn least_square(lo: i128, hi: i128, low: i128, high: i128) -> i128
    ensures { result ≡ if le_z lo (pos 0) && le_z (pos 0) hi then pos 0 else int_min low high }
{
    if lo <= 0 && 0 <= hi { 0 } else { low.min(high) }
}

/// The square at twice the scale, as in units of 2^-76. It is never negative: both ends of an interval that holds 0
/// have squares above 0, and then the least square is 0.
pub fn sqr_wide(a: Iv) -> Iv
    requires { mag_of a * mag_of a ≤ 2 ^ 126 }
    ensures exact { ends result ≡ sqr_wide_of (ends a) }
    ensures encloses { (s : ℕ) (x : Fraction) → Lies (ends a) s x → Lies (ends result) (s + s) (x *ᶠ x) }
    ensures isotone { (c : Ends) → IsInside (ends a) c → IsInside (ends result) (sqr_wide_of c) }
{
    let low = a.lo * a.lo;
    let high = a.hi * a.hi;
    Iv {
        lo: least_square(a.lo, a.hi, low, high),
        hi: low.max(high),
    }
}

/// The square of an interval in units of 2^-38, in such units.
pub fn sqr(a: Iv) -> Iv
    requires { mag_of a * mag_of a ≤ 2 ^ 126 }
    ensures exact { ends result ≡ sqr_of (ends a) }
    ensures encloses { (x : Fraction) → Lies (ends a) 38 x → Lies (ends result) 38 (x *ᶠ x) }
    ensures isotone { (c : Ends) → IsInside (ends a) c → IsInside (ends result) (sqr_of c) }
{
    narrow76(sqr_wide(a))
}

/// The product with a whole number from `first` to `last`, as a number of milliseconds, at the scale of `a`.
pub fn scale_int(a: Iv, first: i64, last: i64) -> Iv
    requires ordered { first ≤ℤ last }
    requires small { IsWithin a (2 ^ 60) }
    ensures exact { ends result ≡ scale_int_of (ends a) first last }
    ensures encloses { (s : ℕ) (x t : Fraction) → Lies (ends a) s x → whole first ≤ᶠ t → t ≤ᶠ whole last
        → Lies (ends result) s (x *ᶠ t) }
    ensures isotone { (c d : Ends) → IsInside (ends a) c → d.lo ≤ℤ first → last ≤ℤ d.hi
        → IsInside (ends result) (scale_int_of c d.lo d.hi) }
{
    mul_wide(
        a,
        Iv {
            lo: first as i128,
            hi: last as i128,
        },
    )
}

/// From the least of four numbers to the greatest.
fn hull_of_four(p: i128, q: i128, r: i128, t: i128) -> Iv
    ensures lo { result.lo ≡ int_min (int_min p q) (int_min r t) }
    ensures hi { result.hi ≡ int_max (int_max p q) (int_max r t) }
{
    Iv {
        lo: p.min(q).min(r.min(t)),
        hi: p.max(q).max(r.max(t)),
    }
}

/// The product as `mul_wide` answers it, and `None` exactly where a product of two ends is no `i128`.
pub fn checked_mul(a: Iv, b: Iv) -> Option<Iv>
    ensures exact { option_map ends result ≡ checked_mul_of (ends a) (ends b) }
    ensures encloses { IfSome result (λ r. (s t : ℕ) (x y : Fraction) → Lies (ends a) s x → Lies (ends b) t y
        → Lies (ends r) (s + t) (x *ᶠ y)) }
    ensures isotone { IfSome result (λ r. (c d : Ends) → IsInside (ends a) c → IsInside (ends b) d
        → IsInside (ends r) (mul_wide_of c d)) }
    // where wider intervals have a product, so have those inside
    ensures isotone_some { (c d : Ends) → IsInside (ends a) c → IsInside (ends b) d
        → IsSome (checked_mul_of c d) → IsSome result }
{
    let low_low = a.lo.checked_mul(b.lo)?;
    let low_high = a.lo.checked_mul(b.hi)?;
    let high_low = a.hi.checked_mul(b.lo)?;
    let high_high = a.hi.checked_mul(b.hi)?;
    Some(hull_of_four(low_low, low_high, high_low, high_high))
}
