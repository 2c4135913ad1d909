// Products of intervals whose ends fit 64 bits, which always fit 128. The signs choose two of the four products of ends.

ghost use Rattle.std.specs.Prelude.{◌≡◌, pos, neg_ℤ, ◌*◌, ◌^◌, ◌*ℤ◌, ◌≤ℤ◌, if◌then◌else◌};
ghost use lib.Signed.{le_z};
ghost use Rattle.whole_numbers.specs.Rounding.{floor_of};
ghost use Rattle.fix_interval.specs.Products.{mul_wide_of, sqr_wide_of, narrow76_of};
ghost use Rattle.fix_interval.specs.Intervals.{ends, IsWithin, ends_64, IsWithin64};

use fix_interval::{Iv, Iv64};

/// The product of two numbers of 64 bits.
#[inline(always)]
fn wide(x: i64, y: i64) -> i128
    ensures { result ≡ x *ℤ y }
{
    x as i128 * y as i128
}

/// The first number where `z` is not negative, and else the second.
#[inline(always)]
fn by_sign(z: i64, first: i64, second: i64) -> i64
    ensures { result ≡ if le_z (pos 0) z then first else second }
{
    if z >= 0 { first } else { second }
}

/// The product, where `b` is not negative.
#[inline(always)]
fn times_not_negative(a: Iv64, b: Iv64) -> Iv
    requires { pos 0 ≤ℤ b.lo }
    ensures { ends result ≡ mul_wide_of (ends_64 a) (ends_64 b) }
{
    Iv {
        lo: wide(a.lo, by_sign(a.lo, b.lo, b.hi)),
        hi: wide(a.hi, by_sign(a.hi, b.hi, b.lo)),
    }
}

/// The product, where `b` is not positive.
#[inline(always)]
fn times_not_positive(a: Iv64, b: Iv64) -> Iv
    requires { b.hi ≤ℤ pos 0 }
    ensures { ends result ≡ mul_wide_of (ends_64 a) (ends_64 b) }
{
    Iv {
        lo: wide(a.hi, by_sign(a.hi, b.lo, b.hi)),
        hi: wide(a.lo, by_sign(a.lo, b.hi, b.lo)),
    }
}

/// The product, where `b` holds 0.
#[inline(always)]
fn times_mixed(a: Iv64, b: Iv64) -> Iv
    requires low { b.lo ≤ℤ pos 0 }
    requires high { pos 0 ≤ℤ b.hi }
    ensures { ends result ≡ mul_wide_of (ends_64 a) (ends_64 b) }
{
    Iv {
        lo: wide(a.lo, b.hi).min(wide(a.hi, b.lo)),
        hi: wide(a.lo, b.lo).max(wide(a.hi, b.hi)),
    }
}

/// The product at the sum of the two scales.
#[inline(always)]
pub fn wide_product(a: Iv64, b: Iv64) -> Iv
    ensures { ends result ≡ mul_wide_of (ends_64 a) (ends_64 b) }
{
    if b.lo >= 0 {
        times_not_negative(a, b)
    } else if b.hi <= 0 {
        times_not_positive(a, b)
    } else {
        times_mixed(a, b)
    }
}

/// The same with a bound.
#[inline(always)]
pub(crate) fn product(a: Iv64, b: Iv64) -> Iv
    requires a_small { IsWithin64 a (2 ^ 56) }
    requires b_small { IsWithin64 b (2 ^ 56) }
    ensures exact { ends result ≡ mul_wide_of (ends_64 a) (ends_64 b) }
    ensures small { IsWithin result (2 ^ 112) }
{
    wide_product(a, b)
}

/// The same with a smaller bound.
#[inline(always)]
pub(crate) fn small_product(a: Iv64, b: Iv64) -> Iv
    requires a_small { IsWithin64 a (2 ^ 44) }
    requires b_small { IsWithin64 b (2 ^ 44) }
    ensures exact { ends result ≡ mul_wide_of (ends_64 a) (ends_64 b) }
    ensures small { IsWithin result (2 ^ 88) }
{
    product(a, b)
}

/// The squares of the ends, the nearer one to 0 first.
#[inline(always)]
fn squares(near: i64, far: i64) -> Iv
    requires { (near *ℤ near) ≤ℤ (far *ℤ far) }
    ensures { ends result ≡ record { lo = near *ℤ near; hi = far *ℤ far } }
{
    Iv {
        lo: wide(near, near),
        hi: wide(far, far),
    }
}

/// The square of an interval that holds 0.
#[inline(always)]
fn mixed_square(a: Iv64) -> Iv
    requires low { a.lo ≤ℤ pos 0 }
    requires high { pos 0 ≤ℤ a.hi }
    ensures { ends result ≡ sqr_wide_of (ends_64 a) }
{
    Iv {
        lo: 0,
        hi: wide(a.lo, a.lo).max(wide(a.hi, a.hi)),
    }
}

/// The square at twice the scale, whose least is 0 where `a` holds 0.
#[inline(always)]
pub fn wide_square(a: Iv64) -> Iv
    ensures { ends result ≡ sqr_wide_of (ends_64 a) }
{
    if a.lo >= 0 {
        squares(a.lo, a.hi)
    } else if a.hi <= 0 {
        squares(a.hi, a.lo)
    } else {
        mixed_square(a)
    }
}

/// The same with a bound.
#[inline(always)]
pub(crate) fn square(a: Iv64) -> Iv
    requires { IsWithin64 a (2 ^ 44) }
    ensures exact { ends result ≡ sqr_wide_of (ends_64 a) }
    ensures small { IsWithin result (2 ^ 88) }
{
    wide_square(a)
}

/// From units of 2^-76 to units of 2^-38, rounded down.
#[inline(always)]
fn down(z: i128) -> i128
    requires low { neg_ℤ (pos (2 ^ 125)) ≤ℤ z }
    requires high { z ≤ℤ pos (2 ^ 125) }
    ensures value { result ≡ floor_of z (2 ^ 38) }
    ensures low { neg_ℤ (pos (2 ^ 125)) ≤ℤ result }
    ensures high { result ≤ℤ pos (2 ^ 125) }
{
    z >> 38
}

/// From units of 2^-76 to units of 2^-38, rounded outward: of an interval whose ends may be negated, in fewer instructions than
/// those of `fix_interval`.
#[inline(always)]
pub fn narrow76(a: Iv) -> Iv
    requires { IsWithin a (2 ^ 125) }
    ensures exact { ends result ≡ narrow76_of (ends a) }
{
    Iv {
        lo: down(a.lo),
        hi: -down(-a.hi),
    }
}

/// From units of 2^-76 to units of 2^-38, rounded down, where the quotient fits 64 bits.
#[inline(always)]
fn narrow_down(z: i128) -> i64
    requires low { neg_ℤ (pos (7 * 2 ^ 98)) ≤ℤ z }
    requires high { z ≤ℤ pos (7 * 2 ^ 98) }
    ensures value { result ≡ floor_of z (2 ^ 38) }
    ensures low { neg_ℤ (pos (7 * 2 ^ 60)) ≤ℤ result }
    ensures high { result ≤ℤ pos (7 * 2 ^ 60) }
{
    (z >> 38) as i64
}

/// From units of 2^-76 to units of 2^-38, rounded outward.
#[inline(always)]
pub(crate) fn narrowed(a: Iv) -> Iv64
    requires { IsWithin a (7 * 2 ^ 98) }
    ensures { ends_64 result ≡ narrow76_of (ends a) }
{
    Iv64 {
        lo: narrow_down(a.lo),
        hi: -narrow_down(-a.hi),
    }
}
