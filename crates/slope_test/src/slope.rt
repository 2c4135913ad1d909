// One slope against the limit.
ghost use Rattle.std.specs.Prelude.{◌≡◌, pos, neg_ℤ, ◌*◌, ◌^◌, ◌≤ℤ◌, ◌*ℤ◌, true, Some};
ghost use Rattle.std.specs.Option.{option_map};
ghost use Rattle.fix_interval.specs.Intervals.{ends, ends_64, IsWithin, IsWithin64};
ghost use Rattle.fix_interval.specs.Products.{mul_wide_of, checked_mul_of};
ghost use Rattle.geom_laws.specs.Adjugate.{horizontal_of, vertical_of};
ghost use Rattle.slope_laws.specs.declared.Outcome.TheVariants.{Passes};
ghost use Rattle.slope_laws.specs.ShiftSlopes.{compared, squared_of};
ghost use Rattle.geom_inverse.specs.Views.{row_ends, sym_ends, IsSymWithin};

use fix_interval::{Iv, Iv64, add, certainly_le, certainly_lt, checked_mul};
use geom_inverse::{
    Row, Sym4, alpha_east, alpha_north, alpha_up, narrow76, wide_product, wide_square,
};
use slope_laws::{Outcome, Shift};

/// The most that two factors may be for their product to be taken by 64 bits.
const QUICK: i128 = 1 << 62;

/// The sum of two squares.
fn horizontal(a: Iv64, b: Iv64) -> Iv
    requires a_small { IsWithin64 a (7 * 2 ^ 55) }
    requires b_small { IsWithin64 b (7 * 2 ^ 55) }
    ensures { ends result ≡ horizontal_of (ends_64 a) (ends_64 b) }
{
    narrow76(add(wide_square(a), wide_square(b)))
}

/// A square.
fn vertical(a: Iv64) -> Iv
    requires { IsWithin64 a (7 * 2 ^ 55) }
    ensures { ends result ≡ vertical_of (ends_64 a) }
{
    narrow76(wide_square(a))
}

/// The squared shift of a row, times the squared determinant, for the adjugate `adj`.
pub(crate) fn squared(shift: Shift, adj: &Sym4, row: &Row) -> Iv
    requires small { IsSymWithin adj.now (13 * 2 ^ 52) }
    ensures exact { ends result ≡ squared_of shift (sym_ends adj.now) (row_ends row.now) }
    ensures not_negative { pos 0 ≤ℤ result.lo }
{
    match shift {
        Shift::Horizontal => horizontal(
            alpha_east(adj, row).in_64_bits(),
            alpha_north(adj, row).in_64_bits(),
        ),
        Shift::Vertical => vertical(alpha_up(adj, row).in_64_bits()),
    }
}

/// Whether the ends are so small that a product with another such interval can be taken by 64 bits.
fn is_quick(a: Iv) -> bool
    ensures { result ≡ true → IsWithin a (2 ^ 62) }
{
    -QUICK <= a.lo && a.hi <= QUICK
}

/// The product, and `None` exactly where a product of two ends leaves 128 bits.
fn product(a: Iv, b: Iv) -> Option<Iv>
    ensures { option_map ends result ≡ checked_mul_of (ends a) (ends b) }
{
    if is_quick(a) && is_quick(b) {
        return Some(wide_product(a.in_64_bits(), b.in_64_bits()));
    }
    checked_mul(a, b)
}

/// How `left` compares with `right`.
fn compare(left: Iv, right: Iv) -> Outcome
    ensures { result ≡ compared (Some (ends left)) (ends right) }
{
    if certainly_le(left, right) {
        Outcome::Passes
    } else if certainly_lt(right, left) {
        Outcome::Fails
    } else {
        Outcome::Straddles
    }
}

/// The product of two numbers that are not negative and at most 2^62.
fn times(x: i128, y: i128) -> i128
    requires x_low { pos 0 ≤ℤ x }
    requires x_high { x ≤ℤ pos (2 ^ 62) }
    requires y_low { pos 0 ≤ℤ y }
    requires y_high { y ≤ℤ pos (2 ^ 62) }
    ensures { result ≡ x *ℤ y }
{
    (x as u64 as u128 * y as u64 as u128) as i128
}

/// The product of two numbers of 64 bits.
fn wide(x: i64, y: i64) -> i128
    ensures { result ≡ x *ℤ y }
{
    x as i128 * y as i128
}

/// Whether a slope passes by the two ends that decide it, where these are not negative and small. It does in most cases, and then
/// nothing else need be worked out.
fn passes_at_once(squared: Iv, all: Iv64, less: Iv64, kappa: Iv) -> bool
    requires { pos 0 ≤ℤ squared.lo }
    ensures { result ≡ true → compared (checked_mul_of (ends kappa) (ends squared)) (mul_wide_of (ends_64 all) (ends_64 less)) ≡ Passes }
{
    if kappa.lo < 0 || kappa.hi > QUICK || squared.hi > QUICK || all.lo < 0 || less.lo < 0 {
        return false;
    }
    times(kappa.hi, squared.hi) <= wide(all.lo, less.lo)
}

/// How a slope compares, for its squared shift, the determinants of all rows and of those without this one, and the factor. The
/// product of the factor and the squared shift is the one that may leave 128 bits.
pub(crate) fn one_slope(squared: Iv, all: Iv64, less: Iv64, kappa: Iv) -> Outcome
    requires { pos 0 ≤ℤ squared.lo }
    ensures { result ≡ compared (checked_mul_of (ends kappa) (ends squared)) (mul_wide_of (ends_64 all) (ends_64 less)) }
{
    if passes_at_once(squared, all, less, kappa) {
        return Outcome::Passes;
    }
    match product(kappa, squared) {
        Some(left) => compare(left, wide_product(all, less)),
        None => Outcome::Overflows,
    }
}
