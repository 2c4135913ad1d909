// The normal matrix of rows, and without one of them.

ghost use Rattle.std.specs.Prelude.{◌≡◌, ℕ, ◌+◌, ◌^◌, ◌≤◌, ◌<◌, ◌-ℤ◌, ◌≤ℤ◌, List, length};
ghost use Rattle.raim_model.specs.Geometry.{Row as ExactRow, normal_matrix};
ghost use Rattle.fix_interval.specs.Ends.{Ends};
ghost use Rattle.fix_interval.specs.Sums.{add_of};
ghost use Rattle.fix_interval.specs.Intervals.{ends, IsWithin};
ghost use Rattle.geometry_laws.specs.Without.{without};
ghost use Rattle.geom_laws.specs.Rows.{RowEnds, RowsLie, RowsInside};
ghost use Rattle.geom_laws.specs.Symmetric.{SymLies, SymInside, SymWithin};
ghost use Rattle.geom_laws.specs.Gram.{product_of, tabulated, sums_of, rounded_of, gram_of, gram_without_of};
ghost use Rattle.geom_inverse.specs.Lines.{entries_ends};
ghost use Rattle.geom_inverse.specs.Views.{row_ends, rows_ends, sym_sum, sym_ends, IsSymWithin};

use crate::entries::Entries;
use crate::products::{narrowed, small_product, square};
use crate::row::Row;
use crate::sym4::Sym4;
use crate::wide_sums::plus;
use fix_interval::{Iv, narrow76};

/// Nothing, at any scale.
const ZERO: Iv = Iv { lo: 0, hi: 0 };

/// The matrix of nothing.
const NONE: Sym4 = Sym4 {
    a11: ZERO,
    a12: ZERO,
    a13: ZERO,
    a14: ZERO,
    a22: ZERO,
    a23: ZERO,
    a24: ZERO,
    a33: ZERO,
    a34: ZERO,
    a44: ZERO,
};

/// The products of the parts of a row, in units of 2^-76.
#[inline(always)]
fn products(row: &Row) -> Sym4
    ensures exact { sym_ends result ≡ tabulated (product_of (row_ends row.now)) }
    ensures small { IsSymWithin result (2 ^ 88) }
{
    let Row { e, n, u, k, .. } = *row;
    Sym4 {
        a11: square(e),
        a12: small_product(e, n),
        a13: small_product(e, u),
        a14: small_product(e, k),
        a22: square(n),
        a23: small_product(n, u),
        a24: small_product(n, k),
        a33: square(u),
        a34: small_product(u, k),
        a44: square(k),
    }
}

/// The sums, entry by entry.
#[inline(always)]
fn added(a: Sym4, b: Sym4) -> Sym4
    requires a_small { IsSymWithin a (2 ^ 120) }
    requires b_small { IsSymWithin b (2 ^ 120) }
    ensures { sym_ends result ≡ sym_sum (sym_ends a) (sym_ends b) }
{
    Sym4 {
        a11: plus(a.a11, b.a11),
        a12: plus(a.a12, b.a12),
        a13: plus(a.a13, b.a13),
        a14: plus(a.a14, b.a14),
        a22: plus(a.a22, b.a22),
        a23: plus(a.a23, b.a23),
        a24: plus(a.a24, b.a24),
        a33: plus(a.a33, b.a33),
        a34: plus(a.a34, b.a34),
        a44: plus(a.a44, b.a44),
    }
}

/// Each entry from units of 2^-76 to units of 2^-38, rounded outward.
#[inline(always)]
fn rounded(a: &Sym4) -> Sym4
    ensures { sym_ends result ≡ rounded_of (sym_ends a.now) }
{
    Sym4 {
        a11: narrow76(a.a11),
        a12: narrow76(a.a12),
        a13: narrow76(a.a13),
        a14: narrow76(a.a14),
        a22: narrow76(a.a22),
        a23: narrow76(a.a23),
        a24: narrow76(a.a24),
        a33: narrow76(a.a33),
        a34: narrow76(a.a34),
        a44: narrow76(a.a44),
    }
}

/// What is left of the sum `all` without `part`: each end less the same end.
#[inline(always)]
fn rest(all: Iv, part: Iv) -> Iv
    requires all_small { IsWithin all (2 ^ 120) }
    requires part_small { IsWithin part (2 ^ 120) }
    requires order { (all.lo -ℤ part.lo) ≤ℤ (all.hi -ℤ part.hi) }
    ensures { (left : Ends) → ends all ≡ add_of (ends part) left → ends result ≡ left }
{
    Iv {
        lo: all.lo - part.lo,
        hi: all.hi - part.hi,
    }
}

/// The sums of the products of the rows' parts, in units of 2^-76.
pub fn sums(rows: &[Row]) -> Sym4
    requires few { length rows.now ≤ 32 }
    ensures exact { sym_ends result ≡ sums_of (rows_ends rows.now) }
    ensures small { IsSymWithin result (2 ^ 82) }
{
    let mut all = NONE;
    for row in rows {
        all = added(all, products(row));
    }
    all
}

/// The normal matrix, in units of 2^-38, where the sums are at hand.
pub fn gram_of_sums(all: &Sym4, rows: &[Row]) -> Sym4
    requires few { length rows.now ≤ 32 }
    requires all { sym_ends all.now ≡ sums_of (rows_ends rows.now) }
    ensures exact { sym_ends result ≡ gram_of (rows_ends rows.now) }
    ensures encloses { (gs : List ExactRow) → RowsLie (rows_ends rows.now) gs → SymLies (sym_ends result) (normal_matrix gs) }
    ensures isotone { (wider : List RowEnds) → RowsInside (rows_ends rows.now) wider → SymInside (sym_ends result) (gram_of wider) }
    ensures small { IsSymWithin result (2 ^ 43 + 2 ^ 7) }
{
    rounded(all)
}

/// The sums of all rows less the products of the row at place `i`.
#[inline(always)]
pub(crate) fn difference(all: &Sym4, rows: &[Row], i: usize) -> Sym4
    requires few { length rows.now ≤ 32 }
    requires place { i < length rows.now }
    requires all { sym_ends all.now ≡ sums_of (rows_ends rows.now) }
    ensures exact { sym_ends result ≡ sums_of (without i (rows_ends rows.now)) }
    ensures small { IsSymWithin result (2 ^ 82) }
{
    let part = products(&rows[i]);
    Sym4 {
        a11: rest(all.a11, part.a11),
        a12: rest(all.a12, part.a12),
        a13: rest(all.a13, part.a13),
        a14: rest(all.a14, part.a14),
        a22: rest(all.a22, part.a22),
        a23: rest(all.a23, part.a23),
        a24: rest(all.a24, part.a24),
        a33: rest(all.a33, part.a33),
        a34: rest(all.a34, part.a34),
        a44: rest(all.a44, part.a44),
    }
}

/// The sums without the row at place `i`, from those of all rows: it takes ten products, whatever the number of rows.
pub fn sums_less(all: &Sym4, rows: &[Row], i: usize) -> Sym4
    requires few { length rows.now ≤ 32 }
    requires place { i < length rows.now }
    requires all { sym_ends all.now ≡ sums_of (rows_ends rows.now) }
    ensures exact { sym_ends result ≡ sums_of (without i (rows_ends rows.now)) }
    ensures small { IsSymWithin result (2 ^ 82) }
{
    difference(all, rows, i)
}

/// Each entry of sums in units of 2^-76 in units of 2^-38, rounded outward.
#[inline(always)]
pub(crate) fn entries_of_sums(a: &Sym4) -> Entries
    requires small { IsSymWithin a.now (2 ^ 82) }
    requires bound { SymWithin (rounded_of (sym_ends a.now)) (2 ^ 43 + 2 ^ 7) }
    ensures { entries_ends result ≡ rounded_of (sym_ends a.now) }
{
    Entries {
        a11: narrowed(a.a11),
        a12: narrowed(a.a12),
        a13: narrowed(a.a13),
        a14: narrowed(a.a14),
        a22: narrowed(a.a22),
        a23: narrowed(a.a23),
        a24: narrowed(a.a24),
        a33: narrowed(a.a33),
        a34: narrowed(a.a34),
        a44: narrowed(a.a44),
    }
}
