// The normal matrix of rows of forms, and without one of them.

ghost use Rattle.std.specs.Prelude.{◌≡◌, ◌+◌, ◌^◌, ◌≤◌, ◌<◌, length, IfSome, IsSome};
ghost use Rattle.time_forms.specs.Operations.{add_form, less_form, narrow_form};
ghost use Rattle.time_forms.specs.Programs.{form, wide, IsFormWithin};
ghost use Rattle.geometry_laws.specs.Without.{without};
ghost use Rattle.geometry_forms.specs.Geometry.{form_table, sum_form, gram_form};
ghost use Rattle.matrix_forms.specs.Views.{row_of, rows_of, matrix_of, wide_matrix_of};
ghost use Rattle.matrix_forms.specs.Shorts.{IsShort, IsShortMatrix};
ghost use Rattle.matrix_forms.specs.Sums.{IsMatrixWithin, products_of, matrix_sum, matrix_less, narrowed_of};

use crate::matrix::{FormMatrix, WideMatrix};
use crate::products::product;
use crate::row::FormRow;
use time_forms::{TimeForm, WideForm, add_wide, narrow};

/// Nothing, at any scale.
const ZERO: WideForm = WideForm {
    centre: 0,
    turning: 0,
    remainder: 0,
};

/// The matrix of nothing.
const NONE: WideMatrix = WideMatrix {
    a11: ZERO,
    a12: ZERO,
    a13: ZERO,
    a14: ZERO,
    a22: ZERO,
    a23: ZERO,
    a24: ZERO,
    a33: ZERO,
    a34: ZERO,
    a44: ZERO,
};

/// The products of the parts of a row.
#[inline(always)]
fn products(row: &FormRow) -> WideMatrix
    ensures exact { wide_matrix_of result ≡ products_of (row_of row.now) }
    ensures small { IsMatrixWithin result (2 ^ 119) }
{
    let FormRow { e, n, u, k, .. } = *row;
    WideMatrix {
        a11: product(e, e),
        a12: product(e, n),
        a13: product(e, u),
        a14: product(e, k),
        a22: product(n, n),
        a23: product(n, u),
        a24: product(n, k),
        a33: product(u, u),
        a34: product(u, k),
        a44: product(k, k),
    }
}

/// The sum of a sum over some rows and a product.
#[inline(always)]
fn plus(a: WideForm, b: WideForm) -> WideForm
    requires a_small { IsFormWithin (wide a) (2 ^ 124) }
    requires b_small { IsFormWithin (wide b) (2 ^ 119) }
    ensures { wide result ≡ add_form (wide a) (wide b) }
{
    add_wide(a, b)
}

/// The sums, entry by entry.
#[inline(always)]
fn added(a: &WideMatrix, b: &WideMatrix) -> WideMatrix
    requires a_small { IsMatrixWithin a.now (2 ^ 124) }
    requires b_small { IsMatrixWithin b.now (2 ^ 119) }
    ensures { wide_matrix_of result ≡ matrix_sum (wide_matrix_of a.now) (wide_matrix_of b.now) }
{
    WideMatrix {
        a11: plus(a.a11, b.a11),
        a12: plus(a.a12, b.a12),
        a13: plus(a.a13, b.a13),
        a14: plus(a.a14, b.a14),
        a22: plus(a.a22, b.a22),
        a23: plus(a.a23, b.a23),
        a24: plus(a.a24, b.a24),
        a33: plus(a.a33, b.a33),
        a34: plus(a.a34, b.a34),
        a44: plus(a.a44, b.a44),
    }
}

/// What is left of a sum without a product.
#[inline(always)]
fn rest(all: WideForm, part: WideForm) -> WideForm
    requires all_small { IsFormWithin (wide all) (2 ^ 124) }
    requires part_small { IsFormWithin (wide part) (2 ^ 119) }
    ensures { wide result ≡ less_form (wide all) (wide part) }
{
    WideForm {
        centre: all.centre - part.centre,
        turning: all.turning - part.turning,
        remainder: all.remainder - part.remainder,
    }
}

/// The sums without those of a part, entry by entry.
#[inline(always)]
fn difference(all: &WideMatrix, part: &WideMatrix) -> WideMatrix
    requires all_small { IsMatrixWithin all.now (2 ^ 124) }
    requires part_small { IsMatrixWithin part.now (2 ^ 119) }
    ensures { wide_matrix_of result ≡ matrix_less (wide_matrix_of all.now) (wide_matrix_of part.now) }
{
    WideMatrix {
        a11: rest(all.a11, part.a11),
        a12: rest(all.a12, part.a12),
        a13: rest(all.a13, part.a13),
        a14: rest(all.a14, part.a14),
        a22: rest(all.a22, part.a22),
        a23: rest(all.a23, part.a23),
        a24: rest(all.a24, part.a24),
        a33: rest(all.a33, part.a33),
        a34: rest(all.a34, part.a34),
        a44: rest(all.a44, part.a44),
    }
}

/// The sums of the products of the parts of at most 32 rows, in units of 2^-76.
pub fn sums(rows: &[FormRow]) -> WideMatrix
    requires few { length rows.now ≤ 32 }
    ensures exact { wide_matrix_of result ≡ form_table (sum_form (rows_of rows.now)) }
    ensures small { IsMatrixWithin result (2 ^ 124) }
{
    let mut all = NONE;
    for row in rows {
        all = added(&all, &products(row));
    }
    all
}

/// The sums without the row at place `i`, from those of all rows: it takes ten products, whatever the number of rows.
pub fn sums_less(all: &WideMatrix, rows: &[FormRow], i: usize) -> WideMatrix
    requires few { length rows.now ≤ 32 }
    requires place { i < length rows.now }
    requires all { wide_matrix_of all.now ≡ form_table (sum_form (rows_of rows.now)) }
    ensures exact { wide_matrix_of result ≡ form_table (sum_form (without i (rows_of rows.now))) }
{
    difference(all, &products(&rows[i]))
}

/// An entry in units of 2^-38, where it fits.
#[inline(always)]
fn entry(a: WideForm) -> Option<TimeForm>
    ensures exact { IfSome result (λ f. form f ≡ narrow_form (wide a)) }
    ensures some { IsShort (narrow_form (wide a)) → IsSome result }
    ensures small { IfSome result (λ f. IsFormWithin (form f) (2 ^ 58)) }
{
    narrow(a)
}

/// The normal matrix, in units of 2^-38, from the sums; none where an entry leaves 64 bits.
pub fn normal_matrix(sums: &WideMatrix) -> Option<FormMatrix>
    ensures exact { IfSome result (λ h. matrix_of h ≡ narrowed_of (wide_matrix_of sums.now)) }
    ensures some { IsShortMatrix (narrowed_of (wide_matrix_of sums.now)) → IsSome result }
{
    Some(FormMatrix {
        a11: entry(sums.a11)?,
        a12: entry(sums.a12)?,
        a13: entry(sums.a13)?,
        a14: entry(sums.a14)?,
        a22: entry(sums.a22)?,
        a23: entry(sums.a23)?,
        a24: entry(sums.a24)?,
        a33: entry(sums.a33)?,
        a34: entry(sums.a34)?,
        a44: entry(sums.a44)?,
    })
}
