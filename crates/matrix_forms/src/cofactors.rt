// Rows of the adjugate of a matrix of forms: the determinant times those of the inverse.

ghost use Rattle.std.specs.Prelude.{◌≡◌, ◌^◌, IfSome, IsSome};
ghost use Rattle.raim_model.specs.Geometry.{East, North, Up, Clock};
ghost use Rattle.time_forms.specs.Operations.{neg_form};
ghost use Rattle.time_forms.specs.Programs.{form, IsFormWithin};
ghost use Rattle.geometry_forms.specs.Geometry.{minor_forms, along_form, adjugate_form};
ghost use Rattle.matrix_forms.specs.Views.{row_of, matrix_of, minors_of};
ghost use Rattle.matrix_forms.specs.Shorts.{IsShort, AreShortMinors, IsShortRow};
ghost use Rattle.matrix_forms.specs.Lines.{line_of, along_east, along_north, along_up, along_clock, cofactors_east, cofactors_north, cofactors_up};

use crate::matrix::FormMatrix;
use crate::minor::Minors;
use crate::minors::minors;
use crate::products::product;
use crate::row::FormRow;
use time_forms::{TimeForm, add_wide, narrow, neg, sub_wide};

/// b1 m1 - b2 m2 + b3 m3.
#[inline(always)]
fn along(
    b1: TimeForm,
    b2: TimeForm,
    b3: TimeForm,
    m1: TimeForm,
    m2: TimeForm,
    m3: TimeForm,
) -> Option<TimeForm>
    requires b1_small { IsFormWithin (form b1) (2 ^ 58) }
    requires b2_small { IsFormWithin (form b2) (2 ^ 58) }
    requires b3_small { IsFormWithin (form b3) (2 ^ 58) }
    requires m1_small { IsFormWithin (form m1) (2 ^ 58) }
    requires m2_small { IsFormWithin (form m2) (2 ^ 58) }
    requires m3_small { IsFormWithin (form m3) (2 ^ 58) }
    ensures exact { IfSome result (λ f. form f ≡ along_form (form b1) (form b2) (form b3) (form m1) (form m2) (form m3)) }
    ensures some { IsShort (along_form (form b1) (form b2) (form b3) (form m1) (form m2) (form m3)) → IsSome result }
    ensures small { IfSome result (λ f. IsFormWithin (form f) (2 ^ 58)) }
{
    let two = sub_wide(product(b1, m1), product(b2, m2));
    narrow(add_wide(two, product(b3, m3)))
}

/// The three by three minor of a row and of the two rows of `m`, without the column to the east.
#[inline(always)]
fn without_east(b: &FormRow, m: &Minors) -> Option<TimeForm>
    ensures exact { IfSome result (λ f. form f ≡ along_east (row_of b.now) (minors_of m.now)) }
    ensures some { IsShort (along_east (row_of b.now) (minors_of m.now)) → IsSome result }
    ensures small { IfSome result (λ f. IsFormWithin (form f) (2 ^ 58)) }
{
    along(b.n, b.u, b.k, m.m34, m.m24, m.m23)
}

/// The three by three minor of a row and of the two rows of `m`, without the column to the north.
#[inline(always)]
fn without_north(b: &FormRow, m: &Minors) -> Option<TimeForm>
    ensures exact { IfSome result (λ f. form f ≡ along_north (row_of b.now) (minors_of m.now)) }
    ensures some { IsShort (along_north (row_of b.now) (minors_of m.now)) → IsSome result }
    ensures small { IfSome result (λ f. IsFormWithin (form f) (2 ^ 58)) }
{
    along(b.e, b.u, b.k, m.m34, m.m14, m.m13)
}

/// The three by three minor of a row and of the two rows of `m`, without the column up.
#[inline(always)]
fn without_up(b: &FormRow, m: &Minors) -> Option<TimeForm>
    ensures exact { IfSome result (λ f. form f ≡ along_up (row_of b.now) (minors_of m.now)) }
    ensures some { IsShort (along_up (row_of b.now) (minors_of m.now)) → IsSome result }
    ensures small { IfSome result (λ f. IsFormWithin (form f) (2 ^ 58)) }
{
    along(b.e, b.n, b.k, m.m24, m.m14, m.m12)
}

/// The three by three minor of a row and of the two rows of `m`, without the column of the clock.
#[inline(always)]
fn without_clock(b: &FormRow, m: &Minors) -> Option<TimeForm>
    ensures exact { IfSome result (λ f. form f ≡ along_clock (row_of b.now) (minors_of m.now)) }
    ensures some { IsShort (along_clock (row_of b.now) (minors_of m.now)) → IsSome result }
    ensures small { IfSome result (λ f. IsFormWithin (form f) (2 ^ 58)) }
{
    along(b.e, b.n, b.u, m.m23, m.m13, m.m12)
}

/// The negative.
#[inline(always)]
fn negative(a: TimeForm) -> TimeForm
    requires small { IsFormWithin (form a) (2 ^ 58) }
    ensures exact { form result ≡ neg_form (form a) }
    ensures small { IsFormWithin (form result) (2 ^ 58) }
{
    neg(a)
}

/// The negative of that without the column to the north.
#[inline(always)]
fn less_north(b: &FormRow, m: &Minors) -> Option<TimeForm>
    ensures exact { IfSome result (λ f. form f ≡ neg_form (along_north (row_of b.now) (minors_of m.now))) }
    ensures some { IsShort (neg_form (along_north (row_of b.now) (minors_of m.now))) → IsSome result }
    ensures small { IfSome result (λ f. IsFormWithin (form f) (2 ^ 58)) }
{
    Some(negative(without_north(b, m)?))
}

/// The negative of that without the column up.
#[inline(always)]
fn less_up(b: &FormRow, m: &Minors) -> Option<TimeForm>
    ensures exact { IfSome result (λ f. form f ≡ neg_form (along_up (row_of b.now) (minors_of m.now))) }
    ensures some { IsShort (neg_form (along_up (row_of b.now) (minors_of m.now))) → IsSome result }
    ensures small { IfSome result (λ f. IsFormWithin (form f) (2 ^ 58)) }
{
    Some(negative(without_up(b, m)?))
}

/// The negative of that without the column of the clock.
#[inline(always)]
fn less_clock(b: &FormRow, m: &Minors) -> Option<TimeForm>
    ensures exact { IfSome result (λ f. form f ≡ neg_form (along_clock (row_of b.now) (minors_of m.now))) }
    ensures some { IsShort (neg_form (along_clock (row_of b.now) (minors_of m.now))) → IsSome result }
    ensures small { IfSome result (λ f. IsFormWithin (form f) (2 ^ 58)) }
{
    Some(negative(without_clock(b, m)?))
}

/// The cofactors of the first of two rows, by the second and the minors of the two others.
#[inline(always)]
fn of_first(second: &FormRow, below: &Minors) -> Option<FormRow>
    ensures exact { IfSome result (λ r. row_of r ≡ cofactors_east (row_of second.now) (minors_of below.now)) }
    ensures some { IsShortRow (cofactors_east (row_of second.now) (minors_of below.now)) → IsSome result }
{
    Some(FormRow {
        e: without_east(second, below)?,
        n: less_north(second, below)?,
        u: without_up(second, below)?,
        k: less_clock(second, below)?,
    })
}

/// Those of the second.
#[inline(always)]
fn of_second(first: &FormRow, second: &FormRow, below: &Minors) -> Option<FormRow>
    ensures exact { IfSome result (λ r. row_of r ≡ cofactors_north (row_of second.now) (row_of first.now) (minors_of below.now)) }
    ensures some { IsShortRow (cofactors_north (row_of second.now) (row_of first.now) (minors_of below.now)) → IsSome result }
{
    Some(FormRow {
        e: less_north(second, below)?,
        n: without_north(first, below)?,
        u: less_up(first, below)?,
        k: without_clock(first, below)?,
    })
}

/// Those of the third, by the first two and by the minors of two pairs of the others.
#[inline(always)]
fn of_third(first: &FormRow, second: &FormRow, below: &Minors, around: &Minors) -> Option<FormRow>
    ensures exact { IfSome result (λ r. row_of r ≡ cofactors_up (row_of second.now) (row_of first.now) (minors_of below.now) (minors_of around.now)) }
    ensures some { IsShortRow (cofactors_up (row_of second.now) (row_of first.now) (minors_of below.now) (minors_of around.now)) → IsSome result }
{
    Some(FormRow {
        e: without_up(second, below)?,
        n: less_up(first, below)?,
        u: without_up(first, around)?,
        k: less_clock(first, around)?,
    })
}

/// The rows of the adjugate to the east and to the north, which the horizontal shift needs; none where one of the minors of the
/// two other rows, or an entry, leaves 64 bits.
pub fn rows_across(h: &FormMatrix) -> Option<(FormRow, FormRow)>
    ensures exact { IfSome result (λ r. (row_of r.0 ≡ line_of (adjugate_form (matrix_of h.now)) East) × (row_of r.1 ≡ line_of (adjugate_form (matrix_of h.now)) North)) }
    ensures some { AreShortMinors (minor_forms (matrix_of h.now) Up Clock) → IsShortRow (line_of (adjugate_form (matrix_of h.now)) East)
        → IsShortRow (line_of (adjugate_form (matrix_of h.now)) North) → IsSome result }
{
    let east = h.east();
    let north = h.north();
    let below = minors(&h.up(), &h.clock())?;
    Some((of_first(&north, &below)?, of_second(&east, &north, &below)?))
}

/// The row of the adjugate up, which the vertical shift needs; none where one of the minors of the two lower rows or of the second
/// and the fourth, or an entry, leaves 64 bits.
pub fn row_up(h: &FormMatrix) -> Option<FormRow>
    ensures exact { IfSome result (λ r. row_of r ≡ line_of (adjugate_form (matrix_of h.now)) Up) }
    ensures some { AreShortMinors (minor_forms (matrix_of h.now) Up Clock) → AreShortMinors (minor_forms (matrix_of h.now) North Clock)
        → IsShortRow (line_of (adjugate_form (matrix_of h.now)) Up) → IsSome result }
{
    let north = h.north();
    let clock = h.clock();
    let below = minors(&h.up(), &clock)?;
    let around = minors(&north, &clock)?;
    of_third(&h.east(), &north, &below, &around)
}
