// Fault detection.

ghost use Rattle.std.specs.Prelude.{◌≡◌, ℕ, ℤ, ◌⊎◌, ◌^◌, ◌≤◌, ◌<◌, List, length, IfSome};
ghost use Rattle.raim_model.specs.declared.Why.TheVariants.{Few};
ghost use Rattle.fix_interval.specs.Ends.{Ends, IsInside};
ghost use Rattle.geometry_laws.specs.Without.{without};
ghost use Rattle.slope_laws.specs.Rows.{NamedRow};
ghost use Rattle.slope_laws.specs.ShiftSlopes.{ends_of, detect_of};
ghost use Rattle.time_forms.specs.Forms.{IsTime, Holds};
ghost use Rattle.time_forms.specs.Programs.{form, IsFormWithin};
ghost use Rattle.geometry_forms.specs.Rows.{RowsHold};
ghost use Rattle.geometry_forms.specs.Geometry.{form_table, sum_form, gram_form, det_form};
ghost use Rattle.matrix_forms.specs.Views.{rows_of, wide_matrix_of};
ghost use Rattle.slope_forms.specs.Told.{unknown, passing, TellsVerdict};
ghost use Rattle.slope_forms.specs.Slopes.{form_removals, slopes_told, determinant_told, detect_told, AreSmall, safe_factors};
ghost use Rattle.list_forms.specs.Views.{told, IsOrUnknown};
ghost use Rattle.list_forms.specs.Lines.{slope_along, removal_of};

use crate::lines::{Lines, lines_for};
use crate::slope::slope;
use crate::told::Told;
use matrix_forms::{FormRow, WideMatrix, det, normal_matrix, sums, sums_less};
use raim_model::Why;
use slope_laws::Shift;
use time_forms::{TimeForm, greatest, least};

/// The least determinant of a geometry that counts as regular, 2^-10 in units of 2^-38.
const LEAST: i64 = 268435456;

/// The determinant without the row at place `i`, where the sums over all rows are at hand.
fn det_without(rows: &[FormRow], all: &WideMatrix, i: usize) -> Option<TimeForm>
    requires few { length rows.now ≤ 32 }
    requires place { i < length rows.now }
    requires all { wide_matrix_of all.now ≡ form_table (sum_form (rows_of rows.now)) }
    ensures exact { IfSome result (λ f. form f ≡ det_form (gram_form (without i (rows_of rows.now)))) }
    ensures small { IfSome result (λ f. IsFormWithin (form f) (2 ^ 58)) }
{
    let matrix = normal_matrix(&sums_less(all, rows, i))?;
    det(&matrix)
}

/// What is told of the slope of the row at place `i`, where the sums over all rows, their determinant and the rows of their adjugate
/// are at hand.
fn slope_at(
    lines: &Lines,
    rows: &[FormRow],
    all: &WideMatrix,
    determinant: TimeForm,
    i: usize,
    kappa: TimeForm,
) -> Option<Told>
    requires few { length rows.now ≤ 32 }
    requires place { i < length rows.now }
    requires all { wide_matrix_of all.now ≡ form_table (sum_form (rows_of rows.now)) }
    requires determinant_small { IsFormWithin (form determinant) (2 ^ 58) }
    requires kappa_small { IsFormWithin (form kappa) (2 ^ 58) }
    ensures { IfSome result (λ t. (d : FormRow) → told t ≡ slope_along lines.now (form determinant) (form kappa) (removal_of rows.now i d)) }
{
    let less = det_without(rows, all, i)?;
    slope(lines, &rows[i], determinant, less, kappa)
}

/// What is told of the slopes of all rows: one that surely fails decides at once.
fn slopes(
    lines: &Lines,
    rows: &[FormRow],
    all: &WideMatrix,
    determinant: TimeForm,
    kappa: TimeForm,
) -> Told
    requires few { length rows.now ≤ 32 }
    requires all { wide_matrix_of all.now ≡ form_table (sum_form (rows_of rows.now)) }
    requires determinant_small { IsFormWithin (form determinant) (2 ^ 58) }
    requires kappa_small { IsFormWithin (form kappa) (2 ^ 58) }
    ensures { IsOrUnknown (told result) (slopes_told (slope_along lines.now (form determinant) (form kappa)) (form_removals (rows_of rows.now))) }
{
    let mut so_far = Told::Passing;
    for i in 0..rows.len() {
        let this = slope_at(lines, rows, all, determinant, i, kappa).unwrap_or(Told::Unknown);
        if this.fails() {
            return this;
        }
        so_far = so_far.and(this);
    }
    so_far
}

/// What the determinant tells of the list; where it is regular, all is left to the slopes.
fn told_by_determinant(determinant: TimeForm) -> Told
    requires { IsFormWithin (form determinant) (2 ^ 58) }
    ensures { told result ≡ determinant_told (form determinant) passing }
{
    if greatest(determinant) < LEAST {
        Told::Failing(Why::Singular)
    } else if least(determinant) < LEAST {
        Told::Unknown
    } else {
        Told::Passing
    }
}

/// What is told of at least five rows.
fn told_of_enough(shift: Shift, rows: &[FormRow], all: &WideMatrix, kappa: TimeForm) -> Option<Told>
    requires few { length rows.now ≤ 32 }
    requires enough { 5 ≤ length rows.now }
    requires all { wide_matrix_of all.now ≡ form_table (sum_form (rows_of rows.now)) }
    requires kappa_small { IsFormWithin (form kappa) (2 ^ 58) }
    ensures { IfSome result (λ t. IsOrUnknown (told t) (detect_told shift (rows_of rows.now) (form kappa))) }
{
    let matrix = normal_matrix(all)?;
    let determinant = det(&matrix)?;
    let regular = told_by_determinant(determinant);
    if !regular.passes() {
        return Some(regular);
    }
    let lines = lines_for(shift, &matrix)?;
    Some(slopes(&lines, rows, all, determinant, kappa))
}

/// The answer of `detect`, where the sums over the rows are at hand.
pub(crate) fn detect_from(shift: Shift, rows: &[FormRow], all: &WideMatrix, kappa: TimeForm) -> Told
    requires few { length rows.now ≤ 32 }
    requires all { wide_matrix_of all.now ≡ form_table (sum_form (rows_of rows.now)) }
    requires kappa_small { IsFormWithin (form kappa) (2 ^ 58) }
    ensures exact { IsOrUnknown (told result) (detect_told shift (rows_of rows.now) (form kappa)) }
    ensures few { length rows.now < 5 → result ≡ Told.Failing Few }
{
    if rows.len() < 5 {
        return Told::Failing(Why::Few);
    }
    told_of_enough(shift, rows, all, kappa).unwrap_or(Told::Unknown)
}

/// What is told of a list of at most 32 rows over a piece of time, for fault detection: whether the geometry is regular, and whether
/// each squared slope of the shift, times `kappa`, the squared ratio of the bias to the alert limit, is within 1. Rows and `kappa` are
/// in units of 2^-38.
pub fn detect(shift: Shift, rows: &[FormRow], kappa: TimeForm) -> Told
    requires few { length rows.now ≤ 32 }
    requires kappa_small { IsFormWithin (form kappa) (2 ^ 58) }
    // nothing is told where a number on the way leaves 64 bits, and else what the definition tells
    ensures exact { (told result ≡ unknown) ⊎ (told result ≡ detect_told shift (rows_of rows.now) (form kappa)) }
    // what is told is so of the written test at each time at which the rows and the factor are held
    ensures tells { (h : ℕ) (d : ℤ) (named : List NamedRow) (k : Ends) → IsTime h d → RowsHold h d (rows_of rows.now) (ends_of named) → AreSmall named
        → Holds h d (form kappa) k → IsInside k safe_factors → TellsVerdict (told result) (detect_of shift named k) }
    // below five rows there are too few, whatever they are
    ensures few { length rows.now < 5 → result ≡ Told.Failing Few }
{
    let all = sums(rows);
    detect_from(shift, rows, &all, kappa)
}
