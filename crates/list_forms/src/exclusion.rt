// Fault exclusion.

ghost use Rattle.std.specs.Prelude.{◌≡◌, ℕ, ℤ, ◌⊎◌, ◌^◌, ◌≤◌, ◌<◌, List, length};
ghost use Rattle.raim_model.specs.declared.Why.TheVariants.{Few};
ghost use Rattle.fix_interval.specs.Ends.{Ends, IsInside};
ghost use Rattle.geometry_laws.specs.Without.{without};
ghost use Rattle.slope_laws.specs.Rows.{NamedRow};
ghost use Rattle.slope_laws.specs.ShiftSlopes.{ends_of, exclude_of};
ghost use Rattle.time_forms.specs.Forms.{IsTime, Holds};
ghost use Rattle.time_forms.specs.Programs.{form, IsFormWithin};
ghost use Rattle.geometry_forms.specs.Rows.{RowsHold};
ghost use Rattle.geometry_forms.specs.Geometry.{form_table, sum_form};
ghost use Rattle.matrix_forms.specs.Views.{rows_of, wide_matrix_of};
ghost use Rattle.slope_forms.specs.Told.{unknown, TellsVerdict};
ghost use Rattle.slope_forms.specs.Slopes.{form_removals, first_told, detect_told, exclude_told, AreSmall, safe_factors};
ghost use Rattle.list_forms.specs.Views.{told, IsOrUnknown};

use crate::detection::detect_from;
use crate::told::Told;
use matrix_forms::{FormRow, WideMatrix, sums, sums_less};
use raim_model::Why;
use slope_laws::Shift;
use time_forms::TimeForm;

/// What is told of `rest`, the list without the row at place `j`, where the sums over all rows are at hand.
fn told_without(
    shift: Shift,
    rows: &[FormRow],
    all: &WideMatrix,
    j: usize,
    rest: &[FormRow],
    kappa_less: TimeForm,
) -> Told
    requires few { length rows.now ≤ 32 }
    requires place { j < length rows.now }
    requires all { wide_matrix_of all.now ≡ form_table (sum_form (rows_of rows.now)) }
    requires rest { rest.now ≡ without j rows.now }
    requires kappa_small { IsFormWithin (form kappa_less) (2 ^ 58) }
    ensures { IsOrUnknown (told result) (detect_told shift (without j (rows_of rows.now)) (form kappa_less)) }
{
    let less = sums_less(all, rows, j);
    detect_from(shift, rest, &less, kappa_less)
}

/// What is told of the lists without one row: the first that does not pass decides.
fn told_without_each(shift: Shift, rows: &[FormRow], all: &WideMatrix, kappa_less: TimeForm) -> Told
    requires few { length rows.now ≤ 32 }
    requires some { 1 ≤ length rows.now }
    requires all { wide_matrix_of all.now ≡ form_table (sum_form (rows_of rows.now)) }
    requires kappa_small { IsFormWithin (form kappa_less) (2 ^ 58) }
    ensures { IsOrUnknown (told result) (first_told (λ rest. detect_told shift rest (form kappa_less)) (form_removals (rows_of rows.now))) }
{
    let mut rest = [rows[0]; 32];
    let last = rows.len() - 1;
    for i in 0..last {
        rest[i] = rows[i + 1];
    }
    for j in 0..rows.len() {
        let this = told_without(shift, rows, all, j, &rest[..last], kappa_less);
        if !this.passes() {
            return this;
        }
        rest[j] = rows[j];
    }
    Told::Passing
}

/// The test of a list of rows and of each without one.
fn excluded(shift: Shift, rows: &[FormRow], kappa: TimeForm, kappa_less: TimeForm) -> Told
    requires few { length rows.now ≤ 32 }
    requires kappa_small { IsFormWithin (form kappa) (2 ^ 58) }
    requires kappa_less_small { IsFormWithin (form kappa_less) (2 ^ 58) }
    ensures exact { IsOrUnknown (told result) (exclude_told shift (rows_of rows.now) (form kappa) (form kappa_less)) }
    ensures few { length rows.now < 6 → result ≡ Told.Failing Few }
{
    if rows.len() < 6 {
        return Told::Failing(Why::Few);
    }
    let all = sums(rows);
    let whole = detect_from(shift, rows, &all, kappa);
    if !whole.passes() {
        return whole;
    }
    told_without_each(shift, rows, &all, kappa_less)
}

/// What is told of a list of at most 32 rows over a piece of time, for fault exclusion: that of `detect` on the whole list under
/// `kappa`, and then on each list without one row, in their order, under `kappa_less`, the factor for one row fewer. Rows and
/// factors are in units of 2^-38.
pub fn exclude(shift: Shift, rows: &[FormRow], kappa: TimeForm, kappa_less: TimeForm) -> Told
    requires few { length rows.now ≤ 32 }
    requires kappa_small { IsFormWithin (form kappa) (2 ^ 58) }
    requires kappa_less_small { IsFormWithin (form kappa_less) (2 ^ 58) }
    // nothing is told where a number on the way leaves 64 bits, and else what the definition tells
    ensures exact { (told result ≡ unknown) ⊎ (told result ≡ exclude_told shift (rows_of rows.now) (form kappa) (form kappa_less)) }
    // what is told is so of the written test at each time at which the rows and the factors are held
    ensures tells { (h : ℕ) (d : ℤ) (named : List NamedRow) (k k_less : Ends) → IsTime h d → RowsHold h d (rows_of rows.now) (ends_of named) → AreSmall named
        → Holds h d (form kappa) k → IsInside k safe_factors → Holds h d (form kappa_less) k_less → IsInside k_less safe_factors
        → TellsVerdict (told result) (exclude_of shift named k k_less) }
    // below six rows there are too few, whatever they are
    ensures few { length rows.now < 6 → result ≡ Told.Failing Few }
{
    excluded(shift, rows, kappa, kappa_less)
}
