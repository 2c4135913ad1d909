// The rows of the adjugate that a shift needs, and the squared shift of a satellite's row.

ghost use Rattle.std.specs.Prelude.{◌≡◌, ◌^◌, IfSome};
ghost use Rattle.time_forms.specs.Programs.{form, IsFormWithin};
ghost use Rattle.geometry_forms.specs.Rows.{RowForm};
ghost use Rattle.geometry_forms.specs.Geometry.{adjugate_form};
ghost use Rattle.matrix_forms.specs.Views.{row_of, matrix_of};
ghost use Rattle.slope_forms.specs.Slopes.{squared_form};
ghost use Rattle.list_forms.specs.Lines.{squared_along};

use matrix_forms::{FormMatrix, FormRow, horizontal, row_up, rows_across, share, vertical};
use slope_laws::Shift;
use time_forms::TimeForm;

/// The rows of the adjugate that a shift needs.
#[derive(Clone, Copy)]
pub(crate) enum Lines {
    /// Those to the east and to the north.
    Across(FormRow, FormRow),
    /// That up.
    Upward(FormRow),
}

/// The rows that the shift needs, of the adjugate of the matrix.
pub(crate) fn lines_for(shift: Shift, matrix: &FormMatrix) -> Option<Lines>
    ensures { IfSome result (λ l. (r : RowForm) → squared_along l r ≡ squared_form shift (adjugate_form (matrix_of matrix.now)) r) }
{
    match shift {
        Shift::Horizontal => {
            let (east, north) = rows_across(matrix)?;
            Some(Lines::Across(east, north))
        }
        Shift::Vertical => {
            let up = row_up(matrix)?;
            Some(Lines::Upward(up))
        }
    }
}

/// The squared shift of a row across.
fn squared_across(east: &FormRow, north: &FormRow, row: &FormRow) -> Option<TimeForm>
    ensures exact { IfSome result (λ f. form f ≡ squared_along (Lines.Across east.now north.now) (row_of row.now)) }
    ensures small { IfSome result (λ f. IsFormWithin (form f) (2 ^ 58)) }
{
    let to_east = share(east, row)?;
    let to_north = share(north, row)?;
    horizontal(to_east, to_north)
}

/// That up.
fn squared_upward(up: &FormRow, row: &FormRow) -> Option<TimeForm>
    ensures exact { IfSome result (λ f. form f ≡ squared_along (Lines.Upward up.now) (row_of row.now)) }
    ensures small { IfSome result (λ f. IsFormWithin (form f) (2 ^ 58)) }
{
    let upward = share(up, row)?;
    vertical(upward)
}

/// The squared shift of a row, times the squared determinant.
pub(crate) fn squared(lines: &Lines, row: &FormRow) -> Option<TimeForm>
    ensures exact { IfSome result (λ f. form f ≡ squared_along lines.now (row_of row.now)) }
    ensures small { IfSome result (λ f. IsFormWithin (form f) (2 ^ 58)) }
{
    match lines {
        Lines::Across(east, north) => squared_across(east, north, row),
        Lines::Upward(up) => squared_upward(up, row),
    }
}
