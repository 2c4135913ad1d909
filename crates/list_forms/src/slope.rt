// One slope against the limit.

ghost use Rattle.std.specs.Prelude.{◌≡◌, ◌^◌, IfSome};
ghost use Rattle.time_forms.specs.Programs.{form, IsFormWithin};
ghost use Rattle.matrix_forms.specs.Views.{row_of};
ghost use Rattle.slope_forms.specs.Slopes.{margin_form, margin_told};
ghost use Rattle.list_forms.specs.Views.{told};
ghost use Rattle.list_forms.specs.Lines.{squared_along};

use crate::lines::{Lines, squared};
use crate::told::Told;
use matrix_forms::FormRow;
use raim_model::Why;
use time_forms::{TimeForm, greatest, least, mul, sub};

/// The product of the determinants of all rows and of those without one, less that of the factor and the squared shift.
fn margin(kappa: TimeForm, shifted: TimeForm, all: TimeForm, less: TimeForm) -> Option<TimeForm>
    requires kappa_small { IsFormWithin (form kappa) (2 ^ 58) }
    requires shifted_small { IsFormWithin (form shifted) (2 ^ 58) }
    requires all_small { IsFormWithin (form all) (2 ^ 58) }
    requires less_small { IsFormWithin (form less) (2 ^ 58) }
    ensures exact { IfSome result (λ f. form f ≡ margin_form (form kappa) (form shifted) (form all) (form less)) }
    ensures small { IfSome result (λ f. IsFormWithin (form f) (2 ^ 60)) }
{
    let determinants = mul(all, less)?;
    let weighed = mul(kappa, shifted)?;
    Some(sub(determinants, weighed))
}

/// What the margin tells of the slope.
fn told_by_margin(margin: TimeForm) -> Told
    requires { IsFormWithin (form margin) (2 ^ 60) }
    ensures { told result ≡ margin_told (form margin) }
{
    if least(margin) >= 0 {
        Told::Passing
    } else if greatest(margin) < 0 {
        Told::Failing(Why::Slope)
    } else {
        Told::Unknown
    }
}

/// What is told of the slope of a row, for the rows of the adjugate that the shift needs, the determinants of all rows and of those
/// without this one, and the factor.
pub(crate) fn slope(
    lines: &Lines,
    row: &FormRow,
    all: TimeForm,
    less: TimeForm,
    kappa: TimeForm,
) -> Option<Told>
    requires all_small { IsFormWithin (form all) (2 ^ 58) }
    requires less_small { IsFormWithin (form less) (2 ^ 58) }
    requires kappa_small { IsFormWithin (form kappa) (2 ^ 58) }
    ensures { IfSome result (λ t. told t ≡ margin_told (margin_form (form kappa) (squared_along lines.now (row_of row.now)) (form all) (form less))) }
{
    let shifted = squared(lines, row)?;
    let left = margin(kappa, shifted, all, less)?;
    Some(told_by_margin(left))
}
