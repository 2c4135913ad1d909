// The row of a direction.

ghost use Rattle.std.specs.Prelude.{◌≡◌, ◌^◌, IfSome};
ghost use Rattle.time_forms.specs.Programs.{form, IsFormWithin};
ghost use Rattle.matrix_forms.specs.Views.{row_of};
ghost use Rattle.look_forms.specs.Looks.{weighed_form};
ghost use Rattle.sight_forms.specs.Views.{parts_form};

use crate::parts::Parts;
use matrix_forms::FormRow;
use time_forms::{TimeForm, mul};

/// The row of a direction, times its weight.
pub(crate) fn weighed(direction: Parts, weight: TimeForm) -> Option<FormRow>
    requires { IsFormWithin (form weight) (2 ^ 58) }
    ensures { IfSome result (λ r. row_of r ≡ weighed_form (parts_form direction) (form weight)) }
{
    let e = mul(weight, direction.east)?;
    let n = mul(weight, direction.north)?;
    let u = mul(weight, direction.up)?;
    Some(FormRow { e, n, u, k: weight })
}
