// What a row has of the adjugate, and the squares of that.

ghost use Rattle.std.specs.Prelude.{◌≡◌, ◌^◌, IfSome, IsSome};
ghost use Rattle.time_forms.specs.Programs.{form, IsFormWithin};
ghost use Rattle.geometry_forms.specs.Geometry.{inner_form, horizontal_form, vertical_form};
ghost use Rattle.matrix_forms.specs.Views.{row_of};
ghost use Rattle.matrix_forms.specs.Shorts.{IsShort};

use crate::products::product;
use crate::row::FormRow;
use time_forms::{TimeForm, add_wide, narrow};

/// The sum of the products of a row of the adjugate with a satellite's row: the determinant times the change of the position along
/// that axis by a fault of the satellite; none where it leaves 64 bits.
pub fn share(line: &FormRow, row: &FormRow) -> Option<TimeForm>
    ensures exact { IfSome result (λ f. form f ≡ inner_form (form line.now.e) (form line.now.n) (form line.now.u) (form line.now.k) (row_of row.now)) }
    ensures some { IsShort (inner_form (form line.now.e) (form line.now.n) (form line.now.u) (form line.now.k) (row_of row.now)) → IsSome result }
    ensures small { IfSome result (λ f. IsFormWithin (form f) (2 ^ 58)) }
{
    let two = add_wide(product(line.e, row.e), product(line.n, row.n));
    let three = add_wide(two, product(line.u, row.u));
    narrow(add_wide(three, product(line.k, row.k)))
}

/// The sum of the squares of two shares; none where it leaves 64 bits.
pub fn horizontal(east: TimeForm, north: TimeForm) -> Option<TimeForm>
    requires east_small { IsFormWithin (form east) (2 ^ 58) }
    requires north_small { IsFormWithin (form north) (2 ^ 58) }
    ensures exact { IfSome result (λ f. form f ≡ horizontal_form (form east) (form north)) }
    ensures some { IsShort (horizontal_form (form east) (form north)) → IsSome result }
    ensures small { IfSome result (λ f. IsFormWithin (form f) (2 ^ 58)) }
{
    narrow(add_wide(product(east, east), product(north, north)))
}

/// The square of a share; none where it leaves 64 bits.
pub fn vertical(up: TimeForm) -> Option<TimeForm>
    requires small { IsFormWithin (form up) (2 ^ 58) }
    ensures exact { IfSome result (λ f. form f ≡ vertical_form (form up)) }
    ensures some { IsShort (vertical_form (form up)) → IsSome result }
    ensures small { IfSome result (λ f. IsFormWithin (form f) (2 ^ 58)) }
{
    narrow(product(up, up))
}
