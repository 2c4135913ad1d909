// The line from a receiver to a satellite.

ghost use Rattle.std.specs.Prelude.{◌≡◌, pos, ◌^◌, true, IfSome};
ghost use lib.Signed.{le_z};
ghost use Rattle.time_forms.specs.Forms.{least_of};
ghost use Rattle.time_forms.specs.Operations.{wide_form};
ghost use Rattle.time_forms.specs.Programs.{form, wide, is_below, IsFormWithin};
ghost use Rattle.angle_forms.specs.Vectors.{IsVectorWithin};
ghost use Rattle.look_forms.specs.Looks.{line_form, dot_form, squares_form, range_form};
ghost use Rattle.sight_forms.specs.Views.{component_form};
ghost use Rattle.sight_forms.specs.Sights.{products_form, is_within_root};

use crate::components::Components;
use time_forms::{TimeForm, WideForm, add_wide, narrow, sqrt, sub, wide_product};

/// 2^122: what a root is taken of has numbers below it.
const ROOT_ROOM: i128 = 5316911983139663491615228241121378304;

/// From the receiver's position to the satellite.
pub(crate) fn line(position: Components, place: Components) -> Components
    requires position { IsVectorWithin (component_form position) (2 ^ 58) }
    requires place { IsVectorWithin (component_form place) (2 ^ 59) }
    ensures exact { component_form result ≡ line_form (component_form position) (component_form place) }
    ensures small { IsVectorWithin (component_form result) (2 ^ 60) }
{
    Components {
        x: sub(place.x, position.x),
        y: sub(place.y, position.y),
        z: sub(place.z, position.z),
    }
}

/// The product of two components, in units of 2^-76.
#[inline(always)]
fn product(a: TimeForm, b: TimeForm) -> WideForm
    requires a_small { IsFormWithin (form a) (2 ^ 60) }
    requires b_small { IsFormWithin (form b) (2 ^ 60) }
    ensures exact { wide result ≡ wide_form (form a) (form b) }
    ensures small { IsFormWithin (wide result) (2 ^ 123) }
{
    wide_product(a, b)
}

/// The sum of the products of the components, in units of 2^-76.
fn products(a: Components, b: Components) -> WideForm
    requires a_small { IsVectorWithin (component_form a) (2 ^ 60) }
    requires b_small { IsVectorWithin (component_form b) (2 ^ 60) }
    ensures { wide result ≡ products_form (component_form a) (component_form b) }
{
    let two = add_wide(product(a.x, b.x), product(a.y, b.y));
    add_wide(two, product(a.z, b.z))
}

/// What is over a direction of a line.
pub(crate) fn dot(direction: Components, line: Components) -> Option<TimeForm>
    requires direction { IsVectorWithin (component_form direction) (2 ^ 58) }
    requires line { IsVectorWithin (component_form line) (2 ^ 60) }
    ensures exact { IfSome result (λ f. form f ≡ dot_form (component_form direction) (component_form line)) }
    ensures small { IfSome result (λ f. IsFormWithin (form f) (2 ^ 58)) }
{
    narrow(products(direction, line))
}

/// Whether a number is below 2^122 in size.
#[inline(always)]
fn has_room(z: i128) -> bool
    ensures { result ≡ is_below z (2 ^ 122) }
{
    -ROOT_ROOM < z && z < ROOT_ROOM
}

/// Whether all three of a form are.
fn have_room(a: WideForm) -> bool
    ensures { result ≡ is_within_root (wide a) }
{
    has_room(a.centre) && (has_room(a.turning) && has_room(a.remainder))
}

/// The length of a line, where its square is surely a unit at least.
pub(crate) fn range(line: Components) -> Option<TimeForm>
    requires { IsVectorWithin (component_form line) (2 ^ 60) }
    ensures exact { IfSome result (λ f. form f ≡ range_form (component_form line)) }
    ensures some { IfSome result (λ f. le_z (pos 1) (least_of (squares_form (component_form line))) ≡ true) }
    ensures small { IfSome result (λ f. IsFormWithin (form f) (2 ^ 58)) }
{
    let squares = products(line, line);
    if have_room(squares) {
        sqrt(squares)
    } else {
        None
    }
}
