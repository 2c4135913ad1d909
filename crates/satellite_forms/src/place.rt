// The place of a satellite, from the forms of its axes and of the sines and cosines of its angles.

ghost use Rattle.std.specs.Prelude.{◌≡◌, ◌^◌, IfSome};
ghost use Rattle.std.specs.Option.{option_map};
ghost use Rattle.time_forms.specs.Programs.{form, short_of, IsFormWithin};
ghost use Rattle.time_forms.specs.Operations.{sub_form, mul_form};
ghost use Rattle.angle_forms.specs.Pairs.{pair_form, IsPairWithin};
ghost use Rattle.angle_forms.specs.Vectors.{vector_form, IsVectorWithin};
ghost use Rattle.satellite_forms.specs.Checked.{checked_in_plane_x, checked_in_plane_y, checked_place};

use angle_forms::SineCosine;
use time_forms::{TimeForm, add, mul, sub};

/// Along the line to the perigee: A (cos E - e).
pub(crate) fn perifocal_x(
    semi_major_axis: TimeForm,
    cosine: TimeForm,
    eccentricity: TimeForm,
) -> Option<TimeForm>
    requires axis { IsFormWithin (form semi_major_axis) (2 ^ 58) }
    requires cosine { IsFormWithin (form cosine) (2 ^ 58) }
    requires ratio { IsFormWithin (form eccentricity) (2 ^ 58) }
    ensures exact { option_map form result ≡ short_of (mul_form (form semi_major_axis) (sub_form (form cosine) (form eccentricity))) }
    ensures small { IfSome result (λ f. IsFormWithin (form f) (2 ^ 58)) }
{
    mul(semi_major_axis, sub(cosine, eccentricity))
}

/// Along the line to the ascending node: (x, y) turned by the argument of perigee.
pub(crate) fn in_plane_x(x: TimeForm, y: TimeForm, w: SineCosine) -> Option<TimeForm>
    requires x_small { IsFormWithin (form x) (2 ^ 59) }
    requires y_small { IsFormWithin (form y) (2 ^ 59) }
    requires w_small { IsPairWithin (pair_form w) (2 ^ 58) }
    ensures exact { option_map form result ≡ checked_in_plane_x (form x) (form y) (pair_form w) }
    ensures small { IfSome result (λ f. IsFormWithin (form f) (2 ^ 59)) }
{
    let along = mul(x, w.cosine)?;
    let across = mul(y, w.sine)?;
    Some(sub(along, across))
}

/// Across it.
pub(crate) fn in_plane_y(x: TimeForm, y: TimeForm, w: SineCosine) -> Option<TimeForm>
    requires x_small { IsFormWithin (form x) (2 ^ 59) }
    requires y_small { IsFormWithin (form y) (2 ^ 59) }
    requires w_small { IsPairWithin (pair_form w) (2 ^ 58) }
    ensures exact { option_map form result ≡ checked_in_plane_y (form x) (form y) (pair_form w) }
    ensures small { IfSome result (λ f. IsFormWithin (form f) (2 ^ 59)) }
{
    let along = mul(x, w.sine)?;
    let across = mul(y, w.cosine)?;
    Some(add(along, across))
}

/// The place of (x, y), which is turned by the inclination and then by the node.
pub(crate) fn place(
    x: TimeForm,
    y: TimeForm,
    node: SineCosine,
    inclination: SineCosine,
) -> Option<[TimeForm; 3]>
    requires x_small { IsFormWithin (form x) (2 ^ 59) }
    requires y_small { IsFormWithin (form y) (2 ^ 59) }
    requires node_small { IsPairWithin (pair_form node) (2 ^ 58) }
    requires inclination_small { IsPairWithin (pair_form inclination) (2 ^ 58) }
    ensures exact { option_map vector_form result ≡ checked_place (form x) (form y) (pair_form node) (pair_form inclination) }
    ensures small { IfSome result (λ p. IsVectorWithin (vector_form p) (2 ^ 59)) }
{
    let across = mul(y, inclination.cosine)?;
    let first = in_plane_x(x, across, node)?;
    let second = in_plane_y(x, across, node)?;
    let third = mul(y, inclination.sine)?;
    Some([first, second, third])
}
