// The position of a receiver, over forms.

ghost use Rattle.std.specs.Prelude.{◌≡◌, ◌^◌, IfSome};
ghost use Rattle.std.specs.Option.{option_map};
ghost use Rattle.time_forms.specs.Programs.{form, short_of, IsFormWithin};
ghost use Rattle.angle_forms.specs.Pairs.{pair_form, IsPairWithin};
ghost use Rattle.angle_forms.specs.Vectors.{vector_form, IsVectorWithin};
ghost use Rattle.site_forms.specs.Frames.{axis_distance_form, lesser_form, equator_distance_form, checked_position};

use crate::ellipsoid::radius;
use angle_forms::{SineCosine, steady};
use fix_interval::Iv;
use time_forms::{TimeForm, add, mul};

/// 1 less the squared eccentricity.
const REST: Iv = Iv {
    lo: 273037769784,
    hi: 273037769785,
};

/// From the Earth's axis, for the radius of curvature across the meridian.
fn axis_distance(radius: TimeForm, height: TimeForm, lat: SineCosine) -> Option<TimeForm>
    requires radius_small { IsFormWithin (form radius) (2 ^ 58) }
    requires height_small { IsFormWithin (form height) (2 ^ 58) }
    requires lat_small { IsPairWithin (pair_form lat) (2 ^ 58) }
    ensures exact { option_map form result ≡ short_of (axis_distance_form (form radius) (form height) (pair_form lat)) }
    ensures small { IfSome result (λ f. IsFormWithin (form f) (2 ^ 58)) }
{
    mul(add(radius, height), lat.cosine)
}

/// The radius of curvature in the plane of the equator.
fn lesser(radius: TimeForm) -> Option<TimeForm>
    requires { IsFormWithin (form radius) (2 ^ 58) }
    ensures exact { option_map form result ≡ short_of (lesser_form (form radius)) }
    ensures small { IfSome result (λ f. IsFormWithin (form f) (2 ^ 58)) }
{
    mul(radius, steady(REST))
}

/// From the plane of the equator, for that radius.
fn equator_distance(lesser: TimeForm, height: TimeForm, lat: SineCosine) -> Option<TimeForm>
    requires lesser_small { IsFormWithin (form lesser) (2 ^ 58) }
    requires height_small { IsFormWithin (form height) (2 ^ 58) }
    requires lat_small { IsPairWithin (pair_form lat) (2 ^ 58) }
    ensures exact { option_map form result ≡ short_of (equator_distance_form (form lesser) (form height) (pair_form lat)) }
    ensures small { IfSome result (λ f. IsFormWithin (form f) (2 ^ 58)) }
{
    mul(add(lesser, height), lat.sine)
}

/// The position at a height, by the sines and cosines of latitude and longitude.
pub(crate) fn position(height: TimeForm, lat: SineCosine, lon: SineCosine) -> Option<[TimeForm; 3]>
    requires height_small { IsFormWithin (form height) (2 ^ 58) }
    requires lat_small { IsPairWithin (pair_form lat) (2 ^ 58) }
    requires lon_small { IsPairWithin (pair_form lon) (2 ^ 58) }
    ensures exact { option_map vector_form result ≡ checked_position (form height) (pair_form lat) (pair_form lon) }
    ensures small { IfSome result (λ p. IsVectorWithin (vector_form p) (2 ^ 58)) }
{
    let radius = radius(lat.sine)?;
    let distance = axis_distance(radius, height, lat)?;
    let first = mul(distance, lon.cosine)?;
    let second = mul(distance, lon.sine)?;
    let lesser = lesser(radius)?;
    let third = equator_distance(lesser, height, lat)?;
    Some([first, second, third])
}
