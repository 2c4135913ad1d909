// The directions of a receiver, over forms.

ghost use Rattle.std.specs.Prelude.{◌≡◌, ◌^◌, IfSome};
ghost use Rattle.std.specs.Option.{option_map};
ghost use Rattle.angle_forms.specs.Pairs.{pair_form, IsPairWithin};
ghost use Rattle.angle_forms.specs.Vectors.{vector_form, IsVectorWithin};
ghost use Rattle.site_forms.specs.Frames.{east_form, checked_north, checked_up};

use angle_forms::{SineCosine, steady};
use fix_interval::Iv;
use time_forms::{TimeForm, mul, neg};

/// To the east, by the sine and the cosine of the longitude.
pub(crate) fn east(lon: SineCosine) -> [TimeForm; 3]
    requires { IsPairWithin (pair_form lon) (2 ^ 58) }
    ensures exact { vector_form result ≡ east_form (pair_form lon) }
    ensures small { IsVectorWithin (vector_form result) (2 ^ 58) }
{
    [neg(lon.sine), lon.cosine, steady(Iv::ZERO)]
}

/// To the north, by the sines and the cosines of latitude and longitude.
pub(crate) fn north(lat: SineCosine, lon: SineCosine) -> Option<[TimeForm; 3]>
    requires lat_small { IsPairWithin (pair_form lat) (2 ^ 58) }
    requires lon_small { IsPairWithin (pair_form lon) (2 ^ 58) }
    ensures exact { option_map vector_form result ≡ checked_north (pair_form lat) (pair_form lon) }
    ensures small { IfSome result (λ p. IsVectorWithin (vector_form p) (2 ^ 58)) }
{
    let first = mul(lat.sine, lon.cosine)?;
    let second = mul(lat.sine, lon.sine)?;
    Some([neg(first), neg(second), lat.cosine])
}

/// Up, square to the ellipsoid, by the sines and the cosines of latitude and longitude.
pub(crate) fn up(lat: SineCosine, lon: SineCosine) -> Option<[TimeForm; 3]>
    requires lat_small { IsPairWithin (pair_form lat) (2 ^ 58) }
    requires lon_small { IsPairWithin (pair_form lon) (2 ^ 58) }
    ensures exact { option_map vector_form result ≡ checked_up (pair_form lat) (pair_form lon) }
    ensures small { IfSome result (λ p. IsVectorWithin (vector_form p) (2 ^ 58)) }
{
    let first = mul(lat.cosine, lon.cosine)?;
    let second = mul(lat.cosine, lon.sine)?;
    Some([first, second, lat.sine])
}
