// The position of a receiver.

ghost use Rattle.std.specs.Prelude.{◌≡◌, pos};
ghost use Rattle.fix_interval.specs.Ends.{IsInside};
ghost use Rattle.fix_interval.specs.Intervals.{ends};
ghost use Rattle.fix_interval.specs.Products.{mul_of};
ghost use Rattle.fix_interval.specs.Sums.{add_of, sub_of};
ghost use Rattle.fix_interval.specs.Ranges.{full_ends, one_ends};
ghost use Rattle.fix_interval.specs.Pairs.{pair_ends};
ghost use Rattle.fix_interval.specs.Vectors.{vector_ends};
ghost use Rattle.site_laws.specs.Places.{widest_place};
ghost use Rattle.site_laws.specs.Frames.{radius_of, axis_distance_of, position_of, eccentricity_ends, within};

use crate::ellipsoid::radius;
use fix_interval::{Iv, add, mul};

/// 1 less the squared eccentricity.
const REST: Iv = Iv {
    lo: 273037769784,
    hi: 273037769785,
};

/// A length of at most 6430 kilometres times a sine or a cosine.
fn part(length: Iv, sine: Iv) -> Iv
    requires length { IsInside (ends length) (within (pos 1767353238359)) }
    requires sine { IsInside (ends sine) full_ends }
    ensures exact { ends result ≡ mul_of (ends length) (ends sine) }
    ensures bound { IsInside (ends result) (within (pos 1767353238359)) }
{
    mul(length, sine)
}

/// From the Earth's axis.
fn axis_distance(height: Iv, sine: Iv, cosine: Iv) -> Iv
    requires height { IsInside (ends height) widest_place.height }
    requires sine { IsInside (ends sine) full_ends }
    requires cosine { IsInside (ends cosine) full_ends }
    ensures exact { ends result ≡ axis_distance_of (ends height) (pair_ends sine cosine) }
    ensures bound { IsInside (ends result) (within (pos 1767353238359)) }
{
    part(add(radius(sine), height), cosine)
}

/// From the plane of the equator.
fn equator_distance(height: Iv, sine: Iv) -> Iv
    requires height { IsInside (ends height) widest_place.height }
    requires sine { IsInside (ends sine) full_ends }
    ensures exact { ends result ≡ mul_of (add_of (mul_of (radius_of (ends sine)) (sub_of one_ends eccentricity_ends)) (ends height)) (ends sine) }
{
    part(add(mul(radius(sine), REST), height), sine)
}

/// The position at a height, by the sines and cosines of latitude and longitude.
pub(crate) fn position(height: Iv, lat: (Iv, Iv), lon: (Iv, Iv)) -> [Iv; 3]
    requires height { IsInside (ends height) widest_place.height }
    requires sin_lat { IsInside (ends lat.0) full_ends }
    requires cos_lat { IsInside (ends lat.1) full_ends }
    requires sin_lon { IsInside (ends lon.0) full_ends }
    requires cos_lon { IsInside (ends lon.1) full_ends }
    ensures { vector_ends result ≡ position_of (ends height) (pair_ends lat.0 lat.1) (pair_ends lon.0 lon.1) }
{
    let distance = axis_distance(height, lat.0, lat.1);
    [
        part(distance, lon.1),
        part(distance, lon.0),
        equator_distance(height, lat.0),
    ]
}
