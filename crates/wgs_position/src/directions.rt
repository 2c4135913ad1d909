// The directions of a receiver.

ghost use Rattle.std.specs.Prelude.{◌≡◌};
ghost use Rattle.fix_interval.specs.Ends.{IsInside};
ghost use Rattle.fix_interval.specs.Intervals.{ends};
ghost use Rattle.fix_interval.specs.Products.{mul_of};
ghost use Rattle.fix_interval.specs.Ranges.{full_ends};
ghost use Rattle.fix_interval.specs.Pairs.{pair_ends};
ghost use Rattle.fix_interval.specs.Sums.{neg_of};
ghost use Rattle.fix_interval.specs.Vectors.{vector_ends};
ghost use Rattle.site_laws.specs.Frames.{east_of, north_of, up_of};

use fix_interval::{Iv, mul, sub};

/// The product of two sines or cosines.
fn product(a: Iv, b: Iv) -> Iv
    requires a_sine { IsInside (ends a) full_ends }
    requires b_sine { IsInside (ends b) full_ends }
    ensures exact { ends result ≡ mul_of (ends a) (ends b) }
    ensures bound { IsInside (ends result) full_ends }
{
    mul(a, b)
}

/// The negation of a sine or a cosine.
fn negative(a: Iv) -> Iv
    requires { IsInside (ends a) full_ends }
    ensures { ends result ≡ neg_of (ends a) }
{
    sub(Iv::ZERO, a)
}

/// To the east, by the sine and the cosine of the longitude.
pub(crate) fn east(lon: (Iv, Iv)) -> [Iv; 3]
    requires sin_lon { IsInside (ends lon.0) full_ends }
    ensures { vector_ends result ≡ east_of (pair_ends lon.0 lon.1) }
{
    [negative(lon.0), lon.1, Iv::ZERO]
}

/// To the north, by the sines and the cosines of latitude and longitude.
pub(crate) fn north(lat: (Iv, Iv), lon: (Iv, Iv)) -> [Iv; 3]
    requires sin_lat { IsInside (ends lat.0) full_ends }
    requires sin_lon { IsInside (ends lon.0) full_ends }
    requires cos_lon { IsInside (ends lon.1) full_ends }
    ensures { vector_ends result ≡ north_of (pair_ends lat.0 lat.1) (pair_ends lon.0 lon.1) }
{
    [
        negative(product(lat.0, lon.1)),
        negative(product(lat.0, lon.0)),
        lat.1,
    ]
}

/// Up, square to the ellipsoid, by the sines and the cosines of latitude and longitude.
pub(crate) fn up(lat: (Iv, Iv), lon: (Iv, Iv)) -> [Iv; 3]
    requires cos_lat { IsInside (ends lat.1) full_ends }
    requires sin_lon { IsInside (ends lon.0) full_ends }
    requires cos_lon { IsInside (ends lon.1) full_ends }
    ensures { vector_ends result ≡ up_of (pair_ends lat.0 lat.1) (pair_ends lon.0 lon.1) }
{
    [product(lat.1, lon.1), product(lat.1, lon.0), lat.0]
}
