// The WGS 84 ellipsoid.

ghost use Rattle.std.specs.Prelude.{◌≡◌};
ghost use Rattle.fix_interval.specs.Ends.{IsInside};
ghost use Rattle.fix_interval.specs.Intervals.{ends};
ghost use Rattle.fix_interval.specs.Ranges.{full_ends};
ghost use Rattle.site_laws.specs.Frames.{bulge_of, radius_of, radicand_of, radicand_ends, bulge_ends, radius_ends};

use fix_interval::{Iv, div, mul_wide, sqr, sqrt, sub};

/// 1 in units of 2^-76.
const ONE_WIDE: Iv = Iv {
    lo: 75557863725914323419136,
    hi: 75557863725914323419136,
};

/// The squared eccentricity of WGS 84, whose flattening is 1 / 298.257223563.
const ECCENTRICITY: Iv = Iv {
    lo: 1840137159,
    hi: 1840137160,
};

/// The semi-major axis of WGS 84, 6378137 metres, in megametres.
const AXIS: Iv = Iv {
    lo: 1753208948762,
    hi: 1753208948763,
};

/// 1 less the squared eccentricity times the square of a sine, in units of 2^-76.
fn radicand(sine: Iv) -> Iv
    requires { IsInside (ends sine) full_ends }
    ensures exact { ends result ≡ radicand_of (ends sine) }
    ensures bound { IsInside (ends result) radicand_ends }
{
    sub(ONE_WIDE, mul_wide(ECCENTRICITY, sqr(sine)))
}

/// The root of that, for the sine of a latitude.
fn bulge(sine: Iv) -> Iv
    requires { IsInside (ends sine) full_ends }
    ensures exact { ends result ≡ bulge_of (ends sine) }
    ensures bound { IsInside (ends result) bulge_ends }
{
    sqrt(radicand(sine))
}

/// The radius of curvature across the meridian, for the sine of a latitude.
pub(crate) fn radius(sine: Iv) -> Iv
    requires { IsInside (ends sine) full_ends }
    ensures exact { ends result ≡ radius_of (ends sine) }
    ensures bound { IsInside (ends result) radius_ends }
{
    div(AXIS, bulge(sine))
}
