// The WGS 84 ellipsoid, over forms.

ghost use Rattle.std.specs.Prelude.{◌≡◌, ◌^◌, IfSome};
ghost use Rattle.std.specs.Option.{option_map};
ghost use Rattle.time_forms.specs.Operations.{fixed_of, sub_form, wide_form};
ghost use Rattle.time_forms.specs.Programs.{form, wide, IsFormWithin};
ghost use Rattle.site_laws.specs.Frames.{one_wide, eccentricity_ends};
ghost use Rattle.site_forms.specs.Frames.{checked_bulge, checked_radius};

use angle_forms::{steady, steady_wide};
use fix_interval::Iv;
use time_forms::{TimeForm, WideForm, div, mul, sqrt, sub_wide, wide_product};

/// 1 in units of 2^-76.
const ONE_WIDE: Iv = Iv {
    lo: 75557863725914323419136,
    hi: 75557863725914323419136,
};

/// The squared eccentricity of WGS 84, whose flattening is 1 / 298.257223563.
const ECCENTRICITY: Iv = Iv {
    lo: 1840137159,
    hi: 1840137160,
};

/// The semi-major axis of WGS 84, 6378137 metres, in megametres.
const AXIS: Iv = Iv {
    lo: 1753208948762,
    hi: 1753208948763,
};

/// 1 less the squared eccentricity times the square of a sine, in units of 2^-76.
#[inline(always)]
fn radicand(square: TimeForm) -> WideForm
    requires { IsFormWithin (form square) (2 ^ 58) }
    ensures exact { wide result ≡ sub_form (fixed_of one_wide) (wide_form (fixed_of eccentricity_ends) (form square)) }
    ensures small { IsFormWithin (wide result) (2 ^ 122) }
{
    sub_wide(
        steady_wide(ONE_WIDE),
        wide_product(steady(ECCENTRICITY), square),
    )
}

/// The root of that, for the sine of a latitude.
fn bulge(sine: TimeForm) -> Option<TimeForm>
    requires { IsFormWithin (form sine) (2 ^ 58) }
    ensures exact { option_map form result ≡ checked_bulge (form sine) }
    ensures small { IfSome result (λ f. IsFormWithin (form f) (2 ^ 58)) }
{
    let square = mul(sine, sine)?;
    sqrt(radicand(square))
}

/// The radius of curvature across the meridian, for the sine of a latitude.
pub(crate) fn radius(sine: TimeForm) -> Option<TimeForm>
    requires { IsFormWithin (form sine) (2 ^ 58) }
    ensures exact { option_map form result ≡ checked_radius (form sine) }
    ensures small { IfSome result (λ f. IsFormWithin (form f) (2 ^ 58)) }
{
    let bulge = bulge(sine)?;
    div(steady(AXIS), bulge)
}
