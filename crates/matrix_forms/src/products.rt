// Products of forms of 64 bits.

ghost use Rattle.std.specs.Prelude.{◌≡◌, ◌^◌};
ghost use Rattle.time_forms.specs.Operations.{wide_form};
ghost use Rattle.time_forms.specs.Programs.{form, wide, IsFormWithin};

use time_forms::{TimeForm, WideForm, wide_product};

/// The product, in units of 2^-76.
#[inline(always)]
pub(crate) fn product(a: TimeForm, b: TimeForm) -> WideForm
    requires a_small { IsFormWithin (form a) (2 ^ 58) }
    requires b_small { IsFormWithin (form b) (2 ^ 58) }
    ensures exact { wide result ≡ wide_form (form a) (form b) }
    ensures small { IsFormWithin (wide result) (2 ^ 119) }
{
    wide_product(a, b)
}
