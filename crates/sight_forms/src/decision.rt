// The decisions of a look.

ghost use Rattle.std.specs.Prelude.{◌≡◌, ◌^◌, IfSome};
ghost use Rattle.time_forms.specs.Operations.{sub_form, mul_form};
ghost use Rattle.time_forms.specs.Programs.{form, IsFormWithin};
ghost use Rattle.sight_forms.specs.Sights.{is_hidden, is_visible};

use time_forms::{TimeForm, greatest, least, mul, sub};

/// One megametre, in units of 2^-38.
const ONE: i64 = 274877906944;

/// What a line has upward beyond the least that is not masked: the sine of the mask times the range.
pub(crate) fn beyond(upward: TimeForm, mask: TimeForm, range: TimeForm) -> Option<TimeForm>
    requires upward_small { IsFormWithin (form upward) (2 ^ 58) }
    requires mask_small { IsFormWithin (form mask) (2 ^ 58) }
    requires range_small { IsFormWithin (form range) (2 ^ 58) }
    ensures exact { IfSome result (λ f. form f ≡ sub_form (form upward) (mul_form (form mask) (form range))) }
    ensures small { IfSome result (λ f. IsFormWithin (form f) (2 ^ 60)) }
{
    let masked = mul(mask, range)?;
    Some(sub(upward, masked))
}

/// Whether the range is surely below one megametre, or what is beyond the mask surely below 0.
pub(crate) fn hidden(range: TimeForm, beyond: TimeForm) -> bool
    requires range_small { IsFormWithin (form range) (2 ^ 60) }
    requires beyond_small { IsFormWithin (form beyond) (2 ^ 60) }
    ensures { result ≡ is_hidden (form range) (form beyond) }
{
    greatest(range) < ONE || greatest(beyond) < 0
}

/// Whether the range is surely one megametre at least, and what is beyond the mask surely 0 at least.
pub(crate) fn visible(range: TimeForm, beyond: TimeForm) -> bool
    requires range_small { IsFormWithin (form range) (2 ^ 60) }
    requires beyond_small { IsFormWithin (form beyond) (2 ^ 60) }
    ensures { result ≡ is_visible (form range) (form beyond) }
{
    least(range) >= ONE && least(beyond) >= 0
}
