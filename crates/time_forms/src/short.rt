// From 128 bits to 64: a form, where it fits, and otherwise none.

ghost use Rattle.std.specs.Prelude.{◌≡◌, ℕ, ℤ, ◌^◌, IfSome};
ghost use Rattle.std.specs.Option.{option_map};
ghost use Rattle.fix_interval.specs.Ends.{Ends};
ghost use Rattle.time_forms.specs.Forms.{Holds};
ghost use Rattle.time_forms.specs.Programs.{form, form_from, wide, is_below, is_short, short_of, IsFormWithin};

use crate::time_form::TimeForm;
use crate::wide_form::WideForm;

/// 2^58.
const SHORT: i128 = 288230376151711744;

/// Whether a number has fewer than 58 bits.
#[inline(always)]
pub(crate) fn is_short_number(z: i128) -> bool
    ensures { result ≡ is_below z (2 ^ 58) }
{
    -SHORT < z && z < SHORT
}

/// Whether all three have.
#[inline(always)]
fn are_short(centre: i128, turning: i128, remainder: i128) -> bool
    ensures { result ≡ is_short (form_from centre turning remainder) }
{
    is_short_number(centre) && (is_short_number(turning) && is_short_number(remainder))
}

/// The form of three numbers, where they are short.
#[inline(always)]
pub(crate) fn short_form(centre: i128, turning: i128, remainder: i128) -> Option<TimeForm>
    ensures { option_map form result ≡ short_of (form_from centre turning remainder) }
{
    if are_short(centre, turning, remainder) {
        Some(TimeForm {
            centre: centre as i64,
            turning: turning as i64,
            remainder: remainder as i64,
        })
    } else {
        None
    }
}

/// The same form in 64 bits where each of its numbers is below 2^58 in size, and otherwise none, of which nothing is
/// certain.
pub fn in_64_bits(a: WideForm) -> Option<TimeForm>
    ensures exact { option_map form result ≡ short_of (wide a) }
    ensures holds { (h : ℕ) (d : ℤ) (x : Ends) → Holds h d (wide a) x → IfSome result (λ f. Holds h d (form f) x) }
    ensures small { IfSome result (λ f. IsFormWithin (form f) (2 ^ 58)) }
{
    short_form(a.centre, a.turning, a.remainder)
}
