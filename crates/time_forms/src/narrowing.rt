// From units of 2^-76 to units of 2^-38.

ghost use Rattle.std.specs.Prelude.{◌≡◌, ℕ, ℤ, ◌^◌, IfSome};
ghost use Rattle.std.specs.Option.{option_map};
ghost use Rattle.fix_interval.specs.Ends.{Ends};
ghost use Rattle.fix_interval.specs.Products.{narrow76_of, mul_of};
ghost use Rattle.time_forms.specs.Forms.{IsTime, Holds};
ghost use Rattle.time_forms.specs.Operations.{narrow_form, mul_form};
ghost use Rattle.time_forms.specs.Programs.{form, wide, short_of, IsFormWithin};

use crate::products::wide_product;
use crate::short::short_form;
use crate::time_form::TimeForm;
use crate::wide_form::WideForm;
use whole_numbers::rounding::floor_shift;

/// The form in units of 2^-38; none where one of its numbers would be 2^58 or more in size.
pub fn narrow(a: WideForm) -> Option<TimeForm>
    ensures exact { option_map form result ≡ short_of (narrow_form (wide a)) }
    ensures holds { (h : ℕ) (d : ℤ) (x : Ends) → IsTime h d → Holds h d (wide a) x
        → IfSome result (λ f. Holds h d (form f) (narrow76_of x)) }
    ensures small { IfSome result (λ f. IsFormWithin (form f) (2 ^ 58)) }
{
    short_form(
        floor_shift(a.centre, 38),
        floor_shift(a.turning, 38),
        floor_shift(a.remainder, 38) + 4,
    )
}

/// The product in units of 2^-38; none where one of its numbers would be 2^58 or more in size.
pub fn mul(a: TimeForm, b: TimeForm) -> Option<TimeForm>
    requires a_small { IsFormWithin (form a) (2 ^ 60) }
    requires b_small { IsFormWithin (form b) (2 ^ 60) }
    ensures exact { option_map form result ≡ short_of (mul_form (form a) (form b)) }
    ensures holds { (h : ℕ) (d : ℤ) (x y : Ends) → IsTime h d → Holds h d (form a) x → Holds h d (form b) y
        → IfSome result (λ f. Holds h d (form f) (mul_of x y)) }
    ensures small { IfSome result (λ f. IsFormWithin (form f) (2 ^ 58)) }
{
    narrow(wide_product(a, b))
}
