// Whole multiples of forms.

ghost use Rattle.std.specs.Prelude.{◌≡◌, ℕ, ℤ, ◌*◌, ◌^◌};
ghost use Rattle.fix_interval.specs.Ends.{Ends};
ghost use Rattle.fix_interval.specs.Products.{scale_int_of};
ghost use Rattle.time_forms.specs.Forms.{Holds};
ghost use Rattle.time_forms.specs.Operations.{scale_form};
ghost use Rattle.time_forms.specs.Programs.{form, wide, IsNumberWithin, IsFormWithin};

use crate::products::product;
use crate::time_form::TimeForm;
use crate::wide_form::WideForm;

/// The form times `k`, as a number of milliseconds, at the scale of `a`.
pub fn multiple(a: TimeForm, k: i64) -> WideForm
    requires a_small { IsFormWithin (form a) (2 ^ 60) }
    requires k_small { IsNumberWithin k (2 ^ 60) }
    ensures exact { wide result ≡ scale_form (form a) k }
    ensures holds { (h : ℕ) (d : ℤ) (x : Ends) → Holds h d (form a) x → Holds h d (wide result) (scale_int_of x k k) }
    ensures small { (m n : ℕ) → IsFormWithin (form a) m → IsNumberWithin k n → IsFormWithin (wide result) (m * n) }
{
    WideForm {
        centre: product(a.centre, k),
        turning: product(a.turning, k),
        remainder: product(a.remainder, k.abs()),
    }
}
