// The least and the greatest number that a form holds.

ghost use Rattle.std.specs.Prelude.{◌≡◌, ◌^◌, ℕ, ℤ, ◌≤ℤ◌};
ghost use Rattle.fix_interval.specs.Ends.{Ends};
ghost use Rattle.time_forms.specs.Forms.{IsTime, Holds, least_of, greatest_of};
ghost use Rattle.time_forms.specs.Programs.{form, IsFormWithin};

use crate::time_form::TimeForm;

/// The least number that the form holds at any time of its piece.
#[inline(always)]
pub fn least(a: TimeForm) -> i64
    requires small { IsFormWithin (form a) (2 ^ 60) }
    ensures exact { result ≡ least_of (form a) }
    ensures holds { (h : ℕ) (d : ℤ) (e : Ends) → IsTime h d → Holds h d (form a) e → result ≤ℤ e.lo }
{
    a.centre - a.turning.abs() - a.remainder
}

/// The greatest.
#[inline(always)]
pub fn greatest(a: TimeForm) -> i64
    requires small { IsFormWithin (form a) (2 ^ 60) }
    ensures exact { result ≡ greatest_of (form a) }
    ensures holds { (h : ℕ) (d : ℤ) (e : Ends) → IsTime h d → Holds h d (form a) e → e.hi ≤ℤ result }
{
    a.centre + a.turning.abs() + a.remainder
}
