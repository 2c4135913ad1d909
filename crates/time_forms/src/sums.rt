// Sums, differences and negatives of forms, exact.

ghost use Rattle.std.specs.Prelude.{◌≡◌, ℕ, ℤ, ◌+◌, ◌^◌};
ghost use Rattle.fix_interval.specs.Ends.{Ends};
ghost use Rattle.fix_interval.specs.Sums.{add_of, sub_of, neg_of};
ghost use Rattle.time_forms.specs.Forms.{Holds};
ghost use Rattle.time_forms.specs.Operations.{add_form, sub_form, neg_form};
ghost use Rattle.time_forms.specs.Programs.{form, wide, IsFormWithin};

use crate::time_form::TimeForm;
use crate::wide_form::WideForm;

/// The sum.
#[inline(always)]
pub fn add(a: TimeForm, b: TimeForm) -> TimeForm
    requires a_small { IsFormWithin (form a) (2 ^ 61) }
    requires b_small { IsFormWithin (form b) (2 ^ 61) }
    ensures exact { form result ≡ add_form (form a) (form b) }
    ensures holds { (h : ℕ) (d : ℤ) (x y : Ends) → Holds h d (form a) x → Holds h d (form b) y
        → Holds h d (form result) (add_of x y) }
    ensures small { (m n : ℕ) → IsFormWithin (form a) m → IsFormWithin (form b) n → IsFormWithin (form result) (m + n) }
{
    TimeForm {
        centre: a.centre + b.centre,
        turning: a.turning + b.turning,
        remainder: a.remainder + b.remainder,
    }
}

/// The difference.
#[inline(always)]
pub fn sub(a: TimeForm, b: TimeForm) -> TimeForm
    requires a_small { IsFormWithin (form a) (2 ^ 61) }
    requires b_small { IsFormWithin (form b) (2 ^ 61) }
    ensures exact { form result ≡ sub_form (form a) (form b) }
    ensures holds { (h : ℕ) (d : ℤ) (x y : Ends) → Holds h d (form a) x → Holds h d (form b) y
        → Holds h d (form result) (sub_of x y) }
    ensures small { (m n : ℕ) → IsFormWithin (form a) m → IsFormWithin (form b) n → IsFormWithin (form result) (m + n) }
{
    TimeForm {
        centre: a.centre - b.centre,
        turning: a.turning - b.turning,
        remainder: a.remainder + b.remainder,
    }
}

/// The negative.
#[inline(always)]
pub fn neg(a: TimeForm) -> TimeForm
    requires small { IsFormWithin (form a) (2 ^ 62) }
    ensures exact { form result ≡ neg_form (form a) }
    ensures holds { (h : ℕ) (d : ℤ) (x : Ends) → Holds h d (form a) x → Holds h d (form result) (neg_of x) }
    ensures small { (m : ℕ) → IsFormWithin (form a) m → IsFormWithin (form result) m }
{
    TimeForm {
        centre: -a.centre,
        turning: -a.turning,
        remainder: a.remainder,
    }
}

/// The sum of wide forms.
#[inline(always)]
pub fn add_wide(a: WideForm, b: WideForm) -> WideForm
    requires a_small { IsFormWithin (wide a) (2 ^ 125) }
    requires b_small { IsFormWithin (wide b) (2 ^ 125) }
    ensures exact { wide result ≡ add_form (wide a) (wide b) }
    ensures holds { (h : ℕ) (d : ℤ) (x y : Ends) → Holds h d (wide a) x → Holds h d (wide b) y
        → Holds h d (wide result) (add_of x y) }
    ensures small { (m n : ℕ) → IsFormWithin (wide a) m → IsFormWithin (wide b) n → IsFormWithin (wide result) (m + n) }
{
    WideForm {
        centre: a.centre + b.centre,
        turning: a.turning + b.turning,
        remainder: a.remainder + b.remainder,
    }
}

/// The difference of wide forms.
#[inline(always)]
pub fn sub_wide(a: WideForm, b: WideForm) -> WideForm
    requires a_small { IsFormWithin (wide a) (2 ^ 125) }
    requires b_small { IsFormWithin (wide b) (2 ^ 125) }
    ensures exact { wide result ≡ sub_form (wide a) (wide b) }
    ensures holds { (h : ℕ) (d : ℤ) (x y : Ends) → Holds h d (wide a) x → Holds h d (wide b) y
        → Holds h d (wide result) (sub_of x y) }
    ensures small { (m n : ℕ) → IsFormWithin (wide a) m → IsFormWithin (wide b) n → IsFormWithin (wide result) (m + n) }
{
    WideForm {
        centre: a.centre - b.centre,
        turning: a.turning - b.turning,
        remainder: a.remainder + b.remainder,
    }
}
