// Forms of what is known: fixed ends, and what grows evenly.

ghost use Rattle.std.specs.Prelude.{◌≡◌, ℕ, ℤ, pos, ◌^◌, ◌+ℤ◌, ◌-ℤ◌, ◌≤ℤ◌, unsigned_abs, IfSome};
ghost use Rattle.std.specs.Option.{option_map};
ghost use Rattle.whole_numbers.specs.Rounding.{floor_of};
ghost use Rattle.fix_interval.specs.Products.{scale_int_of};
ghost use Rattle.fix_interval.specs.Intervals.{ends, IsWithin};
ghost use Rattle.time_forms.specs.Forms.{IsTime, Holds, size};
ghost use Rattle.time_forms.specs.Operations.{fixed_of, linear_of};
ghost use Rattle.time_forms.specs.Programs.{form, wide, short_of, IsNumberWithin, IsFormWithin};

use crate::products::product;
use crate::short::short_form;
use crate::time_form::TimeForm;
use crate::wide_form::WideForm;
use fix_interval::Iv;
use whole_numbers::rounding::floor_shift;

/// The middle of an interval, rounded down.
#[inline(always)]
fn middle_of(e: Iv) -> i128
    requires small { IsWithin e (2 ^ 122) }
    ensures value { result ≡ floor_of (e.lo +ℤ e.hi) 2 }
    ensures small { IsNumberWithin result (2 ^ 122) }
{
    floor_shift(e.lo + e.hi, 1)
}

/// The form of an interval that stays, in its unit; none where one of its numbers would be 2^58 or more in size.
pub fn fixed(e: Iv) -> Option<TimeForm>
    requires small { IsWithin e (2 ^ 122) }
    ensures exact { option_map form result ≡ short_of (fixed_of (ends e)) }
    ensures holds { (h : ℕ) (d : ℤ) → IfSome result (λ f. Holds h d (form f) (ends e)) }
    ensures small { IfSome result (λ f. IsFormWithin (form f) (2 ^ 58)) }
{
    let middle = middle_of(e);
    short_form(middle, 0, e.hi - middle)
}

/// The middle of a short interval.
#[inline(always)]
fn short_middle(e: Iv) -> i64
    requires small { IsWithin e (2 ^ 58) }
    ensures value { result ≡ floor_of (e.lo +ℤ e.hi) 2 }
    ensures small { IsNumberWithin result (2 ^ 58) }
{
    middle_of(e) as i64
}

/// How far its upper end is from there.
#[inline(always)]
fn half_width(e: Iv, middle: i64) -> i64
    requires small { IsWithin e (2 ^ 58) }
    requires middle_small { IsNumberWithin middle (2 ^ 58) }
    ensures value { result ≡ e.hi -ℤ middle }
    ensures small { IsNumberWithin result (2 ^ 59) }
{
    (e.hi - middle as i128) as i64
}

/// How far a time of a piece is from an epoch, at most.
#[inline(always)]
fn farthest(k: i64, h: i64) -> i64
    requires k_small { IsNumberWithin k (2 ^ 58) }
    requires h_small { IsNumberWithin h (2 ^ 58) }
    ensures value { result ≡ size k +ℤ h }
    ensures small { IsNumberWithin result (2 ^ 59) }
{
    k.abs() + h
}

/// The form of k + d milliseconds times a choice of an interval, at the interval's scale, over a piece of half length `h`
/// whose middle is `k` milliseconds after an epoch.
pub fn linear(e: Iv, k: i64, h: i64) -> WideForm
    requires e_small { IsWithin e (2 ^ 58) }
    requires k_small { IsNumberWithin k (2 ^ 58) }
    requires h_small { IsNumberWithin h (2 ^ 58) }
    requires h_positive { pos 1 ≤ℤ h }
    ensures exact { wide result ≡ linear_of (ends e) k (unsigned_abs h) }
    ensures holds { (d : ℤ) → IsTime (unsigned_abs h) d
        → Holds (unsigned_abs h) d (wide result) (scale_int_of (ends e) (k +ℤ d) (k +ℤ d)) }
    ensures small { IsFormWithin (wide result) (2 ^ 122) }
{
    let middle = short_middle(e);
    WideForm {
        centre: product(middle, k),
        turning: product(middle, h),
        remainder: product(half_width(e, middle), farthest(k, h)),
    }
}
