// Products and squares of forms, at twice the scale.

ghost use Rattle.std.specs.Prelude.{◌≡◌, ℕ, ℤ, pos, ◌*◌, ◌+◌, ◌^◌, ◌*ℤ◌, ◌+ℤ◌};
ghost use Rattle.whole_numbers.specs.Rounding.{floor_of};
ghost use Rattle.fix_interval.specs.Ends.{Ends};
ghost use Rattle.fix_interval.specs.Products.{mul_wide_of, sqr_wide_of};
ghost use Rattle.time_forms.specs.Forms.{IsTime, Holds, size};
ghost use Rattle.time_forms.specs.Operations.{wide_form};
ghost use Rattle.time_forms.specs.Programs.{form, wide, IsNumberWithin, IsFormWithin};

use crate::time_form::TimeForm;
use crate::wide_form::WideForm;
use whole_numbers::rounding::floor_shift;

/// The product of two numbers.
#[inline(always)]
pub(crate) fn product(x: i64, y: i64) -> i128
    requires x_small { IsNumberWithin x (2 ^ 62) }
    requires y_small { IsNumberWithin y (2 ^ 60) }
    ensures value { result ≡ x *ℤ y }
    ensures small { IsNumberWithin result (2 ^ 122) }
{
    x as i128 * y as i128
}

/// How far the middle of a form is from 0, at most.
#[inline(always)]
fn magnitude(a: TimeForm) -> i64
    requires a_small { IsFormWithin (form a) (2 ^ 60) }
    ensures value { result ≡ size a.centre +ℤ size a.turning }
    ensures small { IsNumberWithin result (2 ^ 61) }
{
    a.centre.abs() + a.turning.abs()
}

/// How far what a form holds is from 0, at most.
#[inline(always)]
fn reach(a: TimeForm) -> i64
    requires a_small { IsFormWithin (form a) (2 ^ 60) }
    ensures value { result ≡ (size a.centre +ℤ size a.turning) +ℤ a.remainder }
    ensures small { IsNumberWithin result (2 ^ 62) }
{
    magnitude(a) + a.remainder
}

/// What the remainder of b adds to that of a product.
#[inline(always)]
fn spread(a: TimeForm, b: TimeForm) -> i128
    requires a_small { IsFormWithin (form a) (2 ^ 60) }
    requires b_small { IsFormWithin (form b) (2 ^ 60) }
    ensures value { result ≡ (size a.centre +ℤ size a.turning) *ℤ b.remainder }
    ensures small { IsNumberWithin result (2 ^ 122) }
{
    product(magnitude(a), b.remainder)
}

/// What the remainder of a adds.
#[inline(always)]
fn drift(a: TimeForm, b: TimeForm) -> i128
    requires a_small { IsFormWithin (form a) (2 ^ 60) }
    requires b_small { IsFormWithin (form b) (2 ^ 60) }
    ensures value { result ≡ ((size b.centre +ℤ size b.turning) +ℤ b.remainder) *ℤ a.remainder }
    ensures small { IsNumberWithin result (2 ^ 122) }
{
    product(reach(b), a.remainder)
}

/// Half, rounded down.
#[inline(always)]
fn half(turn: i128) -> i128
    requires small { IsNumberWithin turn (2 ^ 122) }
    ensures value { result ≡ floor_of turn 2 }
    ensures small { IsNumberWithin result (2 ^ 122) }
{
    floor_shift(turn, 1)
}

/// Half the size, rounded down, and one more.
#[inline(always)]
fn half_size(turn: i128) -> i128
    requires small { IsNumberWithin turn (2 ^ 122) }
    ensures value { result ≡ floor_of (size turn) 2 +ℤ pos 1 }
    ensures small { IsNumberWithin result (2 ^ 123) }
{
    half(turn.abs()) + 1
}

/// The product at twice the scale.
pub fn wide_product(a: TimeForm, b: TimeForm) -> WideForm
    requires a_small { IsFormWithin (form a) (2 ^ 60) }
    requires b_small { IsFormWithin (form b) (2 ^ 60) }
    ensures exact { wide result ≡ wide_form (form a) (form b) }
    ensures holds { (h : ℕ) (d : ℤ) (x y : Ends) → IsTime h d → Holds h d (form a) x → Holds h d (form b) y
        → Holds h d (wide result) (mul_wide_of x y) }
    ensures small { (m n : ℕ) → IsFormWithin (form a) m → IsFormWithin (form b) n
        → IsFormWithin (wide result) (6 * (m * n) + 1) }
{
    let turn = product(a.turning, b.turning);
    WideForm {
        centre: product(a.centre, b.centre) + half(turn),
        turning: product(a.centre, b.turning) + product(a.turning, b.centre),
        remainder: (spread(a, b) + drift(a, b)) + half_size(turn),
    }
}

/// The square at twice the scale.
pub fn square(a: TimeForm) -> WideForm
    requires a_small { IsFormWithin (form a) (2 ^ 60) }
    ensures exact { wide result ≡ wide_form (form a) (form a) }
    ensures holds { (h : ℕ) (d : ℤ) (x : Ends) → IsTime h d → Holds h d (form a) x
        → Holds h d (wide result) (sqr_wide_of x) }
    ensures small { (m : ℕ) → IsFormWithin (form a) m → IsFormWithin (wide result) (6 * (m * m) + 1) }
{
    wide_product(a, a)
}
