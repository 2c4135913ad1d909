// The square root of a form that is surely above 0.

ghost use Rattle.std.specs.Prelude.{◌≡◌, ℕ, ℤ, pos, ◌*◌, ◌^◌, ◌+ℤ◌, ◌*ℤ◌, ◌≤ℤ◌, unsigned_abs, if◌then◌else◌, None, IfSome};
ghost use Rattle.std.specs.Option.{option_map};
ghost use Rattle.whole_numbers.specs.Rounding.{floor_of};
ghost use Rattle.whole_numbers.specs.Root.{root_of};
ghost use Rattle.fix_interval.specs.Ends.{Ends};
ghost use Rattle.fix_interval.specs.Roots.{sqrt_of};
ghost use Rattle.time_forms.specs.Forms.{IsTime, Holds, size, least_of};
ghost use Rattle.time_forms.specs.RootForms.{root_pair, root_reach, sqrt_form, checked_sqrt_form};
ghost use Rattle.time_forms.specs.Programs.{form, wide, is_below, short_of, IsNumberWithin, IsFormWithin};

use crate::shares::{are_positive, double, has_square, part, root, share, squared};
use crate::short::short_form;
use crate::time_form::TimeForm;
use crate::wide_form::WideForm;

/// How far the numbers of a form are from its centre, at most.
#[inline(always)]
fn reach(a: WideForm) -> i128
    requires small { IsFormWithin (wide a) (2 ^ 122) }
    ensures value { result ≡ size a.turning +ℤ a.remainder }
    ensures small { IsNumberWithin result (2 ^ 123) }
{
    a.turning.abs() + a.remainder
}

/// The least number of a form.
#[inline(always)]
fn wide_least(a: WideForm) -> i128
    requires small { IsFormWithin (wide a) (2 ^ 122) }
    ensures value { result ≡ least_of (wide a) }
    ensures small { result ≤ℤ pos (2 ^ 124) }
{
    a.centre - a.turning.abs() - a.remainder
}

/// The remainder of a root, from that of the number, from how far the roots are apart, from the root of the centre, and from
/// that and the root of the least together.
#[inline(always)]
fn root_remainder(remainder: i128, apart: i128, centre: i128, pair: i128) -> i128
    requires remainder_small { IsNumberWithin remainder (2 ^ 122) }
    requires apart_small { IsNumberWithin apart (2 ^ 62) }
    requires centre_positive { pos 1 ≤ℤ centre }
    requires centre_small { centre ≤ℤ pos (2 ^ 63) }
    requires pair_positive { pos 1 ≤ℤ pair }
    ensures { result ≡ ((floor_of remainder (unsigned_abs pair) +ℤ pos 1) +ℤ (floor_of (apart *ℤ apart) (unsigned_abs (pos 2 *ℤ centre)) +ℤ pos 1)) +ℤ pos 6 }
{
    (share(remainder, pair) + share(squared(apart), double(centre))) + 6
}

/// The root, from that of the centre, from that and the root of the least together, and from how far the roots are apart.
fn root_from(a: WideForm, centre: i128, pair: i128, apart: i128) -> Option<TimeForm>
    requires small { IsFormWithin (wide a) (2 ^ 122) }
    requires centre { centre ≡ pos (root_of a.centre) }
    requires centre_positive { pos 1 ≤ℤ centre }
    requires centre_small { centre ≤ℤ pos (2 ^ 63) }
    requires pair { pair ≡ pos (root_pair (wide a)) }
    requires pair_positive { pos 1 ≤ℤ pair }
    requires apart { apart ≡ root_reach (wide a) }
    requires apart_small { IsNumberWithin apart (2 ^ 62) }
    ensures { option_map form result ≡ short_of (sqrt_form (wide a)) }
{
    short_form(
        centre,
        part(a.turning, double(centre)),
        root_remainder(a.remainder, apart, centre, pair),
    )
}

/// The root, from that of the centre, and from that and the root of the least together.
fn root_over(a: WideForm, centre: i128, pair: i128) -> Option<TimeForm>
    requires small { IsFormWithin (wide a) (2 ^ 122) }
    requires centre { centre ≡ pos (root_of a.centre) }
    requires centre_positive { pos 1 ≤ℤ centre }
    requires centre_small { centre ≤ℤ pos (2 ^ 63) }
    requires pair { pair ≡ pos (root_pair (wide a)) }
    requires pair_positive { pos 1 ≤ℤ pair }
    ensures { option_map form result ≡ if is_below (root_reach (wide a)) (2 ^ 62) then short_of (sqrt_form (wide a)) else None }
{
    let apart = share(reach(a), pair);
    if has_square(apart) {
        root_from(a, centre, pair, apart)
    } else {
        None
    }
}

/// The square root of a form in units of 2^-76, in units of 2^-38; none where the form is not surely above 0, or where a
/// number leaves its range.
pub fn sqrt(a: WideForm) -> Option<TimeForm>
    requires small { IsFormWithin (wide a) (2 ^ 122) }
    ensures exact { option_map form result ≡ checked_sqrt_form (wide a) }
    ensures holds { (h : ℕ) (d : ℤ) (x : Ends) → IsTime h d → Holds h d (wide a) x
        → IfSome result (λ f. Holds h d (form f) (sqrt_of x)) }
    ensures small { IfSome result (λ f. IsFormWithin (form f) (2 ^ 58)) }
{
    let least = wide_least(a);
    if are_positive(least, a.centre) {
        let centre = root(a.centre);
        let pair = centre + root(least);
        root_over(a, centre, pair)
    } else {
        None
    }
}
