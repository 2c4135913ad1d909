// The quotient of forms, by one that is surely above 0.

ghost use Rattle.std.specs.Prelude.{◌≡◌, ℕ, ℤ, pos, ◌*◌, ◌^◌, ◌+ℤ◌, ◌-ℤ◌, ◌*ℤ◌, ◌≤ℤ◌, ◌&&◌, unsigned_abs, if◌then◌else◌, None, IfSome};
ghost use Rattle.std.specs.Option.{option_map};
ghost use Rattle.whole_numbers.specs.Rounding.{floor_of};
ghost use Rattle.fix_interval.specs.Ends.{Ends};
ghost use Rattle.fix_interval.specs.Quotients.{div_of};
ghost use Rattle.time_forms.specs.Forms.{IsTime, Holds, size, least_of};
ghost use Rattle.time_forms.specs.QuotientForms.{quotient_centre, quotient_turn, quotient_sway, div_form, checked_div_form};
ghost use Rattle.time_forms.specs.Programs.{form, wide, is_below, short_of, IsNumberWithin, IsFormWithin};

use crate::shares::{
    are_positive, fits_in_units, in_units, part, positive_product, share, shifted,
};
use crate::short::{is_short_number, short_form};
use crate::time_form::TimeForm;
use crate::wide_form::WideForm;

/// A product whose first factor has fewer than 58 bits.
#[inline(always)]
fn short_product(x: i128, y: i128) -> i128
    requires x_small { IsNumberWithin x (2 ^ 58) }
    requires y_small { IsNumberWithin y (2 ^ 60) }
    ensures value { result ≡ x *ℤ y }
    ensures small { IsNumberWithin result (2 ^ 118) }
{
    x * y
}

/// What turns of the dividend, less that of the divisor times the quotient of the centres.
#[inline(always)]
fn turn_of(turning: i128, centre: i128, other: i128) -> i128
    requires turning_small { IsNumberWithin turning (2 ^ 58) }
    requires centre_small { IsNumberWithin centre (2 ^ 58) }
    requires other_small { IsNumberWithin other (2 ^ 58) }
    ensures { result ≡ floor_of (turning *ℤ pos (2 ^ 38) -ℤ centre *ℤ other) (2 ^ 38) }
{
    shifted(in_units(turning) - short_product(centre, other))
}

/// What the divisor's changes make of that, at most.
#[inline(always)]
fn sway_of(turn: i128, turning: i128, remainder: i128) -> i128
    requires turn_small { IsNumberWithin turn (2 ^ 58) }
    requires turning_small { IsNumberWithin turning (2 ^ 58) }
    requires remainder_small { IsNumberWithin remainder (2 ^ 58) }
    ensures { result ≡ size turn *ℤ (size turning +ℤ remainder) }
{
    short_product(turn.abs(), turning.abs() + remainder)
}

/// How far the dividend is from its line, with what the divisor's remainder makes of the quotient of the centres.
#[inline(always)]
fn offset_of(remainder: i128, centre: i128, other: i128) -> i128
    requires remainder_small { IsNumberWithin remainder (2 ^ 58) }
    requires centre_small { IsNumberWithin centre (2 ^ 58) }
    requires other_small { IsNumberWithin other (2 ^ 58) }
    ensures value { result ≡ (remainder +ℤ floor_of (size centre *ℤ other) (2 ^ 38)) +ℤ pos 2 }
    ensures small { IsNumberWithin result (2 ^ 86) }
{
    (remainder + shifted(short_product(centre.abs(), other))) + 2
}

/// The remainder of a quotient, from the two and the divisor's centre and least.
#[inline(always)]
fn quotient_remainder(offset: i128, sway: i128, centre: i128, least: i128) -> i128
    requires offset_small { IsNumberWithin offset (2 ^ 86) }
    requires sway_small { IsNumberWithin sway (2 ^ 86) }
    requires centre_positive { pos 1 ≤ℤ centre }
    requires centre_small { centre ≤ℤ pos (2 ^ 58) }
    requires least_positive { pos 1 ≤ℤ least }
    requires least_small { least ≤ℤ pos (2 ^ 60) }
    ensures { result ≡ (((floor_of (offset *ℤ pos (2 ^ 38)) (unsigned_abs least) +ℤ pos 1) +ℤ (floor_of (sway *ℤ pos (2 ^ 38)) (unsigned_abs (centre *ℤ least)) +ℤ pos 1)) +ℤ (floor_of centre (unsigned_abs least) +ℤ pos 1)) +ℤ pos 2 }
{
    ((share(in_units(offset), least) + share(in_units(sway), positive_product(centre, least)))
        + share(centre, least))
        + 2
}

/// The quotient of forms of which each step is known.
fn quotient_of_parts(
    a: WideForm,
    b: WideForm,
    centre: i128,
    turn: i128,
    sway: i128,
    least: i128,
) -> Option<TimeForm>
    requires a_small { IsFormWithin (wide a) (2 ^ 58) }
    requires b_small { IsFormWithin (wide b) (2 ^ 58) }
    requires b_positive { pos 1 ≤ℤ b.centre }
    requires centre { centre ≡ quotient_centre (wide a) (wide b) }
    requires centre_small { IsNumberWithin centre (2 ^ 58) }
    requires turn { turn ≡ quotient_turn (wide a) (wide b) }
    requires turn_small { IsNumberWithin turn (2 ^ 58) }
    requires sway { sway ≡ quotient_sway (wide a) (wide b) }
    requires sway_small { IsNumberWithin sway (2 ^ 86) }
    requires least { least ≡ least_of (wide b) }
    requires least_positive { pos 1 ≤ℤ least }
    requires least_small { least ≤ℤ pos (2 ^ 60) }
    ensures { option_map form result ≡ short_of (div_form (wide a) (wide b)) }
{
    short_form(
        centre,
        part(in_units(turn), b.centre),
        quotient_remainder(
            offset_of(a.remainder, centre, b.remainder),
            sway,
            b.centre,
            least,
        ),
    )
}

/// The quotient, from that of the centres and from what turns.
fn quotient_by_turn(
    a: WideForm,
    b: WideForm,
    centre: i128,
    turn: i128,
    least: i128,
) -> Option<TimeForm>
    requires a_small { IsFormWithin (wide a) (2 ^ 58) }
    requires b_small { IsFormWithin (wide b) (2 ^ 58) }
    requires b_positive { pos 1 ≤ℤ b.centre }
    requires centre { centre ≡ quotient_centre (wide a) (wide b) }
    requires centre_small { IsNumberWithin centre (2 ^ 58) }
    requires turn { turn ≡ quotient_turn (wide a) (wide b) }
    requires turn_small { IsNumberWithin turn (2 ^ 58) }
    requires least { least ≡ least_of (wide b) }
    requires least_positive { pos 1 ≤ℤ least }
    requires least_small { least ≤ℤ pos (2 ^ 60) }
    ensures { option_map form result ≡ if is_below (quotient_sway (wide a) (wide b)) (2 ^ 86) then short_of (div_form (wide a) (wide b)) else None }
{
    let sway = sway_of(turn, b.turning, b.remainder);
    if fits_in_units(sway) {
        quotient_of_parts(a, b, centre, turn, sway, least)
    } else {
        None
    }
}

/// The quotient, from that of the centres.
fn quotient_by_centre(a: WideForm, b: WideForm, centre: i128, least: i128) -> Option<TimeForm>
    requires a_small { IsFormWithin (wide a) (2 ^ 58) }
    requires b_small { IsFormWithin (wide b) (2 ^ 58) }
    requires b_positive { pos 1 ≤ℤ b.centre }
    requires centre { centre ≡ quotient_centre (wide a) (wide b) }
    requires centre_small { IsNumberWithin centre (2 ^ 58) }
    requires least { least ≡ least_of (wide b) }
    requires least_positive { pos 1 ≤ℤ least }
    requires least_small { least ≤ℤ pos (2 ^ 60) }
    ensures { option_map form result ≡ if is_below (quotient_turn (wide a) (wide b)) (2 ^ 58) && is_below (quotient_sway (wide a) (wide b)) (2 ^ 86) then short_of (div_form (wide a) (wide b)) else None }
{
    let turn = turn_of(a.turning, centre, b.turning);
    if is_short_number(turn) {
        quotient_by_turn(a, b, centre, turn, least)
    } else {
        None
    }
}

/// The quotient by a form whose least is known and above 0.
fn quotient_by_least(a: WideForm, b: WideForm, least: i128) -> Option<TimeForm>
    requires a_small { IsFormWithin (wide a) (2 ^ 58) }
    requires b_small { IsFormWithin (wide b) (2 ^ 58) }
    requires b_positive { pos 1 ≤ℤ b.centre }
    requires least { least ≡ least_of (wide b) }
    requires least_positive { pos 1 ≤ℤ least }
    requires least_small { least ≤ℤ pos (2 ^ 60) }
    ensures { option_map form result ≡ if is_below (quotient_centre (wide a) (wide b)) (2 ^ 58) && (is_below (quotient_turn (wide a) (wide b)) (2 ^ 58) && is_below (quotient_sway (wide a) (wide b)) (2 ^ 86)) then short_of (div_form (wide a) (wide b)) else None }
{
    let centre = part(in_units(a.centre), b.centre);
    if is_short_number(centre) {
        quotient_by_centre(a, b, centre, least)
    } else {
        None
    }
}

/// The least of a short form.
#[inline(always)]
fn short_least(b: WideForm) -> i128
    requires small { IsFormWithin (wide b) (2 ^ 58) }
    ensures value { result ≡ least_of (wide b) }
    ensures small { result ≤ℤ pos (2 ^ 60) }
{
    b.centre - b.turning.abs() - b.remainder
}

/// The quotient of wide forms.
fn wide_quotient(a: WideForm, b: WideForm) -> Option<TimeForm>
    requires a_small { IsFormWithin (wide a) (2 ^ 58) }
    requires b_small { IsFormWithin (wide b) (2 ^ 58) }
    ensures { option_map form result ≡ checked_div_form (wide a) (wide b) }
{
    let least = short_least(b);
    if are_positive(least, b.centre) {
        quotient_by_least(a, b, least)
    } else {
        None
    }
}

/// A form in 128 bits.
#[inline(always)]
fn widened(a: TimeForm) -> WideForm
    ensures { wide result ≡ form a }
{
    WideForm {
        centre: a.centre as i128,
        turning: a.turning as i128,
        remainder: a.remainder as i128,
    }
}

/// The quotient of two forms of one scale, in units of 2^-38; none where the divisor is not surely above 0, or where a
/// number leaves its range.
pub fn div(a: TimeForm, b: TimeForm) -> Option<TimeForm>
    requires a_small { IsFormWithin (form a) (2 ^ 58) }
    requires b_small { IsFormWithin (form b) (2 ^ 58) }
    ensures exact { option_map form result ≡ checked_div_form (form a) (form b) }
    ensures holds { (h : ℕ) (d : ℤ) (x y : Ends) → IsTime h d → Holds h d (form a) x → Holds h d (form b) y
        → IfSome result (λ f. Holds h d (form f) (div_of x y)) }
    ensures small { IfSome result (λ f. IsFormWithin (form f) (2 ^ 58)) }
{
    wide_quotient(widened(a), widened(b))
}
