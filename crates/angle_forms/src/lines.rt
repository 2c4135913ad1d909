// What follows its line: a sine and a cosine about those of a middle.

ghost use Rattle.std.specs.Prelude.{◌≡◌, pos, ◌^◌, ◌+ℤ◌, ◌*ℤ◌};
ghost use Rattle.std.specs.Option.{option_map};
ghost use Rattle.whole_numbers.specs.Rounding.{floor_of};
ghost use Rattle.time_forms.specs.Forms.{size};
ghost use Rattle.time_forms.specs.Programs.{form, wide, form_from, short_of, IsNumberWithin, IsFormWithin};
ghost use Rattle.orbit_forms.specs.Lines.{bend_of, line_form};
ghost use Rattle.angle_forms.specs.Pairs.{pair_form, IsPairWithin};
ghost use Rattle.angle_forms.specs.Checked.{is_little, short_lines, checked_lines};

use crate::numbers::{bend, radians, scaled, widened};
use crate::sine_cosine::SineCosine;
use time_forms::{TimeForm, WideForm, in_64_bits, neg};

/// Half a turn.
const HALF: i128 = 137438953472;

/// Whether turns change by at most half a turn either way.
#[inline(always)]
fn are_little(turning: i128) -> bool
    ensures { result ≡ is_little turning }
{
    -HALF <= turning && turning <= HALF
}

/// How far turns are from their centre, at most.
#[inline(always)]
fn reach(u: WideForm) -> i128
    requires { IsFormWithin (wide u) (2 ^ 59) }
    ensures value { result ≡ size u.turning +ℤ u.remainder }
    ensures small { IsNumberWithin result (2 ^ 60) }
{
    u.turning.abs() + u.remainder
}

/// What their line misses by the turns' own remainder, by its bend and by `slack`.
#[inline(always)]
fn missed(remainder: i128, bend: i128, slack: i128) -> i128
    requires remainder_small { IsNumberWithin remainder (2 ^ 59) }
    requires bend_small { IsNumberWithin bend (2 ^ 88) }
    requires slack_small { IsNumberWithin slack (2 ^ 70) }
    ensures value { result ≡ ((pos 7 *ℤ remainder +ℤ bend) +ℤ slack) +ℤ pos 3 }
    ensures small { IsNumberWithin result (2 ^ 90) }
{
    ((7 * remainder + bend) + slack) + 3
}

/// The same of the turns `u`.
#[inline(always)]
fn missed_of(u: WideForm, slack: i128) -> i128
    requires u_small { IsFormWithin (wide u) (2 ^ 59) }
    requires slack_small { IsNumberWithin slack (2 ^ 70) }
    ensures value { result ≡ ((pos 7 *ℤ u.remainder +ℤ bend_of (size u.turning +ℤ u.remainder)) +ℤ slack) +ℤ pos 3 }
    ensures small { IsNumberWithin result (2 ^ 90) }
{
    missed(u.remainder, bend(reach(u)), slack)
}

/// The remainder of a line: its own, what the slope's makes of the radians, and what is missed.
#[inline(always)]
fn remainder_of(own: i128, slope: i128, missed: i128) -> i128
    requires own_small { IsNumberWithin own (2 ^ 60) }
    requires slope_small { IsNumberWithin slope (2 ^ 86) }
    requires missed_small { IsNumberWithin missed (2 ^ 90) }
    ensures { result ≡ (own +ℤ slope) +ℤ missed }
{
    (own + slope) + missed
}

/// The form of what is `x` at the centre, and changes with the radians by `y`.
#[inline(always)]
fn line(x: WideForm, y: WideForm, radians: i128, missed: i128) -> Option<TimeForm>
    requires x_small { IsFormWithin (wide x) (2 ^ 60) }
    requires y_small { IsFormWithin (wide y) (2 ^ 60) }
    requires radians_small { IsNumberWithin radians (2 ^ 63) }
    requires missed_small { IsNumberWithin missed (2 ^ 90) }
    ensures { option_map form result ≡ short_of (form_from x.centre (floor_of (y.centre *ℤ radians) (2 ^ 38)) ((x.remainder +ℤ floor_of (y.remainder *ℤ size radians) (2 ^ 38)) +ℤ missed)) }
{
    let slope = scaled(y.remainder, radians.abs());
    in_64_bits(WideForm {
        centre: x.centre,
        turning: scaled(y.centre, radians),
        remainder: remainder_of(x.remainder, slope, missed),
    })
}

/// The line of the turns `u` about their centre, where something is `x` and changes by `y`, with `slack` units more.
#[inline(always)]
fn line_about(x: TimeForm, y: TimeForm, u: WideForm, slack: i128) -> Option<TimeForm>
    requires x_small { IsFormWithin (form x) (2 ^ 60) }
    requires y_small { IsFormWithin (form y) (2 ^ 60) }
    requires u_small { IsFormWithin (wide u) (2 ^ 59) }
    requires slack_small { IsNumberWithin slack (2 ^ 70) }
    ensures { option_map form result ≡ short_of (line_form (form x) (form y) (wide u) slack) }
{
    line(
        widened(x),
        widened(y),
        radians(u.turning),
        missed_of(u, slack),
    )
}

/// The sine and the cosine of the turns `u` along their lines.
fn both_lines(at: SineCosine, u: WideForm, slack: i128) -> Option<SineCosine>
    requires at_small { IsPairWithin (pair_form at) (2 ^ 60) }
    requires u_small { IsFormWithin (wide u) (2 ^ 59) }
    requires slack_small { IsNumberWithin slack (2 ^ 70) }
    ensures { option_map pair_form result ≡ short_lines (pair_form at) (wide u) slack }
{
    let sine = line_about(at.sine, at.cosine, u, slack)?;
    let cosine = line_about(at.cosine, neg(at.sine), u, slack)?;
    Some(SineCosine { sine, cosine })
}

/// The sine and the cosine of the turns `u`, from those of their centre and with `slack` units more; none where the turns
/// change by more than half a turn either way, or where a number would be 2^58 or more in size.
pub(crate) fn lines(at: SineCosine, u: TimeForm, slack: i128) -> Option<SineCosine>
    requires at_small { IsPairWithin (pair_form at) (2 ^ 60) }
    requires u_small { IsFormWithin (form u) (2 ^ 59) }
    requires slack_small { IsNumberWithin slack (2 ^ 70) }
    ensures { option_map pair_form result ≡ checked_lines (pair_form at) (form u) slack }
{
    let turns = widened(u);
    if are_little(turns.turning) {
        both_lines(at, turns, slack)
    } else {
        None
    }
}
