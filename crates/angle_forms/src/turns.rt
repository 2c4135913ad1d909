// The sine and the cosine of turns that change.

ghost use Rattle.std.specs.Prelude.{◌≡◌, ℕ, ℤ, ◌^◌, IfSome};
ghost use Rattle.std.specs.Option.{option_map};
ghost use Rattle.fix_interval.specs.Ends.{Ends};
ghost use Rattle.time_forms.specs.Forms.{IsTime, Holds};
ghost use Rattle.time_forms.specs.Programs.{form, IsNumberWithin, IsFormWithin};
ghost use Rattle.trig_laws.specs.SinCos.{sin_cos_of};
ghost use Rattle.orbit_forms.specs.Lines.{sine_slack};
ghost use Rattle.orbit_forms.specs.Positions.{PairHolds};
ghost use Rattle.angle_forms.specs.Pairs.{pair_form, IsPairWithin};
ghost use Rattle.angle_forms.specs.Checked.{checked_sin_cos};

use crate::at_turns::sines_of_point;
use crate::lines::lines;
use crate::sine_cosine::SineCosine;
use time_forms::TimeForm;

/// How wide the interval answer is at one millisecond, at most.
#[inline(always)]
fn slack_of(u: TimeForm) -> i128
    requires { IsFormWithin (form u) (2 ^ 59) }
    ensures value { result ≡ sine_slack (form u) }
    ensures small { IsNumberWithin result (2 ^ 70) }
{
    32 * u.remainder as i128 + 256
}

/// The sine and the cosine of turns that change over a piece of time, in units of 2^-38; none where they change by more than
/// half a turn either way, or where a number would be 2^58 or more in size.
pub fn sin_cos(u: TimeForm) -> Option<SineCosine>
    requires { IsFormWithin (form u) (2 ^ 59) }
    ensures exact { option_map pair_form result ≡ checked_sin_cos (form u) }
    ensures holds { (h : ℕ) (d : ℤ) (a : Ends) → IsTime h d → Holds h d (form u) a
        → IfSome result (λ p. PairHolds h d (pair_form p) (sin_cos_of a)) }
    ensures small { IfSome result (λ p. IsPairWithin (pair_form p) (2 ^ 58)) }
{
    lines(sines_of_point(u.centre), u, slack_of(u))
}
