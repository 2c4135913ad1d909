// A look at a satellite.

ghost use Rattle.std.specs.Prelude.{◌≡◌, ◌⊎◌, ℕ, ℤ, pos, ◌^◌, ◌≤ℤ◌, IfSome};
ghost use Rattle.fix_interval.specs.Intervals.{ends, IsWithin};
ghost use Rattle.fix_interval.specs.Vectors.{VectorEnds};
ghost use Rattle.site_laws.specs.Frames.{FrameEnds};
ghost use Rattle.site_laws.specs.Sights.{IsDirection, line_of, range_of, look_of};
ghost use Rattle.case_laws.specs.SightOver.{sight_given};
ghost use Rattle.time_forms.specs.Forms.{IsTime};
ghost use Rattle.time_forms.specs.Programs.{form, IsFormWithin};
ghost use Rattle.orbit_forms.specs.Positions.{VectorHolds};
ghost use Rattle.angle_forms.specs.Vectors.{vector_form, IsVectorWithin};
ghost use Rattle.look_forms.specs.Frames.{FrameHolds};
ghost use Rattle.look_forms.specs.Looks.{dot_form, range_form, direction_to, direction_form, weighed_form};
ghost use Rattle.verdict_forms.specs.Sights.{SightHolds, sure_visible, not_sure, sight_form};
ghost use Rattle.site_forms.specs.Frames.{frame_form, IsFrameWithin};
ghost use Rattle.sight_forms.specs.Views.{component_form, sight_told, IsOrUnsure};
ghost use Rattle.sight_forms.specs.Sights.{sight_along};

use crate::components::{Components, named};
use crate::decision::{beyond, hidden, visible};
use crate::direction::direction;
use crate::line::{dot, line, range};
use crate::row::weighed;
use crate::time_sight::TimeSight;
use angle_forms::steady;
use fix_interval::Iv;
use site_forms::TimeFrame;
use time_forms::TimeForm;

/// The sight of a satellite that is visible, by the line to it.
fn in_sight(
    frame: &TimeFrame,
    line: Components,
    range: TimeForm,
    upward: TimeForm,
    weight: TimeForm,
) -> Option<TimeSight>
    requires frame { IsFrameWithin (frame_form frame.now) (2 ^ 58) }
    requires line { IsVectorWithin (component_form line) (2 ^ 60) }
    requires range { form range ≡ range_form (component_form line) }
    requires range_small { IsFormWithin (form range) (2 ^ 58) }
    requires upward { form upward ≡ dot_form (vector_form frame.now.up) (component_form line) }
    requires upward_small { IsFormWithin (form upward) (2 ^ 58) }
    requires weight_small { IsFormWithin (form weight) (2 ^ 58) }
    ensures { IfSome result (λ s. sight_told s ≡ sure_visible (weighed_form (direction_form (frame_form frame.now) (component_form line)) (form weight))) }
{
    let direction = direction(frame, line, range, upward)?;
    let row = weighed(direction, weight)?;
    Some(TimeSight::Visible(row))
}

/// How a satellite is seen along the line to it, for the sine of the mask.
fn along(frame: &TimeFrame, line: Components, mask: TimeForm, weight: TimeForm) -> Option<TimeSight>
    requires frame { IsFrameWithin (frame_form frame.now) (2 ^ 58) }
    requires line { IsVectorWithin (component_form line) (2 ^ 60) }
    requires mask_small { IsFormWithin (form mask) (2 ^ 58) }
    requires weight_small { IsFormWithin (form weight) (2 ^ 58) }
    ensures { IfSome result (λ s. IsOrUnsure (sight_told s) (sight_along (frame_form frame.now) (component_form line) (form mask) (form weight))) }
{
    let range = range(line)?;
    let upward = dot(named(&frame.up), line)?;
    let beyond = beyond(upward, mask, range)?;
    if hidden(range, beyond) {
        Some(TimeSight::Hidden)
    } else if visible(range, beyond) {
        in_sight(frame, line, range, upward, weight)
    } else {
        Some(TimeSight::Unsure)
    }
}

/// What is told of how a satellite is seen over a piece of time, from the receiver's frame to the satellite's place, for the sine of
/// the mask of elevation and the weight of the satellite. Positions are in megametres; all are in units of 2^-38.
pub fn look(frame: &TimeFrame, place: &[TimeForm; 3], mask: Iv, weight: Iv) -> TimeSight
    requires frame { IsFrameWithin (frame_form frame.now) (2 ^ 58) }
    requires place { IsVectorWithin (vector_form place.now) (2 ^ 59) }
    requires mask_small { IsWithin mask (2 ^ 39) }
    requires weight_small { IsWithin weight (2 ^ 39) }
    // nothing is told where a number on the way leaves its range, and else what the definition tells
    ensures exact { (sight_told result ≡ not_sure) ⊎ (sight_told result ≡ sight_form (frame_form frame.now) (vector_form place.now) (ends mask) (ends weight)) }
    // what is told is so of the written sight at each time at which the frame and the place are held
    ensures holds { (h : ℕ) (d : ℤ) (f : FrameEnds) (sat : VectorEnds) → IsTime h d → FrameHolds h d (frame_form frame.now) f → VectorHolds h d (vector_form place.now) sat
        → (pos (2 ^ 38) ≤ℤ (range_of (line_of f.position sat)).lo → IsDirection (direction_to f sat))
        → SightHolds h d (sight_told result) (sight_given (ends weight) (look_of f sat (ends mask))) }
{
    let line = line(named(&frame.position), named(place));
    along(frame, line, steady(mask), steady(weight)).unwrap_or(TimeSight::Unsure)
}
