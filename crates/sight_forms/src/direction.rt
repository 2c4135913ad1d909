// The direction of a satellite.

ghost use Rattle.std.specs.Prelude.{◌≡◌, ◌^◌, IfSome};
ghost use Rattle.time_forms.specs.QuotientForms.{div_form};
ghost use Rattle.time_forms.specs.Programs.{form, IsFormWithin};
ghost use Rattle.angle_forms.specs.Vectors.{vector_form, IsVectorWithin};
ghost use Rattle.look_forms.specs.Looks.{dot_form, range_form, direction_form};
ghost use Rattle.site_forms.specs.Frames.{frame_form, IsFrameWithin};
ghost use Rattle.sight_forms.specs.Views.{component_form, parts_form};

use crate::components::{Components, named};
use crate::line::dot;
use crate::parts::Parts;
use site_forms::TimeFrame;
use time_forms::{TimeForm, div};

/// What is over a direction of a line, over its length.
fn share(direction: &[TimeForm; 3], line: Components, range: TimeForm) -> Option<TimeForm>
    requires direction { IsVectorWithin (vector_form direction.now) (2 ^ 58) }
    requires line { IsVectorWithin (component_form line) (2 ^ 60) }
    requires range_small { IsFormWithin (form range) (2 ^ 58) }
    ensures exact { IfSome result (λ f. form f ≡ div_form (dot_form (vector_form direction.now) (component_form line)) (form range)) }
    ensures small { IfSome result (λ f. IsFormWithin (form f) (2 ^ 58)) }
{
    let part = dot(named(direction), line)?;
    div(part, range)
}

/// The direction of a line of a given length, with what it has upward.
pub(crate) fn direction(
    frame: &TimeFrame,
    line: Components,
    range: TimeForm,
    upward: TimeForm,
) -> Option<Parts>
    requires frame { IsFrameWithin (frame_form frame.now) (2 ^ 58) }
    requires line { IsVectorWithin (component_form line) (2 ^ 60) }
    requires range { form range ≡ range_form (component_form line) }
    requires range_small { IsFormWithin (form range) (2 ^ 58) }
    requires upward { form upward ≡ dot_form (vector_form frame.now.up) (component_form line) }
    requires upward_small { IsFormWithin (form upward) (2 ^ 58) }
    ensures { IfSome result (λ a. parts_form a ≡ direction_form (frame_form frame.now) (component_form line)) }
{
    let east = share(&frame.east, line, range)?;
    let north = share(&frame.north, line, range)?;
    let up = div(upward, range)?;
    Some(Parts { east, north, up })
}
