// The parts of a direction.

ghost use Rattle.std.specs.Prelude.{◌^◌};
ghost use Rattle.time_forms.specs.Programs.{form, IsFormWithin};

use time_forms::TimeForm;

/// The parts of a direction to the east, to the north and up, in units of 2^-38.
#[derive(Clone, Copy)]
pub(crate) struct Parts {
    pub(crate) east: TimeForm,
    pub(crate) north: TimeForm,
    pub(crate) up: TimeForm,
    ghost east_small: { IsFormWithin (form east) (2 ^ 58) },
    ghost north_small: { IsFormWithin (form north) (2 ^ 58) },
    ghost up_small: { IsFormWithin (form up) (2 ^ 58) },
}
