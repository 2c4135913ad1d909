// A row of the geometry, or of a matrix, as forms.

ghost use Rattle.std.specs.Prelude.{◌^◌};
ghost use Rattle.time_forms.specs.Programs.{form, IsFormWithin};

use time_forms::TimeForm;

/// The parts to the east, to the north, up and of the clock, in units of 2^-38.
#[derive(Clone, Copy)]
pub struct FormRow {
    pub e: TimeForm,
    pub n: TimeForm,
    pub u: TimeForm,
    pub k: TimeForm,
    ghost e_small: { IsFormWithin (form e) (2 ^ 58) },
    ghost n_small: { IsFormWithin (form n) (2 ^ 58) },
    ghost u_small: { IsFormWithin (form u) (2 ^ 58) },
    ghost k_small: { IsFormWithin (form k) (2 ^ 58) },
}
