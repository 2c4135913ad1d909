// The two by two minors of two rows of a matrix, as forms.

ghost use Rattle.std.specs.Prelude.{◌^◌};
ghost use Rattle.time_forms.specs.Programs.{form, IsFormWithin};

use time_forms::TimeForm;

/// By the places of their columns.
#[derive(Clone, Copy)]
pub(crate) struct Minors {
    pub(crate) m12: TimeForm,
    pub(crate) m13: TimeForm,
    pub(crate) m14: TimeForm,
    pub(crate) m23: TimeForm,
    pub(crate) m24: TimeForm,
    pub(crate) m34: TimeForm,
    ghost m12_small: { IsFormWithin (form m12) (2 ^ 58) },
    ghost m13_small: { IsFormWithin (form m13) (2 ^ 58) },
    ghost m14_small: { IsFormWithin (form m14) (2 ^ 58) },
    ghost m23_small: { IsFormWithin (form m23) (2 ^ 58) },
    ghost m24_small: { IsFormWithin (form m24) (2 ^ 58) },
    ghost m34_small: { IsFormWithin (form m34) (2 ^ 58) },
}
