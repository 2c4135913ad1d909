// A symmetric matrix of four rows and columns, as forms.

ghost use Rattle.std.specs.Prelude.{◌^◌};
ghost use Rattle.time_forms.specs.Programs.{form, IsFormWithin};

use time_forms::{TimeForm, WideForm};

/// The entries on and above the diagonal, in units of 2^-38. Rows and columns 1 to 4 are east, north, up and the clock.
#[derive(Clone, Copy)]
pub struct FormMatrix {
    pub a11: TimeForm,
    pub a12: TimeForm,
    pub a13: TimeForm,
    pub a14: TimeForm,
    pub a22: TimeForm,
    pub a23: TimeForm,
    pub a24: TimeForm,
    pub a33: TimeForm,
    pub a34: TimeForm,
    pub a44: TimeForm,
    ghost a11_small: { IsFormWithin (form a11) (2 ^ 58) },
    ghost a12_small: { IsFormWithin (form a12) (2 ^ 58) },
    ghost a13_small: { IsFormWithin (form a13) (2 ^ 58) },
    ghost a14_small: { IsFormWithin (form a14) (2 ^ 58) },
    ghost a22_small: { IsFormWithin (form a22) (2 ^ 58) },
    ghost a23_small: { IsFormWithin (form a23) (2 ^ 58) },
    ghost a24_small: { IsFormWithin (form a24) (2 ^ 58) },
    ghost a33_small: { IsFormWithin (form a33) (2 ^ 58) },
    ghost a34_small: { IsFormWithin (form a34) (2 ^ 58) },
    ghost a44_small: { IsFormWithin (form a44) (2 ^ 58) },
}

/// The same entries in units of 2^-76, as sums of products have them.
#[derive(Clone, Copy)]
pub struct WideMatrix {
    pub a11: WideForm,
    pub a12: WideForm,
    pub a13: WideForm,
    pub a14: WideForm,
    pub a22: WideForm,
    pub a23: WideForm,
    pub a24: WideForm,
    pub a33: WideForm,
    pub a34: WideForm,
    pub a44: WideForm,
}
