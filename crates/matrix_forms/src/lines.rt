// The rows of a matrix of forms.

ghost use Rattle.std.specs.Prelude.{◌≡◌};
ghost use Rattle.raim_model.specs.Geometry.{East, North, Up, Clock};
ghost use Rattle.matrix_forms.specs.Views.{row_of, matrix_of};
ghost use Rattle.matrix_forms.specs.Lines.{line_of};

use crate::matrix::FormMatrix;
use crate::row::FormRow;

impl FormMatrix {
    /// The row to the east.
    #[inline(always)]
    pub(crate) fn east(&self) -> FormRow
        ensures { row_of result ≡ line_of (matrix_of self.now) East }
    {
        FormRow {
            e: self.a11,
            n: self.a12,
            u: self.a13,
            k: self.a14,
        }
    }

    /// The row to the north.
    #[inline(always)]
    pub(crate) fn north(&self) -> FormRow
        ensures { row_of result ≡ line_of (matrix_of self.now) North }
    {
        FormRow {
            e: self.a12,
            n: self.a22,
            u: self.a23,
            k: self.a24,
        }
    }

    /// The row up.
    #[inline(always)]
    pub(crate) fn up(&self) -> FormRow
        ensures { row_of result ≡ line_of (matrix_of self.now) Up }
    {
        FormRow {
            e: self.a13,
            n: self.a23,
            u: self.a33,
            k: self.a34,
        }
    }

    /// The row of the clock.
    #[inline(always)]
    pub(crate) fn clock(&self) -> FormRow
        ensures { row_of result ≡ line_of (matrix_of self.now) Clock }
    {
        FormRow {
            e: self.a14,
            n: self.a24,
            u: self.a34,
            k: self.a44,
        }
    }
}
