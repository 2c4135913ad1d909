// The two by two minors of two rows of a matrix.

ghost use Rattle.std.specs.Prelude.{◌≡◌, ◌^◌, IfSome, IsSome};
ghost use Rattle.time_forms.specs.Programs.{form, IsFormWithin};
ghost use Rattle.geometry_forms.specs.Geometry.{crossed_form};
ghost use Rattle.matrix_forms.specs.Views.{row_of, minors_of};
ghost use Rattle.matrix_forms.specs.Shorts.{IsShort, AreShortMinors};
ghost use Rattle.matrix_forms.specs.Lines.{line_minors};

use crate::minor::Minors;
use crate::products::product;
use crate::row::FormRow;
use time_forms::{TimeForm, narrow, sub_wide};

/// a b - c d.
#[inline(always)]
fn crossed(a: TimeForm, b: TimeForm, c: TimeForm, d: TimeForm) -> Option<TimeForm>
    requires a_small { IsFormWithin (form a) (2 ^ 58) }
    requires b_small { IsFormWithin (form b) (2 ^ 58) }
    requires c_small { IsFormWithin (form c) (2 ^ 58) }
    requires d_small { IsFormWithin (form d) (2 ^ 58) }
    ensures exact { IfSome result (λ f. form f ≡ crossed_form (form a) (form b) (form c) (form d)) }
    ensures some { IsShort (crossed_form (form a) (form b) (form c) (form d)) → IsSome result }
    ensures small { IfSome result (λ f. IsFormWithin (form f) (2 ^ 58)) }
{
    narrow(sub_wide(product(a, b), product(c, d)))
}

/// The minors of two rows; none where one of them leaves 64 bits.
#[inline(always)]
pub(crate) fn minors(p: &FormRow, q: &FormRow) -> Option<Minors>
    ensures exact { IfSome result (λ m. minors_of m ≡ line_minors (row_of p.now) (row_of q.now)) }
    ensures some { AreShortMinors (line_minors (row_of p.now) (row_of q.now)) → IsSome result }
{
    Some(Minors {
        m12: crossed(p.e, q.n, p.n, q.e)?,
        m13: crossed(p.e, q.u, p.u, q.e)?,
        m14: crossed(p.e, q.k, p.k, q.e)?,
        m23: crossed(p.n, q.u, p.u, q.n)?,
        m24: crossed(p.n, q.k, p.k, q.n)?,
        m34: crossed(p.u, q.k, p.k, q.u)?,
    })
}
