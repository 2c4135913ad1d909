// The determinant of a matrix of forms.

ghost use Rattle.std.specs.Prelude.{◌≡◌, ℕ, ℤ, ◌^◌, IfSome, IsSome};
ghost use Rattle.raim_model.specs.Geometry.{East, North, Up, Clock};
ghost use Rattle.geom_laws.specs.Symmetric.{SymEnds};
ghost use Rattle.geom_laws.specs.Determinant.{det_of};
ghost use Rattle.time_forms.specs.Forms.{IsTime, Holds};
ghost use Rattle.time_forms.specs.Operations.{narrow_form};
ghost use Rattle.time_forms.specs.Programs.{form, IsFormWithin};
ghost use Rattle.geometry_forms.specs.Matrices.{SymHolds};
ghost use Rattle.geometry_forms.specs.Geometry.{minor_forms, laplace_form, det_form};
ghost use Rattle.matrix_forms.specs.Views.{matrix_of, minors_of};
ghost use Rattle.matrix_forms.specs.Shorts.{IsShort, AreShortMinors};

use crate::matrix::FormMatrix;
use crate::minor::Minors;
use crate::minors::minors;
use crate::products::product;
use time_forms::{TimeForm, add_wide, narrow, sub_wide};

/// The sum of the products of complementary minors with their signs.
#[inline(always)]
fn laplace(s: Minors, c: Minors) -> Option<TimeForm>
    ensures exact { IfSome result (λ f. form f ≡ narrow_form (laplace_form (minors_of s) (minors_of c))) }
    ensures some { IsShort (narrow_form (laplace_form (minors_of s) (minors_of c))) → IsSome result }
    ensures small { IfSome result (λ f. IsFormWithin (form f) (2 ^ 58)) }
{
    let two = sub_wide(product(s.m12, c.m34), product(s.m13, c.m24));
    let three = add_wide(two, product(s.m14, c.m23));
    let four = add_wide(three, product(s.m23, c.m14));
    let five = sub_wide(four, product(s.m24, c.m13));
    narrow(add_wide(five, product(s.m34, c.m12)))
}

/// The determinant, by complementary two by two minors; none where one of these, or the determinant, leaves 64 bits.
pub fn det(h: &FormMatrix) -> Option<TimeForm>
    ensures exact { IfSome result (λ f. form f ≡ det_form (matrix_of h.now)) }
    ensures some { AreShortMinors (minor_forms (matrix_of h.now) East North) → AreShortMinors (minor_forms (matrix_of h.now) Up Clock)
        → IsShort (det_form (matrix_of h.now)) → IsSome result }
    ensures holds { (half : ℕ) (d : ℤ) (x : SymEnds) → IsTime half d → SymHolds half d (matrix_of h.now) x
        → IfSome result (λ f. Holds half d (form f) (det_of x)) }
    ensures small { IfSome result (λ f. IsFormWithin (form f) (2 ^ 58)) }
{
    let above = minors(&h.east(), &h.north())?;
    let below = minors(&h.up(), &h.clock())?;
    laplace(above, below)
}
