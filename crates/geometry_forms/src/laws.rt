// Laws of matrices of forms, each the contract of a function that does nothing.
ghost use Rattle.std.specs.Prelude.{◌≡◌, ℕ, ℤ, ◌<◌, List, length, slice_index_or};
ghost use Rattle.raim_model.specs.Geometry.{Axis};
ghost use Rattle.fix_interval.specs.Ends.{Ends};
ghost use Rattle.geometry_laws.specs.Without.{without};
ghost use Rattle.geom_laws.specs.Rows.{RowEnds};
ghost use Rattle.geom_laws.specs.Symmetric.{SymEnds};
ghost use Rattle.geom_laws.specs.Gram.{sum_of, gram_of};
ghost use Rattle.geom_laws.specs.Determinant.{minor_of, det_of};
ghost use Rattle.geom_laws.specs.Adjugate.{adjugate_of, alpha_of, horizontal_of, vertical_of};
ghost use Rattle.time_forms.specs.Forms.{Form, IsTime, Holds};
ghost use Rattle.time_forms.specs.Operations.{less_form};
ghost use Rattle.geometry_forms.specs.Rows.{RowForm, RowHolds, RowsHold};
ghost use Rattle.geometry_forms.specs.Matrices.{SymForm, SymHolds};
ghost use Rattle.geometry_forms.specs.Geometry.{product_form, sum_form, gram_form, minor_form, det_form, adjugate_form, alpha_form, horizontal_form, vertical_form};

/// The sums of the products of the parts of rows, and the normal matrix; and the sums without a row, which are those of all rows less the row's products.
pub fn normal_matrices_of_forms_hold()
    ensures sums { (h : ℕ) (d : ℤ) (fs : List RowForm) (rs : List RowEnds) → IsTime h d → RowsHold h d fs rs
        → (j k : Axis) → Holds h d (sum_form fs j k) (sum_of rs j k) }
    ensures matrix { (h : ℕ) (d : ℤ) (fs : List RowForm) (rs : List RowEnds) → IsTime h d → RowsHold h d fs rs
        → SymHolds h d (gram_form fs) (gram_of rs) }
    ensures less { (fs : List RowForm) (i : ℕ) (f : RowForm) (j k : Axis) → i < length fs
        → less_form (sum_form fs j k) (product_form (slice_index_or fs i f) j k) ≡ sum_form (without i fs) j k }
    ensures without { (h : ℕ) (d : ℤ) (fs : List RowForm) (rs : List RowEnds) (i : ℕ) → RowsHold h d fs rs
        → RowsHold h d (without i fs) (without i rs) }
{}

/// Minors of two rows, and the determinant.
pub fn determinants_of_forms_hold()
    ensures minor { (h : ℕ) (d : ℤ) (f : SymForm) (x : SymEnds) → IsTime h d → SymHolds h d f x
        → (p q j k : Axis) → Holds h d (minor_form f p q j k) (minor_of x p q j k) }
    ensures determinant { (h : ℕ) (d : ℤ) (f : SymForm) (x : SymEnds) → IsTime h d → SymHolds h d f x
        → Holds h d (det_form f) (det_of x) }
{}

/// The adjugate, what a row has of it, and the squares of that.
pub fn adjugates_of_forms_hold()
    ensures adjugate { (h : ℕ) (d : ℤ) (f : SymForm) (x : SymEnds) → IsTime h d → SymHolds h d f x
        → SymHolds h d (adjugate_form f) (adjugate_of x) }
    ensures share { (h : ℕ) (d : ℤ) (f : SymForm) (x : SymEnds) (g : RowForm) (r : RowEnds) (j : Axis) → IsTime h d
        → SymHolds h d f x → RowHolds h d g r → Holds h d (alpha_form f g j) (alpha_of x r j) }
    ensures horizontal { (h : ℕ) (d : ℤ) (f g : Form) (a b : Ends) → IsTime h d → Holds h d f a → Holds h d g b
        → Holds h d (horizontal_form f g) (horizontal_of a b) }
    ensures vertical { (h : ℕ) (d : ℤ) (f : Form) (a : Ends) → IsTime h d → Holds h d f a
        → Holds h d (vertical_form f) (vertical_of a) }
{}
