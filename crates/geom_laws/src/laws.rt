// Laws of the geometry over intervals, each the contract of a function that does nothing.

ghost use Rattle.std.specs.Prelude.{◌≡◌, ℕ, pos, ◌+◌, ◌*◌, ◌^◌, ◌≤◌, ◌<◌, ◌≤ℤ◌, List, length, slice_index_or, All};
ghost use Rattle.fractions.specs.Fraction.{Fraction};
ghost use Rattle.raim_model.specs.Geometry.{Axis, Row, Matrix, normal_matrix, determinant, row_of, apply, weighed};
ghost use Rattle.fix_interval.specs.Ends.{Ends, IsInside};
ghost use Rattle.fix_interval.specs.Lies.{Lies};
ghost use Rattle.fix_interval.specs.Sums.{add_of};
ghost use Rattle.fix_interval.specs.Products.{mul_wide_of};
ghost use Rattle.geometry_laws.specs.Minors.{adjugate};
ghost use Rattle.geometry_laws.specs.Without.{without};
ghost use Rattle.fix_interval.specs.Ranges.{around, one_ends};
ghost use Rattle.geom_laws.specs.Rows.{RowEnds, part, row_of_ends, weighed_of, RowLies, RowInside, RowWithin, RowsLie, RowsInside};
ghost use Rattle.geom_laws.specs.Symmetric.{SymEnds, SymLies, SymInside, SymWithin};
ghost use Rattle.geom_laws.specs.Gram.{product_of, sum_of, sums_of, gram_of, gram_without_of};
ghost use Rattle.geom_laws.specs.Determinant.{minor_of, det_of};
ghost use Rattle.geom_laws.specs.Adjugate.{adjugate_of, alpha_of, horizontal_of, vertical_of};

/// The row of a direction, and of a direction and a weight.
pub fn rows_are_weighed()
    ensures encloses { (e n u k : Ends) (x y z w : Fraction) → Lies e 38 x → Lies n 38 y → Lies u 38 z → Lies k 38 w → RowLies (weighed_of e n u k) (weighed w (row_of x y z)) }
    ensures isotone { (e n u k a b c d : Ends) → IsInside e a → IsInside n b → IsInside u c → IsInside k d → RowInside (weighed_of e n u k) (weighed_of a b c d) }
    ensures bound { (e n u k : Ends) → IsInside e (around (2 ^ 38 + 1)) → IsInside n (around (2 ^ 38 + 1)) → IsInside u (around (2 ^ 38 + 1)) → IsInside k record { lo = pos 0; hi = pos (2 ^ 38) } → RowWithin (weighed_of e n u k) (2 ^ 38 + 1) }
    // the weight 1 changes nothing
    ensures unweighed { (e n u : Ends) → e.lo ≤ℤ e.hi → n.lo ≤ℤ n.hi → u.lo ≤ℤ u.hi → weighed_of e n u one_ends ≡ row_of_ends e n u }
{}

/// The normal matrix of rows, and without one of them.
pub fn gram_is_enclosed()
    ensures encloses { (rows : List RowEnds) (gs : List Row) → RowsLie rows gs → SymLies (gram_of rows) (normal_matrix gs) }
    ensures encloses_without { (rows : List RowEnds) (gs : List Row) (i : ℕ) → RowsLie rows gs → SymLies (gram_without_of rows i) (normal_matrix (without i gs)) }
    ensures isotone { (rows wider : List RowEnds) → RowsInside rows wider → SymInside (gram_of rows) (gram_of wider) }
    ensures isotone_without { (rows wider : List RowEnds) (i : ℕ) → RowsInside rows wider → SymInside (gram_without_of rows i) (gram_without_of wider i) }
    // what the sum over the rows is without one of them
    ensures split { (rows : List RowEnds) (i : ℕ) (d : RowEnds) (j k : Axis) → i < length rows → sum_of rows j k ≡ add_of (product_of (slice_index_or rows i d) j k) (sum_of (without i rows) j k) }
    ensures sums_bound { (rows : List RowEnds) → length rows ≤ 32 → All (λ r. RowWithin r (2 ^ 38 + 1)) rows → SymWithin (sums_of rows) (2 ^ 82) }
    ensures bound { (rows : List RowEnds) → length rows ≤ 32 → All (λ r. RowWithin r (2 ^ 38 + 1)) rows → SymWithin (gram_of rows) (2 ^ 43 + 2 ^ 7) }
    ensures bound_without { (rows : List RowEnds) (i : ℕ) → length rows ≤ 32 → All (λ r. RowWithin r (2 ^ 38 + 1)) rows → SymWithin (gram_without_of rows i) (2 ^ 43 + 2 ^ 7) }
{}

/// The determinant, and the product of two.
pub fn determinant_is_enclosed()
    ensures encloses { (h : SymEnds) (X : Matrix) → SymLies h X → Lies (det_of h) 38 (determinant X) }
    ensures isotone { (h wider : SymEnds) → SymInside h wider → IsInside (det_of h) (det_of wider) }
    ensures minor_bound { (h : SymEnds) (p q j k : Axis) → SymWithin h (2 ^ 43 + 2 ^ 7) → IsInside (minor_of h p q j k) (around (2 ^ 49 + 2 ^ 16)) }
    ensures bound { (h : SymEnds) → SymWithin h (2 ^ 43 + 2 ^ 7) → IsInside (det_of h) (around (7 * 2 ^ 60)) }
    ensures product_bound { (a b : Ends) → IsInside a (around (7 * 2 ^ 60)) → IsInside b (around (7 * 2 ^ 60)) → IsInside (mul_wide_of a b) (around (49 * 2 ^ 120)) }
{}

/// The adjugate.
pub fn adjugate_is_enclosed()
    ensures encloses { (h : SymEnds) (X : Matrix) → SymLies h X → SymLies (adjugate_of h) (adjugate X) }
    ensures isotone { (h wider : SymEnds) → SymInside h wider → SymInside (adjugate_of h) (adjugate_of wider) }
    ensures bound { (h : SymEnds) → SymWithin h (2 ^ 43 + 2 ^ 7) → SymWithin (adjugate_of h) (13 * 2 ^ 52) }
{}

/// What a row has of the adjugate, and the squares of its horizontal and of its vertical part.
pub fn alphas_are_enclosed()
    ensures encloses { (adj : SymEnds) (r : RowEnds) (X : Matrix) (g : Row) (j : Axis) → SymLies adj X → RowLies r g → Lies (alpha_of adj r j) 38 (apply X g j) }
    ensures isotone { (adj a : SymEnds) (r s : RowEnds) (j : Axis) → SymInside adj a → RowInside r s → IsInside (alpha_of adj r j) (alpha_of a s j) }
    ensures bound { (adj : SymEnds) (r : RowEnds) (j : Axis) → SymWithin adj (13 * 2 ^ 52) → RowWithin r (2 ^ 38 + 1) → IsInside (alpha_of adj r j) (around (7 * 2 ^ 55)) }
    ensures square_bound { (a b : Ends) → IsInside a (around (7 * 2 ^ 55)) → IsInside b (around (7 * 2 ^ 55)) → IsInside (horizontal_of a b) record { lo = pos 0; hi = pos (2 ^ 79) } }
    ensures vertical_bound { (a : Ends) → IsInside a (around (7 * 2 ^ 55)) → IsInside (vertical_of a) record { lo = pos 0; hi = pos (2 ^ 79) } }
{}
