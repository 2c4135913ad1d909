// Laws of the geometry, each the contract of a function that does nothing.

ghost use Rattle.std.specs.Prelude.{◌≡◌, ◌≢◌, ℕ, pos, negsuc, ◌+◌, ◌^◌, ◌<◌, true, false, List, [], length, take, map, slice_index_or, Contains, All, Some, None};
ghost use Rattle.fractions.specs.Fraction.{Fraction, ratio, whole, zeroᶠ, oneᶠ, ◌+ᶠ◌, ◌*ᶠ◌, ◌≤ᶠ◌, ◌<ᶠ◌};
ghost use Rattle.raim_model.specs.declared.verdict.Why.TheVariants.{Few, Singular, Slope as TooSteep};
ghost use Rattle.raim_model.specs.Constants.{least_determinant};
ghost use Rattle.raim_model.specs.Geometry.{Axis, East, North, Up, Row, row_of, Matrix, normal_matrix, determinant, apply, IsInverse, inverse_of, unit, with_column, SquaredShift, horizontal, vertical, residual_share};
ghost use Rattle.raim_model.specs.PointVerdict.{fault_of, reason_of, without_one};
ghost use Rattle.geometry_laws.specs.Minors.{minor, det_by_minors, cofactor, adjugate, transposed};
ghost use Rattle.geometry_laws.specs.Without.{without};
ghost use Rattle.geometry_laws.specs.Shifts.{IsSquare};
ghost use Rattle.geometry_laws.specs.Worked.{minus_one, five_rows, six_rows, rows_up, halved};

/// A matrix whose determinant is not 0 has an inverse, and `inverse_of` is the only one.
pub fn inverses_are_by_cramers_rule()
    ensures is_one { (h : Matrix) → determinant h ≢ zeroᶠ → IsInverse h (inverse_of h) }
    ensures only_one { (h X : Matrix) → determinant h ≢ zeroᶠ → IsInverse h X → (j k : Axis) → X j k ≡ inverse_of h j k }
{}

/// The determinant and the adjugate by minors.
pub fn minors_give_the_determinant()
    // by complementary two by two minors
    ensures complementary { (h : Matrix) → det_by_minors h ≡ determinant h }
    // a cofactor is the determinant with a unit column in the place of its own
    ensures cofactors { (h : Matrix) (j k : Axis) → cofactor h j k ≡ determinant (with_column h k (unit j)) }
    // and so the adjugate has the cofactors, rows and columns turned
    ensures adjugates { (h : Matrix) (j k : Axis) → adjugate h j k ≡ cofactor h k j }
    // which are those of the matrix with rows and columns turned, and so of a symmetric one its own
    ensures turned { (h : Matrix) (j k : Axis) → cofactor h k j ≡ cofactor (transposed h) j k }
    // the normal matrix of any rows is symmetric
    ensures symmetric { (rows : List Row) (j k : Axis) → normal_matrix rows j k ≡ normal_matrix rows k j }
{}

/// The horizontal and the vertical shift are squares of what an inverse makes of a row.
pub fn shifts_are_squares()
    ensures across { IsSquare horizontal }
    ensures up { IsSquare vertical }
{}

/// The test of one list of rows, said of any X with H X = I.
pub fn slopes_are_tested_by_any_inverse()
    ensures singular { (shift : SquaredShift) (kappa : Fraction) (rows : List Row) → determinant (normal_matrix rows) <ᶠ least_determinant → fault_of shift kappa rows ≡ Some Singular }
    ensures steep { (shift : SquaredShift) → IsSquare shift → (kappa : Fraction) (rows : List Row) (X : Matrix) (g : Row) → least_determinant ≤ᶠ determinant (normal_matrix rows) → IsInverse (normal_matrix rows) X → Contains rows g → residual_share X g <ᶠ kappa *ᶠ shift X g → fault_of shift kappa rows ≡ Some TooSteep }
    ensures passes { (shift : SquaredShift) → IsSquare shift → (kappa : Fraction) (rows : List Row) (X : Matrix) → least_determinant ≤ᶠ determinant (normal_matrix rows) → IsInverse (normal_matrix rows) X → All (λ g. kappa *ᶠ shift X g ≤ᶠ residual_share X g) rows → fault_of shift kappa rows ≡ None }
{}

/// The test without a division: with D = det H, the squared slopes are held against D times the determinant without a row.
pub fn slopes_need_no_division()
    // D S_ii is the determinant without the row i
    ensures residuals { (rows : List Row) (X : Matrix) (i : ℕ) (d : Row) → IsInverse (normal_matrix rows) X → i < length rows → determinant (normal_matrix rows) *ᶠ residual_share X (slice_index_or rows i d) ≡ determinant (normal_matrix (without i rows)) }
    // the lists without one row are those without the row at each place
    ensures lists { (rows : List Row) (i : ℕ) → i < length rows → slice_index_or (without_one rows) i [] ≡ without i rows }
    // D X is the adjugate
    ensures entries { (h X : Matrix) → IsInverse h X → (j k : Axis) → determinant h *ᶠ X j k ≡ adjugate h j k }
    // and D A_i what the row i has of it
    ensures alphas { (h X : Matrix) → IsInverse h X → (g : Row) (j : Axis) → determinant h *ᶠ apply X g j ≡ apply (adjugate h) g j }
    // so a row is too steep
    ensures steep { (shift : SquaredShift) → IsSquare shift → (kappa : Fraction) (rows : List Row) (i : ℕ) (d : Row) → least_determinant ≤ᶠ determinant (normal_matrix rows) → i < length rows
        → determinant (normal_matrix rows) *ᶠ determinant (normal_matrix (without i rows)) <ᶠ kappa *ᶠ shift (adjugate (normal_matrix rows)) (slice_index_or rows i d) → fault_of shift kappa rows ≡ Some TooSteep }
    // or none is
    ensures passes { (shift : SquaredShift) → IsSquare shift → (kappa : Fraction) (rows : List Row) → least_determinant ≤ᶠ determinant (normal_matrix rows)
        → ((i : ℕ) (d : Row) → i < length rows → kappa *ᶠ shift (adjugate (normal_matrix rows)) (slice_index_or rows i d) ≤ᶠ determinant (normal_matrix rows) *ᶠ determinant (normal_matrix (without i rows))) → fault_of shift kappa rows ≡ None }
{}

/// A list without one of its entries.
pub fn lists_lose_an_entry<A, B>()
    ensures mapped { (f : A → B) (i : ℕ) (xs : List A) → map f (without i xs) ≡ without i (map f xs) }
    ensures shorter { (i : ℕ) (xs : List A) → i < length xs → length (without i xs) + 1 ≡ length xs }
{}

/// Small lists of rows, computed.
pub fn worked_geometries()
    ensures five { determinant (normal_matrix five_rows) ≡ whole (pos 16) }
    ensures five_without_first { determinant (normal_matrix (without 0 five_rows)) ≡ whole (pos 4) }
    ensures five_without_last { determinant (normal_matrix (without 4 five_rows)) ≡ zeroᶠ }
    ensures six { determinant (normal_matrix six_rows) ≡ whole (pos 48) }
    ensures six_without_first { determinant (normal_matrix (without 0 six_rows)) ≡ whole (pos 16) }
    ensures six_without_third { determinant (normal_matrix (without 2 six_rows)) ≡ whole (pos 16) }
    ensures six_without_two { determinant (normal_matrix (without 0 (without 0 six_rows))) ≡ zeroᶠ }
    ensures halved_five { determinant (normal_matrix (map halved five_rows)) ≡ ratio (pos 1) 16 }
    ensures halved_without_first { determinant (normal_matrix (without 0 (map halved five_rows))) ≡ ratio (pos 1) 64 }
    ensures alpha_first { apply (adjugate (normal_matrix five_rows)) (row_of oneᶠ zeroᶠ zeroᶠ) East ≡ whole (pos 8) }
    ensures alpha_second { apply (adjugate (normal_matrix five_rows)) (row_of minus_one zeroᶠ zeroᶠ) East ≡ whole (negsuc 7) }
    ensures alpha_third { apply (adjugate (normal_matrix five_rows)) (row_of zeroᶠ oneᶠ zeroᶠ) North ≡ whole (pos 8) }
    ensures alpha_last { apply (adjugate (normal_matrix five_rows)) (row_of zeroᶠ zeroᶠ oneᶠ) East ≡ zeroᶠ }
    ensures passes { fault_of horizontal oneᶠ five_rows ≡ None }
    ensures steep { fault_of horizontal (ratio (pos (2 ^ 38 + 1)) (2 ^ 38)) five_rows ≡ Some TooSteep }
    ensures singular { fault_of horizontal oneᶠ rows_up ≡ Some Singular }
    ensures few { reason_of horizontal false oneᶠ oneᶠ (take 4 five_rows) ≡ Some Few }
    ensures six_pass { reason_of horizontal false oneᶠ oneᶠ six_rows ≡ None }
    ensures one_excluded { reason_of horizontal true oneᶠ oneᶠ six_rows ≡ Some TooSteep }
    ensures one_excluded_passes { reason_of horizontal true oneᶠ zeroᶠ six_rows ≡ None }
    ensures few_to_exclude { reason_of horizontal true oneᶠ oneᶠ five_rows ≡ Some Few }
    ensures halved_alpha_first { apply (adjugate (normal_matrix (map halved five_rows))) (halved (row_of oneᶠ zeroᶠ zeroᶠ)) East ≡ ratio (pos 1) 16 }
    // upwards: of five, where four lie in a plane, the fifth one has a slope and no residual; of six the bound is 4/3
    ensures up_steep { fault_of vertical oneᶠ five_rows ≡ Some TooSteep }
    ensures up_passes { fault_of vertical zeroᶠ five_rows ≡ None }
    ensures up_six_pass { fault_of vertical (ratio (pos 4) 3) six_rows ≡ None }
    ensures up_six_steep { fault_of vertical (ratio (pos 366503875926) (2 ^ 38)) six_rows ≡ Some TooSteep }
    ensures up_alpha_last { apply (adjugate (normal_matrix six_rows)) (row_of zeroᶠ zeroᶠ oneᶠ) Up ≡ whole (pos 24) }
    ensures halved_passes { fault_of horizontal (ratio (pos 1) 4) (map halved five_rows) ≡ None }
    ensures halved_steep { fault_of horizontal (ratio (pos (2 ^ 36 + 1)) (2 ^ 38)) (map halved five_rows) ≡ Some TooSteep }
{}
