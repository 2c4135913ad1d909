// Laws of what forms tell of slopes, each the contract of a function that does nothing.
ghost use Rattle.std.specs.Prelude.{ℕ, ℤ, ◌*◌, ◌^◌, ◌+◌, List};
ghost use Rattle.fix_interval.specs.Ends.{Ends, IsInside};
ghost use Rattle.geom_laws.specs.Rows.{RowEnds, RowWithin};
ghost use Rattle.geom_laws.specs.Symmetric.{SymEnds, SymWithin};
ghost use Rattle.slope_laws.specs.declared.shift.Shift.{Shift};
ghost use Rattle.slope_laws.specs.Rows.{NamedRow};
ghost use Rattle.slope_laws.specs.ShiftSlopes.{squared_of, outcome_of, ends_of, detect_of, exclude_of};
ghost use Rattle.time_forms.specs.Forms.{Form, IsTime, Holds};
ghost use Rattle.geometry_forms.specs.Rows.{RowForm, RowHolds, RowsHold};
ghost use Rattle.geometry_forms.specs.Matrices.{SymForm, SymHolds};
ghost use Rattle.slope_forms.specs.Told.{TellsOutcome, TellsVerdict};
ghost use Rattle.slope_forms.specs.Slopes.{squared_form, slope_told, detect_told, exclude_told, AreSmall, safe_factors};

/// The squared shift of a row, and what its slope's form tells of the written comparison: for entries of at most 13 2^52 units, parts of
/// a row of at most 2^38 + 1 and a factor of at most 512 no written product leaves 128 bits, and an outcome that is told is the written one.
pub fn slopes_of_forms_tell()
    ensures squared { (h : ℕ) (d : ℤ) (shift : Shift) (f : SymForm) (x : SymEnds) (g : RowForm) (r : RowEnds) → IsTime h d
        → SymHolds h d f x → RowHolds h d g r → Holds h d (squared_form shift f g) (squared_of shift x r) }
    ensures slope { (h : ℕ) (d : ℤ) (shift : Shift) (f : SymForm) (x : SymEnds) (fd fe : Form) (a b : Ends) (g : RowForm) (r : RowEnds) (fk : Form) (kappa : Ends) → IsTime h d
        → SymHolds h d f x → Holds h d fd a → Holds h d fe b → RowHolds h d g r → Holds h d fk kappa
        → SymWithin x (13 * 2 ^ 52) → RowWithin r (2 ^ 38 + 1) → IsInside kappa safe_factors
        → TellsOutcome (slope_told shift f fd fe g fk) (outcome_of shift x a b r kappa) }
{}

/// What forms tell of a list of rows is so of the written verdict, for at most 32 rows with parts of at most 2^38 + 1 units and factors
/// of at most 512: of fault detection, and of fault exclusion.
pub fn lists_of_forms_tell()
    ensures detection { (h : ℕ) (d : ℤ) (shift : Shift) (fs : List RowForm) (rows : List NamedRow) (fk : Form) (kappa : Ends) → IsTime h d
        → RowsHold h d fs (ends_of rows) → AreSmall rows → Holds h d fk kappa → IsInside kappa safe_factors
        → TellsVerdict (detect_told shift fs fk) (detect_of shift rows kappa) }
    ensures exclusion { (h : ℕ) (d : ℤ) (shift : Shift) (fs : List RowForm) (rows : List NamedRow) (fk fl : Form) (kappa kappa_less : Ends) → IsTime h d
        → RowsHold h d fs (ends_of rows) → AreSmall rows → Holds h d fk kappa → IsInside kappa safe_factors → Holds h d fl kappa_less → IsInside kappa_less safe_factors
        → TellsVerdict (exclude_told shift fs fk fl) (exclude_of shift rows kappa kappa_less) }
{}
