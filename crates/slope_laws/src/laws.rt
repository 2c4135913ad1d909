// Laws of the test of slopes over a piece of time, each the contract of a function that does nothing.
ghost use Rattle.std.specs.Prelude.{◌≡◌, ◌<◌, ◌↔◌, List, length, true, false};
ghost use Rattle.fractions.specs.Fraction.{Fraction};
ghost use Rattle.raim_model.specs.declared.verdict.Why.TheVariants.{Few};
ghost use Rattle.raim_model.specs.Geometry.{Row, SquaredShift};
ghost use Rattle.raim_model.specs.PointVerdict.{reason_of};
ghost use Rattle.fix_interval.specs.Ends.{Ends, IsInside};
ghost use Rattle.fix_interval.specs.Lies.{Lies};
ghost use Rattle.raim_model.specs.declared.verdict.Verdict.TheVariants.{Unavailable};
ghost use Rattle.slope_laws.specs.declared.shift.Shift.{Shift};
ghost use Rattle.slope_laws.specs.Rows.{NamedRow, NamedRowsLie, NamedRowsInside};
ghost use Rattle.slope_laws.specs.Slopes.{SlopeTest, detect_by};
ghost use Rattle.slope_laws.specs.Subsets.{exclude_by};
ghost use Rattle.slope_laws.specs.ShiftSlopes.{squared_shift, slopes_for};
ghost use Rattle.slope_laws.specs.Hold.{LeavesVerdict, Tells, HoldsSlopes};

/// The slopes of either shift, by determinants and with no division, are enclosed.
pub fn slopes_are_enclosed()
    ensures { (shift : Shift) → HoldsSlopes (squared_shift shift) (slopes_for shift) }
{}

/// A decided test of a list of rows, over a piece of time, is right.
pub fn decided_tests_are_right()
    // it tells the reason of every choice of rows and factors inside, or that there is none
    ensures detect { (shift : SquaredShift) (test : SlopeTest) (rows : List NamedRow) (kappa : Ends) (gs : List Row) (k k_less : Fraction) → HoldsSlopes shift test
        → NamedRowsLie rows gs → Lies kappa 38 k → Tells (detect_by test rows kappa) (reason_of shift false k k_less gs) }
    ensures exclude { (shift : SquaredShift) (test : SlopeTest) (rows : List NamedRow) (kappa kappa_less : Ends) (gs : List Row) (k k_less : Fraction) → HoldsSlopes shift test
        → NamedRowsLie rows gs → Lies kappa 38 k → Lies kappa_less 38 k_less → Tells (exclude_by test rows kappa kappa_less) (reason_of shift true k k_less gs) }
{}

/// A decided test of a list of rows is that of each list inside, under each factor inside.
pub fn decided_tests_stay()
    ensures detect { (shift : SquaredShift) (test : SlopeTest) (rows wide : List NamedRow) (kappa wide_kappa : Ends) → HoldsSlopes shift test
        → NamedRowsInside rows wide → IsInside kappa wide_kappa → LeavesVerdict (detect_by test wide wide_kappa) (detect_by test rows kappa) }
    ensures exclude { (shift : SquaredShift) (test : SlopeTest) (rows wide : List NamedRow) (kappa wide_kappa kappa_less wide_less : Ends) → HoldsSlopes shift test
        → NamedRowsInside rows wide → IsInside kappa wide_kappa → IsInside kappa_less wide_less → LeavesVerdict (exclude_by test wide wide_kappa wide_less) (exclude_by test rows kappa kappa_less) }
{}

/// A test answers Few exactly where there are fewer than five rows, and for exclusion fewer than six.
pub fn few_rows_are_few()
    ensures detect { (test : SlopeTest) (rows : List NamedRow) (kappa : Ends) → (detect_by test rows kappa ≡ Unavailable Few ↔ length rows < 5) }
    ensures exclude { (test : SlopeTest) (rows : List NamedRow) (kappa kappa_less : Ends) → (exclude_by test rows kappa kappa_less ≡ Unavailable Few ↔ length rows < 6) }
{}
