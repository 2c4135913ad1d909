// Laws of the verdict on a piece of time, each the contract of a function that does nothing.
ghost use Rattle.std.specs.Prelude.{◌≡◌, ℕ, ◌≤◌, ℤ, ◌≤ℤ◌, true};
ghost use Rattle.raim_model.specs.declared.almanac.AlmRecord.{AlmRecord};
ghost use Rattle.raim_model.specs.declared.verdict.Cmp.TheVariants.{Mask};
ghost use Rattle.raim_model.specs.declared.verdict.Verdict.TheVariants.{Undecided};
ghost use Rattle.raim_model.specs.CaseCuts.{MayBeJudged};
ghost use Rattle.raim_model.specs.Geometry.{SquaredShift};
ghost use Rattle.raim_model.specs.Judgements.{is_certain};
ghost use Rattle.raim_model.specs.Level.{Level};
ghost use Rattle.raim_model.specs.Solution.{Case, InFlight, Solution, HasVerdictFor};
ghost use Rattle.slope_laws.specs.Slopes.{SlopeTest};
ghost use Rattle.slope_laws.specs.Hold.{HoldsSlopes};
ghost use Rattle.verdict_laws.specs.Sights.{Sight};
ghost use Rattle.verdict_laws.specs.PieceVerdict.{piece_verdict_by};
ghost use Rattle.verdict_laws.specs.NearMask.{IsNearMaskAlways};
ghost use Rattle.verdict_laws.specs.Hold.{HoldsSights};
ghost use Rattle.verdict_laws.specs.Choices.{HasChoices};

/// A certain verdict on a piece, Available or Unavailable, stays on each piece inside.
pub fn certain_verdicts_settle()
    // the verdict on the piece inside is the same, with the same reason
    ensures { (shift : SquaredShift) (test : SlopeTest) (alert_mm : ℕ) (sight : AlmRecord → ℤ → ℤ → Sight) (c : Case) (first last a b : ℤ) → HoldsSlopes shift test → 1 ≤ alert_mm → HoldsSights c sight → MayBeJudged c first last
        → is_certain (piece_verdict_by test alert_mm sight c first last) ≡ true → first ≤ℤ a → a ≤ℤ b → b ≤ℤ last → piece_verdict_by test alert_mm sight c a b ≡ piece_verdict_by test alert_mm sight c first last }
{}

/// A certain verdict on a piece is right at each of its milliseconds.
pub fn certain_verdicts_are_right()
    // every solution, at every level, has that verdict, for the shift that the test is of
    ensures { (shift : SquaredShift) (test : SlopeTest) (alert_mm : ℕ) (sight : AlmRecord → ℤ → ℤ → Sight) (c : Case) (first last t : ℤ) → HoldsSlopes shift test → 1 ≤ alert_mm → HoldsSights c sight → MayBeJudged c first last
        → is_certain (piece_verdict_by test alert_mm sight c first last) ≡ true → first ≤ℤ t → t ≤ℤ last → HasVerdictFor shift alert_mm c t (piece_verdict_by test alert_mm sight c first last) }
{}

/// Verdicts speak of something: there is a solution.
pub fn solutions_exist()
    // at every millisecond of the flight and every level, where there is something to choose from
    ensures { (c : Case) (N : Level) (t : ℤ) → HasChoices c → InFlight c t → Solution N c t }
{}

/// The mask leaves a millisecond undecided only near equality.
pub fn undecided_masks_are_near()
    // the satellite that is named is usable, and every solution at every level has it at 1 Mm or at the mask, to 2^-15 Mm
    ensures { (test : SlopeTest) (alert_mm : ℕ) (sight : AlmRecord → ℤ → ℤ → Sight) (c : Case) (t : ℤ) (prn : ℕ) → HoldsSights c sight → MayBeJudged c t t
        → piece_verdict_by test alert_mm sight c t t ≡ Undecided (Mask prn) → IsNearMaskAlways c t prn }
{}
