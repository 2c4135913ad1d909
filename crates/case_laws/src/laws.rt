// Laws of the verdict on a piece of time of a case's flight, each the contract of a function that does nothing.
ghost use Rattle.std.specs.Prelude.{◌≡◌, ℕ, ◌≤◌, ℤ, ◌≤ℤ◌, List, true};
ghost use Rattle.raim_model.specs.declared.limits.Weight.{Weight};
ghost use Rattle.raim_model.specs.declared.verdict.Cmp.TheVariants.{Mask};
ghost use Rattle.raim_model.specs.declared.verdict.Verdict.TheVariants.{Undecided};
ghost use Rattle.raim_model.specs.declared.verdict.Run.{Run};
ghost use Rattle.raim_model.specs.CaseCuts.{MayBeJudged};
ghost use Rattle.raim_model.specs.CaseRanges.{IsCase};
ghost use Rattle.raim_model.specs.Judgements.{is_certain};
ghost use Rattle.raim_model.specs.Level.{Level};
ghost use Rattle.raim_model.specs.Ranges.{AreWeights};
ghost use Rattle.raim_model.specs.Route.{flight_of};
ghost use Rattle.raim_model.specs.Runs.{AreRuns};
ghost use Rattle.raim_model.specs.Solution.{Case, InFlight, Solution, HasVerdict, HasVerticalVerdict};
ghost use Rattle.raim_model.specs.Weights.{weight_of};
ghost use Rattle.fix_interval.specs.Ends.{IsInside};
ghost use Rattle.fix_interval.specs.Lies.{Lies};
ghost use Rattle.fix_interval.specs.Ranges.{unit_ends};
ghost use Rattle.verdict_laws.specs.NearMask.{IsNearMaskAlways};
ghost use Rattle.verdict_laws.specs.Hold.{HoldsSights};
ghost use Rattle.case_laws.specs.SightOver.{weight_over, sight_over};
ghost use Rattle.case_laws.specs.Forecast.{IsForecast, IsVerticalForecast};
ghost use Rattle.case_laws.specs.PieceVerdict.{piece_verdict_of, vertical_piece_verdict_of};

/// The weight of a satellite.
pub fn weights_are_enclosed()
    // it holds the weight of the model
    ensures encloses { (weights : List Weight) (prn : ℕ) → Lies (weight_over weights prn) 38 (weight_of weights prn) }
    // and where the weights are in their ranges, it is from 0 to 1
    ensures bound { (weights : List Weight) (prn : ℕ) → AreWeights weights → IsInside (weight_over weights prn) unit_ends }
{}

/// What is seen of a satellite over a piece.
pub fn sights_are_enclosed()
    // it shows each sighting of the model, it is left to each piece inside, and over one millisecond it straddles only near equality
    ensures { (c : Case) → IsCase c → HoldsSights c (sight_over c) }
{}

/// A certain verdict on a piece, Available or Unavailable, stays on each piece inside.
pub fn certain_verdicts_settle()
    // the horizontal verdict on the piece inside is the same, with the same reason
    ensures horizontal { (c : Case) (first last a b : ℤ) → MayBeJudged c first last → is_certain (piece_verdict_of c first last) ≡ true
        → first ≤ℤ a → a ≤ℤ b → b ≤ℤ last → piece_verdict_of c a b ≡ piece_verdict_of c first last }
    // and so is the vertical one
    ensures vertical { (alert_mm : ℕ) (c : Case) (first last a b : ℤ) → 1 ≤ alert_mm → MayBeJudged c first last → is_certain (vertical_piece_verdict_of alert_mm c first last) ≡ true
        → first ≤ℤ a → a ≤ℤ b → b ≤ℤ last → vertical_piece_verdict_of alert_mm c a b ≡ vertical_piece_verdict_of alert_mm c first last }
{}

/// A certain verdict on a piece is right at each of its milliseconds.
pub fn certain_verdicts_are_right()
    // every solution, at every level, has the horizontal verdict
    ensures horizontal { (c : Case) (first last t : ℤ) → MayBeJudged c first last → is_certain (piece_verdict_of c first last) ≡ true
        → first ≤ℤ t → t ≤ℤ last → HasVerdict c t (piece_verdict_of c first last) }
    // and the vertical one
    ensures vertical { (alert_mm : ℕ) (c : Case) (first last t : ℤ) → 1 ≤ alert_mm → MayBeJudged c first last → is_certain (vertical_piece_verdict_of alert_mm c first last) ≡ true
        → first ≤ℤ t → t ≤ℤ last → HasVerticalVerdict c alert_mm t (vertical_piece_verdict_of alert_mm c first last) }
{}

/// Verdicts speak of something: there is a solution.
pub fn solutions_exist()
    // at every millisecond of the flight and every level
    ensures { (c : Case) (N : Level) (t : ℤ) → IsCase c → InFlight c t → Solution N c t }
{}

/// The mask leaves a millisecond undecided only near equality.
pub fn undecided_masks_are_near()
    // the satellite that the horizontal verdict names is usable, and every solution at every level has it at 1 Mm or at the mask, to
    // 2^-15 Mm
    ensures horizontal { (c : Case) (t : ℤ) (prn : ℕ) → MayBeJudged c t t → piece_verdict_of c t t ≡ Undecided (Mask prn) → IsNearMaskAlways c t prn }
    // and so is the one that the vertical verdict names
    ensures vertical { (alert_mm : ℕ) (c : Case) (t : ℤ) (prn : ℕ) → MayBeJudged c t t → vertical_piece_verdict_of alert_mm c t t ≡ Undecided (Mask prn) → IsNearMaskAlways c t prn }
{}

/// The runs of a flight's verdicts part it in order and say what is so.
pub fn runs_are_a_forecast()
    // those of the horizontal verdict, held against the alert limit of the limits
    ensures horizontal { (c : Case) (runs : List Run) → IsCase c → AreRuns (piece_verdict_of c) (flight_of c.route).first (flight_of c.route).end runs → IsForecast c runs }
    // and those of the vertical one, held against one of its own
    ensures vertical { (alert_mm : ℕ) (c : Case) (runs : List Run) → 1 ≤ alert_mm → IsCase c → AreRuns (vertical_piece_verdict_of alert_mm c) (flight_of c.route).first (flight_of c.route).end runs → IsVerticalForecast alert_mm c runs }
{}
