// Laws of verdicts by forms, each the contract of a function that does nothing.
ghost use Rattle.std.specs.Prelude.{ℕ, ℤ, ◌≤ℤ◌, length, map};
ghost use Rattle.raim_model.specs.declared.almanac.AlmRecord.{AlmRecord};
ghost use Rattle.raim_model.specs.CaseCuts.{InRootPiece};
ghost use Rattle.raim_model.specs.CaseRanges.{IsCase, IsListed};
ghost use Rattle.raim_model.specs.Receiver.{OnLeg};
ghost use Rattle.raim_model.specs.Solution.{Case, usable};
ghost use Rattle.orbit_laws.specs.Positions.{position_of};
ghost use Rattle.site_laws.specs.Frames.{frame_of};
ghost use Rattle.slope_laws.specs.declared.shift.Shift.{Shift};
ghost use Rattle.slope_laws.specs.ShiftSlopes.{slopes_for};
ghost use Rattle.case_laws.specs.SightOver.{mask_of, weight_over, box_over, sight_over};
ghost use Rattle.case_laws.specs.PieceVerdict.{verdict_by_test};
ghost use Rattle.time_forms.specs.Forms.{IsTime};
ghost use Rattle.orbit_forms.specs.Positions.{VectorForm, VectorHolds};
ghost use Rattle.look_forms.specs.Frames.{FrameForm, FrameHolds};
ghost use Rattle.slope_forms.specs.Told.{TellsVerdict};
ghost use Rattle.verdict_forms.specs.Sights.{SightTold, SightHolds, sight_form, form_rows};
ghost use Rattle.verdict_forms.specs.Verdicts.{AreSafe, verdict_told};

/// Where the forms of a frame hold the written frame of a millisecond, and those of a place the written place of a satellite, what they
/// tell of the satellite is so of what is seen of it at that millisecond.
pub fn sights_of_forms_hold()
    ensures { (h : ℕ) (d : ℤ) (c : Case) → IsCase c → (t : ℤ) (rec : AlmRecord) → IsListed c rec → (leg : OnLeg c.route t) (f : FrameForm) (fs : VectorForm) → IsTime h d
        → FrameHolds h d f (frame_of (box_over record { start = leg.start; stop = leg.stop } t t)) → VectorHolds h d fs (position_of rec t t)
        → SightHolds h d (sight_form f fs (mask_of c.limits) (weight_over c.limits.weights.items rec.prn)) (sight_over c rec t t) }
{}

/// What forms tell of the satellites that are usable at the first millisecond of a piece tells the written verdict of each of its
/// milliseconds, of either shift, where the piece lies inside a root piece and the factors of the test are at most 512.
pub fn verdicts_of_forms_tell()
    ensures { (h : ℕ) (d : ℤ) (shift : Shift) (alert_mm : ℕ) (c : Case) → IsCase c → (first last t : ℤ) → InRootPiece c first last → first ≤ℤ t → t ≤ℤ last
        → (told : AlmRecord → SightTold) → IsTime h d → AreSafe c.limits alert_mm (length (form_rows (map told (usable c first)))) → ((rec : AlmRecord) → IsListed c rec → SightHolds h d (told rec) (sight_over c rec t t))
        → TellsVerdict (verdict_told shift c.limits alert_mm (map told (usable c first))) (verdict_by_test (slopes_for shift) alert_mm c t t) }
{}
