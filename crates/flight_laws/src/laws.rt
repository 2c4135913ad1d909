// Laws of a case's flight, each the contract of a function that does nothing.
ghost use Rattle.std.specs.Prelude.{◌≡◌, ℕ, ◌<◌, ℤ, ◌≤ℤ◌, ◌<ℤ◌, ◌↔◌, List, length};
ghost use Rattle.raim_model.specs.declared.verdict.Verdict.TheVariants.{Unavailable};
ghost use Rattle.raim_model.specs.declared.verdict.Why.TheVariants.{Few};
ghost use Rattle.raim_model.specs.AlmanacInForce.{in_force};
ghost use Rattle.raim_model.specs.CaseCuts.{CutsFlight, InRootPiece, IsBetweenNeighbours, MayBeJudged};
ghost use Rattle.raim_model.specs.CaseRanges.{IsCase};
ghost use Rattle.raim_model.specs.Cuts.{AreCuts};
ghost use Rattle.raim_model.specs.Geometry.{SquaredShift};
ghost use Rattle.raim_model.specs.PointVerdict.{least_count};
ghost use Rattle.raim_model.specs.Receiver.{OnLeg};
ghost use Rattle.raim_model.specs.Solution.{Case, InFlight, HasVerdictFor, usable};

/// Each millisecond of a flight lies on one leg of the route.
pub fn flights_lie_on_legs()
    ensures some_leg { (c : Case) (t : ℤ) → InFlight c t → OnLeg c.route t }
    ensures one_leg { (c : Case) (t : ℤ) (l m : OnLeg c.route t) → IsCase c → (l.start ≡ m.start) × (l.stop ≡ m.stop) }
{}

/// In a root piece the almanac in force, the usable satellites and the leg stay the same.
pub fn nothing_changes_in_a_root_piece()
    ensures in_force { (c : Case) (first last t : ℤ) → InRootPiece c first last → first ≤ℤ t → t ≤ℤ last → in_force t c.almanacs ≡ in_force first c.almanacs }
    ensures usable { (c : Case) (first last t : ℤ) → InRootPiece c first last → first ≤ℤ t → t ≤ℤ last → usable c t ≡ usable c first }
    ensures leg { (c : Case) (first last t : ℤ) (l : OnLeg c.route first) → InRootPiece c first last → first ≤ℤ t → t ≤ℤ last → t <ℤ l.stop.at }
{}

/// The cuts of a case are cuts for halving, its root pieces lie between neighbours of them, and it has no other list of
/// cuts.
pub fn cuts_part_a_flight()
    ensures cuts { (c : Case) (cuts : List ℤ) → IsCase c → CutsFlight c cuts → AreCuts (MayBeJudged c) cuts }
    ensures root_pieces { (c : Case) (cuts : List ℤ) (first last : ℤ) → IsCase c → CutsFlight c cuts → first ≤ℤ last → (InRootPiece c first last ↔ IsBetweenNeighbours cuts first last) }
    ensures inherits { (c : Case) (first last a b : ℤ) → MayBeJudged c first last → first ≤ℤ a → b ≤ℤ last → MayBeJudged c a b }
    ensures one_list { (c : Case) (cuts others : List ℤ) → IsCase c → CutsFlight c cuts → CutsFlight c others → cuts ≡ others }
{}

/// Where fewer satellites are usable than the test asks for, every solution at every level has the verdict Few, whatever
/// is visible.
pub fn too_few_are_too_few()
    ensures { (shift : SquaredShift) (alert_mm : ℕ) (c : Case) (t : ℤ) → length (usable c t) < least_count c.limits.exclude → HasVerdictFor shift alert_mm c t (Unavailable Few) }
{}
