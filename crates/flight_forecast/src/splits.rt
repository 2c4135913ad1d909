// Splitting a flight by its verdicts.
ghost use Rattle.std.specs.Prelude.{◌≡◌, ℕ, ◌+◌, ◌≤◌, ℤ, ◌⊎◌, List, IfOk};
ghost use Rattle.raim_model.specs.CaseCuts.{CutsFlight};
ghost use Rattle.raim_model.specs.Cuts.{judgements_of_all};
ghost use Rattle.raim_model.specs.Route.{flight_of};
ghost use Rattle.raim_model.specs.Runs.{HasRuns, HasTooManyRuns, OverflowsFirst};
ghost use Rattle.time_split.specs.Faults.{FailsExactly};
ghost use Rattle.flight_forecast.specs.Alerts.{IsAlert, verdict_against};
ghost use Rattle.flight_forecast.specs.Steps.{HasCuts};

use piece_verdict::{Alert, Case, FlightJudge};
use raim_model::{Run, SplitFault};
use std::alloc::Global;
use std::sync::ledger::Ledger;
use step_counter::Steps;
use time_split::split_told;

/// The runs of the verdicts of a case's flight, held against the alert limit of its judge.
fn runs_of<L: Ledger>(
    alloc: Global,
    judge: &FlightJudge,
    steps: &mut Steps<L>,
) -> Result<Vec<Run>, SplitFault>
    requires { IsAlert judge.now.alert }
    ensures runs { IfOk result (λ runs. HasRuns (verdict_against judge.now.alert judge.now.case) (flight_of judge.now.case.route).first (flight_of judge.now.case.route).end runs.items) }
    ensures too_many { FailsExactly result SplitFault.TooManyRuns
        (HasTooManyRuns (verdict_against judge.now.alert judge.now.case) (flight_of judge.now.case.route).first (flight_of judge.now.case.route).end) }
    ensures overflow { (at : ℤ) (prn : ℕ) → FailsExactly result (SplitFault.Overflow at prn)
        (OverflowsFirst (verdict_against judge.now.alert judge.now.case) (flight_of judge.now.case.route).first (flight_of judge.now.case.route).end at prn) }
    ensures steps { (cuts : List ℤ) → CutsFlight judge.now.case cuts → steps.new ≤ steps.old + judgements_of_all (verdict_against judge.now.alert judge.now.case) cuts }
    ensures cut { (steps.new ≡ steps.old) ⊎ HasCuts judge.now.case }
{
    let Ok(cuts) = judge.cuts(alloc) else {
        return Err(SplitFault::Memory);
    };
    split_told(alloc, judge, cuts.as_slice(), steps)
}

/// The runs of the verdicts of a case's flight, held against this.
pub(crate) fn runs_against<L: Ledger>(
    alloc: Global,
    case: Case,
    alert: Alert,
    steps: &mut Steps<L>,
) -> Result<Vec<Run>, SplitFault>
    requires { IsAlert alert }
    ensures runs { IfOk result (λ runs. HasRuns (verdict_against alert case) (flight_of case.route).first (flight_of case.route).end runs.items) }
    ensures too_many { FailsExactly result SplitFault.TooManyRuns
        (HasTooManyRuns (verdict_against alert case) (flight_of case.route).first (flight_of case.route).end) }
    ensures overflow { (at : ℤ) (prn : ℕ) → FailsExactly result (SplitFault.Overflow at prn)
        (OverflowsFirst (verdict_against alert case) (flight_of case.route).first (flight_of case.route).end at prn) }
    ensures steps { (cuts : List ℤ) → CutsFlight case cuts → steps.new ≤ steps.old + judgements_of_all (verdict_against alert case) cuts }
    ensures cut { (steps.new ≡ steps.old) ⊎ HasCuts case }
{
    let judge = FlightJudge { case, alert };
    runs_of(alloc, &judge, steps)
}
