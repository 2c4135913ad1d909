// From a flight's data to its runs, held against one alert limit or another.
ghost use Rattle.std.specs.Prelude.{◌≡◌, ℕ, ◌+◌, ◌≤◌, ℤ, ◌≤ℤ◌, ◌⊎◌, ◌↔◌, true, List, All, Contains, length, IfOk, IsOkAnd, IsErrOf};
ghost use Rattle.raim_model.specs.AlmanacRanges.{AreAlmanacs};
ghost use Rattle.raim_model.specs.CaseCuts.{CutsFlight};
ghost use Rattle.raim_model.specs.Cuts.{judgements_of_all};
ghost use Rattle.raim_model.specs.Judgements.{is_certain};
ghost use Rattle.raim_model.specs.Level.{Level};
ghost use Rattle.raim_model.specs.Ranges.{IsLimits, AreOutages};
ghost use Rattle.raim_model.specs.Route.{flight_of};
ghost use Rattle.raim_model.specs.Runs.{HasRuns, HasTooManyRuns, OverflowsFirst};
ghost use Rattle.raim_model.specs.Solution.{InFlight, Solution};
ghost use Rattle.route_interp.specs.Answers.{AreInstants};
ghost use Rattle.report_text.specs.Report.{IsPrintable};
ghost use Rattle.verdict_laws.specs.NearMask.{IsNearMaskAlways};
ghost use Rattle.case_laws.specs.Forecast.{InRun, LiesInRun};
ghost use Rattle.piece_verdict.specs.Cases.{case_of};
ghost use Rattle.time_split.specs.Faults.{FailsExactly};
ghost use Rattle.flight_forecast.specs.Alerts.{IsAlert, verdict_against, HasVerdictAgainst, IsForecastAgainst};
ghost use Rattle.flight_forecast.specs.InOrder.{CoverInOrder, IsWithin};
ghost use Rattle.flight_forecast.specs.Steps.{HasCuts};

use crate::splits::runs_against;
use piece_verdict::{Alert, Case};
use raim_model::{Almanac, Cmp, Limits, Outage, Run, SplitFault, Verdict};
use route_interp::Route;
use std::alloc::Global;
use std::sync::ledger::Ledger;
use step_counter::Steps;

/// The forecast of a flight, held against this: the runs of the verdicts of its milliseconds, from what accepted files give:
/// limits, one to eight almanacs in the order of their file, outages and a route.
///
/// What stops it is told by `SplitFault`. Want of memory may come in place of each answer.
pub fn forecast_against<L: Ledger>(
    alloc: Global,
    alert: Alert,
    limits: Limits,
    almanacs: Vec<Almanac>,
    outages: Vec<Outage>,
    route: Route,
    steps: &mut Steps<L>,
) -> Result<Vec<Run>, SplitFault>
    requires alert { IsAlert alert }
    requires limits { IsLimits limits }
    requires almanacs { AreAlmanacs (flight_of route) almanacs.items }
    requires outages { AreOutages outages.items }
    // the runs are a forecast of the case: they part the flight, say what is so, and are undecided exactly where the written
    // verdict of a millisecond is
    ensures forecast { IfOk result (λ runs. IsForecastAgainst alert (case_of limits almanacs.items outages.items route) runs.items) }
    // they are the flight's runs: those of the written verdict of its milliseconds, no more than a flight may have
    ensures runs { IfOk result (λ runs. HasRuns (verdict_against alert (case_of limits almanacs.items outages.items route)) (flight_of route).first (flight_of route).end runs.items) }
    // from the flight's first millisecond to its end, each run from the end of the one before it, with another verdict
    ensures in_order { IfOk result (λ runs. CoverInOrder (flight_of route) runs.items) }
    // Available, or Unavailable for a reason: every solution, at every level and millisecond of the run, has that verdict
    ensures right { IfOk result (λ runs. (run : Run) (t : ℤ) → Contains runs.items run → is_certain run.verdict ≡ true → InRun run t
        → HasVerdictAgainst alert (case_of limits almanacs.items outages.items route) t run.verdict) }
    // a millisecond is in a run Undecided exactly where its written verdict is, by the same comparison
    ensures undecided { IfOk result (λ runs. (t : ℤ) (comparison : Cmp) → InFlight (case_of limits almanacs.items outages.items route) t
        → (LiesInRun runs.items t (Verdict.Undecided comparison) ↔ (verdict_against alert (case_of limits almanacs.items outages.items route) t t ≡ Verdict.Undecided comparison))) }
    // undecided by the mask of a satellite: it is usable, and every solution at every level has it at 1 Mm or at the mask, to
    // 2^-15 Mm
    ensures near { IfOk result (λ runs. (run : Run) (prn : ℕ) (t : ℤ) → Contains runs.items run → run.verdict ≡ Verdict.Undecided (Cmp.Mask prn) → InRun run t
        → IsNearMaskAlways (case_of limits almanacs.items outages.items route) t prn) }
    // each run lies within the flight, and none of them overflows
    ensures within { IfOk result (λ runs. All (IsWithin (flight_of route)) runs.items) }
    // so a route whose times were read under the leap seconds of the limits has runs that can be printed under them
    ensures printable { AreInstants limits.leap route → IfOk result (λ runs. All (IsPrintable limits.leap) runs.items) }
    // at every level and millisecond of the flight there is a solution
    ensures exists { (N : Level) (t : ℤ) → InFlight (case_of limits almanacs.items outages.items route) t → Solution N (case_of limits almanacs.items outages.items route) t }
    // the first millisecond that overflows, for that satellite
    ensures overflow { (at : ℤ) (prn : ℕ) → FailsExactly result (SplitFault.Overflow at prn)
        (OverflowsFirst (verdict_against alert (case_of limits almanacs.items outages.items route)) (flight_of route).first (flight_of route).end at prn) }
    // more runs than a flight may have
    ensures too_many { FailsExactly result SplitFault.TooManyRuns
        (HasTooManyRuns (verdict_against alert (case_of limits almanacs.items outages.items route)) (flight_of route).first (flight_of route).end) }
    // where the flight has its runs, the answer is these
    ensures settled { (runs : List Run) → HasRuns (verdict_against alert (case_of limits almanacs.items outages.items route)) (flight_of route).first (flight_of route).end runs
        → IsOkAnd result (λ found. found.items ≡ runs) ⊎ IsErrOf result SplitFault.Memory }
    // as many steps at most as halving the flight's root pieces needs judgements, and none where memory runs out before its cuts
    ensures steps { (cuts : List ℤ) → CutsFlight (case_of limits almanacs.items outages.items route) cuts
        → steps.new ≤ steps.old + judgements_of_all (verdict_against alert (case_of limits almanacs.items outages.items route)) cuts }
    ensures cut { (steps.new ≡ steps.old) ⊎ HasCuts (case_of limits almanacs.items outages.items route) }
{
    let _points = route.len();
    let Ok(case) = Case::prepare(alloc, limits, almanacs, outages, route) else {
        return Err(SplitFault::Memory);
    };
    runs_against(alloc, case, alert, steps)
}
