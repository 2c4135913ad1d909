// A flight in which the verdict changes: halving gives the runs of the single milliseconds, each judged by itself, and these are those
// that an independent evaluation in whole numbers of any size has (`oracle/table_of_flights.py`).

ghost use Rattle.raim_model.specs.Cuts.{AreCuts};
ghost use Rattle.piece_verdict.specs.Alerts.{MayBeJudgedAgainst};

use crate::tests::flights::{Flight, WEEK, are_runs, case_of, flight_of};
use crate::tests::runs::judged;
use flight_samples::{EIGHT, sem_almanac};
use piece_verdict::{Alert, FlightJudge};
use raim_model::{Run, SplitFault, Verdict, Why};
use sample_judges::split_each_afresh;
use std::alloc::Global;
use std::marker::Brand;
use std::sync::ledger::Blank;
use std::test::Fail;

/// What judging each millisecond of a case's flight by itself makes of it.
fn judged_singly(alloc: Global, judge: &FlightJudge, cuts: &[i64]) -> Result<Vec<Run>, SplitFault>
    requires { AreCuts (MayBeJudgedAgainst judge.now.alert judge.now.case) cuts.now }
{
    split_each_afresh::<FlightJudge, Brand>(alloc, judge, cuts, Blank::new(1))
}

/// Whether halving a flight and judging each of its milliseconds give these runs, from `from` on.
fn both_give(alloc: Global, flight: Flight, from: i64, expected: &[(i64, i64, Verdict)]) -> bool {
    let Some(case) = case_of(alloc, flight) else {
        return false;
    };
    let judge = FlightJudge {
        case,
        alert: Alert::Horizontal,
    };
    let Ok(cuts) = judge.cuts(alloc) else {
        return false;
    };
    let halved = judged(alloc, &judge, cuts.as_slice());
    let singly = judged_singly(alloc, &judge, cuts.as_slice());
    match (halved, singly) {
        (Ok(runs), Ok(others)) => {
            are_runs(runs.as_slice(), from, expected) && runs.as_slice() == others.as_slice()
        }
        _ => false,
    }
}

const STEEP: Verdict = Verdict::Unavailable(Why::Slope);

const MINUTE: &str =
    "2024-10-27T00:00:00.000Z 40 -30 10000\n2024-10-27T00:01:00.000Z 40.001 -29.999 10000\n";

#[test]
fn a_satellite_sets(rt: HostRuntime) -> Result<(), Fail> {
    let alloc = rt.alloc();
    let eight = [sem_almanac(alloc, "2338", &EIGHT)?];
    let limits = "leap 0\nmask 9.9\nalert enroute\nbias 5 2000000\n";
    let expected = [(0, 19241, Verdict::Available), (19241, 60000, STEEP)];
    let flight = flight_of(limits, &eight, "", MINUTE);
    assert!(rt; both_give(alloc, flight, WEEK, &expected));
    Ok(())
}
