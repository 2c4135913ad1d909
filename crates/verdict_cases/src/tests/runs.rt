// What halving makes of a case's flight, and the cuts of small flights.

ghost use Rattle.raim_model.specs.Cuts.{AreCuts};
ghost use Rattle.piece_verdict.specs.Alerts.{MayBeJudgedAgainst};

use crate::tests::flights::{Flight, WEEK, case_of, flight_of};
use flight_samples::{AT_ONE_PLACE, FIVE, MILD, OUTAGE, SECOND, sem_almanac};
use piece_verdict::FlightJudge;
use raim_model::{Run, SplitFault};
use sample_judges::split_afresh;
use std::alloc::Global;
use std::marker::Brand;
use std::sync::ledger::Blank;
use std::test::Fail;

/// What halving makes of a case's flight.
pub(crate) fn judged(
    alloc: Global,
    judge: &FlightJudge,
    cuts: &[i64],
) -> Result<Vec<Run>, SplitFault>
    requires { AreCuts (MayBeJudgedAgainst judge.now.alert judge.now.case) cuts.now }
{
    split_afresh::<FlightJudge, Brand>(alloc, judge, cuts, Blank::new(1))
}

/// Whether a flight has these cuts, from `from` on.
fn has_cuts(alloc: Global, flight: Flight, from: i64, expected: &[i64]) -> bool {
    let Some(case) = case_of(alloc, flight) else {
        return false;
    };
    let Ok(cuts) = case.cuts(alloc) else {
        return false;
    };
    cuts.len() == expected.len()
        && cuts
            .iter()
            .zip(expected.iter())
            .all(|(cut, one)| cut.wrapping_sub(from) == *one)
}

#[test]
fn small_flights_have_their_cuts(rt: HostRuntime) -> Result<(), Fail> {
    let alloc = rt.alloc();
    let five = [sem_almanac(alloc, "2338", &FIVE)?];
    let both = [
        sem_almanac(alloc, "2338", &FIVE[..4])?,
        sem_almanac(alloc, "2339", &AT_ONE_PLACE)?,
    ];
    let middle = "2024-10-30T11:59:59.500Z 0 0 0\n2024-10-30T12:00:00.500Z 0 0 0\n";
    // half a second before the middle of the week
    let from = WEEK + 302_399_500;
    let out = flight_of(MILD, &five, OUTAGE, SECOND);
    assert!(rt; has_cuts(alloc, out, WEEK, &[0, 200, 500, 1000]));
    let handed_over = flight_of(MILD, &both, "", middle);
    assert!(rt; has_cuts(alloc, handed_over, from, &[0, 501, 1000]));
    Ok(())
}
