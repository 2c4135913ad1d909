// How many positions of satellites the judgements of a flight work out: one of each satellite a judgement, where each is usable and
// none is hidden or straddles. No clause can speak of them.

ghost use Rattle.piece_verdict.specs.Alerts.{IsAlert, MayBeJudgedAgainst};
ghost use Rattle.raim_model.specs.Cuts.{AreCuts};

use crate::tests::flights::{Flight, HALF, case_of, flight_of};
use flight_samples::{EIGHT, FIVE, MILD, OUTAGE, SECOND, sem_almanac};
use piece_verdict::{Alert, FlightJudge};
use sample_judges::{Counted, split_afresh, split_told_afresh};
use std::alloc::Global;
use std::cell::Cell;
use std::marker::Brand;
use std::sync::ledger::Blank;
use std::test::Fail;

/// Whether the pieces of a flight are told what is known of them.
#[derive(Clone, Copy, Debug, PartialEq)]
enum Halving {
    Untold,
    Told,
}

/// How many pieces of a flight were judged, and how many positions that took.
#[derive(Clone, Copy, Debug, PartialEq)]
struct Work {
    judgements: u64,
    positions: u64,
}

/// Whether a case's flight has runs, as halving finds them.
fn has_runs(alloc: Global, judge: &Counted<FlightJudge>, cuts: &[i64], halving: Halving) -> bool
    requires { AreCuts (MayBeJudgedAgainst judge.now.judge.alert judge.now.judge.case) cuts.now }
{
    let runs = match halving {
        Halving::Untold => {
            split_afresh::<Counted<FlightJudge>, Brand>(alloc, judge, cuts, Blank::new(1))
        }
        Halving::Told => {
            split_told_afresh::<Counted<FlightJudge>, Brand>(alloc, judge, cuts, Blank::new(1))
        }
    };
    runs.is_ok()
}

/// The work of halving a flight; nothing where it has no runs.
fn work_of(alloc: Global, flight: Flight, alert: Alert, halving: Halving) -> Option<Work>
    requires { IsAlert alert }
{
    let case = case_of(alloc, flight)?;
    let judge = FlightJudge { case, alert };
    let Ok(cuts) = judge.cuts(alloc) else {
        return None;
    };
    let counted = Counted {
        judge,
        calls: Cell::new(0),
    };
    if !has_runs(alloc, &counted, cuts.as_slice(), halving) {
        return None;
    }
    Some(Work {
        judgements: counted.calls.get(),
        positions: counted.judge.case.positions(),
    })
}

/// Whether halving a flight judges several pieces, and asks each of so many satellites for its position once a piece.
fn is_asked_once(
    alloc: Global,
    flight: Flight,
    alert: Alert,
    halving: Halving,
    satellites: u64,
) -> bool
    requires { IsAlert alert }
{
    match work_of(alloc, flight, alert, halving) {
        Some(work) => 1 < work.judgements
            && work.positions == work.judgements.wrapping_mul(satellites),
        None => false,
    }
}

#[test]
fn a_judgement_asks_each_satellite_once(rt: HostRuntime) -> Result<(), Fail> {
    let alloc = rt.alloc();
    let five = [sem_almanac(alloc, "2338", &FIVE)?];
    let six = [sem_almanac(alloc, "2338", &EIGHT[..6])?];
    let seven = [sem_almanac(alloc, "2338", &EIGHT[..7])?];
    let falling = "leap 0\nmask -90\nalert enroute\nbias 5 919775\n";
    let excluding = "leap 0\nmask -90\nalert enroute\nbias 5 919775\nmode exclude\n";
    let outage = flight_of(MILD, &five, OUTAGE, SECOND);
    // three root pieces, in the second of which one of the five is out
    let three = Work {
        judgements: 3,
        positions: 14,
    };
    let up = Alert::Vertical {
        limit_mm: 2_320_070,
    };
    for halving in [Halving::Untold, Halving::Told] {
        let over_three = work_of(alloc, outage, Alert::Horizontal, halving);
        assert_eq!(rt; over_three, Some(three), "{halving:?}");
        let detected = flight_of(falling, &six, "", HALF);
        assert!(rt;
            is_asked_once(alloc, detected, Alert::Horizontal, halving, 6),
            "across, {halving:?}"
        );
        assert!(rt;
            is_asked_once(alloc, detected, up, halving, 6),
            "up, {halving:?}"
        );
        let excluded = flight_of(excluding, &seven, "", HALF);
        assert!(rt;
            is_asked_once(alloc, excluded, Alert::Horizontal, halving, 7),
            "exclusion, {halving:?}"
        );
    }
    Ok(())
}
