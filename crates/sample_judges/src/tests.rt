// Halving against worked runs, and against the plain program that judges each millisecond by itself.
ghost use Rattle.std.specs.Prelude.{◌≡◌, ◌≤◌};
ghost use Rattle.raim_model.specs.Cuts.{AreCuts};

use super::*;
use raim_model::{Cmp, Run, SplitFault, Verdict};
use std::alloc::Global;
use std::cell::Cell;
use std::marker::Brand;
use std::sync::ledger::Blank;
use std::test::Fail;
use time_split::Judge;

fn island(at: i64, overflows: bool) -> Island {
    Island {
        at,
        overflows,
        calls: Cell::new(0),
    }
}

fn alternating(over: i64) -> Alternating {
    Alternating {
        over,
        calls: Cell::new(0),
    }
}

fn halved<J: Judge>(alloc: Global, judge: &J, cuts: &[i64]) -> Result<Vec<Run>, SplitFault>
    requires { AreCuts (J.rule judge.now) cuts.now }
{
    split_afresh::<J, Brand>(alloc, judge, cuts, Blank::new(1))
}

/// Whether halving and the plain program answer the same.
fn agree<J: Judge>(alloc: Global, judge: &J, cuts: &[i64]) -> bool
    requires { AreCuts (J.rule judge.now) cuts.now }
{
    let each = split_each_afresh::<J, Brand>(alloc, judge, cuts, Blank::new(1));
    match (halved(alloc, judge, cuts), each) {
        (Ok(runs), Ok(others)) => runs.as_slice() == others.as_slice(),
        (Err(fault), Err(other)) => fault == other,
        _ => false,
    }
}

#[test]
fn one_open_millisecond_is_found_in_few_judgements(rt: HostRuntime) -> Result<(), Fail> {
    let judge = island(0, false);
    let runs = halved(rt.alloc(), &judge, &[0, 1_048_576])?;
    let undecided = Run {
        first: 0,
        end: 1,
        verdict: Verdict::Undecided(Cmp::Det),
    };
    let available = Run {
        first: 1,
        end: 1_048_576,
        verdict: Verdict::Available,
    };
    assert_eq!(rt; runs.as_slice(), [undecided, available].as_slice());
    assert!(rt; judge.calls.get() <= 41);
    Ok(())
}

#[test]
fn runs_go_on_across_cuts(rt: HostRuntime) -> Result<(), Fail> {
    let runs = halved(rt.alloc(), &island(-3, false), &[-8, -3, -2, 0, 1, 8])?;
    let before = Run {
        first: -8,
        end: -3,
        verdict: Verdict::Available,
    };
    let undecided = Run {
        first: -3,
        end: -2,
        verdict: Verdict::Undecided(Cmp::Det),
    };
    let behind = Run {
        first: -2,
        end: 8,
        verdict: Verdict::Available,
    };
    assert_eq!(rt; runs.as_slice(), [before, undecided, behind].as_slice());
    Ok(())
}

#[test]
fn there_may_be_65536_runs(rt: HostRuntime) -> Result<(), Fail> {
    let judge = alternating(100_000);
    assert_eq!(rt; halved(rt.alloc(), &judge, &[0, 65_536])?.len(), 65_536);
    assert_eq!(rt;
        halved(rt.alloc(), &judge, &[0, 65_537]).err(),
        Some(SplitFault::TooManyRuns)
    );
    // runs before an overflow count, and those behind it do not
    let late = alternating(65_537);
    assert_eq!(rt;
        halved(rt.alloc(), &late, &[0, 100_000]).err(),
        Some(SplitFault::TooManyRuns)
    );
    let early = alternating(65_536);
    let overflow = SplitFault::Overflow { at: 65_536, prn: 7 };
    assert_eq!(rt;
        halved(rt.alloc(), &early, &[0, 100_000]).err(),
        Some(overflow)
    );
    Ok(())
}

#[test]
fn halving_gives_the_runs_of_the_single_milliseconds(rt: HostRuntime) {
    for overflows in [false, true] {
        for at in -9..9 {
            let judge = island(at, overflows);
            assert!(rt; agree(rt.alloc(), &judge, &[-8, 8]), "one piece, {at}");
            assert!(rt; agree(rt.alloc(), &judge, &[-8, 3]), "one odd piece, {at}");
            assert!(rt;
                agree(rt.alloc(), &judge, &[-8, -3, -2, 0, 1, 8]),
                "some cuts, {at}"
            );
            assert!(rt;
                agree(rt.alloc(), &judge, &[-3, -2, -1, 0, 1, 2, 3]),
                "cuts of one millisecond, {at}"
            );
        }
    }
    for over in -9..9 {
        let judge = alternating(over);
        assert!(rt;
            agree(rt.alloc(), &judge, &[-8, 8]),
            "runs of one millisecond, {over}"
        );
        assert!(rt;
            agree(rt.alloc(), &judge, &[-8, -3, -2, 0, 1, 8]),
            "and cuts, {over}"
        );
    }
    let late = alternating(65_537);
    assert!(rt;
        agree(rt.alloc(), &late, &[0, 30_000, 65_540]),
        "an overflow behind too many runs"
    );
}
