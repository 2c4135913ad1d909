// Ranges of time that are split.

ghost use Rattle.raim_model.specs.Cuts.{AreCuts};

use raim_model::SplitFault;
use sample_judges::{Alternating, Island, split_afresh};
use std::alloc::Global;
use std::cell::Cell;
use std::marker::Brand;
use std::sync::ledger::Blank;
use time_split::Judge;

/// A range of time, with a judge that leaves it open.
#[derive(Clone, Copy)]
pub enum Range {
    /// 2^40 milliseconds, of which the first is undecided.
    Island,
    /// 65,536 milliseconds, each a run.
    Alternating,
}

/// What came of splitting.
#[derive(Clone, Copy)]
pub struct Tally {
    pub runs: u64,
    pub judgements: u64,
}

/// How many runs N splittings give.
fn runs_of<J: Judge>(alloc: Global, judge: &J, cuts: &[i64], n: u32) -> Result<u64, SplitFault>
    requires { AreCuts (J.rule judge.now) cuts.now }
{
    let mut runs: u64 = 0;
    for _ in 0..n {
        let found = split_afresh::<J, Brand>(alloc, judge, cuts, Blank::new(1))?;
        runs = runs.wrapping_add(found.len() as u64);
    }
    Ok(runs)
}

/// Splits the range N times.
pub fn tally_of(alloc: Global, range: Range, n: u32) -> Result<Tally, SplitFault> {
    match range {
        Range::Island => {
            let judge = Island {
                at: 0,
                overflows: false,
                calls: Cell::new(0),
            };
            let runs = runs_of(alloc, &judge, &[0, 1_099_511_627_776], n)?;
            Ok(Tally {
                runs,
                judgements: judge.calls.get(),
            })
        }
        Range::Alternating => {
            let judge = Alternating {
                over: 65_536,
                calls: Cell::new(0),
            };
            let runs = runs_of(alloc, &judge, &[0, 65_536], n)?;
            Ok(Tally {
                runs,
                judgements: judge.calls.get(),
            })
        }
    }
}
