// Splitting with a counter of its own.
ghost use Rattle.std.specs.Prelude.{◌≡◌, ◌≤◌, ℕ, ℤ, IfOk, IfErr};
ghost use Rattle.raim_model.specs.Cuts.{AreCuts, first_cut, last_cut};
ghost use Rattle.raim_model.specs.Runs.{HasRuns, HasTooManyRuns, OverflowsFirst, FaultComes};
ghost use Rattle.time_split.specs.Faults.{FailsExactly};

use raim_model::{Run, SplitFault};
use std::alloc::Global;
use std::sync::ledger::{Blank, Ledger};
use step_counter::Steps;
use time_split::{Judge, ToldJudge, split, split_each, split_told};

/// `split`, with a counter of its own.
pub fn split_afresh<J: Judge, L: Ledger>(
    alloc: Global,
    judge: &J,
    cuts: &[i64],
    blank: Blank,
) -> Result<Vec<Run>, SplitFault>
    requires name { blank.name ≡ L.name }
    requires parts { blank.parts ≡ L.parts }
    requires some { 1 ≤ blank.parts }
    requires cuts { AreCuts (J.rule judge.now) cuts.now }
    ensures runs { IfOk result (λ runs.
        HasRuns (J.verdict judge.now) (first_cut cuts.now) (last_cut cuts.now) runs.items) }
    ensures too_many { FailsExactly result SplitFault.TooManyRuns
        (HasTooManyRuns (J.verdict judge.now) (first_cut cuts.now) (last_cut cuts.now)) }
    ensures overflow { (at : ℤ) (prn : ℕ) → FailsExactly result (SplitFault.Overflow at prn)
        (OverflowsFirst (J.verdict judge.now) (first_cut cuts.now) (last_cut cuts.now) at prn) }
{
    let mut steps: Steps<L> = Steps::new(blank);
    split(alloc, judge, cuts, &mut steps)
}

/// `split_each`, with a counter of its own.
pub fn split_each_afresh<J: Judge, L: Ledger>(
    alloc: Global,
    judge: &J,
    cuts: &[i64],
    blank: Blank,
) -> Result<Vec<Run>, SplitFault>
    requires name { blank.name ≡ L.name }
    requires parts { blank.parts ≡ L.parts }
    requires some { 1 ≤ blank.parts }
    requires cuts { AreCuts (J.rule judge.now) cuts.now }
    ensures runs { IfOk result (λ runs.
        HasRuns (J.verdict judge.now) (first_cut cuts.now) (last_cut cuts.now) runs.items) }
    ensures fault { IfErr result (FaultComes (J.verdict judge.now) (first_cut cuts.now) (last_cut cuts.now)) }
{
    let mut steps: Steps<L> = Steps::new(blank);
    split_each(alloc, judge, cuts, &mut steps)
}

/// `split_told`, with a counter of its own.
pub fn split_told_afresh<J: ToldJudge, L: Ledger>(
    alloc: Global,
    judge: &J,
    cuts: &[i64],
    blank: Blank,
) -> Result<Vec<Run>, SplitFault>
    requires name { blank.name ≡ L.name }
    requires parts { blank.parts ≡ L.parts }
    requires some { 1 ≤ blank.parts }
    requires cuts { AreCuts (J.rule judge.now) cuts.now }
    ensures runs { IfOk result (λ runs.
        HasRuns (J.verdict judge.now) (first_cut cuts.now) (last_cut cuts.now) runs.items) }
    ensures too_many { FailsExactly result SplitFault.TooManyRuns
        (HasTooManyRuns (J.verdict judge.now) (first_cut cuts.now) (last_cut cuts.now)) }
    ensures overflow { (at : ℤ) (prn : ℕ) → FailsExactly result (SplitFault.Overflow at prn)
        (OverflowsFirst (J.verdict judge.now) (first_cut cuts.now) (last_cut cuts.now) at prn) }
{
    let mut steps: Steps<L> = Steps::new(blank);
    split_told(alloc, judge, cuts, &mut steps)
}
