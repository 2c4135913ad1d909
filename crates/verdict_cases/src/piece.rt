// Judging one piece of a case's flight.
ghost use Rattle.std.specs.Prelude.{◌≡◌, ◌≤ℤ◌, IsTrue, IfSome};
ghost use Rattle.case_laws.specs.PieceVerdict.{seen_of};
ghost use Rattle.piece_verdict.specs.Alerts.{MayBeJudgedAgainst};
ghost use Rattle.piece_verdict.specs.Looks.{AreLooks};
ghost use Rattle.raim_model.specs.Cuts.{AreCuts};
ghost use Rattle.raim_model.specs.Judgements.{Answers};
ghost use Rattle.raim_model.specs.PointVerdict.{least_count};

use piece_verdict::{FlightJudge, Looks};
use raim_model::Piece;
use std::sync::ledger::Ledger;
use step_counter::Steps;
use time_split::Judge;

/// Whether a piece lies between two neighbours of the cuts, so that it may be judged.
fn lies_within<J: Judge>(_judge: &J, cuts: &[i64], first: i64, last: i64) -> bool
    requires { AreCuts (J.rule _judge.now) cuts.now }
    ensures ordered { IsTrue result → first ≤ℤ last }
    ensures rule { IsTrue result → J.rule _judge.now first last }
{
    if last < first {
        return false;
    }
    for k in 1..cuts.len() {
        if cuts[k - 1] <= first && last < cuts[k] {
            return true;
        }
    }
    false
}

/// What judging a piece answers, where it lies between two neighbours of the cuts.
pub fn judge_within<J: Judge, L: Ledger>(
    judge: &J,
    cuts: &[i64],
    first: i64,
    last: i64,
    steps: &mut Steps<L>,
) -> Option<Piece>
    requires { AreCuts (J.rule judge.now) cuts.now }
    ensures { IfSome result (Answers first last (J.verdict judge.now first last)) }
{
    if lies_within(judge, cuts, first, last) {
        Some(judge.judge(first, last, steps))
    } else {
        None
    }
}

/// What is seen over a piece of a case's flight, where it lies between two neighbours of the cuts.
pub fn looks_within<L: Ledger>(
    judge: &FlightJudge,
    cuts: &[i64],
    first: i64,
    last: i64,
    steps: &mut Steps<L>,
) -> Option<Looks>
    requires { AreCuts (MayBeJudgedAgainst judge.now.alert judge.now.case) cuts.now }
    ensures { IfSome result (AreLooks (least_count judge.now.case.limits.exclude) (seen_of judge.now.case first last)) }
{
    if lies_within(judge, cuts, first, last) {
        Some(judge.case.looks(first, last, steps))
    } else {
        None
    }
}
