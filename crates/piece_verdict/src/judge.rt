// Judging pieces of time.
ghost use Rattle.std.specs.Prelude.{◌≡◌, ℕ, ℤ, ◌+◌, ◌≤ℤ◌, true, IfOk};
ghost use Rattle.raim_model.specs.CaseCuts.{MayBeJudged};
ghost use Rattle.raim_model.specs.Judgements.{Answers, is_certain};
ghost use Rattle.raim_model.specs.Level.{Level};
ghost use Rattle.raim_model.specs.CaseCuts.{CutsFlight};
ghost use Rattle.raim_model.specs.Cuts.{AreCuts};
ghost use Rattle.raim_model.specs.Solution.{Solution};
ghost use Rattle.verdict_laws.specs.NearMask.{IsNearMaskAlways};
ghost use Rattle.piece_verdict.specs.Alerts.{IsAlert, MayBeJudgedAgainst, verdict_against, verdict_knowing, HasVerdictAgainst};
ghost use Rattle.piece_verdict.specs.CaseLaws.{case_inherits, case_settles, known_stays};
ghost use Rattle.piece_verdict.specs.Known.{Knows};

use crate::alert::Alert;
use crate::case::Case;
use crate::found::Found;
use crate::known::Known;
use crate::seen::Seen;
use crate::slopes::test;
use raim_model::{Cmp, OutOfMemory, Piece, Verdict, Why};
use std::alloc::Global;
use std::sync::ledger::Ledger;
use step_counter::Steps;
use time_split::{Judge, ToldJudge};

/// What judging a piece from `first` to `last` of a given verdict answers.
fn answer(verdict: Verdict, first: i64, last: i64) -> Piece
    requires { first ≤ℤ last }
    ensures { Answers first last verdict result }
{
    match verdict {
        Verdict::Available => Piece::Decided(verdict),
        Verdict::Unavailable(_) => Piece::Decided(verdict),
        _ => {
            if first < last {
                Piece::Split
            } else {
                Piece::Decided(verdict)
            }
        }
    }
}

impl Case {
    /// The verdict on a piece by what is known of it, held against this; what is found of it is known then. The rows are kept in
    /// `seen`, whatever stood there.
    fn verdict(
        &self,
        alert: Alert,
        first: i64,
        last: i64,
        known: &mut Known,
        seen: &mut Seen,
    ) -> Verdict
        requires alert { IsAlert alert }
        requires ordered { first ≤ℤ last }
        requires rule { MayBeJudged self.now first last }
        requires known { Knows alert self.now known.old first last }
        ensures value { result ≡ verdict_knowing alert self.now known.old.hidden.places first last }
        ensures known { Knows alert self.now known.new first last }
    {
        seen.clear();
        let here = self.here(first, last, known.here);
        known.here = Some(here);
        match self.looked(here, first, last, &mut known.hidden, seen) {
            Found::Few => Verdict::Unavailable(Why::Few),
            Found::Straddle(prn) => Verdict::Undecided(Cmp::Mask(prn)),
            Found::Rows => test(
                &self.limits,
                alert,
                seen.rows.as_slice(),
                &mut known.slopes,
                &mut known.lists,
            ),
        }
    }
}

/// Judges pieces of a case's flight, held against this alert limit.
#[derive(Drop)]
pub struct FlightJudge {
    pub case: Case,
    pub alert: Alert,
}

impl FlightJudge {
    /// The cuts of the case's flight, as `Case::cuts` has them.
    pub fn cuts(&self, alloc: Global) -> Result<Vec<i64>, OutOfMemory>
        requires { IsAlert self.now.alert }
        ensures cuts { IfOk result (λ cuts. CutsFlight self.now.case cuts.items) }
        // each root piece between them may be judged
        ensures root_pieces { IfOk result (λ cuts. AreCuts (MayBeJudgedAgainst self.now.alert self.now.case) cuts.items) }
    {
        self.case.cuts(alloc)
    }
}

impl Judge for FlightJudge {
    ghost verdict = { λ judge. verdict_against judge.alert judge.case };

    ghost rule = { λ judge. MayBeJudgedAgainst judge.alert judge.case };

    fn judge<L: Ledger>(&self, first: i64, last: i64, steps: &mut Steps<L>) -> Piece
        requires ordered { first ≤ℤ last }
        requires rule { MayBeJudgedAgainst self.now.alert self.now.case first last }
        // the written verdict of the piece, or that it is to be halved
        ensures answer { Answers first last (verdict_against self.now.alert self.now.case first last) result }
        ensures step { steps.new ≡ steps.old + 1 }
        // Available, or Unavailable for a reason: every solution, at every level and millisecond of the piece, has that verdict
        ensures right { (v : Verdict) (t : ℤ) → result ≡ Piece.Decided v → is_certain v ≡ true → first ≤ℤ t → t ≤ℤ last
            → HasVerdictAgainst self.now.alert self.now.case t v }
        // and there is such a solution
        ensures exists { (N : Level) (t : ℤ) → first ≤ℤ t → t ≤ℤ last → Solution N self.now.case t }
        // undecided by the mask: the piece is one millisecond, the satellite is usable, and every solution at every level has it
        // at 1 Mm or at the mask, to 2^-15 Mm
        ensures near { (prn : ℕ) → result ≡ Piece.Decided (Verdict.Undecided (Cmp.Mask prn)) → (first ≡ last) × IsNearMaskAlways self.now.case first prn }
    {
        steps.tick();
        let mut known = Known::nothing();
        let mut seen = Seen::new();
        let verdict = self
            .case
            .verdict(self.alert, first, last, &mut known, &mut seen);
        answer(verdict, first, last)
    }

    ghost inherits = { λ judge first last a b rule low ordered high. case_inherits judge.alert judge.case first last a b rule low high };

    ghost settles = { λ judge first last a b rule certain low ordered high. case_settles judge.alert judge.case first last a b rule certain low ordered high };
}

impl ToldJudge for FlightJudge {
    type Known = Known;

    type Room = Seen;

    ghost knows = { λ judge known first last. Knows judge.alert judge.case known first last };

    fn nothing(&self) -> Known {
        Known::nothing()
    }

    fn room(&self) -> Seen {
        Seen::new()
    }

    fn judge_told<L: Ledger>(
        &self,
        known: Known,
        room: &mut Seen,
        first: i64,
        last: i64,
        steps: &mut Steps<L>,
    ) -> (Piece, Known) {
        steps.tick();
        let mut found = known;
        let verdict = self.case.verdict(self.alert, first, last, &mut found, room);
        (answer(verdict, first, last), found)
    }

    ghost stays = { λ judge known first last a b rule knows low ordered high. known_stays judge.alert judge.case known first last a b rule knows low ordered high };
}
