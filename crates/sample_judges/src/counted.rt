// A judge that counts how often another one is asked.
ghost use Rattle.std.specs.Prelude.{◌≡◌};

use raim_model::Piece;
use std::cell::Cell;
use std::sync::ledger::Ledger;
use step_counter::Steps;
use time_split::{Judge, ToldJudge};

/// A judge, and how often it was asked.
#[derive(Drop)]
pub struct Counted<J> {
    pub judge: J,
    pub calls: Cell<u64>,
}

impl<J: Judge> Judge for Counted<J> {
    ghost verdict = { λ counted. J.verdict counted.judge };

    ghost rule = { λ counted. J.rule counted.judge };

    fn judge<L: Ledger>(&self, first: i64, last: i64, steps: &mut Steps<L>) -> Piece {
        self.calls.set(self.calls.get().wrapping_add(1));
        self.judge.judge(first, last, steps)
    }

    ghost inherits = { λ counted first last a b rule low ordered high. J.inherits counted.judge first last a b rule low ordered high };

    ghost settles = { λ counted first last a b rule certain low ordered high. J.settles counted.judge first last a b rule certain low ordered high };
}

impl<J: ToldJudge> ToldJudge for Counted<J> {
    type Known = J::Known;

    type Room = J::Room;

    ghost knows = { λ counted known first last. J.knows counted.judge known first last };

    fn nothing(&self) -> J::Known {
        self.judge.nothing()
    }

    fn room(&self) -> J::Room {
        self.judge.room()
    }

    fn judge_told<L: Ledger>(
        &self,
        known: J::Known,
        room: &mut J::Room,
        first: i64,
        last: i64,
        steps: &mut Steps<L>,
    ) -> (Piece, J::Known) {
        self.calls.set(self.calls.get().wrapping_add(1));
        self.judge.judge_told(known, room, first, last, steps)
    }

    ghost stays = { λ counted known first last a b rule knows low ordered high. J.stays counted.judge known first last a b rule knows low ordered high };
}
