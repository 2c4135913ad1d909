// Where a piece of a case's flight is.
ghost use Rattle.std.specs.Prelude.{◌≡◌, ◌≤ℤ◌};
ghost use Rattle.raim_model.specs.CaseCuts.{MayBeJudged};
ghost use Rattle.piece_verdict.specs.Here.{IsHere, KnowsHere};

use crate::case::Case;
use crate::legs::leg;
use almanac_choice::in_force_at;

/// The place of the leg's first waypoint, and that of the almanac in force. They are the same throughout a root piece.
#[derive(Clone, Copy)]
pub(crate) struct Here {
    pub(crate) leg: usize,
    pub(crate) almanac: usize,
}

impl Case {
    /// Where a piece is: as is known, and found where it is not.
    pub(crate) fn here(&self, first: i64, last: i64, known: Option<Here>) -> Here
        requires ordered { first ≤ℤ last }
        requires rule { MayBeJudged self.now first last }
        requires known { KnowsHere self.now known first }
        ensures { IsHere self.now result first }
    {
        match known {
            Some(here) => here,
            None => {
                let leg = leg(&self.route, first);
                let almanac = in_force_at(self.times.as_slice(), first);
                Here { leg, almanac }
            }
        }
    }
}
