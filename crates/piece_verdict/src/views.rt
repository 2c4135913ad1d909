// What is seen over a piece of time of a case's flight.
ghost use Rattle.std.specs.Prelude.{◌≡◌, ◌≤ℤ◌, []};
ghost use Rattle.raim_model.specs.declared.almanac.AlmRecord.{AlmRecord};
ghost use Rattle.raim_model.specs.AlmanacInForce.{in_force};
ghost use Rattle.raim_model.specs.CaseCuts.{MayBeJudged};
ghost use Rattle.raim_model.specs.PointVerdict.{least_count};
ghost use Rattle.site_laws.specs.Frames.{IsFrame};
ghost use Rattle.wgs_position.specs.Frames.{frame_ends};
ghost use Rattle.case_laws.specs.SightOver.{mask_of, sight_over};
ghost use Rattle.piece_verdict.specs.Here.{IsHere};
ghost use Rattle.piece_verdict.specs.Hidden.{seen_knowing, AddsHidden};
ghost use Rattle.piece_verdict.specs.Looks.{AreLooks};
ghost use Rattle.piece_verdict.specs.Seen.{looks_with, IsSeen};
ghost use Rattle.piece_verdict.specs.Views.{seen_from};

use crate::case::Case;
use crate::found::Found;
use crate::here::Here;
use crate::seen::Seen;
use crate::sights::sights;
use crate::slopes::needed;
use leg_place::place_over;
use slope_test::Marks;
use wgs_position::{SiteFrame, frame};

impl Case {
    /// The frame of the receiver over a piece.
    fn receiver(&self, here: Here, first: i64, last: i64) -> SiteFrame
        requires ordered { first ≤ℤ last }
        requires rule { MayBeJudged self.now first last }
        requires here { IsHere self.now here first }
        ensures exact { (rec : AlmRecord) → seen_from (frame_ends result) (mask_of self.now.limits) self.now.limits.weights.items first last rec ≡ sight_over self.now rec first last }
        ensures frame { IsFrame (frame_ends result) }
    {
        frame(&place_over(&self.route, here.leg, first, last))
    }

    /// What the test makes of the satellites that are usable, where some are known to be hidden; those that are found to be
    /// hidden over the piece are known then. The rows are kept in `seen`.
    pub(crate) fn looked(
        &self,
        here: Here,
        first: i64,
        last: i64,
        known: &mut Marks,
        seen: &mut Seen,
    ) -> Found
        requires ordered { first ≤ℤ last }
        requires rule { MayBeJudged self.now first last }
        requires here { IsHere self.now here first }
        requires none { IsSeen seen.old [] }
        ensures looks { AreLooks (least_count self.now.limits.exclude) (seen_knowing self.now known.old.places first last) (looks_with result seen.new) }
        ensures known { AddsHidden (λ rec. sight_over self.now rec first last) (in_force first self.now.almanacs) known.old.places known.new.places }
    {
        let needed = needed(&self.limits);
        let frame = self.receiver(here, first, last);
        sights(
            self.constellations[here.almanac].satellites(),
            self.outages.as_slice(),
            self.limits.weights.as_slice(),
            &frame,
            self.mask,
            needed,
            known,
            seen,
            first,
            last,
        )
    }
}
