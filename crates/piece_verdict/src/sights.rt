// What is seen of the satellites from a receiver's frame, over a piece of time.
ghost use Rattle.std.specs.Prelude.{◌≡◌, ◌≢◌, ◌⊎◌, ℕ, ◌≤◌, ◌<◌, ◌-◌, ◌≤ℤ◌, All, AllPairs, [], length, slice_index_or, true, false};
ghost use Rattle.raim_model.specs.AlmanacRanges.{IsApplicable};
ghost use Rattle.raim_model.specs.Ranges.{IsWeight};
ghost use Rattle.fix_interval.specs.Intervals.{ends};
ghost use Rattle.site_laws.specs.Frames.{IsFrame};
ghost use Rattle.site_laws.specs.Sights.{DirectionEnds, DirectionInside, IsSineEnds, look_of, widest_direction, visible, hidden};
ghost use Rattle.wgs_position.specs.Frames.{frame_ends};
ghost use Rattle.elev_mask.specs.Sights.{sight_ends};
ghost use Rattle.orbit_laws.specs.Positions.{position_of};
ghost use Rattle.piece_verdict.specs.Looks.{AreLooks};
ghost use Rattle.piece_verdict.specs.Hidden.{is_marked, AddsHidden};
ghost use Rattle.piece_verdict.specs.Seen.{looks_with, IsSeen};
ghost use Rattle.piece_verdict.specs.Views.{look_unless, seen_from, all_seen_from};

use crate::found::Found;
use crate::satellite::Satellite;
use crate::seen::Seen;
use crate::weight::weight;
use elev_mask::{Sight, look};
use fix_interval::Iv;
use raim_model::{Outage, Weight};
use slope_test::Marks;
use wgs_position::SiteFrame;

/// How one satellite is seen.
fn sight(satellite: &Satellite, frame: &SiteFrame, mask: Iv, first: i64, last: i64) -> Sight
    requires ordered { first ≤ℤ last }
    requires first_applicable { IsApplicable satellite.now first }
    requires last_applicable { IsApplicable satellite.now last }
    requires frame { IsFrame (frame_ends frame.now) }
    requires mask { IsSineEnds (ends mask) }
    ensures exact { sight_ends result ≡ look_of (frame_ends frame.now) (position_of satellite.now first last) (ends mask) }
    ensures bound { (row : DirectionEnds) → sight_ends result ≡ visible row → DirectionInside row widest_direction }
{
    let place = satellite.position(first, last);
    look(frame, &place, mask)
}

/// How the satellite is seen, where it may be known before to be hidden; if it is found to be, that is known then.
fn sight_knowing(
    before: &Marks,
    known: &mut Marks,
    satellite: &Satellite,
    frame: &SiteFrame,
    mask: Iv,
    first: i64,
    last: i64,
) -> Sight
    requires ordered { first ≤ℤ last }
    requires first_applicable { IsApplicable satellite.now first }
    requires last_applicable { IsApplicable satellite.now last }
    requires frame { IsFrame (frame_ends frame.now) }
    requires mask { IsSineEnds (ends mask) }
    ensures exact { sight_ends result ≡ look_unless (is_marked before.now.places satellite.now) (look_of (frame_ends frame.now) (position_of satellite.now first last) (ends mask)) }
    ensures bound { (row : DirectionEnds) → sight_ends result ≡ visible row → DirectionInside row widest_direction }
    ensures found { is_marked known.new.places satellite.now ≡ true
        → (is_marked known.old.places satellite.now ≡ true) ⊎ (look_of (frame_ends frame.now) (position_of satellite.now first last) (ends mask) ≡ hidden) }
    ensures kept { is_marked before.now.places satellite.now ≡ true → known.new.places ≡ known.old.places }
    ensures others { (k : ℕ) → k ≢ satellite.now.prn - 1 → slice_index_or known.new.places k false ≡ slice_index_or known.old.places k false }
{
    let place = satellite.place();
    if before.holds(place) {
        return Sight::Hidden;
    }
    let sight = sight(satellite, frame, mask, first, last);
    if let Sight::Hidden = sight {
        known.add(place);
    }
    sight
}

/// What a test that needs so many satellites makes of those that are usable at `first`, whose rows are kept in `seen`. Where one
/// straddles and enough may be visible, the rest need no look.
pub(crate) fn sights(
    satellites: &[Satellite],
    outages: &[Outage],
    weights: &[Weight],
    frame: &SiteFrame,
    mask: Iv,
    needed: usize,
    known: &mut Marks,
    seen: &mut Seen,
    first: i64,
    last: i64,
) -> Found
    requires few { length satellites.now ≤ 32 }
    requires rising { AllPairs (λ before after. before.prn < after.prn) satellites.now }
    requires some { All (λ rec. 1 ≤ rec.prn) satellites.now }
    requires weights { All IsWeight weights.now }
    requires ordered { first ≤ℤ last }
    requires first_applicable { All (λ rec. IsApplicable rec first) satellites.now }
    requires last_applicable { All (λ rec. IsApplicable rec last) satellites.now }
    requires frame { IsFrame (frame_ends frame.now) }
    requires mask { IsSineEnds (ends mask) }
    requires none { IsSeen seen.old [] }
    ensures looks { AreLooks needed (all_seen_from (frame_ends frame.now) (ends mask) weights.now outages.now known.old.places first last satellites.now) (looks_with result seen.new) }
    ensures known { AddsHidden (seen_from (frame_ends frame.now) (ends mask) weights.now first last) satellites.now known.old.places known.new.places }
{
    let before = *known;
    for satellite in satellites {
        if let Some(straddling) = seen.settles(needed) {
            return Found::Straddle(straddling);
        }
        if satellite.usable_at(outages, first) {
            let sight = sight_knowing(&before, known, satellite, frame, mask, first, last);
            let prn = satellite.prn();
            seen.add(prn, sight, weight(weights, prn));
        }
    }
    seen.found(needed)
}
