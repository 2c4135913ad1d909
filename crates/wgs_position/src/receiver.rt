// The frame of a receiver.

ghost use Rattle.std.specs.Prelude.{◌≡◌, ◌^◌};
ghost use Rattle.raim_model.specs.Level.{Level};
ghost use Rattle.raim_model.specs.Receiver.{Place, ReceiverSolution, site};
ghost use Rattle.fix_interval.specs.Ends.{IsInside};
ghost use Rattle.fix_interval.specs.Intervals.{ends};
ghost use Rattle.fix_interval.specs.Pairs.{pair_ends, full_pair, PairInside};
ghost use Rattle.fix_interval.specs.Vectors.{VectorNarrow};
ghost use Rattle.trig_laws.specs.SinCos.{sin_cos_of};
ghost use Rattle.site_laws.specs.Places.{around_a_turn, PlaceEnds, PlaceLies, PlaceInside, PlaceNarrow, IsNearEarth};
ghost use Rattle.site_laws.specs.Frames.{SiteLies, FrameInside, IsFrame, frame_of, widest_frame};
ghost use Rattle.leg_place.specs.Places.{place_ends};
ghost use Rattle.wgs_position.specs.Frames.{frame_ends};

use crate::directions::{east, north, up};
use crate::position::position;
use crate::site_frame::SiteFrame;
use fix_interval::Iv;
use leg_place::PlaceBox;

/// The sine and the cosine of an angle of at most a turn and a unit.
fn sines(turns: Iv) -> (Iv, Iv)
    requires { IsInside (ends turns) around_a_turn }
    ensures exact { pair_ends result.0 result.1 ≡ sin_cos_of (ends turns) }
    ensures bound { PairInside (pair_ends result.0 result.1) full_pair }
{
    trig_enclose::sin_cos(turns)
}

/// The position of a receiver at a place near the Earth (heights from -1000 m to 30000 m), and its directions to the east,
/// to the north and up, on the ellipsoid of WGS 84. It takes no memory and refuses nothing.
pub fn frame(place: &PlaceBox) -> SiteFrame
    requires { IsNearEarth (place_ends place.now) }
    ensures exact { frame_ends result ≡ frame_of (place_ends place.now) }
    // it is one that a look may be asked for
    ensures frame { IsFrame (frame_ends result) }
    // it holds each receiver that the model admits at a place inside
    ensures encloses { (N : Level) (p : Place) → PlaceLies (place_ends place.now) p → (s : ReceiverSolution N p)
        → SiteLies (frame_ends result) (site s) }
    // and at each level there is one
    ensures exists { (N : Level) (p : Place) → PlaceLies (place_ends place.now) p
        → (s : ReceiverSolution N p) × SiteLies (frame_ends result) (site s) }
    // it lies inside that of a wider place
    ensures isotone { (wide : PlaceEnds) → IsNearEarth wide → PlaceInside (place_ends place.now) wide
        → FrameInside (frame_ends result) (frame_of wide) }
    // the position is at most 6430 km from each axis, and the parts of the directions are at most 1
    ensures bound { FrameInside (frame_ends result) widest_frame }
    // and where the place is at most four units wide, the position is at most 2^13, and up at most 2^10
    ensures narrow { PlaceNarrow (place_ends place.now) 4
        → VectorNarrow (frame_ends result).position (2 ^ 13) × VectorNarrow (frame_ends result).up (2 ^ 10) }
{
    let lat = sines(place.lat);
    let lon = sines(place.lon);
    SiteFrame {
        pos: position(place.height, lat, lon),
        east: east(lon),
        north: north(lat, lon),
        up: up(lat, lon),
    }
}
