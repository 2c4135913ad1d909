// A look at a satellite.

ghost use Rattle.std.specs.Prelude.{◌≡◌, ◌⊎◌, pos, ◌^◌, true, false};
ghost use Rattle.fractions.specs.Fraction.{ratio, oneᶠ, ◌*ᶠ◌, IsNear};
ghost use Rattle.raim_model.specs.Level.{Level};
ghost use Rattle.raim_model.specs.Look.{line_of_sight, is_visible, direction_row};
ghost use Rattle.raim_model.specs.Receiver.{site};
ghost use Rattle.raim_model.specs.Vector.{dot as product};
ghost use Rattle.fix_interval.specs.Ends.{Ends, IsInside, IsNarrow};
ghost use Rattle.fix_interval.specs.Intervals.{ends};
ghost use Rattle.fix_interval.specs.Products.{mul_of};
ghost use Rattle.fix_interval.specs.Vectors.{VectorEnds, VectorInside, VectorNarrow, vector_ends};
ghost use Rattle.site_laws.specs.Places.{PlaceEnds, IsNearEarth, PlaceNarrow};
ghost use Rattle.site_laws.specs.Frames.{FrameEnds, FrameInside, IsFrame, frame_of};
ghost use Rattle.site_laws.specs.Sights.{DirectionEnds, DirectionLies, DirectionInside, SightInside, LookChoice, IsInReach, IsSineEnds, look_of, widest_direction, visible, hidden, straddle, range_ends};
ghost use Rattle.wgs_position.specs.Frames.{frame_ends};
ghost use Rattle.elev_mask.specs.Sights.{sight_ends};

use crate::components::named;
use crate::decision::{hidden, seen};
use crate::direction::direction;
use crate::line::{dot, length, line};
use crate::sight::Sight;
use fix_interval::{Iv, mul};
use wgs_position::SiteFrame;

/// The least that is over the up direction of a line that is not masked: the sine of the mask times the range.
fn least(mask: Iv, range: Iv) -> Iv
    requires mask { IsSineEnds (ends mask) }
    requires range { IsInside (ends range) range_ends }
    ensures exact { ends result ≡ mul_of (ends mask) (ends range) }
{
    mul(mask, range)
}

/// How a satellite is seen from a receiver's frame: `sat` is its position in megametres, in axes that turn with the Earth,
/// and `mask` the sine of the mask of elevation, both in units of 2^-38. It takes no memory and refuses nothing.
pub fn look(frame: &SiteFrame, sat: &[Iv; 3], mask: Iv) -> Sight
    requires frame { IsFrame (frame_ends frame.now) }
    requires sat { IsInReach (vector_ends sat.now) }
    requires mask { IsSineEnds (ends mask) }
    ensures exact { sight_ends result ≡ look_of (frame_ends frame.now) (vector_ends sat.now) (ends mask) }
    // hidden: no choice of the model is visible
    ensures hidden { sight_ends result ≡ hidden
        → (box : PlaceEnds) → IsNearEarth box → frame_ends frame.now ≡ frame_of box
        → (N : Level) (c : LookChoice N box (vector_ends sat.now) (ends mask))
        → is_visible (site c.receiver) c.satellite c.sine c.range ≡ false }
    // visible: every choice is, and its row lies in the direction
    ensures visible { (row : DirectionEnds) → sight_ends result ≡ visible row
        → (box : PlaceEnds) → IsNearEarth box → frame_ends frame.now ≡ frame_of box
        → (N : Level) (c : LookChoice N box (vector_ends sat.now) (ends mask))
        → (is_visible (site c.receiver) c.satellite c.sine c.range ≡ true)
        × DirectionLies row (direction_row (site c.receiver) c.satellite c.range) }
    // the parts of the direction are intervals from -1 to 1, and a unit more
    ensures bound { (row : DirectionEnds) → sight_ends result ≡ visible row → DirectionInside row widest_direction }
    // what is decided on wider intervals is decided the same
    ensures isotone { (f : FrameEnds) (s : VectorEnds) (m : Ends) → FrameInside (frame_ends frame.now) f
        → VectorInside (vector_ends sat.now) s → IsInside (ends mask) m → SightInside (sight_ends result) (look_of f s m) }
    // undecided on narrow intervals: each choice is near equality
    ensures narrow { sight_ends result ≡ straddle
        → (box : PlaceEnds) → IsNearEarth box → frame_ends frame.now ≡ frame_of box
        → PlaceNarrow box 4 → VectorNarrow (vector_ends sat.now) (2 ^ 20) → IsNarrow (ends mask) (2 ^ 9)
        → (N : Level) (c : LookChoice N box (vector_ends sat.now) (ends mask))
        → (IsNear c.range oneᶠ (ratio (pos 1) (2 ^ 15)))
        ⊎ (IsNear (product (site c.receiver).up (line_of_sight (site c.receiver) c.satellite)) (c.sine *ᶠ c.range) (ratio (pos 1) (2 ^ 15))) }
{
    let line = line(named(&frame.pos), named(sat));
    let range = length(line);
    let up = dot(named(&frame.up), line);
    let least = least(mask, range);
    if hidden(range, up, least) {
        Sight::Hidden
    } else if seen(range, up, least) {
        let east = named(&frame.east);
        let north = named(&frame.north);
        Sight::Visible(direction(east, north, line, range, up))
    } else {
        Sight::Straddle
    }
}
