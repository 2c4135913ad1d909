// The frame of a receiver over a piece of time.

ghost use Rattle.std.specs.Prelude.{◌≡◌, ℕ, ℤ, ◌^◌, IfSome};
ghost use Rattle.std.specs.Option.{option_map};
ghost use Rattle.time_forms.specs.Forms.{IsTime};
ghost use Rattle.time_forms.specs.Programs.{form, IsFormWithin};
ghost use Rattle.site_laws.specs.Places.{PlaceEnds};
ghost use Rattle.site_laws.specs.Frames.{frame_of};
ghost use Rattle.angle_forms.specs.Pairs.{pair_form, IsPairWithin};
ghost use Rattle.site_forms.specs.Places.{place_form, PlaceHolds, IsPlaceWithin};
ghost use Rattle.look_forms.specs.Frames.{FrameHolds};
ghost use Rattle.site_forms.specs.Frames.{frame_form, IsFrameWithin, checked_frame_at, checked_frame};

use crate::directions::{east, north, up};
use crate::position::position;
use crate::time_frame::TimeFrame;
use crate::time_place::TimePlace;
use angle_forms::{SineCosine, sin_cos};
use time_forms::TimeForm;

/// The frame at a height, by the sines and cosines of latitude and longitude.
fn frame_at(height: TimeForm, lat: SineCosine, lon: SineCosine) -> Option<TimeFrame>
    requires height_small { IsFormWithin (form height) (2 ^ 58) }
    requires lat_small { IsPairWithin (pair_form lat) (2 ^ 58) }
    requires lon_small { IsPairWithin (pair_form lon) (2 ^ 58) }
    ensures exact { option_map frame_form result ≡ checked_frame_at (form height) (pair_form lat) (pair_form lon) }
    ensures small { IfSome result (λ f. IsFrameWithin (frame_form f) (2 ^ 58)) }
{
    let position = position(height, lat, lon)?;
    let north = north(lat, lon)?;
    let up = up(lat, lon)?;
    Some(TimeFrame {
        position,
        east: east(lon),
        north,
        up,
    })
}

/// The position of a receiver and its directions to the east, to the north and up, on the ellipsoid of WGS 84, at a place that
/// changes over a piece of time: the position in megametres, and the directions of length 1, in units of 2^-38. None where
/// latitude or longitude change by more than half a turn either way, where what a root is taken of or a divisor is not surely
/// above 0, or where a number leaves its range.
pub fn frame(place: &TimePlace) -> Option<TimeFrame>
    requires { IsPlaceWithin (place_form place.now) (2 ^ 58) }
    ensures exact { option_map frame_form result ≡ checked_frame (place_form place.now) }
    // it holds the interval frame of each place that the place's form holds
    ensures holds { (h : ℕ) (d : ℤ) (p : PlaceEnds) → IsTime h d → PlaceHolds h d (place_form place.now) p
        → IfSome result (λ f. FrameHolds h d (frame_form f) (frame_of p)) }
    // it is one from which a look may be asked for
    ensures small { IfSome result (λ f. IsFrameWithin (frame_form f) (2 ^ 58)) }
{
    let lat = sin_cos(place.lat)?;
    let lon = sin_cos(place.lon)?;
    frame_at(place.height, lat, lon)
}
