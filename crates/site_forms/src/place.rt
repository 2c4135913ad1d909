// Where a flight is over a piece of time.

ghost use Rattle.std.specs.Prelude.{◌≡◌, ℤ, pos, ◌+◌, ◌<◌, ◌^◌, ◌+ℤ◌, ◌≤ℤ◌, ◌<ℤ◌, length, slice_index_or, unsigned_abs, IfSome};
ghost use Rattle.std.specs.Option.{option_map};
ghost use Rattle.raim_model.specs.declared.Waypoint.{Waypoint};
ghost use Rattle.raim_model.specs.Route.{time_at};
ghost use Rattle.raim_model.specs.Constants.{day_ms};
ghost use Rattle.raim_model.specs.Ranges.{IsWaypoint};
ghost use Rattle.site_laws.specs.Places.{place_over_of};
ghost use Rattle.time_forms.specs.Forms.{IsTime};
ghost use Rattle.site_forms.specs.Places.{place_form, PlaceHolds, checked_place_over, IsPlaceWithin};

use crate::leg::{Leg, along};
use crate::time_place::TimePlace;
use fix_interval::Iv;
use raim_model::Waypoint;
use route_interp::Route;

/// Where a flight is over the piece of a leg, between two waypoints.
fn between(leg: &Leg, start: &Waypoint, stop: &Waypoint) -> Option<TimePlace>
    requires start { IsWaypoint start.now }
    requires stop { IsWaypoint stop.now }
    requires start_time { start.now.at ≡ leg.now.start }
    requires stop_time { stop.now.at ≡ leg.now.stop }
    ensures exact { option_map place_form result ≡ checked_place_over start.now stop.now leg.now.middle (unsigned_abs leg.now.half) }
    ensures small { IfSome result (λ p. IsPlaceWithin (place_form p) (2 ^ 58)) }
{
    let lat = along(
        leg,
        Iv::from_dec_over(&start.lat, 360),
        Iv::from_dec_over(&stop.lat, 360),
    )?;
    let lon = along(
        leg,
        Iv::from_dec_over(&start.lon, 360),
        Iv::from_dec_over(&stop.lon, 360),
    )?;
    let height = along(
        leg,
        Iv::from_dec_over(&start.height, 1_000_000),
        Iv::from_dec_over(&stop.height, 1_000_000),
    )?;
    Some(TimePlace { lat, lon, height })
}

/// Where a flight is over the piece from the millisecond `middle - half` to `middle + half`, by the line of leg `leg` of its
/// route, which goes from waypoint `leg`, counted from 0, until before the next one's time and has the middle on it: so a piece
/// may begin before its leg or end after it, and at those milliseconds nothing is said of the flight. Latitude, longitude and
/// height each run straight between the two waypoints, longitudes as they are written. Times are in milliseconds since the GPS
/// epoch, latitude and longitude in turns and the height in megametres, in units of 2^-38. None where a number would be 2^58 or
/// more in size.
pub fn place_over(route: &Route, leg: usize, middle: i64, half: i64) -> Option<TimePlace>
    requires leg { leg + 1 < length route.now }
    requires half_positive { pos 1 ≤ℤ half }
    requires half_short { half ≤ℤ pos day_ms }
    requires started { time_at route.now leg ≤ℤ middle }
    requires not_over { middle <ℤ time_at route.now (leg + 1) }
    ensures exact { (w : Waypoint) → option_map place_form result
        ≡ checked_place_over (slice_index_or route.now leg w) (slice_index_or route.now (leg + 1) w) middle (unsigned_abs half) }
    // it holds the interval place of each millisecond of the piece that lies on the leg
    ensures holds { (w : Waypoint) (d : ℤ) → IsTime (unsigned_abs half) d
        → time_at route.now leg ≤ℤ (middle +ℤ d) → (middle +ℤ d) <ℤ time_at route.now (leg + 1)
        → IfSome result (λ p. PlaceHolds (unsigned_abs half) d (place_form p)
        (place_over_of (slice_index_or route.now leg w) (slice_index_or route.now (leg + 1) w) (middle +ℤ d) (middle +ℤ d))) }
    // it is one that a frame may be asked for
    ensures small { IfSome result (λ p. IsPlaceWithin (place_form p) (2 ^ 58)) }
{
    let start = route.waypoint(leg);
    let stop = route.waypoint(leg + 1);
    let leg = Leg {
        start: start.at,
        stop: stop.at,
        middle,
        half,
    };
    between(&leg, &start, &stop)
}
