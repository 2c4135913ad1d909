// The leg of a route that a millisecond lies on.
ghost use Rattle.std.specs.Prelude.{◌≡◌, ◌+◌, ◌<◌, ◌≤ℤ◌, ◌<ℤ◌, length, slice_index_or, Some};
ghost use Rattle.raim_model.specs.declared.waypoint.Waypoint.{Waypoint};
ghost use Rattle.raim_model.specs.Route.{time_at, flight_of};
ghost use Rattle.flight_laws.specs.Legs.{leg_at};

use route_interp::Route;

/// The place of the leg's first waypoint.
pub(crate) fn leg(route: &Route, t: i64) -> usize
    requires started { (flight_of route.now).first ≤ℤ t }
    requires not_over { t <ℤ (flight_of route.now).end }
    ensures within { result + 1 < length route.now }
    ensures started { time_at route.now result ≤ℤ t }
    ensures not_over { t <ℤ time_at route.now (result + 1) }
    ensures exact { (d : Waypoint) → leg_at route.now t ≡ Some record { start = slice_index_or route.now result d; stop = slice_index_or route.now (result + 1) d } }
{
    let last = route.len() - 2;
    let mut leg = 0;
    while leg < last && route.at(leg + 1) <= t {
        leg += 1;
    }
    leg
}
