// Where a flight is over some milliseconds of a leg: each part runs straight from one waypoint to the next.

ghost use Rattle.std.specs.Prelude.{◌≡◌, pos, neg_ℤ, ◌+◌, ◌^◌, ◌+ℤ◌, ◌-ℤ◌, ◌*ℤ◌, ◌≤ℤ◌, ◌<ℤ◌, ℤ, ◌<◌, length, slice_index_or};
ghost use Rattle.fractions.specs.Fraction.{whole};
ghost use Rattle.raim_model.specs.Constants.{day_ms};
ghost use Rattle.raim_model.specs.declared.Waypoint.{Waypoint};
ghost use Rattle.raim_model.specs.Ranges.{IsDecimalBetween};
ghost use Rattle.raim_model.specs.Receiver.{OnLeg, place_on};
ghost use Rattle.raim_model.specs.Route.{time_at};
ghost use Rattle.fix_interval.specs.Ends.{IsInside};
ghost use Rattle.fix_interval.specs.Intervals.{ends, IsWithin};
ghost use Rattle.fix_interval.specs.Decimals.{from_dec_over_of};
ghost use Rattle.site_laws.specs.Places.{PlaceLies, PlaceInside, PlaceNarrow, IsNearEarth, times_of, at_of, along_of, place_over_of, widest_place};
ghost use Rattle.leg_place.specs.Places.{place_ends};

use crate::piece::Piece;
use crate::place_box::PlaceBox;
use fix_interval::{Iv, add, div_int, hull, scale_int};
use raim_model::Dec;
use route_interp::Route;

/// Degrees of latitude in turns.
fn latitude(degrees: &Dec) -> Iv
    requires { IsDecimalBetween (whole (neg_ℤ (pos 90))) (whole (pos 90)) degrees.now }
    ensures exact { ends result ≡ from_dec_over_of degrees.now 360 }
    ensures bound { IsInside (ends result) widest_place.lat }
{
    Iv::from_dec_over(degrees, 360)
}

/// Degrees of longitude in turns.
fn longitude(degrees: &Dec) -> Iv
    requires { IsDecimalBetween (whole (neg_ℤ (pos 360))) (whole (pos 360)) degrees.now }
    ensures exact { ends result ≡ from_dec_over_of degrees.now 360 }
    ensures bound { IsInside (ends result) widest_place.lon }
{
    Iv::from_dec_over(degrees, 360)
}

/// Metres of height in megametres.
fn height(metres: &Dec) -> Iv
    requires { IsDecimalBetween (whole (neg_ℤ (pos 1000))) (whole (pos 30000)) metres.now }
    ensures exact { ends result ≡ from_dec_over_of metres.now 1000000 }
    ensures bound { IsInside (ends result) widest_place.height }
{
    Iv::from_dec_over(metres, 1_000_000)
}

/// The milliseconds from `from` to `to`.
fn apart(from: i64, to: i64) -> i64
    requires ordered { from ≤ℤ to }
    requires short { to ≤ℤ (from +ℤ pos day_ms) }
    ensures { result ≡ to -ℤ from }
{
    to - from
}

/// `k` times `a`.
fn times(a: Iv, k: i64) -> Iv
    requires small { IsWithin a (2 ^ 39) }
    requires not_negative { pos 0 ≤ℤ k }
    requires short { k ≤ℤ pos day_ms }
    ensures exact { ends result ≡ times_of (ends a) k }
    ensures bound { IsWithin result (2 ^ 66) }
{
    scale_int(a, k, k)
}

/// The value at the millisecond `t` of a piece, on the line from `a` at its leg's start to `b` at its end.
fn at(piece: &Piece, t: i64, a: Iv, b: Iv) -> Iv
    requires from_first { piece.now.first ≤ℤ t }
    requires to_last { t ≤ℤ piece.now.last }
    requires a_small { IsWithin a (2 ^ 39) }
    requires b_small { IsWithin b (2 ^ 39) }
    ensures { ends result ≡ at_of piece.now.start piece.now.stop t (ends a) (ends b) }
{
    let before = apart(t, piece.stop);
    let after = apart(piece.start, t);
    let long = apart(piece.start, piece.stop);
    div_int(add(times(a, before), times(b, after)), long as i128)
}

/// The values over a piece, on the line from `a` at its leg's start to `b` at its end.
fn along(piece: &Piece, a: Iv, b: Iv) -> Iv
    requires a_small { IsWithin a (2 ^ 39) }
    requires b_small { IsWithin b (2 ^ 39) }
    ensures { ends result ≡ along_of piece.now.start piece.now.stop piece.now.first piece.now.last (ends a) (ends b) }
{
    hull(at(piece, piece.first, a, b), at(piece, piece.last, a, b))
}

/// Where a flight is from the millisecond `first` to `last`, which lie on leg `leg` of its route: from waypoint `leg`,
/// counted from 0, until before the next one's time. Latitude, longitude and height each run straight between the two
/// waypoints, longitudes as they are written. Times are in milliseconds since the GPS epoch. It takes no memory and
/// refuses nothing.
pub fn place_over(route: &Route, leg: usize, first: i64, last: i64) -> PlaceBox
    requires leg { leg + 1 < length route.now }
    requires started { time_at route.now leg ≤ℤ first }
    requires ordered { first ≤ℤ last }
    requires not_over { last <ℤ time_at route.now (leg + 1) }
    ensures exact { (d : Waypoint) → place_ends result
        ≡ place_over_of (slice_index_or route.now leg d) (slice_index_or route.now (leg + 1) d) first last }
    // it holds the place at each millisecond
    ensures encloses { (t : ℤ) → first ≤ℤ t → t ≤ℤ last → (l : OnLeg route.now t)
        → PlaceLies (place_ends result) (place_on l) }
    // and lies inside what is answered from `f` to `l`, around `first` and `last`
    ensures isotone { (d : Waypoint) (f l : ℤ) → time_at route.now leg ≤ℤ f → f ≤ℤ first → last ≤ℤ l → l <ℤ time_at route.now (leg + 1)
        → PlaceInside (place_ends result) (place_over_of (slice_index_or route.now leg d) (slice_index_or route.now (leg + 1) d) f l) }
    // it is one that a frame may be asked for
    ensures ranges { IsNearEarth (place_ends result) }
    // and at one millisecond each part is at most four units wide
    ensures narrow { first ≡ last → PlaceNarrow (place_ends result) 4 }
{
    let start = route.waypoint(leg);
    let stop = route.waypoint(leg + 1);
    let piece = Piece {
        start: start.at,
        stop: stop.at,
        first,
        last,
    };
    PlaceBox {
        lat: along(&piece, latitude(&start.lat), latitude(&stop.lat)),
        lon: along(&piece, longitude(&start.lon), longitude(&stop.lon)),
        height: along(&piece, height(&start.height), height(&stop.height)),
    }
}
