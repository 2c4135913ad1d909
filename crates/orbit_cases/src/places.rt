// Places on the legs of routes, as an independent evaluation of the definitions in whole numbers of any size has them.

use fix_interval::Iv;
use leg_place::*;
use route_interp::{Route, read_route};
use std::alloc::Global;
use std::test::Fail;

/// The milliseconds of a day.
const DAY: i64 = 86_400_000;

/// The place from `first` to `last`, counted from the begin of a leg, where it may be asked.
fn place_of(route: &Route, leg: usize, first: i64, last: i64) -> Option<PlaceBox> {
    if leg < 200 && leg + 1 < route.len() && 0 <= first && first <= last && last < DAY {
        let start = route.at(leg);
        if start + last < route.at(leg + 1) {
            return Some(place_over(route, leg, start + first, start + last));
        }
    }
    None
}

/// The route of a line: a leg that begins at midnight, and where it is the second one, a leg of a second before it.
fn route_of(alloc: Global, line: &str, leg: usize) -> Result<Option<Route>, Fail> {
    let mut text = String::new(alloc);
    if leg == 1 {
        text.push_str("2024-10-26T23:59:59.000Z 12.5 -7 8000\n")?;
    }
    text.push_str("2024-10-27T00:00:00.000Z")?;
    for (k, word) in line.split_whitespace().enumerate().skip(1).take(7) {
        text.push_str(if k == 4 { "\n" } else { " " })?;
        text.push_str(word)?;
    }
    Ok(read_route(alloc, text.as_bytes(), 0).ok())
}

/// The leg of a line, and its first and its last millisecond.
fn piece_of(line: &str) -> Option<(usize, i64, i64)> {
    let leg = line.split_whitespace().next()?.parse::<usize>().ok()?;
    let mut words = line.split_whitespace().skip(8);
    let first = words.next()?.parse::<i64>().ok()?;
    let last = words.next()?.parse::<i64>().ok()?;
    Some((leg, first, last))
}

/// The place over the piece of a line.
fn place_of_line(alloc: Global, line: &str) -> Result<Option<PlaceBox>, Fail> {
    let Some((leg, first, last)) = piece_of(line) else {
        return Ok(None);
    };
    match route_of(alloc, line, leg)? {
        Some(route) => Ok(place_of(&route, leg, first, last)),
        None => Ok(None),
    }
}

#[test]
fn places_are_as_the_table_says(rt: HostRuntime) -> Result<(), Fail> {
    let alloc = rt.alloc();
    let mut lines: usize = 0;
    for line in TABLE.lines() {
        lines = lines.wrapping_add(1);
        let Some(place) = place_of_line(alloc, line)? else {
            panic!(rt; "{line}")
        };
        let mut words = line.split_whitespace().skip(10);
        for part in [place.lat, place.lon, place.height] {
            for end in [part.lo, part.hi] {
                assert_eq!(rt;
                    words.next().and_then(|w| w.parse::<i128>().ok()),
                    Some(end),
                    "{line}"
                );
            }
        }
    }
    assert_eq!(rt; lines, 20);
    Ok(())
}

/// The leg of the route, its first waypoint (degrees, metres), the time of the second one and its place, the first and the
/// last millisecond from the first waypoint's time, and the ends of latitude, longitude and height. The first two lines go
/// over half a turn of longitude and over the whole Earth.
const TABLE: &str = "\
0 0 179.9 0 2024-10-27T00:00:01.000Z 0 180.1 0 500 500 0 0 137438953471 137438953473 0 0
0 0 179.9 0 2024-10-27T00:00:01.000Z 0 -179.9 0 500 500 0 0 -1 1 0 0
0 0 179.9 0 2024-10-27T00:00:01.000Z 0 -179.9 0 0 999 0 0 -137087873302 137362598498 0 0
0 90 -360 30000 2024-10-27T00:00:00.001Z -90 360 -1000 0 0 68719476736 68719476736 -274877906944 -274877906944 8246337208 8246337209
0 90 -360 30000 2024-10-27T00:00:00.002Z -90 360 -1000 0 0 68719476736 68719476736 -274877906944 -274877906944 8246337208 8246337209
0 90 -360 30000 2024-10-27T00:00:00.002Z -90 360 -1000 1 1 0 0 0 0 3985729650 3985729652
0 90 -360 30000 2024-10-27T00:00:00.002Z -90 360 -1000 0 1 0 68719476736 -274877906944 0 3985729650 8246337209
0 -90 360 -1000 2024-10-28T00:00:00.000Z 90 -360 30000 0 0 -68719476736 -68719476736 274877906944 274877906944 -274877907 -274877906
0 -90 360 -1000 2024-10-28T00:00:00.000Z 90 -360 30000 1 1 -68719475146 -68719475145 274877900581 274877900582 -274877809 -274877807
0 -90 360 -1000 2024-10-28T00:00:00.000Z 90 -360 30000 86399999 86399999 68719475145 68719475146 -274877900582 -274877900581 8246337109 8246337111
0 -90 360 -1000 2024-10-28T00:00:00.000Z 90 -360 30000 0 86399999 -68719476736 68719475146 -274877900582 274877906944 -274877907 8246337111
0 -90 360 -1000 2024-10-28T00:00:00.000Z 90 -360 30000 43200000 43200000 0 0 0 0 3985729650 3985729652
0 35.5533 139.7811 10668 2024-10-28T00:00:00.000Z 40.64 -73.78 4 0 0 27146713024 27146713025 106729822773 106729822774 2932397511 2932397512
0 35.5533 139.7811 10668 2024-10-28T00:00:00.000Z 40.64 -73.78 4 12345678 12345678 27701689611 27701689613 83429567095 83429567097 2513544950 2513544952
0 35.5533 139.7811 10668 2024-10-28T00:00:00.000Z 40.64 -73.78 4 12345678 12445678 27701689611 27706184924 83240835009 83429567097 2510152244 2513544952
0 35.5533 139.7811 10668 2024-10-28T00:00:00.000Z 40.64 -73.78 4 86399999 86399999 31030661450 31030661452 -56334698042 -56334698040 1099544 1099546
1 -33.9461 151.1772 6.4 2024-10-27T00:00:07.001Z -33.9 151.3 -0.001 0 0 -25919535881 -25919535880 115431311982 115431311983 1759218 1759219
1 -33.9461 151.1772 6.4 2024-10-27T00:00:07.001Z -33.9 151.3 -0.001 1 6999 -25919530854 -25884346292 115431325374 115525049106 227 1758968
1 -33.9461 151.1772 6.4 2024-10-27T00:00:07.001Z -33.9 151.3 -0.001 7000 7000 -25884341266 -25884341264 115525062497 115525062499 -24 -22
1 51.47 -0.4500000000001 25 2024-10-27T00:00:00.001Z 51.5 0 10000 0 0 39299905195 39299905196 -343597384 -343597383 6871947 6871948";
