// Routes and texts that differ from them.
ghost use Rattle.std.specs.Prelude.{◌≤◌, length};
ghost use Rattle.raim_model.specs.Ranges.{IsRoute};

mod tables;

use raim_model::{Dec, Refusal, Span, TextFault, TextWhy, Waypoint};
use route_interp::*;
use std::alloc::Global;
use std::process::Abort;
use std::test::Fail;
use tables::{Refused, damaged_lines, damaged_places, damaged_times};

// The text with the times that its capital letters stand for.
fn spelled(alloc: Global, text: &[u8]) -> Result<Vec<u8>, Fail> {
    let mut whole = Vec::new(alloc);
    for byte in text {
        match byte {
            b'S' => whole.extend_from_slice(b"2024-10-27T00:00:00.000Z")?,
            b'E' => whole.extend_from_slice(b"2024-10-27T00:00:01.000Z")?,
            b'D' => whole.extend_from_slice(b"2024-10-28T00:00:00.000Z")?,
            b'L' => whole.extend_from_slice(b"2024-10-28T00:00:00.001Z")?,
            _ => whole.push(*byte)?,
        }
    }
    Ok(whole)
}

fn point(at: i64, lat: Dec, lon: Dec, height: Dec) -> Waypoint {
    Waypoint {
        at,
        lat,
        lon,
        height,
    }
}

fn expect(
    rt: &impl Abort,
    alloc: Global,
    text: &[u8],
    leap: u8,
    wanted: &[Waypoint],
) -> Result<(), Fail> {
    let whole = spelled(alloc, text)?;
    match read_route(alloc, &whole, leap) {
        Ok(route) => expect_points(rt, &route, wanted),
        Err(refusal) => assert!(rt; false, "{refusal:?} {text:?}"),
    }
    Ok(())
}

fn expect_points(rt: &impl Abort, route: &Route, wanted: &[Waypoint]) {
    assert_eq!(rt; route.len(), wanted.len());
    for (k, waypoint) in wanted.iter().enumerate() {
        assert!(rt; k < route.len());
        assert_eq!(rt; route.waypoint(k), *waypoint);
        assert_eq!(rt; route.at(k), waypoint.at);
    }
}

fn expect_fault(
    rt: &impl Abort,
    alloc: Global,
    text: &[u8],
    line: u32,
    why: TextWhy,
) -> Result<(), Fail> {
    let wanted = Refusal::Text(TextFault { line, why });
    let whole = spelled(alloc, text)?;
    match read_route(alloc, &whole, 0) {
        Ok(_) => assert!(rt; false, "{text:?}"),
        Err(refusal) => assert_eq!(rt; refusal, wanted, "{text:?}"),
    }
    Ok(())
}

fn expect_faults(rt: &impl Abort, alloc: Global, rows: &[Refused]) -> Result<(), Fail> {
    for (text, line, why) in rows {
        expect_fault(rt, alloc, text, *line, *why)?;
    }
    Ok(())
}

#[test]
fn routes_are_read(rt: HostRuntime) -> Result<(), Fail> {
    let alloc = rt.alloc();
    let zero = Dec::new(false, 0, 0);
    let still = [
        point(1_414_022_400_000, zero, zero, zero),
        point(1_414_022_401_000, zero, zero, zero),
    ];
    for text in [
        b"S 0 0 0\nE 0 0 0\n".as_slice(),
        b"S 0 0 0\nE 0 0 0",
        b"\r\nS 0 0 0\r\n\r\nE 0 0 0\r\n",
        b"\tS  -0 0.0\t+0e9\n \nE .0 0. 0e-999\n\n \t\n",
    ] {
        expect(&rt, alloc, text, 0, &still)?;
    }
    // The ends of the ranges, and three waypoints over a day.
    let wide = [
        point(
            1_414_022_418_000,
            Dec::new(true, 90, 0),
            Dec::new(true, 360, 0),
            Dec::new(true, 1000, 0),
        ),
        point(
            1_414_022_419_000,
            Dec::new(false, 5, 1),
            Dec::new(false, 1801, 1),
            Dec::new(false, 110_005, 1),
        ),
        point(
            1_414_108_818_000,
            Dec::new(false, 90, 0),
            Dec::new(false, 360, 0),
            Dec::new(false, 30_000, 0),
        ),
    ];
    expect(
        &rt,
        alloc,
        b"S -90 -360 -1e3\nE .5 180.1 11000.5\nD 90 360 3e4\n",
        18,
        &wide,
    )?;
    let ends = [point(0, zero, zero, zero), point(1, zero, zero, zero)];
    expect(
        &rt,
        alloc,
        b"1980-01-06T00:00:00.000Z 0 0 0\n1980-01-06T00:00:00.001Z 0 0 0",
        0,
        &ends,
    )
}

#[test]
fn damaged_files_are_refused(rt: HostRuntime) -> Result<(), Fail> {
    let alloc = rt.alloc();
    expect_faults(&rt, alloc, damaged_lines())?;
    expect_faults(&rt, alloc, damaged_times())?;
    expect_faults(&rt, alloc, damaged_places())
}

fn expect_span(rt: &impl Abort, alloc: Global, text: &[u8], leap: u8, wanted: Span) {
    match read_route(alloc, text, leap) {
        Ok(route) => assert_eq!(rt; route.span(), wanted, "{text:?}"),
        Err(refusal) => assert!(rt; false, "{refusal:?} {text:?}"),
    }
}

#[test]
fn a_flight_goes_from_the_first_time_to_the_last(rt: HostRuntime) -> Result<(), Fail> {
    let alloc = rt.alloc();
    let six_hours = Span {
        first: 1_414_044_018_000,
        end: 1_414_065_618_000,
    };
    expect_span(&rt, alloc, six_hours_route().as_bytes(), 18, six_hours);
    let last = Span {
        first: 253_086_336_254_998,
        end: 253_086_336_254_999,
    };
    let text = b"9999-12-31T23:59:59.998Z 0 0 0\n9999-12-31T23:59:59.999Z 0 0 0\n";
    expect_span(&rt, alloc, text, 255, last);
    Ok(())
}

// The route of the example `six-hours`.
fn six_hours_route() -> &'static str {
    "2024-10-27T06:00:00.000Z 40.6400 -73.7800 4
2024-10-27T06:18:00.000Z 41.2800 -71.6000 9100
2024-10-27T06:45:30.000Z 42.9000 -67.2500 10600
2024-10-27T07:20:00.000Z 44.8000 -61.9000 10600
2024-10-27T07:55:00.000Z 46.8500 -55.8000 10600
2024-10-27T08:30:00.000Z 48.9000 -49.0000 11000
2024-10-27T09:05:00.000Z 50.4000 -41.5000 11000
2024-10-27T09:40:00.000Z 51.5000 -33.6000 11000
2024-10-27T10:20:00.000Z 52.1000 -24.4000 11000
2024-10-27T10:58:00.000Z 52.0500 -15.0000 11000
2024-10-27T11:33:30.000Z 51.7500 -6.2000 9500
2024-10-27T12:00:00.000Z 51.4700 -0.4500 25
"
}

// Waypoints a millisecond apart, and one more, which is line 202 behind a blank one.
#[test]
fn a_route_has_200_waypoints(rt: HostRuntime) -> Result<(), Fail> {
    let alloc = rt.alloc();
    let mut text = String::from_str(alloc, "\n")?;
    for k in 0..200u32 {
        let (hundreds, tens, ones) = (k / 100, k / 10 % 10, k % 10);
        let line = format!(in alloc; "2024-10-27T00:00:00.{hundreds}{tens}{ones}Z 0 0 0\n")?;
        text.push_str(line.as_str())?;
    }
    let Ok(route) = read_route(alloc, text.as_bytes(), 0) else {
        assert!(rt; false);
        return Ok(());
    };
    assert_eq!(rt; route.len(), 200);
    assert_eq!(rt; route.at(route.len() - 1), 1_414_022_400_199);
    expect_more(&rt, alloc, text.as_bytes(), b"E 0 0 0", TextWhy::TooMany)?;
    expect_more(&rt, alloc, text.as_bytes(), b"S x y z", TextWhy::TooMany)?;
    expect_more(&rt, alloc, text.as_bytes(), b"E 0 0", TextWhy::Word)
}

fn expect_more(
    rt: &impl Abort,
    alloc: Global,
    text: &[u8],
    line: &[u8],
    why: TextWhy,
) -> Result<(), Fail> {
    let mut more = Vec::new(alloc);
    more.extend_from_slice(text)?;
    more.extend_from_slice(line)?;
    expect_fault(rt, alloc, &more, 202, why)
}
