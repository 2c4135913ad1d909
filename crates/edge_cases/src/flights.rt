// A flight under a whole constellation, and flights of demonstrations under other limits and on another route.

use crate::over::{PREDICT, SURE, Texts, Top, run_with, texts_of};
use demo_texts::demo_files;
use flight_samples::*;
use std::alloc::Global;
use std::process::Abort;
use std::str::SplitWhitespace;
use std::test::Fail;

/// Where the next line of a report ends, if it begins at this time and has a verdict.
fn next_end<'a>(line: &'a str, from: &str) -> Option<&'a str> {
    let mut words: SplitWhitespace = line.split_whitespace();
    if words.next() != Some(from) {
        return None;
    }
    let end = words.next()?;
    match words.next()? {
        "Available" | "Unavailable" | "Undecided" => Some(end),
        _ => None,
    }
}

/// Whether the lines of a report follow one another between two times.
fn partition(alloc: Global, report: &str, from: &str, to: &str) -> Result<bool, Fail> {
    let mut at = String::from_str(alloc, from)?;
    for line in report.lines() {
        let Some(end) = next_end(line, at.as_str()) else {
            return Ok(false);
        };
        at = String::from_str(alloc, end)?;
    }
    Ok(at.as_str() == to)
}

#[test]
fn a_whole_constellation_is_judged(rt: HostRuntime) -> Result<(), Fail> {
    let alloc = rt.alloc();
    let almanac = constellation(alloc)?;
    let all = texts_of(
        SIX_HOURS_LIMITS,
        almanac.as_str(),
        SIX_HOURS_OUTAGES,
        ELEVEN_MINUTES,
    );
    let left = run_with(Top::Flight, alloc, &PREDICT, all, SURE, SURE)?;
    assert_eq!(rt; left.number, 0);
    let report = String::from_utf8_lossy(alloc, &left.out)?;
    let report = report.as_str();
    let from = "2024-10-27T06:00:00.000Z";
    let to = "2024-10-27T06:11:00.000Z";
    let follow = partition(alloc, report, from, to)?;
    assert!(rt; follow, "{report}");
    Ok(())
}

/// Fails unless the texts of a demonstration, without its outage, with other limits or another route, have this outcome.
fn expect_of_demonstration(
    rt: &impl Abort,
    alloc: Global,
    number: u32,
    limits: Option<&str>,
    route: Option<&str>,
    wanted: (u8, &str, &str),
) -> Result<(), Fail> {
    let Ok(mut files) = demo_files(alloc, number) else {
        return Err(Fail::from("no memory"));
    };
    if let Some(text) = limits {
        files.limits = text.as_bytes().to_vec(alloc)?;
    }
    if let Some(text) = route {
        files.route = text.as_bytes().to_vec(alloc)?;
    }
    let all = Texts {
        limits: &files.limits,
        almanac: &files.almanac,
        outages: b"",
        route: &files.route,
    };
    let (status, report, note) = wanted;
    let left = run_with(Top::Flight, alloc, &PREDICT, all, SURE, SURE)?;
    assert_eq!(rt; left.number, status, "{number}");
    if status > 0 || !report.is_empty() {
        assert_eq!(rt; left.out.as_slice(), report.as_bytes(), "{number}");
    }
    assert_eq!(rt; left.note.as_slice(), note.as_bytes(), "{number}");
    Ok(())
}

#[test]
fn the_texts_of_demonstrations_are_judged(rt: HostRuntime) -> Result<(), Fail> {
    let alloc = rt.alloc();
    let mild = "leap 18\nmask -90\nalert 1000000000\nbias 5 1\n";
    let overflowing = "leap 18\nmask -90\nalert 1\nbias 5 1000000000\n";
    let ten_minutes = "2024-10-27T00:00:00.000Z 2024-10-27T00:10:00.000Z Available\n";
    let overflow = "raim: overflow at 2024-10-27T00:00:00.000Z PRN 01\n";
    let rows: [(u32, Option<&str>, Option<&str>, (u8, &str, &str)); 5] = [
        (0, Some(mild), None, (0, ten_minutes, "")),
        (0, Some(overflowing), None, (5, "", overflow)),
        // Accepted, whatever their report is.
        (0, None, Some(SECOND), (0, "", "")),
        (999, None, Some(SECOND), (0, "", "")),
        (4_294_967_295, None, Some(SECOND), (0, "", "")),
    ];
    for (number, limits, route, wanted) in rows {
        expect_of_demonstration(&rt, alloc, number, limits, route, wanted)?;
    }
    Ok(())
}
