// The four files of a flight, read: what they say.

use crate::over::{SURE, Texts, desk_of, texts_of};
use flight_files::{FlightFiles, FlightPaths, Stop, read_files, read_files_surely};
use flight_samples::*;
use raim_base::{MemDesk, SureDesk};
use raim_model::{Dec, Outage};
use std::alloc::Global;
use std::test::Fail;

const PATHS: FlightPaths<'static> = FlightPaths {
    limits: "limits",
    almanac: "almanac",
    outages: "outages",
    route: "route",
};

/// The files of a desk, or why they are not read.
fn read(alloc: Global, desk: &mut MemDesk) -> Result<FlightFiles, Stop> {
    read_files(alloc, desk, &PATHS)
}

fn stop_of(read: Result<FlightFiles, Stop>) -> Option<Stop> {
    read.err()
}

fn six_hours<'a>(almanac: &'a str) -> Texts<'a> {
    texts_of(SIX_HOURS_LIMITS, almanac, SIX_HOURS_OUTAGES, SIX_HOURS)
}

#[test]
fn six_hours_are_read(rt: HostRuntime) -> Result<(), Fail> {
    let alloc = rt.alloc();
    let almanac = constellation(alloc)?;
    let mut desk = desk_of(alloc, six_hours(almanac.as_str()), SURE)?;
    let Ok(files) = read(alloc, &mut desk) else {
        return Err(Fail::from("not read"));
    };
    assert_eq!(rt; files.limits.leap, 18);
    assert_eq!(rt; files.limits.exclude, false);
    assert_eq!(rt; files.limits.mask, Dec::whole(false, 5));
    assert_eq!(rt; files.limits.alert_mm, 556_000);
    let biases = [50_000, 52_400, 54_100, 55_500, 56_700, 57_700];
    assert_eq!(rt; files.limits.bias_mm.as_slice(), biases.as_slice());
    // Times are those of oracle/flight_times.py.
    assert_eq!(rt; files.route.len(), 12);
    assert_eq!(rt; files.route.span().first, 1_414_044_018_000);
    assert_eq!(rt; files.route.span().end, 1_414_065_618_000);
    let outages = [
        Outage {
            prn: 7,
            start: 1_414_042_218_000,
            end: Some(1_414_057_518_000),
        },
        Outage {
            prn: 22,
            start: 1_414_062_018_000,
            end: None,
        },
    ];
    assert_eq!(rt; files.outages.as_slice(), outages.as_slice());
    assert_eq!(rt; files.almanacs.len(), 1);
    for almanac in &files.almanacs {
        assert_eq!(rt; almanac.records.len(), 31);
        for record in almanac.records.iter() {
            assert_eq!(rt; record.health, if record.prn == 13 { 63 } else { 0 });
            assert_eq!(rt; record.toa_ms, 1_414_427_904_000);
        }
    }
    Ok(())
}

/// The files of a desk that never fails.
fn read_surely(alloc: Global, desk: &mut SureDesk) -> Result<FlightFiles, Stop> {
    read_files_surely(alloc, desk, &PATHS)
}

#[test]
fn a_desk_that_never_fails_is_read(rt: HostRuntime) -> Result<(), Fail> {
    let alloc = rt.alloc();
    let all = six_hours(TWO_SATELLITES);
    let mut desk = SureDesk::new(
        all.limits.to_vec(alloc)?,
        all.almanac.to_vec(alloc)?,
        all.outages.to_vec(alloc)?,
        all.route.to_vec(alloc)?,
    );
    assert_eq!(rt; stop_of(read_surely(alloc, &mut desk)), None);
    Ok(())
}
