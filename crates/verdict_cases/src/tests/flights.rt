// Small flights, as texts of files.

use crate::texts::case_of_texts;
use piece_verdict::Case;
use raim_model::{Run, Verdict};
use std::alloc::Global;

/// The begin of GPS week 2338, in milliseconds since the GPS epoch.
pub(crate) const WEEK: i64 = 1_414_022_400_000;

/// The texts of a flight.
#[derive(Clone, Copy)]
pub(crate) struct Flight<'a> {
    pub(crate) limits: &'a str,
    pub(crate) almanacs: &'a [String],
    pub(crate) outages: &'a str,
    pub(crate) route: &'a str,
}

pub(crate) fn flight_of<'a>(
    limits: &'a str,
    almanacs: &'a [String],
    outages: &'a str,
    route: &'a str,
) -> Flight<'a> {
    Flight {
        limits,
        almanacs,
        outages,
        route,
    }
}

/// The case of a flight; nothing where a text is refused or memory runs out.
pub(crate) fn case_of(alloc: Global, flight: Flight) -> Option<Case> {
    match case_of_texts(
        alloc,
        flight.limits,
        flight.almanacs,
        flight.outages,
        flight.route,
    ) {
        Ok(case) => case,
        Err(_) => None,
    }
}

/// Whether these are the runs: each its first millisecond and its end, from `from` on, and its verdict.
pub(crate) fn are_runs(runs: &[Run], from: i64, expected: &[(i64, i64, Verdict)]) -> bool {
    runs.len() == expected.len()
        && runs.iter().zip(expected.iter()).all(|(run, one)| {
            run.first.wrapping_sub(from) == one.0
                && run.end.wrapping_sub(from) == one.1
                && run.verdict == one.2
        })
}

/// Half a second over the ocean.
pub(crate) const HALF: &str =
    "2024-10-27T00:00:00.000Z 40 -30 10000\n2024-10-27T00:00:00.500Z 40.001 -29.999 10000\n";
