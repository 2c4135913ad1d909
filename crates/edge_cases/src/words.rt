// Words that are no form of a program: its usage is said, and no file is named. `raim_sequence` has more of them.

use crate::over::{Calls, SURE, Top, run_with, texts_of};
use flight_samples::*;
use std::alloc::Global;
use std::process::Abort;
use std::test::Fail;

const RAIM: &str = "raim: usage: raim predict LIMITS ALMANAC OUTAGES ROUTE or raim demo NUMBER\n";

const RAIM_VERT: &str = "raim: usage: raim_vert LIMITS ALMANAC OUTAGES ROUTE VERTICAL\n";

const RAIM_FLEET: &str = "raim: usage: raim_fleet LIMITS ALMANAC OUTAGES ROUTES\n";

const RAIM_CHART: &str = "raim: usage: raim_chart REPORT\n";

fn expect_usage(
    rt: &impl Abort,
    alloc: Global,
    top: Top,
    words: &[&str],
    note: &str,
) -> Result<(), Fail> {
    // The first call of the desk would fail.
    let reads = Calls {
        chunk: 64,
        fails: &[1],
    };
    let left = run_with(
        top,
        alloc,
        words,
        texts_of(MILD, "", "", SECOND),
        reads,
        SURE,
    )?;
    assert_eq!(rt; left.number, 1, "{words:?}");
    assert_eq!(rt; left.calls, 0);
    assert_eq!(rt; left.out.len(), 0);
    assert_eq!(rt; left.note.as_slice(), note.as_bytes());
    Ok(())
}

const OTHER_FLIGHT: [&[&str]; 4] = [
    &[],
    &["predict", "limits", "almanac", "outages", "route"],
    &["raim", "predict", "limits", "almanac", "outages"],
    &["raim", "demo", ""],
];

const OTHER_VERTICAL: [&[&str]; 4] = [
    &[],
    &["l", "a", "o", "r", "1"],
    &["raim_vert", "l", "a", "o", "r", ""],
    &["raim_vert", "l", "a", "o", "r", " 1"],
];

const OTHER_FLEET: [&[&str]; 2] = [&[], &["a", "b", "c", "d", "e", "f"]];

const OTHER_CHART: [&[&str]; 2] = [&[], &["route"]];

#[test]
fn other_words_are_usage(rt: HostRuntime) -> Result<(), Fail> {
    let rows: [(Top, &str, &[&[&str]]); 4] = [
        (Top::Flight, RAIM, &OTHER_FLIGHT),
        (Top::Vertical, RAIM_VERT, &OTHER_VERTICAL),
        (Top::Fleet, RAIM_FLEET, &OTHER_FLEET),
        (Top::Chart, RAIM_CHART, &OTHER_CHART),
    ];
    for (top, note, lines) in rows {
        for words in lines {
            expect_usage(&rt, rt.alloc(), top, words, note)?;
        }
    }
    Ok(())
}
