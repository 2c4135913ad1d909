// Files that are too long for a fleet.

use crate::over::{FLEET, SURE, Texts, Top, run_with, texts_of};
use flight_samples::*;
use std::alloc::Global;
use std::process::Abort;
use std::test::Fail;

fn expect_too_long(
    rt: &impl Abort,
    alloc: Global,
    texts: Texts,
    calls: u64,
    note: &str,
) -> Result<(), Fail> {
    let left = run_with(Top::Fleet, alloc, &FLEET, texts, SURE, SURE)?;
    assert_eq!(rt; left.number, 2, "{note}");
    assert_eq!(rt; left.calls, calls, "{note}");
    assert_eq!(rt; left.out.len(), 0);
    assert_eq!(rt; left.note.as_slice(), note.as_bytes());
    Ok(())
}

#[test]
fn the_first_file_that_is_too_long_stops_a_fleet(rt: HostRuntime) -> Result<(), Fail> {
    let alloc = rt.alloc();
    let mut long = Vec::new(alloc);
    long.resize(1_048_577, b'\n')?;
    let some = MILD.as_bytes();
    // Limits, almanac, outages, routes; how many calls are made.
    let rows: [([&[u8]; 4], u64, &str); 3] = [
        (
            [&long, &long, &long, &long],
            258,
            "raim: limits line 0: FileTooLong\n",
        ),
        (
            [some, &long, &long, &long],
            261,
            "raim: route line 0: FileTooLong\n",
        ),
        (
            [some, &long, some, some],
            267,
            "raim: almanac line 0: FileTooLong\n",
        ),
    ];
    for ([limits, almanac, outages, route], calls, note) in rows {
        let texts = Texts {
            limits,
            almanac,
            outages,
            route,
        };
        expect_too_long(&rt, alloc, texts, calls, note)?;
    }
    Ok(())
}
