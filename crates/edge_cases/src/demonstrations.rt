// Demonstrations and their lines.
ghost use Rattle.std.specs.Prelude.{◌≤ℤ◌, ◌+ℤ◌, pos};
ghost use Rattle.raim_model.specs.Constants.{day_ms};
ghost use Rattle.demo_texts.specs.Summary.{IsWithinDay};

mod tables;

use demo_texts::{demo_files, print_summary};
use raim_model::{Cmp, Run, Verdict, Why};
use std::alloc::Global;
use std::process::Abort;
use std::test::Fail;

// The sixth line of each record of an almanac, which has two lines before the first record.
fn phases(alloc: Global, almanac: &[u8]) -> Result<Vec<u8>, Fail> {
    let mut lines = Vec::new(alloc);
    let mut number = 0;
    for byte in almanac {
        if number >= 2 && (number - 2) % 8 == 5 {
            lines.push(*byte)?;
        }
        if *byte == b'\n' && number < 1000 {
            number += 1;
        }
    }
    Ok(lines)
}

fn expect_phases(
    rt: &impl Abort,
    alloc: Global,
    number: u32,
    wanted: &'static str,
) -> Result<(), Fail> {
    let Ok(files) = demo_files(alloc, number) else {
        assert!(rt; false);
        return Ok(());
    };
    let found = phases(alloc, &files.almanac)?;
    assert_eq!(rt; found.as_slice(), wanted.as_bytes());
    Ok(())
}

#[test]
fn the_files_are_those_of_the_rules(rt: HostRuntime) -> Result<(), Fail> {
    let alloc = rt.alloc();
    let Ok(files) = demo_files(alloc, 0) else {
        assert!(rt; false);
        return Ok(());
    };
    assert_eq!(rt; files.limits.as_slice(), tables::limits().as_bytes());
    assert_eq!(rt; files.outages.as_slice(), tables::outages().as_bytes());
    assert_eq!(rt; files.route.as_slice(), tables::route().as_bytes());
    assert_eq!(rt; files.almanac.as_slice(), tables::almanac().as_bytes());
    expect_phases(&rt, alloc, 345, tables::phases_of_345())?;
    expect_phases(&rt, alloc, u32::MAX, tables::phases_of_the_greatest())
}

fn run(first: i64, end: i64, verdict: Verdict) -> Run
    requires forward { first ≤ℤ end }
    requires short { end ≤ℤ (first +ℤ pos day_ms) }
    ensures { IsWithinDay result }
{
    Run {
        first,
        end,
        verdict,
    }
}

#[test]
fn the_line_counts_milliseconds(rt: HostRuntime) -> Result<(), Fail> {
    let alloc = rt.alloc();
    let runs = [
        run(0, 538000, Verdict::Available),
        run(538000, 599503, Verdict::Unavailable(Why::Few)),
        run(599503, 599504, Verdict::Undecided(Cmp::Mask(7))),
        run(599504, 600000, Verdict::Available),
    ];
    match print_summary(alloc, 345, &runs) {
        Ok(line) => assert_eq!(rt;
            line.as_slice(),
            b"demo 345 satellites 24 intervals 4 available 538496 unavailable 61503 undecided 1\n".as_slice()
        ),
        Err(_) => assert!(rt; false),
    }
    Ok(())
}
