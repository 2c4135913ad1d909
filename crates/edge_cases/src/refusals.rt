// Limits of the greatest length, and of a byte more.

use crate::over::{PREDICT, SURE, Texts, Top, run_with, texts_of};
use flight_samples::*;
use std::alloc::Global;
use std::process::Abort;
use std::test::Fail;
use text_lines::LONGEST_FILE;

/// Fails unless a run with limits of so many bytes, the text and then these bytes, has this outcome after so many calls of the desk.
fn expect_of_long_limits(
    rt: &impl Abort,
    alloc: Global,
    limits: (&str, u8, usize),
    almanac: &str,
    wanted: (u8, &str, &str),
    calls: u64,
) -> Result<(), Fail> {
    let (text, byte, length) = limits;
    let mut limits = text.as_bytes().to_vec(alloc)?;
    limits.resize(length, byte)?;
    let all = Texts {
        limits: &limits,
        ..texts_of("", almanac, OUTAGE, SECOND)
    };
    let left = run_with(Top::Flight, alloc, &PREDICT, all, SURE, SURE)?;
    let (number, report, note) = wanted;
    assert_eq!(rt; left.number, number);
    assert_eq!(rt; left.out.as_slice(), report.as_bytes());
    assert_eq!(rt; left.note.as_slice(), note.as_bytes());
    assert_eq!(rt; left.calls, calls, "{note}");
    Ok(())
}

#[test]
fn a_file_has_1048576_bytes_at_most(rt: HostRuntime) -> Result<(), Fail> {
    let alloc = rt.alloc();
    let five = sem_almanac(alloc, "2338", &FIVE)?;
    let too_long = "raim: limits line 0: FileTooLong\n";
    let word = "raim: limits line 1: Word\n";
    // A name, 256 pieces of 4,096 bytes and a read that finds the end or one byte more; then three files of one piece each.
    for (text, byte, length, wanted, calls) in [
        (MILD, b'\n', LONGEST_FILE, (0, THREE_RUNS, ""), 267),
        (MILD, b'\n', LONGEST_FILE + 1, (2, "", too_long), 258),
        ("", b'a', LONGEST_FILE, (2, "", word), 258),
    ] {
        expect_of_long_limits(
            &rt,
            alloc,
            (text, byte, length),
            five.as_str(),
            wanted,
            calls,
        )?;
    }
    Ok(())
}
