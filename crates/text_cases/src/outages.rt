// Outage files and texts that differ from them.
mod tables;

use outage_notice::*;
use raim_model::{Outage, Refusal, TextFault, TextWhy};
use std::alloc::Global;
use std::process::Abort;
use std::test::Fail;
use tables::{Refused, damaged_lines, damaged_prns, damaged_times};

// The text with the times that its capital letters stand for.
fn spelled(alloc: Global, text: &[u8]) -> Result<Vec<u8>, Fail> {
    let mut whole = Vec::new(alloc);
    for byte in text {
        match byte {
            b'S' => whole.extend_from_slice(b"2024-10-27T00:00:00.000Z")?,
            b'E' => whole.extend_from_slice(b"2024-10-27T00:00:01.000Z")?,
            _ => whole.push(*byte)?,
        }
    }
    Ok(whole)
}

fn outage(prn: u8, start: i64, end: i64) -> Outage {
    let end = Some(end);
    Outage { prn, start, end }
}

fn lasting(prn: u8, start: i64) -> Outage {
    let end = None;
    Outage { prn, start, end }
}

fn expect(
    rt: &impl Abort,
    alloc: Global,
    text: &[u8],
    leap: u8,
    wanted: &[Outage],
) -> Result<(), Fail> {
    let whole = spelled(alloc, text)?;
    match read_outages(alloc, &whole, leap) {
        Ok(outages) => assert_eq!(rt; outages.as_slice(), wanted, "{text:?}"),
        Err(refusal) => assert!(rt; false, "{refusal:?} {text:?}"),
    }
    Ok(())
}

fn expect_fault(
    rt: &impl Abort,
    alloc: Global,
    text: &[u8],
    line: u32,
    why: TextWhy,
) -> Result<(), Fail> {
    let wanted = Refusal::Text(TextFault { line, why });
    let whole = spelled(alloc, text)?;
    match read_outages(alloc, &whole, 0) {
        Ok(_) => assert!(rt; false, "{text:?}"),
        Err(refusal) => assert_eq!(rt; refusal, wanted, "{text:?}"),
    }
    Ok(())
}

fn expect_faults(rt: &impl Abort, alloc: Global, rows: &[Refused]) -> Result<(), Fail> {
    for (text, line, why) in rows {
        expect_fault(rt, alloc, text, *line, *why)?;
    }
    Ok(())
}

#[test]
fn outages_are_read(rt: HostRuntime) -> Result<(), Fail> {
    let alloc = rt.alloc();
    let second = [outage(3, 1_414_022_400_000, 1_414_022_401_000)];
    for text in [
        b"3 S E\n".as_slice(),
        b"3 S E",
        b"3 S E\r\n",
        b"\t 03\t\tS  E \t\n",
        b"0000000003 S E\n\n",
        b"\n \r\n\t\n3 S E\n \n ",
    ] {
        expect(&rt, alloc, text, 0, &second)?;
    }
    for text in [b"".as_slice(), b"\n", b"\r\n", b" ", b" \t\n\n\r\n \t"] {
        expect(&rt, alloc, text, 255, &[])?;
    }
    // In the order of the file; outages may overlap, and one line may stand twice.
    let several = [
        lasting(32, 1_414_022_401_000),
        outage(1, 1_414_022_400_000, 1_414_022_401_000),
        outage(1, 1_414_022_400_000, 1_414_022_401_000),
        lasting(1, 1_414_022_400_000),
    ];
    expect(&rt, alloc, b"32 E -\n1 S E\n1 S E\n1 S -", 0, &several)?;
    let later = [outage(3, 1_414_022_418_000, 1_414_022_419_000)];
    expect(&rt, alloc, b"3 S E\n", 18, &later)?;
    let six_hours = [
        outage(7, 1_414_042_218_000, 1_414_057_518_000),
        lasting(22, 1_414_062_018_000),
    ];
    expect(&rt, alloc, six_hours_outages().as_bytes(), 18, &six_hours)?;
    // The ends of time, and one millisecond.
    let first = [outage(7, 0, 1)];
    expect(
        &rt,
        alloc,
        b"7 1980-01-06T00:00:00.000Z 1980-01-06T00:00:00.001Z",
        0,
        &first,
    )?;
    let last = [outage(7, 253_086_336_254_998, 253_086_336_254_999)];
    expect(
        &rt,
        alloc,
        b"7 9999-12-31T23:59:59.998Z 9999-12-31T23:59:59.999Z",
        255,
        &last,
    )
}

// The outages of the example `six-hours`.
fn six_hours_outages() -> &'static str {
    "07 2024-10-27T05:30:00.000Z 2024-10-27T09:45:00.000Z
22 2024-10-27T11:00:00.000Z -
"
}

#[test]
fn damaged_files_are_refused(rt: HostRuntime) -> Result<(), Fail> {
    let alloc = rt.alloc();
    expect_faults(&rt, alloc, damaged_lines())?;
    expect_faults(&rt, alloc, damaged_prns())?;
    expect_faults(&rt, alloc, damaged_times())
}

// Outages of many lines, and a blank line in front and before the last.
#[test]
fn a_file_has_256_outages(rt: HostRuntime) -> Result<(), Fail> {
    let alloc = rt.alloc();
    let mut text = Vec::new(alloc);
    text.push(b'\n')?;
    for _ in 0..255 {
        text.extend_from_slice(b"3 S E\n")?;
    }
    text.extend_from_slice(b" \n32 S -\n")?;
    let whole = spelled(alloc, &text)?;
    let Ok(outages) = read_outages(alloc, &whole, 0) else {
        assert!(rt; false);
        return Ok(());
    };
    assert_eq!(rt; outages.len(), 256);
    assert_eq!(rt; outages.last(), Some(&lasting(32, 1_414_022_400_000)));
    text.push(b'\n')?;
    expect_more(&rt, alloc, &text, b"3 S E", TextWhy::TooMany)?;
    expect_more(&rt, alloc, &text, b"x y z", TextWhy::TooMany)?;
    expect_more(&rt, alloc, &text, b"3 S", TextWhy::Word)
}

// One line more than 256 outages, which is line 260.
fn expect_more(
    rt: &impl Abort,
    alloc: Global,
    text: &[u8],
    line: &[u8],
    why: TextWhy,
) -> Result<(), Fail> {
    let mut more = Vec::new(alloc);
    more.extend_from_slice(text)?;
    more.extend_from_slice(line)?;
    expect_fault(rt, alloc, &more, 260, why)
}

// A text is read, and printed as another one.
fn expect_printed(
    rt: &impl Abort,
    alloc: Global,
    text: &[u8],
    leap: u8,
    wanted: &[u8],
) -> Result<(), Fail> {
    let whole = spelled(alloc, text)?;
    let Ok(outages) = read_outages(alloc, &whole, leap) else {
        return Err(Fail::from("not read"));
    };
    match print_outages(alloc, &outages, leap) {
        Ok(printed) => assert_eq!(rt; printed, spelled(alloc, wanted)?, "{text:?}"),
        Err(_) => return Err(Fail::from("not printed")),
    }
    Ok(())
}

#[test]
fn outages_are_printed(rt: HostRuntime) -> Result<(), Fail> {
    let alloc = rt.alloc();
    for (text, wanted) in [
        (b"".as_slice(), b"".as_slice()),
        (b"\n \r\n\t\n", b""),
        (b"03 S E\n", b"03 S E\n"),
        (b"3 S E", b"03 S E\n"),
        (b"\t 0000000032\t\tS  - \t\r\n\n", b"32 S -\n"),
        (b"9 S -\n10 S E\n9 S -", b"09 S -\n10 S E\n09 S -\n"),
    ] {
        expect_printed(&rt, alloc, text, 0, wanted)?;
        expect_printed(&rt, alloc, text, 18, wanted)?;
    }
    let example = six_hours_outages().as_bytes();
    expect_printed(&rt, alloc, example, 18, example)?;
    let ends = b"07 1980-01-06T00:00:00.000Z 9999-12-31T23:59:59.999Z\n".as_slice();
    expect_printed(&rt, alloc, ends, 0, ends)?;
    expect_printed(&rt, alloc, ends, 255, ends)
}
