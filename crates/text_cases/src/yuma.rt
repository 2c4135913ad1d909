// Whole almanacs, and damaged ones with the line and the cause of their refusal.
mod tables;

use raim_model::{AlmRecord, Angle, Dec, LATEST_MS, Refusal, Span, TextFault, TextWhy};
use std::alloc::Global;
use std::process::Abort;
use std::test::Fail;
use tables::{refused, taken};
use text_lines::LONGEST_FILE;
use yuma_text::read_yuma;

// 2024-10-27T00:00:00Z, 18 leap seconds before GPS time, and a second later.
const FLIGHT: Span = Span {
    first: 1_414_022_418_000,
    end: 1_414_022_419_000,
};

fn record_lines() -> &'static [&'static str] {
    &[
        "******** Week 290 almanac for PRN-01 ********",
        "ID: 01",
        "Health: 000",
        "Eccentricity: 0.1086759567E-001",
        "Time of Applicability(s): 405504.0000",
        "Orbital Inclination(rad): 0.9601357400",
        "Rate of Right Ascen(r/s): -0.8126052768E-008",
        "SQRT(A)  (m 1/2): 5153.636719",
        "Right Ascen at Week(rad): 0.1296372856E+001",
        "Argument of Perigee(rad): 0.812318933",
        "Mean Anom(rad): -0.9442756846E+000",
        "Af0(s): 0.0000000000E+000",
        "Af1(s/s): 0.0000000000E+000",
        "week: 290",
    ]
}

// A record with one line in the place of another, its line ends as given.
fn with_line(alloc: Global, number: u32, line: &str, end: &str) -> Result<String, Fail> {
    let mut text = String::new(alloc);
    let mut k = 0u32;
    for plain in record_lines() {
        k = k.saturating_add(1);
        if k == number {
            text.push_str(line)?;
        } else {
            text.push_str(plain)?;
        }
        text.push_str(end)?;
    }
    Ok(text)
}

fn expect_refused(
    rt: &impl Abort,
    alloc: Global,
    text: &[u8],
    span: Span,
    line: u32,
    why: TextWhy,
) {
    assert!(rt; 0 <= span.first && span.first < span.end && span.end <= LATEST_MS);
    match read_yuma(alloc, text, span) {
        Ok(_) => assert!(rt; false, "{line} {why:?}"),
        Err(found) => assert_eq!(rt; found, Refusal::Text(TextFault { line, why })),
    }
}

fn expect_one(rt: &impl Abort, alloc: Global, text: &[u8], expected: AlmRecord) {
    match read_yuma(alloc, text, FLIGHT) {
        Ok(records) => assert_eq!(rt; records.as_slice(), [expected].as_slice()),
        Err(found) => assert!(rt; false, "{found:?}"),
    }
}

fn expect_accepted(rt: &impl Abort, alloc: Global, text: &[u8], count: usize) {
    match read_yuma(alloc, text, FLIGHT) {
        Ok(records) => assert_eq!(rt; records.len(), count),
        Err(found) => assert!(rt; false, "{found:?}"),
    }
}

fn published() -> AlmRecord {
    AlmRecord {
        prn: 1,
        health: 0,
        e: Dec::new(false, 1_086_759_567, 11),
        toa_ms: 1_414_427_904_000,
        incl: Angle::Rad(Dec::new(false, 96_013_574, 8)),
        rate: Angle::Rad(Dec::new(true, 8_126_052_768, 18)),
        sqrt_a: Dec::new(false, 5_153_636_719, 6),
        omega0: Angle::Rad(Dec::new(false, 1_296_372_856, 9)),
        perigee: Angle::Rad(Dec::new(false, 812_318_933, 9)),
        m0: Angle::Rad(Dec::new(true, 9_442_756_846, 10)),
    }
}

#[test]
fn a_published_record_is_read(rt: HostRuntime) -> Result<(), Fail> {
    let alloc = rt.alloc();
    for end in ["\r\n", "\n", "\n\n", " \t\n\n \t\r\n"] {
        let text = with_line(alloc, 0, "", end)?;
        expect_one(&rt, alloc, text.as_bytes(), published());
    }
    let text = with_line(
        alloc,
        7,
        "Rate of Right Ascension (rad/s): -0.8126052768E-008",
        "\n",
    )?;
    expect_one(&rt, alloc, text.as_bytes(), published());
    let text = with_line(alloc, 11, "Mean Anomaly: -0.9442756846E+000", "\n")?;
    expect_one(&rt, alloc, text.as_bytes(), published());
    Ok(())
}

#[test]
fn each_line_has_its_bounds(rt: HostRuntime) -> Result<(), Fail> {
    let alloc = rt.alloc();
    for (number, line) in taken() {
        let text = with_line(alloc, *number, *line, "\n")?;
        expect_accepted(&rt, alloc, text.as_bytes(), 1);
    }
    for (number, line, why) in refused() {
        let text = with_line(alloc, *number, *line, "\r\n")?;
        expect_refused(&rt, alloc, text.as_bytes(), FLIGHT, *number, *why);
    }
    Ok(())
}

// The first so many lines of the record.
fn front(alloc: Global, kept: usize) -> Result<String, Fail> {
    let mut text = String::new(alloc);
    for line in record_lines().iter().take(kept) {
        text.push_str(*line)?;
        text.push_str("\r\n")?;
    }
    Ok(text)
}

#[test]
fn a_file_ends_behind_a_record(rt: HostRuntime) -> Result<(), Fail> {
    let alloc = rt.alloc();
    // Nothing, a title, and a record cut behind its mean anomaly.
    for kept in [0u8, 1, 11, 13] {
        let text = front(alloc, usize::from(kept))?;
        expect_refused(
            &rt,
            alloc,
            text.as_bytes(),
            FLIGHT,
            u32::from(kept),
            TextWhy::Short,
        );
    }
    // A carriage return in a line of its own is no blank.
    expect_refused(&rt, alloc, b"\r\r\n*\n", FLIGHT, 1, TextWhy::Label);
    Ok(())
}

#[test]
fn a_prn_has_one_record(rt: HostRuntime) -> Result<(), Fail> {
    let alloc = rt.alloc();
    let mut text = with_line(alloc, 2, "ID: 07", "\n")?;
    text.push_str("\n")?;
    let second = with_line(alloc, 2, "ID: 7", "\n")?;
    text.push_str(second.as_str())?;
    expect_refused(&rt, alloc, text.as_bytes(), FLIGHT, 17, TextWhy::PrnTwice);
    Ok(())
}

// The time of applicability is 1414427904000, and 91 days are 7862400000 milliseconds.
#[test]
fn ninety_one_days_are_too_far(rt: HostRuntime) -> Result<(), Fail> {
    let alloc = rt.alloc();
    let text = front(alloc, 14)?;
    let span = Span {
        first: 1_422_290_304_000,
        end: 1_422_290_305_000,
    };
    expect_refused(&rt, alloc, text.as_bytes(), span, 14, TextWhy::Range);
    Ok(())
}

#[test]
fn a_mebibyte_of_stars_is_short(rt: HostRuntime) -> Result<(), Fail> {
    let alloc = rt.alloc();
    let stars = vec![in alloc; b'*'; LONGEST_FILE]?;
    expect_refused(&rt, alloc, &stars, FLIGHT, 1, TextWhy::Short);
    Ok(())
}
