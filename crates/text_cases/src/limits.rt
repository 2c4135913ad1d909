// Limits files and texts that differ from them.
mod tables;

use arrayvec::ArrayVec;
use limits_text::*;
use raim_model::{Dec, Limits, Refusal, TextFault, TextWhy};
use std::alloc::Global;
use std::process::Abort;
use std::test::Fail;
use tables::{Damage, damaged_biases, damaged_numbers, damaged_words};

// The limits of the tests.
const TEXT: &str = "leap 18\nmask 5\nalert approach\nmode detect\nbias 5 100000\nbias 6 90000\n";

fn expect(rt: &impl Abort, alloc: Global, text: &[u8], mask: Dec, alert_mm: u32, rows: &[u32]) {
    match read_limits(alloc, text) {
        Ok(limits) => {
            assert_eq!(rt; limits.leap, 18, "{text:?}");
            assert!(rt; !limits.exclude, "{text:?}");
            assert_eq!(rt; limits.mask, mask, "{text:?}");
            assert_eq!(rt; limits.alert_mm, alert_mm, "{text:?}");
            assert_eq!(rt; limits.bias_mm.as_slice(), rows, "{text:?}");
        }
        Err(refusal) => assert!(rt; false, "{refusal:?} {text:?}"),
    }
}

fn expect_fault(rt: &impl Abort, alloc: Global, text: &[u8], line: u32, why: TextWhy) {
    let wanted = Refusal::Text(TextFault { line, why });
    match read_limits(alloc, text) {
        Ok(_) => assert!(rt; false, "{text:?}"),
        Err(refusal) => assert_eq!(rt; refusal, wanted, "{text:?}"),
    }
}

// The limits of the tests with another line in the place of this one.
fn with_line(alloc: Global, place: usize, other: &str) -> Result<Vec<u8>, Fail> {
    let mut changed = Vec::new(alloc);
    for (before, line) in TEXT.lines().enumerate() {
        let line = if before + 1 == place { other } else { line };
        changed.extend_from_slice(line.as_bytes())?;
        changed.push(b'\n')?;
    }
    Ok(changed)
}

#[test]
fn limits_are_read(rt: HostRuntime) -> Result<(), Fail> {
    let alloc = rt.alloc();
    let five = Dec::new(false, 5, 0);
    let rows = [100_000, 90_000];
    for text in [
        TEXT.as_bytes(),
        b"bias 5 100000\r\nbias 6 90000\r\nalert 556000\r\nmask +5.0\r\nleap 18\r\n",
        b"\n bias\t5  100000 \n\n\nbias 06 0000090000\nmode detect\nmask 5E0\nalert approach\n\tleap 018",
        b"alert 0000556000\nbias 5 100000\nleap 0000000018\nbias 6 90000\nmask 5.\n \t\n",
    ] {
        expect(&rt, alloc, text, five, 556_000, &rows);
    }
    for (line, alert) in [
        ("alert oceanic", 7_408_000),
        ("alert enroute", 3_704_000),
        ("alert terminal", 1_852_000),
        ("alert approach", 556_000),
        ("alert 1", 1),
        ("alert 1000000000", 1_000_000_000),
    ] {
        let changed = with_line(alloc, 3, line)?;
        expect(&rt, alloc, &changed, five, alert, &rows);
    }
    for (line, mask) in [
        ("mask -90", Dec::new(true, 90, 0)),
        ("mask 90", Dec::new(false, 90, 0)),
        ("mask 9E+1", Dec::new(false, 90, 0)),
        ("mask -0", Dec::new(false, 0, 0)),
        ("mask -.50", Dec::new(true, 5, 1)),
        (
            "mask 89.9999999999999999",
            Dec::new(false, 899_999_999_999_999_999, 16),
        ),
    ] {
        let changed = with_line(alloc, 2, line)?;
        expect(&rt, alloc, &changed, mask, 556_000, &rows);
    }
    let without_mode = with_line(alloc, 4, "")?;
    expect(&rt, alloc, &without_mode, five, 556_000, &rows);
    let six_rows = [50_000, 52_400, 54_100, 55_500, 56_700, 57_700];
    let example = six_hours_limits().as_bytes();
    expect(&rt, alloc, example, five, 556_000, &six_rows);
    let one_row = with_line(alloc, 6, "")?;
    expect(&rt, alloc, &one_row, five, 556_000, &rows[..1]);
    Ok(())
}

// The limits of the example `six-hours`.
fn six_hours_limits() -> &'static str {
    "leap 18
mask 5
alert approach
mode detect

bias 5 50000
bias 6 52400
bias 7 54100
bias 8 55500
bias 9 56700
bias 10 57700
"
}

fn expect_damage(rt: &impl Abort, alloc: Global, rows: &[Damage]) -> Result<(), Fail> {
    for (place, line, refused, why) in rows {
        let changed = with_line(alloc, *place, line)?;
        expect_fault(rt, alloc, &changed, *refused, *why);
    }
    Ok(())
}

#[test]
fn damaged_lines_are_refused(rt: HostRuntime) -> Result<(), Fail> {
    let alloc = rt.alloc();
    expect_damage(&rt, alloc, damaged_words())?;
    expect_damage(&rt, alloc, damaged_numbers())?;
    expect_damage(&rt, alloc, damaged_biases())
}

#[test]
fn files_that_end_too_early(rt: HostRuntime) {
    let alloc = rt.alloc();
    for (text, line, why) in [
        (b"".as_slice(), 0, TextWhy::Missing),
        (b"\n", 0, TextWhy::Missing),
        (b" \r\n\t\n", 0, TextWhy::Missing),
        (b"leap 18\n", 1, TextWhy::Missing),
        (b"\nleap 18\nmask 5\n\nalert 1\n \n\n", 5, TextWhy::Missing),
        (
            b"bias 5 1\nmask -90\nalert 1\nmode detect",
            4,
            TextWhy::Missing,
        ),
        (b"leap 0\nmask -90\nbias 5 1\n", 3, TextWhy::Missing),
        (b"leap 0\nalert 1\nbias 5 1\n", 3, TextWhy::Missing),
        // A carriage return is dropped right before a line feed alone.
        (b"\r", 1, TextWhy::Word),
        (b"leap 0\r", 1, TextWhy::Number),
        (b"leap\r0\n", 1, TextWhy::Word),
        (b"leap 0\n\r\r\n", 2, TextWhy::Word),
        (b"leap 0\rmask 5\n", 1, TextWhy::Word),
        // No file but limits is one.
        (b"03 2024-10-27T00:00:00.000Z -\n", 1, TextWhy::Word),
        (b"leap\xc2\xa018\n", 1, TextWhy::Word),
    ] {
        expect_fault(&rt, alloc, text, line, why);
    }
}

// A bias for each number of satellites, and one more.
#[test]
fn biases_up_to_thirty_two_satellites(rt: HostRuntime) -> Result<(), Fail> {
    let alloc = rt.alloc();
    let mut text = String::from_str(alloc, "leap 18\nmask 5\nalert terminal\n")?;
    let mut rows = ArrayVec::<u32, 28>::new();
    for satellites in 5..33u32 {
        let row = format!(in alloc; "bias {satellites} {satellites}000\n\n")?;
        text.push_str(row.as_str())?;
        if rows.try_push(1000 * satellites).is_err() {
            assert!(rt; false);
        }
    }
    expect(
        &rt,
        alloc,
        text.as_bytes(),
        Dec::new(false, 5, 0),
        1_852_000,
        &rows,
    );
    text.push_str("bias 33 1\n")?;
    expect_fault(&rt, alloc, text.as_bytes(), 60, TextWhy::Range);
    Ok(())
}

#[test]
fn weights_come_by_rising_prn(rt: HostRuntime) -> Result<(), Fail> {
    let alloc = rt.alloc();
    let text = format!(in alloc; "{TEXT}weight 7 0.5\nweight 03 1\nweight 32 1E-3\n")?;
    match read_limits(alloc, text.as_bytes()) {
        Ok(limits) => {
            let weights = limits.weights.as_slice();
            assert_eq!(rt; weights.len(), 3);
            for (weight, (prn, k)) in weights.iter().zip([
                (3, Dec::new(false, 1, 0)),
                (7, Dec::new(false, 5, 1)),
                (32, Dec::new(false, 1, 3)),
            ]) {
                assert_eq!(rt; weight.prn, prn);
                assert_eq!(rt; weight.k, k);
            }
        }
        Err(refusal) => assert!(rt; false, "{refusal:?}"),
    }
    let twice = format!(in alloc; "{TEXT}weight 3 1\n\nweight 3 1\n")?;
    expect_fault(&rt, alloc, twice.as_bytes(), 9, TextWhy::PrnTwice);
    let excluding = with_line(alloc, 4, "mode exclude")?;
    match read_limits(alloc, &excluding) {
        Ok(limits) => assert!(rt; limits.exclude),
        Err(refusal) => assert!(rt; false, "{refusal:?}"),
    }
    Ok(())
}
