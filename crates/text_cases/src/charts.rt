// Texts for a chart: what they show, and where they are refused.
mod tables;

use chart_text::read_chart;
use raim_model::{Refusal, TextFault, TextWhy};
use report_chart::{Chart, Row};
use std::alloc::Global;
use std::process::Abort;
use std::test::Fail;
use tables::{REFUSED, SHOWN, Said, Shown};

// The time that a digit behind a percent sign stands for.
fn time(digit: u8) -> &'static [u8] {
    match digit {
        b'0' => b"2024-10-27T00:00:00.000Z",
        b'1' => b"2024-10-27T00:00:01.000Z",
        b'2' => b"2024-10-27T00:00:02.000Z",
        b'8' => b"2024-10-28T00:00:00.000Z",
        _ => b"2024-10-28T00:00:00.001Z",
    }
}

// The text with the times that percent signs and digits stand for.
fn spelled(alloc: Global, text: &[u8]) -> Result<Vec<u8>, Fail> {
    let mut whole = Vec::new(alloc);
    let mut marked = false;
    for byte in text {
        if marked {
            whole.extend_from_slice(time(*byte))?;
        } else if *byte != b'%' {
            whole.push(*byte)?;
        }
        marked = !marked && *byte == b'%';
    }
    Ok(whole)
}

fn says(row: &Row, wanted: &Said) -> bool {
    match (row, wanted) {
        (Row::Flight(runs), Said::Flight(wanted)) => runs.as_slice() == *wanted,
        (Row::Reason(line), Said::Reason(wanted)) => line.as_slice() == *wanted,
        _ => false,
    }
}

fn shows(chart: &Chart, wanted: &Shown) -> bool {
    match (chart, wanted) {
        (Chart::Flight(runs), Shown::Flight(wanted)) => runs.as_slice() == *wanted,
        (Chart::Fleet(rows), Shown::Fleet(wanted)) => {
            rows.len() == wanted.len()
                && rows
                    .iter()
                    .zip(wanted.iter())
                    .all(|(row, said)| says(row, said))
        }
        _ => false,
    }
}

fn expect(rt: &impl Abort, alloc: Global, text: &[u8], wanted: &Shown) -> Result<(), Fail> {
    let whole = spelled(alloc, text)?;
    match read_chart(alloc, &whole) {
        Ok(chart) => assert!(rt; shows(&chart, wanted), "{chart:?} {text:?}"),
        Err(refusal) => assert!(rt; false, "{refusal:?} {text:?}"),
    }
    Ok(())
}

fn expect_fault(
    rt: &impl Abort,
    alloc: Global,
    text: &[u8],
    line: u32,
    why: TextWhy,
) -> Result<(), Fail> {
    let wanted = Refusal::Text(TextFault { line, why });
    let whole = spelled(alloc, text)?;
    match read_chart(alloc, &whole) {
        Ok(chart) => assert!(rt; false, "{chart:?} {text:?}"),
        Err(refusal) => assert_eq!(rt; refusal, wanted, "{text:?}"),
    }
    Ok(())
}

#[test]
fn texts_are_read(rt: HostRuntime) -> Result<(), Fail> {
    let alloc = rt.alloc();
    for (text, wanted) in SHOWN {
        expect(&rt, alloc, text, wanted)?;
    }
    Ok(())
}

#[test]
fn texts_are_refused(rt: HostRuntime) -> Result<(), Fail> {
    let alloc = rt.alloc();
    for (text, line, why) in REFUSED {
        expect_fault(&rt, alloc, text, *line, *why)?;
    }
    Ok(())
}
