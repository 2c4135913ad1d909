// Reports and texts that differ from them, both ways.
ghost use Rattle.report_text.specs.Report.{IsPrintable};

mod tables;

use raim_model::{Refusal, Run, TextFault, TextWhy, Verdict, Why};
use report_text::{print_report, read_report};
use std::alloc::Global;
use std::process::Abort;
use std::test::Fail;
use tables::{damaged_reports, reports};

// The text with the times that its capital letters `X` and `Y` stand for.
fn spelled(alloc: Global, text: &[u8]) -> Result<Vec<u8>, Fail> {
    let mut whole = Vec::new(alloc);
    for byte in text {
        match byte {
            b'X' => whole.extend_from_slice(b"2024-10-27T00:00:00.000Z")?,
            b'Y' => whole.extend_from_slice(b"2024-10-27T00:00:01.000Z")?,
            _ => whole.push(*byte)?,
        }
    }
    Ok(whole)
}

fn expect(rt: &impl Abort, alloc: Global, text: &[u8], runs: &[Run]) -> Result<(), Fail> {
    let whole = spelled(alloc, text)?;
    match read_report(alloc, &whole, 18) {
        Ok(read) => assert_eq!(rt; read.as_slice(), runs, "{text:?}"),
        Err(refusal) => assert!(rt; false, "{refusal:?} {text:?}"),
    }
    Ok(())
}

fn expect_fault(
    rt: &impl Abort,
    alloc: Global,
    text: &[u8],
    line: u32,
    why: TextWhy,
) -> Result<(), Fail> {
    let wanted = Refusal::Text(TextFault { line, why });
    let whole = spelled(alloc, text)?;
    match read_report(alloc, &whole, 18) {
        Ok(_) => assert!(rt; false, "{text:?}"),
        Err(refusal) => assert_eq!(rt; refusal, wanted, "{text:?}"),
    }
    Ok(())
}

#[test]
fn reports_are_read(rt: HostRuntime) -> Result<(), Fail> {
    let alloc = rt.alloc();
    for (text, runs) in reports() {
        expect(&rt, alloc, text, runs)?;
    }
    Ok(())
}

#[test]
fn damaged_reports_are_refused(rt: HostRuntime) -> Result<(), Fail> {
    let alloc = rt.alloc();
    for (text, line, why) in damaged_reports() {
        expect_fault(&rt, alloc, text, *line, *why)?;
    }
    Ok(())
}

// The first second of GPS week 2338, 18 seconds later.
fn first_second() -> Run
    ensures { IsPrintable 18 result }
{
    Run {
        first: 1414022418000,
        end: 1414022419000,
        verdict: Verdict::Unavailable(Why::Few),
    }
}

#[test]
fn a_run_is_printed(rt: HostRuntime) -> Result<(), Fail> {
    let alloc = rt.alloc();
    let wanted = spelled(alloc, b"X Y Unavailable Few\n")?;
    match print_report(alloc, &[first_second()], 18) {
        Ok(text) => assert_eq!(rt; text.as_slice(), wanted.as_slice()),
        Err(_) => assert!(rt; false),
    }
    Ok(())
}
