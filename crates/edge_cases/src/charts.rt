// Texts that have a page, texts of the greatest length, and a page of as many runs as a flight may have.

use crate::over::{CHART, SURE, Texts, Top, expect, run_with, texts_of};
use gps_week::utc_text;
use std::alloc::Global;
use std::process::Abort;
use std::test::Fail;

fn report<'a>(text: &'a [u8]) -> Texts<'a> {
    Texts {
        route: text,
        ..texts_of("", "", "", "")
    }
}

fn expect_some_page(rt: &impl Abort, alloc: Global, text: &[u8]) -> Result<(), Fail> {
    let left = run_with(Top::Chart, alloc, &CHART, report(text), SURE, SURE)?;
    assert_eq!(rt; left.number, 0, "{text:?}");
    assert!(rt; left.out.starts_with(b"<!DOCTYPE html>\n"));
    assert!(rt; left.out.ends_with(b"\n"));
    assert_eq!(rt; left.note.len(), 0);
    Ok(())
}

#[test]
fn other_texts_have_a_page_or_are_refused(rt: HostRuntime) -> Result<(), Fail> {
    let alloc = rt.alloc();
    let shown: [&[u8]; 3] = [
        b"route 1\n",
        b"route 1\nroute 2\n2024-10-27T00:00:00.000Z 2024-10-28T00:00:00.000Z Undecided Mask 07\n",
        b"route 1\nrefused <b>&\"\xff\nroute 2\nmore than 65536 intervals\n",
    ];
    for text in shown {
        expect_some_page(&rt, alloc, text)?;
    }
    let mut long = Vec::new(alloc);
    long.resize(8_388_609, b'\n')?;
    let refused: [(&[u8], &str); 2] = [
        // Eight mebibytes, and a byte more.
        (&long[1..], "raim: report line 1: Word\n"),
        (&long, "raim: report line 0: FileTooLong\n"),
    ];
    for (text, note) in refused {
        expect(&rt, alloc, Top::Chart, &CHART, report(text), (2, b"", note))?;
    }
    Ok(())
}

// How many bytes the page of the report of many runs has, as `oracle/chart_pages.py many` counts them.
const LENGTH_OF_MANY: usize = 11_858_107;

// As many runs as a flight may have, none of them Available, each of 1,318 ms, with the longest reason.
pub(crate) fn report_of_many(alloc: Global) -> Result<Vec<u8>, Fail> {
    let mut report = Vec::new(alloc);
    for k in 0..65_536u64 {
        let first = (1318 * k) as i64;
        report.extend_from_slice(utc_text(first, 0).as_str().as_bytes())?;
        report.push(b' ')?;
        report.extend_from_slice(utc_text(first + 1318, 0).as_str().as_bytes())?;
        report.extend_from_slice(b" Undecided SlopeWithout 10 31\n")?;
    }
    Ok(report)
}

#[test]
fn the_page_of_many_runs_is_small(rt: HostRuntime) -> Result<(), Fail> {
    let alloc = rt.alloc();
    let text = report_of_many(alloc)?;
    let left = run_with(Top::Chart, alloc, &CHART, report(&text), SURE, SURE)?;
    assert_eq!(rt; left.number, 0);
    assert_eq!(rt; left.out.len(), LENGTH_OF_MANY);
    assert!(rt; left.out.len() < 12_000_000);
    Ok(())
}
