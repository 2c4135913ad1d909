// Calls of the desk and of the output that fail, each in turn, and how many bytes a call moves.

use crate::over::{
    CHART, Calls, FLEET, Left, PREDICT, SURE, Texts, Top, run_with, texts_of, vertical_words,
};
use flight_samples::*;
use raim_model::FileNo;
use std::alloc::Global;
use std::process::Abort;
use std::test::Fail;

/// A run of which calls fail: what it calls and its words, its texts and what it writes.
#[derive(Clone, Copy)]
struct Run<'a> {
    top: Top,
    words: &'a [&'a str],
    texts: Texts<'a>,
    text: &'a [u8],
    // how many calls of the desk and of the output it makes, 64 and 40 bytes each
    reads: u64,
    writes: u64,
}

fn run_failing(alloc: Global, run: Run, reads: &[u64], writes: &[u64]) -> Result<Left, Fail> {
    let reads = Calls {
        chunk: 64,
        fails: reads,
    };
    let writes = Calls {
        chunk: 40,
        fails: writes,
    };
    run_with(run.top, alloc, run.words, run.texts, reads, writes)
}

/// The note on a file that could not be read.
fn note_of(top: Top, failed: Option<FileNo>) -> &'static [u8] {
    match failed {
        None => b"",
        Some(FileNo::Limits) => b"raim: limits: read fault\n",
        Some(FileNo::Almanac) => b"raim: almanac: read fault\n",
        Some(FileNo::Outages) => b"raim: outages: read fault\n",
        Some(FileNo::Route) => {
            if top == Top::Chart {
                b"raim: report: read fault\n"
            } else {
                b"raim: route: read fault\n"
            }
        }
    }
}

/// Each call of the desk fails in turn: its file is named, no call follows and nothing is written.
fn expect_read_faults(rt: &impl Abort, alloc: Global, run: Run) -> Result<(), Fail> {
    for call in 1..=run.reads {
        let left = run_failing(alloc, run, &[call], &[])?;
        assert_eq!(rt; left.number, 3, "{call}");
        assert!(rt; left.failed.is_some());
        assert_eq!(rt; left.calls, call);
        assert_eq!(rt; left.out.len(), 0);
        assert_eq!(rt; left.note.as_slice(), note_of(run.top, left.failed));
    }
    Ok(())
}

/// Each write fails in turn: a front of the text was written.
fn expect_write_faults(rt: &impl Abort, alloc: Global, run: Run) -> Result<(), Fail> {
    let mut written = 0;
    for call in 1..=run.writes {
        let left = run_failing(alloc, run, &[], &[call])?;
        assert_eq!(rt; left.number, 4, "{call}");
        assert!(rt; run.text.starts_with(&left.out));
        assert!(rt; left.out.len() < run.text.len());
        assert!(rt; call == 1 || written < left.out.len());
        assert_eq!(rt; left.note.as_slice(), b"raim: write fault\n".as_slice());
        written = left.out.len();
    }
    Ok(())
}

/// Where the calls behind the last fail, none does.
fn expect_done(rt: &impl Abort, alloc: Global, run: Run) -> Result<(), Fail> {
    let reads = [run.reads.wrapping_add(1)];
    let writes = [run.writes.wrapping_add(1)];
    let left = run_failing(alloc, run, &reads, &writes)?;
    assert_eq!(rt; left.number, 0);
    assert_eq!(rt; left.calls, run.reads);
    assert_eq!(rt; left.out.as_slice(), run.text);
    assert_eq!(rt; left.note.len(), 0);
    Ok(())
}

// How many calls name a text and read it to its end, 64 bytes a call.
fn reads_of(text: &str) -> u64 {
    (text.len().div_ceil(64) as u64).saturating_add(2)
}

#[test]
fn each_call_may_fail(rt: HostRuntime) -> Result<(), Fail> {
    let alloc = rt.alloc();
    let five = sem_almanac(alloc, "2338", &FIVE)?;
    let flight = texts_of(MILD, five.as_str(), OUTAGE, SECOND);
    let routes = format!(in alloc; "{SECOND}---\n---\n{SECOND}")?;
    let fleet = texts_of(MILD, five.as_str(), OUTAGE, routes.as_str());
    let blocks = format!(in alloc;
        "route 1\n{THREE_RUNS}route 2\nrefused route line 0: TooFew\nroute 3\n{THREE_RUNS}"
    )?;
    let report = texts_of("", "", "", THREE_RUNS);
    let page = run_with(Top::Chart, alloc, &CHART, report, SURE, SURE)?;
    let vertical = vertical_words("50000");
    let files = reads_of(MILD)
        .saturating_add(reads_of(five.as_str()))
        .saturating_add(reads_of(OUTAGE))
        .saturating_add(reads_of(SECOND));
    let runs = [
        Run {
            top: Top::Flight,
            words: &PREDICT,
            texts: flight,
            text: THREE_RUNS.as_bytes(),
            reads: files,
            writes: 5,
        },
        Run {
            top: Top::Vertical,
            words: &vertical,
            texts: flight,
            text: THREE_RUNS.as_bytes(),
            reads: files,
            writes: 5,
        },
        Run {
            top: Top::Fleet,
            words: &FLEET,
            texts: fleet,
            text: blocks.as_bytes(),
            reads: files
                .saturating_sub(reads_of(SECOND))
                .saturating_add(reads_of(routes.as_str())),
            // The blocks of 194, 37 and 194 bytes are written one by one.
            writes: 11,
        },
        Run {
            top: Top::Chart,
            words: &CHART,
            texts: report,
            text: &page.out,
            reads: reads_of(THREE_RUNS),
            writes: page.out.len().div_ceil(40) as u64,
        },
    ];
    for run in runs {
        expect_read_faults(&rt, alloc, run)?;
        expect_write_faults(&rt, alloc, run)?;
        expect_done(&rt, alloc, run)?;
    }
    Ok(())
}

#[test]
fn the_size_of_a_call_changes_nothing(rt: HostRuntime) -> Result<(), Fail> {
    let alloc = rt.alloc();
    let five = sem_almanac(alloc, "2338", &FIVE)?;
    let flight = texts_of(MILD, five.as_str(), OUTAGE, SECOND);
    for (read, written) in [(1, 1), (2, 3), (63, 40)] {
        let reads = Calls {
            chunk: read,
            fails: &[],
        };
        let writes = Calls {
            chunk: written,
            fails: &[],
        };
        let left = run_with(Top::Flight, alloc, &PREDICT, flight, reads, writes)?;
        assert_eq!(rt; left.number, 0);
        assert_eq!(rt; left.out.as_slice(), THREE_RUNS.as_bytes());
    }
    Ok(())
}
