// The four calls at the top over a desk and sinks in memory, and what they leave behind.
ghost use Rattle.std.specs.Prelude.{◌≡◌, ◌≤◌, ◌<◌};

use chart_run::run_chart;
use fleet_run::run_fleet;
use raim_base::{MemDesk, MemSink};
use raim_model::FileNo;
use raim_run::run;
use std::alloc::Global;
use std::marker::Brand;
use std::process::Abort;
use std::sync::ledger::{Blank, Ledger};
use std::test::Fail;
use step_counter::Steps;
use vert_run::run_vertical;

/// A call at the top.
#[derive(Clone, Copy, Debug, PartialEq, Eq)]
pub(crate) enum Top {
    Flight,
    Vertical,
    Fleet,
    Chart,
}

pub(crate) const PREDICT: [&str; 6] = ["raim", "predict", "limits", "almanac", "outages", "route"];

pub(crate) const FLEET: [&str; 5] = ["raim_fleet", "limits", "almanac", "outages", "route"];

pub(crate) const CHART: [&str; 2] = ["raim_chart", "route"];

/// The words for vertical verdicts under a limit in millimetres.
pub(crate) fn vertical_words<'a>(vertical: &'a str) -> [&'a str; 6] {
    [
        "raim_vert",
        "limits",
        "almanac",
        "outages",
        "route",
        vertical,
    ]
}

/// The texts of four files.
#[derive(Clone, Copy)]
pub(crate) struct Texts<'a> {
    pub(crate) limits: &'a [u8],
    pub(crate) almanac: &'a [u8],
    pub(crate) outages: &'a [u8],
    pub(crate) route: &'a [u8],
}

pub(crate) fn texts_of<'a>(
    limits: &'a str,
    almanac: &'a str,
    outages: &'a str,
    route: &'a str,
) -> Texts<'a> {
    Texts {
        limits: limits.as_bytes(),
        almanac: almanac.as_bytes(),
        outages: outages.as_bytes(),
        route: route.as_bytes(),
    }
}

/// How many bytes a call moves at most, and which calls fail.
#[derive(Clone, Copy)]
pub(crate) struct Calls<'a> {
    pub(crate) chunk: usize,
    pub(crate) fails: &'a [u64],
    ghost moves: { 0 < chunk },
}

pub(crate) const SURE: Calls<'static> = Calls {
    chunk: 4096,
    fails: &[],
};

/// What a run left behind.
#[derive(Drop)]
pub(crate) struct Left {
    pub(crate) number: u8,
    pub(crate) out: Vec<u8>,
    pub(crate) note: Vec<u8>,
    pub(crate) failed: Option<FileNo>,
    pub(crate) calls: u64,
}

/// What a run is over.
#[derive(Drop)]
pub(crate) struct Over {
    pub(crate) words: Vec<String>,
    pub(crate) desk: MemDesk,
    pub(crate) out: MemSink,
    pub(crate) note: MemSink,
}

pub(crate) fn words_of(alloc: Global, words: &[&str]) -> Result<Vec<String>, Fail> {
    let mut texts = Vec::new(alloc);
    for word in words {
        texts.push(String::from_str(alloc, word)?)?;
    }
    Ok(texts)
}

pub(crate) fn desk_of(alloc: Global, texts: Texts, reads: Calls) -> Result<MemDesk, Fail> {
    Ok(MemDesk::new(
        texts.limits.to_vec(alloc)?,
        texts.almanac.to_vec(alloc)?,
        texts.outages.to_vec(alloc)?,
        texts.route.to_vec(alloc)?,
        reads.fails.to_vec(alloc)?,
        reads.chunk,
    ))
}

fn sink_of(alloc: Global, room: usize, writes: Calls) -> Result<MemSink, Fail> {
    match MemSink::new(alloc, room, writes.fails.to_vec(alloc)?, writes.chunk) {
        Ok(sink) => Ok(sink),
        Err(_) => Err(Fail::from("no memory")),
    }
}

/// As many bytes as the greatest page has, and more than any other text here.
const ROOM: usize = 12_000_000;

pub(crate) fn over_of(
    alloc: Global,
    words: &[&str],
    texts: Texts,
    reads: Calls,
    writes: Calls,
) -> Result<Over, Fail> {
    Ok(Over {
        words: words_of(alloc, words)?,
        desk: desk_of(alloc, texts, reads)?,
        out: sink_of(alloc, ROOM, writes)?,
        note: sink_of(alloc, 4096, SURE)?,
    })
}

fn flight_status<L: Ledger>(alloc: Global, over: &mut Over, steps: &mut Steps<L>) -> u8 {
    run(
        alloc,
        &over.words,
        &mut over.desk,
        &mut over.out,
        &mut over.note,
        steps,
    )
    .number()
}

fn vertical_status<L: Ledger>(alloc: Global, over: &mut Over, steps: &mut Steps<L>) -> u8 {
    run_vertical(
        alloc,
        &over.words,
        &mut over.desk,
        &mut over.out,
        &mut over.note,
        steps,
    )
    .number()
}

fn fleet_status<L: Ledger>(alloc: Global, over: &mut Over, steps: &mut Steps<L>) -> u8 {
    run_fleet(
        alloc,
        &over.words,
        &mut over.desk,
        &mut over.out,
        &mut over.note,
        steps,
    )
    .number()
}

fn chart_status(alloc: Global, over: &mut Over) -> u8 {
    run_chart(
        alloc,
        &over.words,
        &mut over.desk,
        &mut over.out,
        &mut over.note,
    )
    .number()
}

fn status_counted<L: Ledger>(top: Top, alloc: Global, over: &mut Over, blank: Blank) -> u8
    requires name { blank.name ≡ L.name }
    requires parts { blank.parts ≡ L.parts }
    requires some { 1 ≤ blank.parts }
{
    let mut steps: Steps<L> = Steps::new(blank);
    match top {
        Top::Flight => flight_status(alloc, over, &mut steps),
        Top::Vertical => vertical_status(alloc, over, &mut steps),
        Top::Fleet => fleet_status(alloc, over, &mut steps),
        Top::Chart => chart_status(alloc, over),
    }
}

/// The number of the status of a run.
fn status_of(top: Top, alloc: Global, over: &mut Over) -> u8 {
    status_counted::<Brand>(top, alloc, over, Blank::new(1))
}

fn left_behind(alloc: Global, number: u8, over: &Over) -> Result<Left, Fail> {
    Ok(Left {
        number,
        out: over.out.contents().to_vec(alloc)?,
        note: over.note.contents().to_vec(alloc)?,
        failed: over.desk.failed(),
        calls: over.desk.calls(),
    })
}

/// Runs the words over these texts.
pub(crate) fn run_with(
    top: Top,
    alloc: Global,
    words: &[&str],
    texts: Texts,
    reads: Calls,
    writes: Calls,
) -> Result<Left, Fail> {
    let mut over = over_of(alloc, words, texts, reads, writes)?;
    let number = status_of(top, alloc, &mut over);
    left_behind(alloc, number, &over)
}

/// Fails unless a run of the words over these texts has this status and leaves this output and this note.
pub(crate) fn expect(
    rt: &impl Abort,
    alloc: Global,
    top: Top,
    words: &[&str],
    texts: Texts,
    wanted: (u8, &[u8], &str),
) -> Result<(), Fail> {
    let left = run_with(top, alloc, words, texts, SURE, SURE)?;
    let (number, out, note) = wanted;
    assert_eq!(rt; left.number, number, "{top:?} {note}");
    assert_eq!(rt; left.out.as_slice(), out);
    assert_eq!(rt; left.note.as_slice(), note.as_bytes());
    Ok(())
}
