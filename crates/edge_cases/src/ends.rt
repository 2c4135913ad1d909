// How a process of each program ends: its exit code, its output and its note.
ghost use Rattle.std.specs.Prelude.{◌≡◌, ◌≤◌};

use crate::over::{
    CHART, FLEET, Over, PREDICT, SURE, Texts, Top, over_of, texts_of, vertical_words, words_of,
};
use chart_run::run_chart_to_end;
use command_words::Program;
use fleet_run::run_fleet_to_end;
use flight_samples::*;
use raim_base::{SureDesk, SureSink};
use raim_run::{run_program_to_end, run_surely};
use std::alloc::Global;
use std::marker::Brand;
use std::process::{Abort, ExitCode};
use std::sync::ledger::{Blank, Ledger};
use std::test::Fail;
use step_counter::Steps;

fn end_of_program(program: Program, alloc: Global, over: &mut Over) -> ExitCode {
    run_program_to_end(
        program,
        alloc,
        &over.words,
        &mut over.desk,
        &mut over.out,
        &mut over.note,
    )
}

fn end_of_fleet(alloc: Global, over: &mut Over) -> ExitCode {
    run_fleet_to_end(
        alloc,
        &over.words,
        &mut over.desk,
        &mut over.out,
        &mut over.note,
    )
}

fn end_of_chart(alloc: Global, over: &mut Over) -> ExitCode {
    run_chart_to_end(
        alloc,
        &over.words,
        &mut over.desk,
        &mut over.out,
        &mut over.note,
    )
}

fn end_of(top: Top, alloc: Global, over: &mut Over) -> ExitCode {
    match top {
        Top::Flight => end_of_program(Program::Raim, alloc, over),
        Top::Vertical => end_of_program(Program::RaimVert, alloc, over),
        Top::Fleet => end_of_fleet(alloc, over),
        Top::Chart => end_of_chart(alloc, over),
    }
}

/// Fails unless a process of these words has this exit code, a page or this output, and this note.
fn expect_end(
    rt: &impl Abort,
    alloc: Global,
    top: Top,
    words: &[&str],
    texts: Texts,
    wanted: (u8, &str, &str),
) -> Result<(), Fail> {
    let mut over = over_of(alloc, words, texts, SURE, SURE)?;
    let code = end_of(top, alloc, &mut over);
    let (number, out, note) = wanted;
    assert_eq!(rt; code, ExitCode::from(number));
    if top == Top::Chart && number == 0 {
        assert!(rt; over.out.contents().starts_with(b"<!DOCTYPE html>\n"));
    } else {
        assert_eq!(rt; over.out.contents(), out.as_bytes());
    }
    assert_eq!(rt; over.note.contents(), note.as_bytes());
    Ok(())
}

#[test]
fn a_process_exits_with_its_status(rt: HostRuntime) -> Result<(), Fail> {
    let alloc = rt.alloc();
    let five = sem_almanac(alloc, "2338", &FIVE)?;
    let five = five.as_str();
    let flight = texts_of(MILD, five, OUTAGE, SECOND);
    let empty = texts_of(MILD, "", OUTAGE, SECOND);
    let steep = texts_of(OVERFLOWING, five, OUTAGE, SECOND);
    let report = texts_of("", "", "", THREE_RUNS);
    let blocks = format!(in alloc; "route 1\n{THREE_RUNS}")?;
    let usage = "raim: usage: raim predict LIMITS ALMANAC OUTAGES ROUTE or raim demo NUMBER\n";
    let usage_up = "raim: usage: raim_vert LIMITS ALMANAC OUTAGES ROUTE VERTICAL\n";
    let usage_fleet = "raim: usage: raim_fleet LIMITS ALMANAC OUTAGES ROUTES\n";
    let usage_chart = "raim: usage: raim_chart REPORT\n";
    let short = "raim: almanac line 0: Short\n";
    let overflow = "raim: overflow at 2024-10-27T00:00:00.000Z PRN 01\n";
    let up = vertical_words("50000");
    let nothing = vertical_words("0");
    let rows: [(Top, &[&str], Texts, (u8, &str, &str)); 10] = [
        (Top::Flight, &PREDICT, flight, (0, THREE_RUNS, "")),
        (Top::Flight, &["raim"], flight, (1, "", usage)),
        (Top::Flight, &PREDICT, empty, (2, "", short)),
        (Top::Flight, &PREDICT, steep, (5, "", overflow)),
        (Top::Vertical, &up, flight, (0, THREE_RUNS, "")),
        (Top::Vertical, &nothing, flight, (1, "", usage_up)),
        (Top::Fleet, &FLEET, flight, (0, blocks.as_str(), "")),
        (Top::Fleet, &["raim_fleet"], flight, (1, "", usage_fleet)),
        (Top::Chart, &CHART, report, (0, "", "")),
        (Top::Chart, &["raim_chart"], report, (1, "", usage_chart)),
    ];
    for (top, words, texts, wanted) in rows {
        expect_end(&rt, alloc, top, words, texts, wanted)?;
    }
    Ok(())
}

fn surely_counted<L: Ledger>(
    alloc: Global,
    words: &[String],
    desk: &mut SureDesk,
    blank: Blank,
) -> u8
    requires name { blank.name ≡ L.name }
    requires parts { blank.parts ≡ L.parts }
    requires some { 1 ≤ blank.parts }
{
    let mut steps: Steps<L> = Steps::new(blank);
    let mut out = SureSink::new();
    let mut note = SureSink::new();
    run_surely(alloc, words, desk, &mut out, &mut note, &mut steps).number()
}

/// The number of the status of the words over a desk that never fails.
fn surely(alloc: Global, words: &[String], desk: &mut SureDesk) -> u8 {
    surely_counted::<Brand>(alloc, words, desk, Blank::new(1))
}

#[test]
fn where_nothing_fails_the_run_is_done(rt: HostRuntime) -> Result<(), Fail> {
    let alloc = rt.alloc();
    let words = words_of(alloc, &PREDICT)?;
    let mut desk = SureDesk::new(
        MILD.as_bytes().to_vec(alloc)?,
        sem_almanac(alloc, "2338", &FIVE)?.as_bytes().to_vec(alloc)?,
        Vec::new(alloc),
        SECOND.as_bytes().to_vec(alloc)?,
    );
    assert_eq!(rt; surely(alloc, &words, &mut desk), 0);
    Ok(())
}
