// A process around the call: its words, files and streams, and the code that it exits with.
ghost use Rattle.std.specs.Prelude.{◌≡◌, map};
ghost use Rattle.std.specs.Process.{exit_status};
ghost use Rattle.std.specs.String.{string_bytes};
ghost use Rattle.raim_base.specs.Causes.{GrowsByFront};
ghost use Rattle.chart_run.specs.Endings.{ChartEnds};
ghost use Rattle.chart_run.specs.Notes.{note_of};
ghost use Rattle.chart_run.specs.Statuses.{number_of};
ghost use Rattle.chart_run.specs.Words.{path_in};

use crate::ChartStatus;
use crate::chart::run_chart;
use crate::note::write_note;
use raim_base::{Desk, FileDesk, Sink, StandardStream, StdSink};
use std::alloc::{AllocError, Global};
use std::env;
use std::io::{ErrorKind, Write};
use std::process::ExitCode;
use std::rt::{Env, Files};

/// Runs the words over a desk and two sinks, and answers the exit code of the status.
pub fn run_chart_to_end<D: Desk, K: Sink>(
    alloc: Global,
    words: &[String],
    desk: &mut D,
    out: &mut K,
    note: &mut K,
) -> ExitCode
    ensures { ChartEnds (path_in (map string_bytes words.now)) (D.holds desk.old) (K.contents out.old) (K.contents out.new) (K.contents note.old) (K.contents note.new) (exit_status result) }
{
    let status = run_chart(alloc, words, desk, out, note);
    ExitCode::from(status.number())
}

// The words of the process. Where one of them is no text there are none, which is no form of words.
fn words<R: Env + AllocGlobal>(rt: &R) -> Result<Vec<String>, AllocError> {
    match env::args(rt) {
        Ok(words) => words.collect(rt.alloc()),
        Err(error) if error.kind() == ErrorKind::InvalidData => Ok(Vec::new(rt.alloc())),
        Err(_) => Err(AllocError),
    }
}

// Says that there was no memory for the words.
fn end_without_words<K: Sink>(note: &mut K) -> ExitCode
    ensures code { exit_status result ≡ number_of ChartStatus.Memory }
    ensures note { GrowsByFront (K.contents note.old) (K.contents note.new) (note_of ChartStatus.Memory) }
{
    write_note(note, ChartStatus::Memory);
    ExitCode::from(ChartStatus::Memory.number())
}

/// All that a program does: it runs its own words over the files of the system and its two streams, the page on the output
/// and the note on the error, and answers the code that it exits with.
pub fn run_chart_process<R, O, E>(rt: R, output: O, error: E) -> ExitCode
where
    R: Env + AllocGlobal + Files + Drop,
    O: Write + Drop,
    E: Write + Drop,
{
    let mut out: StdSink<StandardStream<O, E>> = StdSink::new(StandardStream::Output(output));
    let mut note: StdSink<StandardStream<O, E>> = StdSink::new(StandardStream::Error(error));
    let alloc = rt.alloc();
    let Ok(words) = words(&rt) else {
        return end_without_words(&mut note);
    };
    let mut desk = FileDesk::new(rt);
    run_chart_to_end(alloc, &words, &mut desk, &mut out, &mut note)
}
