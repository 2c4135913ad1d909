// A process around the top call: its words, files and streams, and the code that it exits with.
ghost use Rattle.std.specs.Prelude.{◌≡◌, ◌≤◌, map};
ghost use Rattle.std.specs.Process.{exit_status};
ghost use Rattle.std.specs.String.{string_bytes};
ghost use Rattle.raim_base.specs.Causes.{GrowsByFront};
ghost use Rattle.raim_run.specs.Endings.{EndsWith};
ghost use Rattle.raim_run.specs.Notes.{note_of};
ghost use Rattle.command_words.specs.Vertical.{asked_for};
ghost use Rattle.raim_run.specs.Statuses.{number_of};

use crate::Status;
use crate::ending::Ending;
use crate::note::note_line;
use crate::program::run_program;
use command_words::Program;
use raim_base::{Desk, FileDesk, Sink, StandardStream, StdSink, write_all_counted};
use std::alloc::{AllocError, Global};
use std::env;
use std::io::{ErrorKind, Write};
use std::marker::Brand;
use std::process::ExitCode;
use std::rt::{Env, Files};
use std::sync::ledger::{Blank, Ledger};
use step_counter::Steps;

/// The exit code that stands for a status.
pub fn exit_code(status: Status) -> ExitCode
    ensures { exit_status result ≡ number_of status }
{
    ExitCode::from(status.number())
}

fn run_counted<D: Desk, K: Sink, L: Ledger>(
    program: Program,
    alloc: Global,
    words: &[String],
    desk: &mut D,
    out: &mut K,
    note: &mut K,
    blank: Blank,
) -> ExitCode
    requires name { blank.name ≡ L.name }
    requires parts { blank.parts ≡ L.parts }
    requires some { 1 ≤ blank.parts }
    ensures { EndsWith program (asked_for program (map string_bytes words.now)) (D.holds desk.old) (K.contents out.old) (K.contents out.new) (K.contents note.old) (K.contents note.new) (exit_status result) }
{
    let mut steps: Steps<L> = Steps::new(blank);
    let status = run_program(program, alloc, words, desk, out, note, &mut steps);
    exit_code(status)
}

/// Runs the words of a program over a desk and two sinks, and answers the exit code of the status.
pub fn run_program_to_end<D: Desk, K: Sink>(
    program: Program,
    alloc: Global,
    words: &[String],
    desk: &mut D,
    out: &mut K,
    note: &mut K,
) -> ExitCode
    ensures { EndsWith program (asked_for program (map string_bytes words.now)) (D.holds desk.old) (K.contents out.old) (K.contents out.new) (K.contents note.old) (K.contents note.new) (exit_status result) }
{
    run_counted::<D, K, Brand>(program, alloc, words, desk, out, note, Blank::new(1))
}

// The words of the process. Where one of them is no text there are none, which is no form of words.
fn words<R: Env + AllocGlobal>(rt: &R) -> Result<Vec<String>, AllocError> {
    match env::args(rt) {
        Ok(words) => words.collect(rt.alloc()),
        Err(error) if error.kind() == ErrorKind::InvalidData => Ok(Vec::new(rt.alloc())),
        Err(_) => Err(AllocError),
    }
}

// Says that there was no memory for the words.
fn end_without_words<K: Sink>(program: Program, note: &mut K) -> ExitCode
    ensures code { exit_status result ≡ number_of Status.Memory }
    ensures note { GrowsByFront (K.contents note.old) (K.contents note.new) (note_of program Status.Memory) }
{
    let ending = Ending {
        status: Status::Memory,
        leap: 0,
    };
    let _ = write_all_counted(note, &note_line(program, ending));
    exit_code(Status::Memory)
}

/// All that a process of a program does: it runs its own words over the files of the system and its two streams, the report on
/// the output and the note on the error, and answers the code that it exits with.
pub fn run_program_process<R, O, E>(program: Program, rt: R, output: O, error: E) -> ExitCode
where
    R: Env + AllocGlobal + Files + Drop,
    O: Write + Drop,
    E: Write + Drop,
{
    let mut out: StdSink<StandardStream<O, E>> = StdSink::new(StandardStream::Output(output));
    let mut note: StdSink<StandardStream<O, E>> = StdSink::new(StandardStream::Error(error));
    let alloc = rt.alloc();
    let Ok(words) = words(&rt) else {
        return end_without_words(program, &mut note);
    };
    let mut desk = FileDesk::new(rt);
    run_program_to_end(program, alloc, &words, &mut desk, &mut out, &mut note)
}

/// All that `raim` does: it runs its own words over the files of the system and its two streams, the report on
/// the output and the note on the error, and answers the code that it exits with.
pub fn run_process<R, O, E>(rt: R, output: O, error: E) -> ExitCode
where
    R: Env + AllocGlobal + Files + Drop,
    O: Write + Drop,
    E: Write + Drop,
{
    run_program_process(Program::Raim, rt, output, error)
}
