// A process around a command on a book: its words, the database, the files and its streams, and the code that it exits with.
ghost use Rattle.std.specs.Prelude.{◌≡◌};
ghost use Rattle.std.specs.Process.{exit_status};
ghost use Rattle.notice_command.specs.Statuses.{number_of};

use notice_book::{NoticeStatus, note_line};
use notice_command::{NanuStatus, makes_book, nanu_run};
use notice_sqlite::FileKeeper;
use raim_base::{FileDesk, Sink, StandardStream, StdSink, write_all_counted};
use std::alloc::AllocError;
use std::env;
use std::io::{ErrorKind, Write};
use std::process::ExitCode;

/// The exit code that stands for a status.
pub fn exit_code(status: NanuStatus) -> ExitCode
    ensures { exit_status result ≡ number_of status }
{
    ExitCode::from(status.number())
}

// The words of the process. Where one of them is no text there are none, which is no form of words.
fn words(rt: &HostRuntime) -> Result<Vec<String>, AllocError> {
    match env::args(rt) {
        Ok(words) => words.collect(rt.alloc()),
        Err(error) if error.kind() == ErrorKind::InvalidData => Ok(Vec::new(rt.alloc())),
        Err(_) => Err(AllocError),
    }
}

// Closes the book. One that was changed and is not whole in its file by then is a failure, whatever the status was.
fn closed<K: Sink>(keeper: FileKeeper, status: NanuStatus, note: &mut K) -> NanuStatus {
    let fault = NoticeStatus::KeeperFault;
    if keeper.close().is_ok() || status == NanuStatus::Plain(fault) {
        return status;
    }
    let _ = write_all_counted(note, note_line(fault).as_str().as_bytes());
    NanuStatus::Plain(fault)
}

// Says that there was too little memory to start.
fn no_memory<K: Sink>(note: &mut K) -> NanuStatus {
    let status = NoticeStatus::Memory;
    let _ = write_all_counted(note, note_line(status).as_str().as_bytes());
    NanuStatus::Plain(status)
}

/// Runs the words of one command over the book under the second of them and the files of the system, what is in effect on
/// the output and the note on the error, and closes the book.
pub fn run_words<K: Sink>(
    rt: HostRuntime,
    words: &[String],
    out: &mut K,
    note: &mut K,
) -> NanuStatus {
    let cloned: Result<HostRuntime, AllocError> = rt.clone();
    let Ok(files) = cloned else {
        return no_memory(note);
    };
    let alloc = rt.alloc();
    let mut keeper = FileKeeper::new(files, makes_book(words));
    let mut desk = FileDesk::new(rt);
    let status = nanu_run(alloc, words, &mut keeper, &mut desk, out, note);
    closed(keeper, status, note)
}

/// All that a program does: it runs its own words, and answers the code that it exits with.
pub fn run_process<O, E>(rt: HostRuntime, output: O, error: E) -> ExitCode
where
    O: Write + Drop,
    E: Write + Drop,
{
    let mut out: StdSink<StandardStream<O, E>> = StdSink::new(StandardStream::Output(output));
    let mut note: StdSink<StandardStream<O, E>> = StdSink::new(StandardStream::Error(error));
    let status = match words(&rt) {
        Ok(words) => run_words(rt, &words, &mut out, &mut note),
        Err(_) => no_memory(&mut note),
    };
    exit_code(status)
}
