// The line that says why a run did not write its answer.
ghost use Rattle.std.specs.Prelude.{◌≡◌, ◌≤◌, ◌+◌, ◌++◌, [], length, decimal};
ghost use Rattle.arrayvec.specs.ArrayVec.{array_vec_len};
ghost use Rattle.gps_week.specs.GpsTime.{IsInstant};
ghost use Rattle.report_text.specs.Report.{prn_text};
ghost use Rattle.raim_run.specs.Notes.{refusal_text, read_fault_text, usage_of, IsOverflowNote, IsNoteUnder};
ghost use Rattle.raim_run.specs.Printed.{IsNotable};

use crate::Status;
use crate::ending::Ending;
use arrayvec::ArrayVec;
use command_words::Program;
use gps_week::utc_text;
use itoa::Buffer;
use raim_base::{name_of_file, words_of_why};
use raim_model::{FileNo, TextWhy};

/// A note; the longest has 120 bytes or so.
pub type Note = ArrayVec<u8, 256>;

fn push(note: &mut Note, text: &[u8])
    requires { array_vec_len note.old + length text.now ≤ 256 }
    ensures items { note.new.items ≡ note.old.items ++ text.now }
    ensures len { array_vec_len note.new ≡ array_vec_len note.old + length text.now }
{
    let Ok(()) = note.try_extend_from_slice(text) else {
        unreachable!();
    };
}

fn push_number(note: &mut Note, number: u32)
    requires { array_vec_len note.old ≤ 200 }
    ensures items { note.new.items ≡ note.old.items ++ decimal number }
    ensures len { array_vec_len note.new ≤ array_vec_len note.old + 40 }
{
    let mut buffer = Buffer::new();
    push(note, buffer.format(number).as_bytes());
}

fn push_prn(note: &mut Note, prn: u8)
    requires { array_vec_len note.old ≤ 200 }
    ensures items { note.new.items ≡ note.old.items ++ prn_text prn }
    ensures len { array_vec_len note.new ≤ array_vec_len note.old + 3 }
{
    if prn < 100 {
        push(note, &[b'0' + prn / 10, b'0' + prn % 10]);
    } else {
        let rest = prn % 100;
        push(
            note,
            &[b'0' + prn / 100, b'0' + rest / 10, b'0' + rest % 10],
        );
    }
}

fn fixed_note(text: &str) -> Note
    requires { length text.now ≤ 200 }
    ensures { result.items ≡ text.now }
{
    let mut note = Note::new();
    push(&mut note, text.as_bytes());
    note
}

fn refusal_note(file: FileNo, line: u32, why: TextWhy) -> Note
    ensures { result.items ≡ refusal_text file line why }
{
    let mut note = Note::new();
    push(&mut note, b"raim: ");
    push(&mut note, name_of_file(file).as_bytes());
    push(&mut note, b" line ");
    push_number(&mut note, line);
    push(&mut note, b": ");
    push(&mut note, words_of_why(why).as_str().as_bytes());
    push(&mut note, b"\n");
    note
}

fn read_fault_note(file: FileNo) -> Note
    ensures { result.items ≡ read_fault_text file }
{
    let mut note = Note::new();
    push(&mut note, b"raim: ");
    push(&mut note, name_of_file(file).as_bytes());
    push(&mut note, b": read fault\n");
    note
}

// The time is of UTC, which GPS time is ahead of by `leap` seconds.
fn overflow_note(at: i64, prn: u8, leap: u8) -> Note
    requires { IsInstant leap at }
    ensures { IsOverflowNote leap at prn result.items }
{
    let mut note = Note::new();
    push(&mut note, b"raim: overflow at ");
    push(&mut note, utc_text(at, leap).as_str().as_bytes());
    push(&mut note, b" PRN ");
    push_prn(&mut note, prn);
    push(&mut note, b"\n");
    note
}

// The line that says how a program is called.
fn usage_note(program: Program) -> Note
    ensures { result.items ≡ usage_of program }
{
    match program {
        Program::Raim => fixed_note(
            "raim: usage: raim predict LIMITS ALMANAC OUTAGES ROUTE or raim demo NUMBER\n",
        ),
        Program::RaimVert => {
            fixed_note("raim: usage: raim_vert LIMITS ALMANAC OUTAGES ROUTE VERTICAL\n")
        }
    }
}

/// The line that an ending of a program writes to the note, with its line feed; none where the run is done.
pub fn note_line(program: Program, ending: Ending) -> Note
    requires { IsNotable ending.leap ending.status }
    ensures { IsNoteUnder program ending.leap ending.status result.items }
{
    match ending.status {
        Status::Done => Note::new(),
        Status::Usage => usage_note(program),
        Status::Refused { file, line, why } => refusal_note(file, line, why),
        Status::ReadFault { file } => read_fault_note(file),
        Status::WriteFault => fixed_note("raim: write fault\n"),
        Status::Overflow { at, prn } => overflow_note(at, prn, ending.leap),
        Status::TooManyRuns => fixed_note("raim: more than 65536 intervals\n"),
        Status::Memory => fixed_note("raim: out of memory\n"),
    }
}
