// The line that says why no whole page was written.
ghost use Rattle.std.specs.Prelude.{◌≡◌, ◌≤◌, ◌+◌, ◌++◌, length, decimal};
ghost use Rattle.std.specs.Io.KnownBytes.{Appends};
ghost use Rattle.arrayvec.specs.ArrayString.{array_string_len};
ghost use Rattle.raim_base.specs.Causes.{Rose, GrowsByFront};
ghost use Rattle.chart_run.specs.Notes.{note_of};

use crate::ChartStatus;
use arrayvec::ArrayString;
use itoa::Buffer;
use raim_base::{Sink, words_of_why, write_all_counted};
use raim_model::TextWhy;

// A note; the longest has 130 bytes or so.
type Note = ArrayString<256>;

fn push_number(note: &mut Note, number: u32)
    requires { array_string_len note.old ≤ 200 }
    ensures bytes { note.new.bytes ≡ note.old.bytes ++ decimal number }
    ensures len { array_string_len note.new ≤ array_string_len note.old + 40 }
{
    let mut buffer = Buffer::new();
    note.push_str(buffer.format(number));
}

fn refusal_note(line: u32, why: TextWhy) -> Note
    ensures { result.bytes ≡ note_of (ChartStatus.Refused line why) }
{
    let mut note = Note::new();
    note.push_str("raim: report line ");
    push_number(&mut note, line);
    note.push_str(": ");
    note.push_str(words_of_why(why).as_str());
    note.push_str("\n");
    note
}

fn fixed_note(text: &str) -> Note
    requires { length text.now ≤ 200 }
    ensures { result.bytes ≡ text.now }
{
    let mut note = Note::new();
    note.push_str(text);
    note
}

// The line of a status, with its line feed; none where the page is written.
fn chart_note(status: ChartStatus) -> Note
    ensures { result.bytes ≡ note_of status }
{
    match status {
        ChartStatus::Done => fixed_note(""),
        ChartStatus::Usage => fixed_note("raim: usage: raim_chart REPORT\n"),
        ChartStatus::Refused { line, why } => refusal_note(line, why),
        ChartStatus::ReadFault => fixed_note("raim: report: read fault\n"),
        ChartStatus::WriteFault => fixed_note("raim: write fault\n"),
        ChartStatus::Memory => fixed_note("raim: out of memory\n"),
    }
}

// Writes the line of a status, or a front of it where a write fails.
pub(crate) fn write_note<K: Sink>(note: &mut K, status: ChartStatus)
    ensures front { GrowsByFront (K.contents note.old) (K.contents note.new) (note_of status) }
    ensures whole { (Rose (K.faults note.old) (K.faults note.new) → ⊥) → Appends (K.contents note.old) (K.contents note.new) (note_of status) }
    ensures later { K.faults note.old ≤ K.faults note.new }
{
    write_line(note, chart_note(status).as_str().as_bytes());
}

fn write_line<K: Sink>(note: &mut K, line: &[u8])
    ensures front { GrowsByFront (K.contents note.old) (K.contents note.new) line.now }
    ensures whole { (Rose (K.faults note.old) (K.faults note.new) → ⊥) → Appends (K.contents note.old) (K.contents note.new) line.now }
    ensures later { K.faults note.old ≤ K.faults note.new }
{
    let _ = write_all_counted(note, line);
}
