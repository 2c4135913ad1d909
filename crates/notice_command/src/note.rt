// The line that says why the notices of a file were not all accepted.
ghost use Rattle.std.specs.Prelude.{◌≡◌, ◌≤◌, ◌+◌, ◌++◌, length, decimal};
ghost use Rattle.arrayvec.specs.ArrayString.{array_string_len};
ghost use Rattle.notice_command.specs.Notes.{note_of};

use crate::NanuStatus;
use arrayvec::ArrayString;
use itoa::Buffer;
use notice_book::{BookFault, NoticeStatus, fault_text, note_line};
use raim_base::words_of_why;
use raim_model::TextWhy;

// A note; the longest has 120 bytes or so.
type Note = ArrayString<256>;

fn push_number(note: &mut Note, number: u32)
    requires { array_string_len note.old ≤ 200 }
    ensures bytes { note.new.bytes ≡ note.old.bytes ++ decimal number }
    ensures len { array_string_len note.new ≤ array_string_len note.old + 40 }
{
    let mut buffer = Buffer::new();
    note.push_str(buffer.format(number));
}

fn bad_text_note(line: u32, why: TextWhy) -> Note
    ensures { result.bytes ≡ note_of (NanuStatus.BadText line why) }
{
    let mut note = Note::new();
    note.push_str("notice: line ");
    push_number(&mut note, line);
    note.push_str(": ");
    note.push_str(words_of_why(why).as_str());
    note.push_str("\n");
    note
}

fn stopped_note(at: u32, why: BookFault) -> Note
    ensures { result.bytes ≡ note_of (NanuStatus.Stopped at why) }
{
    let mut note = Note::new();
    let mut buffer = Buffer::new();
    note.push_str("notice: message ");
    note.push_str(buffer.format(at as u64 + 1));
    note.push_str(": ");
    note.push_str(fault_text(why).as_str());
    note.push_str("\n");
    note
}

fn fixed_note(text: &str) -> Note
    requires { length text.now ≤ 200 }
    ensures { result.bytes ≡ text.now }
{
    let mut note = Note::new();
    note.push_str(text);
    note
}

fn plain(status: NoticeStatus) -> Note
    ensures { result.bytes ≡ note_of (NanuStatus.Plain status) }
{
    fixed_note(note_line(status).as_str())
}

// The line that a status writes to the note, with its line feed; none where all is done.
pub(crate) fn nanu_note(status: NanuStatus) -> Note
    ensures { result.bytes ≡ note_of status }
{
    match status {
        NanuStatus::Plain(status) => plain(status),
        NanuStatus::ReadFault => fixed_note("notice: read fault\n"),
        NanuStatus::BadText { line, why } => bad_text_note(line, why),
        NanuStatus::Stopped { at, why } => stopped_note(at, why),
    }
}
