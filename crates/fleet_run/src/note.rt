// The line that says how a fleet ended.
ghost use Rattle.std.specs.Prelude.{◌≡◌, ◌≢◌, ◌≤◌, ℕ, ℤ};
ghost use Rattle.std.specs.Io.KnownBytes.{Appends};
ghost use Rattle.raim_base.specs.Causes.{Rose, GrowsByFront};
ghost use Rattle.fleet_run.specs.Notes.{fleet_note};

use command_words::Program;
use raim_base::{Sink, write_all_counted};
use raim_run::{Ending, Status, note_line};

// Writes a line, or a front of it where a write fails.
fn write_line<K: Sink>(note: &mut K, line: &[u8])
    ensures front { GrowsByFront (K.contents note.old) (K.contents note.new) line.now }
    ensures whole { (Rose (K.faults note.old) (K.faults note.new) → ⊥) → Appends (K.contents note.old) (K.contents note.new) line.now }
    ensures later { K.faults note.old ≤ K.faults note.new }
{
    let _ = write_all_counted(note, line);
}

// Writes the line of a status, with its line feed; none where the fleet is done. No fleet overflows as a whole.
pub(crate) fn write_note<K: Sink>(note: &mut K, status: Status)
    requires { (at : ℤ) (prn : ℕ) → status ≢ Status.Overflow at prn }
    ensures front { GrowsByFront (K.contents note.old) (K.contents note.new) (fleet_note status) }
    ensures whole { (Rose (K.faults note.old) (K.faults note.new) → ⊥) → Appends (K.contents note.old) (K.contents note.new) (fleet_note status) }
    ensures later { K.faults note.old ≤ K.faults note.new }
{
    match status {
        Status::Usage => write_line(
            note,
            b"raim: usage: raim_fleet LIMITS ALMANAC OUTAGES ROUTES\n",
        ),
        _ => write_line(note, &note_line(Program::Raim, Ending { status, leap: 0 })),
    }
}
