// The top call of the vertical verdicts.
ghost use Rattle.std.specs.Prelude.{◌≡◌, ◌≢◌, ◌≤◌, ◌⊎◌, ℕ, ℤ, List, None, Some, map, IsSomeAnd};
ghost use Rattle.std.specs.String.{string_bytes};
ghost use Rattle.raim_model.specs.declared.FileNo.{FileNo};
ghost use Rattle.raim_model.specs.declared.TextWhy.{TextWhy};
ghost use Rattle.raim_base.specs.Causes.{Rose};
ghost use Rattle.raim_base.specs.Calls.{MakesCalls};
ghost use Rattle.command_words.specs.Asked.{Asked};
ghost use Rattle.command_words.specs.Vertical.{vertical_asked_of};
ghost use Rattle.raim_run.specs.Calls.{RunCalls};
ghost use Rattle.raim_run.specs.Causes.{NothingAsked, IsWritten, IsCutOff, IsOverflowing, IsManifold};
ghost use Rattle.raim_run.specs.Notes.{IsNoted, IsNotedWhole};
ghost use Rattle.raim_run.specs.Others.{RunOthers};
ghost use Rattle.raim_run.specs.Settled.{Settles, Completes};
ghost use Rattle.raim_run.specs.Steps.{RunSteps};
ghost use Rattle.raim_run.specs.Stopped.{IsRefused, IsFaulty, IsFromFiles};

use command_words::Program;
use raim_base::{Desk, Sink};
use raim_run::{Status, run_program};
use std::alloc::Global;
use std::sync::ledger::Ledger;
use step_counter::Steps;

/// Predicts the vertical verdicts of a flight: reads the words, the four files that they name, and writes the report, or says in a note
/// why not.
///
/// The words are those of the process, the program's name first: `raim_vert LIMITS ALMANAC OUTAGES ROUTE VERTICAL`, with the
/// vertical alert limit in millimetres, a whole number from 1 to 1000000000. All else is as for a prediction by `raim_run::run`:
/// the order of the files, the report, the notes and the statuses. A step is a judgement of a piece of the flight.
///
/// What the clauses say of the files' bytes they say where the desk tells them.
pub fn run_vertical<D: Desk, K: Sink, L: Ledger>(
    alloc: Global,
    words: &[String],
    desk: &mut D,
    out: &mut K,
    note: &mut K,
    steps: &mut Steps<L>,
) -> Status
    // There are not six words, or the last is no whole number from 1 to 1000000000, exactly; but want of memory may come in its place.
    ensures usage { result ≡ Status.Usage → vertical_asked_of (map string_bytes words.now) ≡ None }
    ensures nothing_asked { vertical_asked_of (map string_bytes words.now) ≡ None → NothingAsked result }

    // The text that was written is the answer: the runs of the flight, each of which says what is so of the vertical verdicts.
    ensures done { result ≡ Status.Done → IsSomeAnd (vertical_asked_of (map string_bytes words.now)) (λ asked.
        IsWritten asked (D.holds desk.old) (K.contents out.old) (K.contents out.new)) }
    ensures write_fault { result ≡ Status.WriteFault → IsSomeAnd (vertical_asked_of (map string_bytes words.now)) (λ asked.
        IsCutOff asked (D.holds desk.old) (K.contents out.old) (K.contents out.new) (K.faults out.old) (K.faults out.new)) }

    // Why there is no text.
    ensures refused { (file : FileNo) (line : ℕ) (why : TextWhy) → result ≡ Status.Refused file line why →
        IsSomeAnd (vertical_asked_of (map string_bytes words.now)) (λ asked. IsRefused asked (D.holds desk.old) file line why) }
    ensures read_fault { (file : FileNo) → result ≡ Status.ReadFault file →
        IsSomeAnd (vertical_asked_of (map string_bytes words.now)) (λ asked. IsFromFiles asked × IsFaulty asked (D.holds desk.old) (D.faults desk.old) (D.faults desk.new) file) }
    ensures overflow { (at : ℤ) (prn : ℕ) → result ≡ Status.Overflow at prn →
        IsSomeAnd (vertical_asked_of (map string_bytes words.now)) (λ asked. IsOverflowing asked (D.holds desk.old) at prn) }
    ensures too_many { result ≡ Status.TooManyRuns → IsSomeAnd (vertical_asked_of (map string_bytes words.now)) (λ asked. IsManifold asked (D.holds desk.old)) }

    // The other direction: the bytes settle the status, but for want of memory and faults that were counted.
    ensures settled { (asked : Asked) → vertical_asked_of (map string_bytes words.now) ≡ Some asked → Settles asked (D.holds desk.old) result }
    ensures complete { (asked : Asked) → vertical_asked_of (map string_bytes words.now) ≡ Some asked →
        Completes asked (D.holds desk.old) (D.faults desk.old) (D.faults desk.new) (K.faults out.old) (K.faults out.new) result }

    ensures unchanged { result ≢ Status.Done → result ≢ Status.WriteFault →
        (K.contents out.new ≡ K.contents out.old) × (K.faults out.new ≡ K.faults out.old) }

    // The note gains a front of its status's line, and all of it where its count did not rise.
    ensures note { IsNoted Program.RaimVert (vertical_asked_of (map string_bytes words.now)) (D.holds desk.old) result (K.contents note.old) (K.contents note.new) }
    ensures note_whole { (Rose (K.faults note.old) (K.faults note.new) → ⊥) →
        IsNotedWhole Program.RaimVert (vertical_asked_of (map string_bytes words.now)) (D.holds desk.old) result (K.contents note.old) (K.contents note.new) }

    // Each file up to the one that stops the reading is named once and read to its end, and no call is made after one that
    // failed.
    ensures calls { MakesCalls (D.calls desk.old) (D.calls desk.new) (RunCalls (vertical_asked_of (map string_bytes words.now)) result) }

    // The files behind the one that stops the reading are left alone, and all of them where nothing is asked.
    ensures others { RunOthers (D.left desk.old) (D.left desk.new) (D.faults desk.old) (D.faults desk.new) (vertical_asked_of (map string_bytes words.now)) result }
    ensures holds { (p : List ℕ) → D.holds desk.new p ≡ D.holds desk.old p }
    ensures later { ((file : FileNo) → D.faults desk.old file ≤ D.faults desk.new file)
        × (K.faults out.old ≤ K.faults out.new) × (K.faults note.old ≤ K.faults note.new) }

    // No more judgements than halving the root pieces needs, and none where the files are no case.
    ensures steps { RunSteps (vertical_asked_of (map string_bytes words.now)) (D.holds desk.old) steps.old steps.new }
{
    run_program(Program::RaimVert, alloc, words, desk, out, note, steps)
}
