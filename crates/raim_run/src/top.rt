// The top call.
ghost use Rattle.std.specs.Prelude.{◌≡◌, ◌≢◌, ◌≤◌, ◌⊎◌, ℕ, ℤ, List, None, Some, map, IsSomeAnd};
ghost use Rattle.std.specs.String.{string_bytes};
ghost use Rattle.raim_model.specs.declared.FileNo.{FileNo};
ghost use Rattle.raim_model.specs.declared.TextWhy.{TextWhy};
ghost use Rattle.raim_base.specs.Causes.{Rose};
ghost use Rattle.raim_base.specs.Calls.{MakesCalls};
ghost use Rattle.command_words.specs.Asked.{Asked, asked_of};
ghost use Rattle.raim_run.specs.Calls.{RunCalls};
ghost use Rattle.raim_run.specs.Causes.{NothingAsked, IsWritten, IsCutOff, IsOverflowing, IsManifold};
ghost use Rattle.raim_run.specs.Notes.{IsNoted, IsNotedWhole};
ghost use Rattle.raim_run.specs.Others.{RunOthers};
ghost use Rattle.raim_run.specs.Settled.{Settles, Completes};
ghost use Rattle.raim_run.specs.Steps.{RunSteps};
ghost use Rattle.raim_run.specs.Stopped.{IsRefused, IsFaulty, IsFromFiles};

use crate::Status;
use crate::program::run_program;
use command_words::Program;
use raim_base::{Desk, Sink};
use std::alloc::Global;
use std::sync::ledger::Ledger;
use step_counter::Steps;

/// Predicts a flight: reads the words, the four files that they name, and writes the report, or says in a note why not.
///
/// The words are those of the process, the program's name first: `raim predict LIMITS ALMANAC OUTAGES ROUTE`, or `raim
/// demo NUMBER`, which judges four texts made from the number and writes one line of totals. The files are read in the
/// order limits, route, outages, almanac, each named and read to its end before the next. The text is built whole
/// before its first byte is written to `out`. Every status but `Done` writes one line to `note`, whose faults change
/// nothing. A step is a judgement of a piece of the flight.
///
/// What the clauses say of the files' bytes they say where the desk tells them; of a demonstration they say it always.
pub fn run<D: Desk, K: Sink, L: Ledger>(
    alloc: Global,
    words: &[String],
    desk: &mut D,
    out: &mut K,
    note: &mut K,
    steps: &mut Steps<L>,
) -> Status
    // The words ask for nothing, exactly; but want of memory may come in its place.
    ensures usage { result ≡ Status.Usage → asked_of (map string_bytes words.now) ≡ None }
    ensures nothing_asked { asked_of (map string_bytes words.now) ≡ None → NothingAsked result }

    // The text that was written is the answer: the runs of the flight, each of which says what is so.
    ensures done { result ≡ Status.Done → IsSomeAnd (asked_of (map string_bytes words.now)) (λ asked.
        IsWritten asked (D.holds desk.old) (K.contents out.old) (K.contents out.new)) }
    ensures write_fault { result ≡ Status.WriteFault → IsSomeAnd (asked_of (map string_bytes words.now)) (λ asked.
        IsCutOff asked (D.holds desk.old) (K.contents out.old) (K.contents out.new) (K.faults out.old) (K.faults out.new)) }

    // Why there is no text.
    ensures refused { (file : FileNo) (line : ℕ) (why : TextWhy) → result ≡ Status.Refused file line why →
        IsSomeAnd (asked_of (map string_bytes words.now)) (λ asked. IsRefused asked (D.holds desk.old) file line why) }
    ensures read_fault { (file : FileNo) → result ≡ Status.ReadFault file →
        IsSomeAnd (asked_of (map string_bytes words.now)) (λ asked. IsFromFiles asked × IsFaulty asked (D.holds desk.old) (D.faults desk.old) (D.faults desk.new) file) }
    ensures overflow { (at : ℤ) (prn : ℕ) → result ≡ Status.Overflow at prn →
        IsSomeAnd (asked_of (map string_bytes words.now)) (λ asked. IsOverflowing asked (D.holds desk.old) at prn) }
    ensures too_many { result ≡ Status.TooManyRuns → IsSomeAnd (asked_of (map string_bytes words.now)) (λ asked. IsManifold asked (D.holds desk.old)) }

    // The other direction: the bytes settle the status, but for want of memory and faults that were counted.
    ensures settled { (asked : Asked) → asked_of (map string_bytes words.now) ≡ Some asked → Settles asked (D.holds desk.old) result }
    ensures complete { (asked : Asked) → asked_of (map string_bytes words.now) ≡ Some asked →
        Completes asked (D.holds desk.old) (D.faults desk.old) (D.faults desk.new) (K.faults out.old) (K.faults out.new) result }

    ensures unchanged { result ≢ Status.Done → result ≢ Status.WriteFault →
        (K.contents out.new ≡ K.contents out.old) × (K.faults out.new ≡ K.faults out.old) }

    // The note gains a front of its status's line, and all of it where its count did not rise.
    ensures note { IsNoted Program.Raim (asked_of (map string_bytes words.now)) (D.holds desk.old) result (K.contents note.old) (K.contents note.new) }
    ensures note_whole { (Rose (K.faults note.old) (K.faults note.new) → ⊥) →
        IsNotedWhole Program.Raim (asked_of (map string_bytes words.now)) (D.holds desk.old) result (K.contents note.old) (K.contents note.new) }

    // Each file up to the one that stops the reading is named once and read to its end, and no call is made after one that
    // failed; a demonstration makes none.
    ensures calls { MakesCalls (D.calls desk.old) (D.calls desk.new) (RunCalls (asked_of (map string_bytes words.now)) result) }

    // The files behind the one that stops the reading are left alone, and all of them where none is asked for.
    ensures others { RunOthers (D.left desk.old) (D.left desk.new) (D.faults desk.old) (D.faults desk.new) (asked_of (map string_bytes words.now)) result }
    ensures holds { (p : List ℕ) → D.holds desk.new p ≡ D.holds desk.old p }
    ensures later { ((file : FileNo) → D.faults desk.old file ≤ D.faults desk.new file)
        × (K.faults out.old ≤ K.faults out.new) × (K.faults note.old ≤ K.faults note.new) }

    // No more judgements than halving the root pieces needs, and none where the files are no case.
    ensures steps { RunSteps (asked_of (map string_bytes words.now)) (D.holds desk.old) steps.old steps.new }
{
    run_program(Program::Raim, alloc, words, desk, out, note, steps)
}
