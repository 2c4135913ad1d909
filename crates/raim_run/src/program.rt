// What the programs do with their words, and the cause of every answer.
ghost use Rattle.std.specs.Prelude.{◌≡◌, ◌≢◌, ◌≤◌, ◌⊎◌, ℕ, ℤ, List, None, Some, map, IsSomeAnd, MatchOption};
ghost use Rattle.std.specs.String.{string_bytes};
ghost use Rattle.raim_model.specs.declared.FileNo.{FileNo};
ghost use Rattle.raim_model.specs.declared.TextWhy.{TextWhy};
ghost use Rattle.raim_base.specs.Causes.{Rose};
ghost use Rattle.raim_base.specs.Calls.{MakesCalls};
ghost use Rattle.command_words.specs.Asked.{Asked};
ghost use Rattle.command_words.specs.Vertical.{asked_for};
ghost use Rattle.raim_run.specs.Calls.{RunCalls};
ghost use Rattle.raim_run.specs.Causes.{StatusCause, NothingAsked, IsWritten, IsCutOff, IsOverflowing, IsManifold};
ghost use Rattle.raim_run.specs.Notes.{IsNoted, IsNotedWhole};
ghost use Rattle.raim_run.specs.Others.{RunOthers};
ghost use Rattle.raim_run.specs.Printed.{HasNoteOf};
ghost use Rattle.raim_run.specs.Settled.{Settles, Completes};
ghost use Rattle.raim_run.specs.Steps.{RunSteps};
ghost use Rattle.raim_run.specs.Stopped.{IsRefused, IsFaulty, IsFromFiles};

use crate::Status;
use crate::answer::answer;
use crate::ending::Ending;
use crate::note::note_line;
use command_words::{Program, read_words};
use raim_base::{Desk, Sink, write_all_counted};
use std::alloc::Global;
use std::sync::ledger::Ledger;
use step_counter::Steps;

// Reads the words, and answers what they ask.
fn answer_words<D: Desk, K: Sink, L: Ledger>(
    program: Program,
    alloc: Global,
    words: &[String],
    desk: &mut D,
    out: &mut K,
    steps: &mut Steps<L>,
) -> Ending
    ensures cause { MatchOption (asked_for program (map string_bytes words.now)) (NothingAsked result.status)
        (λ asked. StatusCause asked (D.holds desk.old) (D.faults desk.old) (D.faults desk.new) (K.contents out.old) (K.contents out.new) (K.faults out.old) (K.faults out.new) result.status) }
    ensures note { HasNoteOf (asked_for program (map string_bytes words.now)) (D.holds desk.old) result.leap result.status }
    ensures unchanged { result.status ≢ Status.Done → result.status ≢ Status.WriteFault → (K.contents out.new ≡ K.contents out.old) × (K.faults out.new ≡ K.faults out.old) }
    ensures holds { (p : List ℕ) → D.holds desk.new p ≡ D.holds desk.old p }
    ensures later { (file : FileNo) → D.faults desk.old file ≤ D.faults desk.new file }
    ensures others { RunOthers (D.left desk.old) (D.left desk.new) (D.faults desk.old) (D.faults desk.new) (asked_for program (map string_bytes words.now)) result.status }
    ensures calls { MakesCalls (D.calls desk.old) (D.calls desk.new) (RunCalls (asked_for program (map string_bytes words.now)) result.status) }
    ensures out_later { K.faults out.old ≤ K.faults out.new }
    ensures steps { RunSteps (asked_for program (map string_bytes words.now)) (D.holds desk.old) steps.old steps.new }
{
    match read_words(program, alloc, words) {
        Ok(Some(request)) => answer(alloc, &request, desk, out, steps),
        Ok(None) => Ending {
            status: Status::Usage,
            leap: 0,
        },
        Err(_) => Ending {
            status: Status::Memory,
            leap: 0,
        },
    }
}

/// Predicts a flight by the words of a program: reads them, the four files that they name, and writes the report, or says in a note why not.
/// `run` says more of it.
pub fn run_program<D: Desk, K: Sink, L: Ledger>(
    program: Program,
    alloc: Global,
    words: &[String],
    desk: &mut D,
    out: &mut K,
    note: &mut K,
    steps: &mut Steps<L>,
) -> Status
    // The words ask for nothing, exactly; but want of memory may come in its place.
    ensures usage { result ≡ Status.Usage → asked_for program (map string_bytes words.now) ≡ None }
    ensures nothing_asked { asked_for program (map string_bytes words.now) ≡ None → NothingAsked result }

    // The text that was written is the answer: the runs of the flight, each of which says what is so.
    ensures done { result ≡ Status.Done → IsSomeAnd (asked_for program (map string_bytes words.now)) (λ asked.
        IsWritten asked (D.holds desk.old) (K.contents out.old) (K.contents out.new)) }
    ensures write_fault { result ≡ Status.WriteFault → IsSomeAnd (asked_for program (map string_bytes words.now)) (λ asked.
        IsCutOff asked (D.holds desk.old) (K.contents out.old) (K.contents out.new) (K.faults out.old) (K.faults out.new)) }

    // Why there is no text.
    ensures refused { (file : FileNo) (line : ℕ) (why : TextWhy) → result ≡ Status.Refused file line why →
        IsSomeAnd (asked_for program (map string_bytes words.now)) (λ asked. IsRefused asked (D.holds desk.old) file line why) }
    ensures read_fault { (file : FileNo) → result ≡ Status.ReadFault file →
        IsSomeAnd (asked_for program (map string_bytes words.now)) (λ asked. IsFromFiles asked × IsFaulty asked (D.holds desk.old) (D.faults desk.old) (D.faults desk.new) file) }
    ensures overflow { (at : ℤ) (prn : ℕ) → result ≡ Status.Overflow at prn →
        IsSomeAnd (asked_for program (map string_bytes words.now)) (λ asked. IsOverflowing asked (D.holds desk.old) at prn) }
    ensures too_many { result ≡ Status.TooManyRuns → IsSomeAnd (asked_for program (map string_bytes words.now)) (λ asked. IsManifold asked (D.holds desk.old)) }

    // The other direction: the bytes settle the status, but for want of memory and faults that were counted.
    ensures settled { (asked : Asked) → asked_for program (map string_bytes words.now) ≡ Some asked → Settles asked (D.holds desk.old) result }
    ensures complete { (asked : Asked) → asked_for program (map string_bytes words.now) ≡ Some asked →
        Completes asked (D.holds desk.old) (D.faults desk.old) (D.faults desk.new) (K.faults out.old) (K.faults out.new) result }

    ensures unchanged { result ≢ Status.Done → result ≢ Status.WriteFault →
        (K.contents out.new ≡ K.contents out.old) × (K.faults out.new ≡ K.faults out.old) }

    // The note gains a front of its status's line, and all of it where its count did not rise.
    ensures note { IsNoted program (asked_for program (map string_bytes words.now)) (D.holds desk.old) result (K.contents note.old) (K.contents note.new) }
    ensures note_whole { (Rose (K.faults note.old) (K.faults note.new) → ⊥) →
        IsNotedWhole program (asked_for program (map string_bytes words.now)) (D.holds desk.old) result (K.contents note.old) (K.contents note.new) }

    // Each file up to the one that stops the reading is named once and read to its end, and no call is made after one that
    // failed; a demonstration makes none.
    ensures calls { MakesCalls (D.calls desk.old) (D.calls desk.new) (RunCalls (asked_for program (map string_bytes words.now)) result) }

    // The files behind the one that stops the reading are left alone, and all of them where none is asked for.
    ensures others { RunOthers (D.left desk.old) (D.left desk.new) (D.faults desk.old) (D.faults desk.new) (asked_for program (map string_bytes words.now)) result }
    ensures holds { (p : List ℕ) → D.holds desk.new p ≡ D.holds desk.old p }
    ensures later { ((file : FileNo) → D.faults desk.old file ≤ D.faults desk.new file)
        × (K.faults out.old ≤ K.faults out.new) × (K.faults note.old ≤ K.faults note.new) }

    // No more judgements than halving the root pieces needs, and none where the files are no case.
    ensures steps { RunSteps (asked_for program (map string_bytes words.now)) (D.holds desk.old) steps.old steps.new }
{
    let ending = answer_words(program, alloc, words, desk, out, steps);
    let _ = write_all_counted(note, &note_line(program, ending));
    ending.status
}
