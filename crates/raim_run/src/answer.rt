// From what is asked to the text that is written.
ghost use Rattle.std.specs.Prelude.{◌≡◌, ◌≢◌, ◌≤◌, ℕ, List};
ghost use Rattle.raim_model.specs.declared.FileNo.{FileNo};
ghost use Rattle.raim_base.specs.Calls.{MakesCalls};
ghost use Rattle.command_words.specs.Asked.{asked_by};
ghost use Rattle.raim_run.specs.Calls.{AskedCalls};
ghost use Rattle.raim_run.specs.Causes.{StatusCause};
ghost use Rattle.raim_run.specs.Others.{AskedOthers};
ghost use Rattle.raim_run.specs.Printed.{HasNote};
ghost use Rattle.raim_run.specs.Steps.{AreSteps};

use crate::Status;
use crate::ending::Ending;
use crate::runs::runs_asked;
use crate::text::print_runs;
use command_words::Request;
use raim_base::{Desk, Sink, write_all_counted};
use std::alloc::Global;
use std::sync::ledger::Ledger;
use step_counter::Steps;

// Answers what is asked: writes its text, or says why not. The text is whole before its first byte is written.
pub(crate) fn answer<D: Desk, K: Sink, L: Ledger>(
    alloc: Global,
    request: &Request,
    desk: &mut D,
    out: &mut K,
    steps: &mut Steps<L>,
) -> Ending
    ensures cause { StatusCause (asked_by request.now) (D.holds desk.old) (D.faults desk.old) (D.faults desk.new)
        (K.contents out.old) (K.contents out.new) (K.faults out.old) (K.faults out.new) result.status }
    ensures note { HasNote (asked_by request.now) (D.holds desk.old) result.leap result.status }
    ensures unchanged { result.status ≢ Status.Done → result.status ≢ Status.WriteFault → (K.contents out.new ≡ K.contents out.old) × (K.faults out.new ≡ K.faults out.old) }
    ensures holds { (p : List ℕ) → D.holds desk.new p ≡ D.holds desk.old p }
    ensures later { (file : FileNo) → D.faults desk.old file ≤ D.faults desk.new file }
    ensures others { AskedOthers (D.left desk.old) (D.left desk.new) (D.faults desk.old) (D.faults desk.new) (asked_by request.now) result.status }
    ensures calls { MakesCalls (D.calls desk.old) (D.calls desk.new) (AskedCalls (asked_by request.now) result.status) }
    ensures out_later { K.faults out.old ≤ K.faults out.new }
    ensures steps { AreSteps (asked_by request.now) (D.holds desk.old) steps.old steps.new }
{
    let flight = match runs_asked(alloc, request, desk, steps) {
        Ok(flight) => flight,
        Err(ending) => return ending,
    };
    let leap = flight.leap;
    let Ok(text) = print_runs(alloc, request, &flight.runs, leap) else {
        return Ending {
            status: Status::Memory,
            leap,
        };
    };
    let status = match write_all_counted(out, &text) {
        Ok(()) => Status::Done,
        Err(_) => Status::WriteFault,
    };
    Ending { status, leap }
}
