// The top call where nothing fails.
ghost use Rattle.std.specs.Prelude.{◌≡◌, ◌≢◌, Some, None, map, IsSomeAnd};
ghost use Rattle.std.specs.String.{string_bytes};
ghost use Rattle.raim_model.specs.declared.FileNo.{FileNo};
ghost use Rattle.raim_base.specs.SureDeskState.{sure_text_under};
ghost use Rattle.command_words.specs.Asked.{Asked, asked_of};
ghost use Rattle.raim_run.specs.Causes.{IsWritten};
ghost use Rattle.raim_run.specs.Settled.{Settles};

use crate::{Status, run};
use raim_base::{SureDesk, SureSink};
use std::alloc::Global;
use std::sync::ledger::Ledger;
use step_counter::Steps;

/// `run` over a desk and sinks that never fail: as a fault is answered only where a count rose, none is.
pub fn run_surely<L: Ledger>(
    alloc: Global,
    words: &[String],
    desk: &mut SureDesk,
    out: &mut SureSink,
    note: &mut SureSink,
    steps: &mut Steps<L>,
) -> Status
    // the four texts are accepted, and there is a text that says what is so; a sure sink tells no bytes
    ensures done { result ≡ Status.Done → IsSomeAnd (asked_of (map string_bytes words.now)) (λ asked.
        IsWritten asked (λ path. Some (sure_text_under desk.old path)) None None) }
    ensures settled { (asked : Asked) → asked_of (map string_bytes words.now) ≡ Some asked → Settles asked (λ path. Some (sure_text_under desk.old path)) result }
    ensures no_read_fault { (file : FileNo) → result ≢ Status.ReadFault file }
    ensures no_write_fault { result ≢ Status.WriteFault }
{
    run(alloc, words, desk, out, note, steps)
}
