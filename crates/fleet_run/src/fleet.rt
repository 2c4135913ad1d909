// The call over a fleet.
ghost use Rattle.std.specs.Prelude.{◌≡◌, ◌≢◌, ◌≤◌, ◌↔◌, ◌⊎◌, ℕ, ℤ, List, None, Some, map, MatchOption, IsSomeAnd};
ghost use Rattle.std.specs.String.{string_bytes};
ghost use Rattle.std.specs.Io.KnownBytes.{Appends};
ghost use Rattle.raim_model.specs.declared.FileNo.{FileNo};
ghost use Rattle.raim_model.specs.declared.TextWhy.{TextWhy};
ghost use Rattle.raim_base.specs.Causes.{Rose, GrowsByFront};
ghost use Rattle.raim_base.specs.MemDeskState.{Each};
ghost use Rattle.flight_files.specs.Paths.{paths_of};
ghost use Rattle.fleet_run.specs.Causes.{FleetCause, OfFleet, IsWholeWritten, IsCutOff, AreBlocksWritten, IsRefused};
ghost use Rattle.fleet_run.specs.Files.{IsFaulty};
ghost use Rattle.fleet_run.specs.Notes.{fleet_note};
ghost use Rattle.fleet_run.specs.Settled.{Settles, Completes};
ghost use Rattle.fleet_run.specs.Steps.{FleetSteps};
ghost use Rattle.fleet_run.specs.Words.{paths_in};

use crate::files::{read_fleet, texts_in};
use crate::note::write_note;
use crate::words::read_words;
use crate::writing::write_blocks;
use fleet_text::excess_separator;
use flight_files::FlightPaths;
use raim_base::{Desk, Sink};
use raim_model::{FileNo, TextWhy};
use raim_run::Status;
use std::alloc::Global;
use std::sync::ledger::Ledger;
use step_counter::Steps;

// Reads the four files, and writes the fleet's text.
fn answer_paths<D: Desk, K: Sink, L: Ledger>(
    alloc: Global,
    paths: &FlightPaths,
    desk: &mut D,
    out: &mut K,
    steps: &mut Steps<L>,
) -> Status
    ensures cause { FleetCause (D.holds desk.old) (paths_of paths.now) (D.faults desk.old) (D.faults desk.new) (K.contents out.old) (K.contents out.new) (K.faults out.old) (K.faults out.new) result }
    ensures unchanged { result ≢ Status.Done → result ≢ Status.WriteFault → result ≢ Status.Memory → (K.contents out.new ≡ K.contents out.old) × (K.faults out.new ≡ K.faults out.old) }
    ensures holds { (p : List ℕ) → D.holds desk.new p ≡ D.holds desk.old p }
    ensures later { (file : FileNo) → D.faults desk.old file ≤ D.faults desk.new file }
    ensures out_later { K.faults out.old ≤ K.faults out.new }
    ensures steps { FleetSteps (D.holds desk.old) (paths_of paths.now) steps.old steps.new }
{
    let files = match read_fleet(alloc, desk, paths) {
        Ok(files) => files,
        Err(status) => return status,
    };
    let texts = texts_in(&files);
    if let Some(line) = excess_separator(texts.routes) {
        return Status::Refused {
            file: FileNo::Route,
            line,
            why: TextWhy::TooMany,
        };
    }
    write_blocks(alloc, texts, out, steps)
}

// Reads the words, and writes the text of the fleet that they name.
fn answer_words<D: Desk, K: Sink, L: Ledger>(
    alloc: Global,
    words: &[String],
    desk: &mut D,
    out: &mut K,
    steps: &mut Steps<L>,
) -> Status
    ensures cause { MatchOption (paths_in (map string_bytes words.now)) (result ≡ Status.Usage)
        (λ paths. FleetCause (D.holds desk.old) paths (D.faults desk.old) (D.faults desk.new) (K.contents out.old) (K.contents out.new) (K.faults out.old) (K.faults out.new) result) }
    ensures unchanged { result ≢ Status.Done → result ≢ Status.WriteFault → result ≢ Status.Memory → (K.contents out.new ≡ K.contents out.old) × (K.faults out.new ≡ K.faults out.old) }
    ensures holds { (p : List ℕ) → D.holds desk.new p ≡ D.holds desk.old p }
    ensures later { (file : FileNo) → D.faults desk.old file ≤ D.faults desk.new file }
    ensures out_later { K.faults out.old ≤ K.faults out.new }
    ensures steps { MatchOption (paths_in (map string_bytes words.now)) (steps.new ≡ steps.old) (λ paths. FleetSteps (D.holds desk.old) paths steps.old steps.new) }
{
    match read_words(words) {
        None => Status::Usage,
        Some(paths) => answer_paths(alloc, &paths, desk, out, steps),
    }
}

/// Predicts a fleet: reads limits, routes, outages and almanac whole, in this order, and writes a block for each route,
/// one after another: `route k`, and what a prediction says of the limits, almanac, outages and route k.
///
/// The words are those of the process, the program's name first: `raim_fleet LIMITS ALMANAC OUTAGES ROUTES`. The routes
/// are 1 to 64, and lines `---` part them. Every status but `Done` writes one line to `note`, whose faults change
/// nothing. A step is a judgement of a piece of a flight.
///
/// What the clauses say of the files' bytes they say where the desk tells them.
pub fn run_fleet<D: Desk, K: Sink, L: Ledger>(
    alloc: Global,
    words: &[String],
    desk: &mut D,
    out: &mut K,
    note: &mut K,
    steps: &mut Steps<L>,
) -> Status
    // There are not five words, exactly.
    ensures usage { (result ≡ Status.Usage) ↔ (paths_in (map string_bytes words.now) ≡ None) }

    // The text that was written is the fleet's: a block for each route, which says what its own prediction says.
    ensures done { result ≡ Status.Done → IsSomeAnd (paths_in (map string_bytes words.now)) (λ paths.
        OfFleet (D.holds desk.old) paths (λ texts. IsWholeWritten texts (K.contents out.old) (K.contents out.new))) }
    // A front of blocks of the first routes was written; whole blocks of the first routes, where there was no more memory.
    ensures write_fault { result ≡ Status.WriteFault → IsSomeAnd (paths_in (map string_bytes words.now)) (λ paths.
        OfFleet (D.holds desk.old) paths (λ texts. IsCutOff texts (K.contents out.old) (K.contents out.new) (K.faults out.old) (K.faults out.new))) }
    ensures memory { result ≡ Status.Memory → IsSomeAnd (paths_in (map string_bytes words.now)) (λ paths.
        (K.contents out.new ≡ K.contents out.old) ⊎ OfFleet (D.holds desk.old) paths (λ texts. AreBlocksWritten texts (K.contents out.old) (K.contents out.new))) }

    // Why there is no block: a file has too many bytes, or there is a route too many; a read failed.
    ensures refused { (file : FileNo) (line : ℕ) (why : TextWhy) → result ≡ Status.Refused file line why →
        IsSomeAnd (paths_in (map string_bytes words.now)) (λ paths. IsRefused (D.holds desk.old) paths file line why) }
    ensures read_fault { (file : FileNo) → result ≡ Status.ReadFault file →
        IsSomeAnd (paths_in (map string_bytes words.now)) (λ paths. IsFaulty (D.holds desk.old) paths (D.faults desk.old) (D.faults desk.new) file) }
    // What the flight of a route is settles no status.
    ensures no_overflow { (at : ℤ) (prn : ℕ) → result ≢ Status.Overflow at prn }
    ensures no_too_many { result ≢ Status.TooManyRuns }

    // The other direction: the bytes settle the status, but for want of memory and faults that were counted.
    ensures settled { (paths : Each (List ℕ)) → paths_in (map string_bytes words.now) ≡ Some paths → Settles (D.holds desk.old) paths result }
    ensures complete { (paths : Each (List ℕ)) → paths_in (map string_bytes words.now) ≡ Some paths →
        Completes (D.holds desk.old) paths (D.faults desk.old) (D.faults desk.new) (K.faults out.old) (K.faults out.new) result }

    ensures unchanged { result ≢ Status.Done → result ≢ Status.WriteFault → result ≢ Status.Memory →
        (K.contents out.new ≡ K.contents out.old) × (K.faults out.new ≡ K.faults out.old) }

    // The note gains a front of its status's line, and all of it where its count did not rise.
    ensures note { GrowsByFront (K.contents note.old) (K.contents note.new) (fleet_note result) }
    ensures note_whole { (Rose (K.faults note.old) (K.faults note.new) → ⊥) → Appends (K.contents note.old) (K.contents note.new) (fleet_note result) }

    ensures holds { (p : List ℕ) → D.holds desk.new p ≡ D.holds desk.old p }
    ensures later { ((file : FileNo) → D.faults desk.old file ≤ D.faults desk.new file)
        × (K.faults out.old ≤ K.faults out.new) × (K.faults note.old ≤ K.faults note.new) }

    // No more judgements than the predictions of the routes, each for itself.
    ensures steps { MatchOption (paths_in (map string_bytes words.now)) (steps.new ≡ steps.old) (λ paths. FleetSteps (D.holds desk.old) paths steps.old steps.new) }
{
    let status = answer_words(alloc, words, desk, out, steps);
    write_note(note, status);
    status
}
