// The call.
ghost use Rattle.std.specs.Prelude.{◌≡◌, ◌≢◌, ◌≤◌, ◌↔◌, ℕ, List, None, Some, map, MatchOption, IsSomeAnd};
ghost use Rattle.std.specs.String.{string_bytes};
ghost use Rattle.std.specs.Io.KnownBytes.{Appends};
ghost use Rattle.raim_model.specs.declared.FileNo.{FileNo};
ghost use Rattle.raim_model.specs.declared.TextWhy.{TextWhy};
ghost use Rattle.raim_base.specs.Causes.{Rose, GrowsByFront};
ghost use Rattle.raim_base.specs.Calls.{MakesCalls};
ghost use Rattle.raim_base.specs.Desks.{KeepsOthers};
ghost use Rattle.chart_run.specs.Causes.{ChartCause, TextCause, WritingEnds, OfReport, IsWholeWritten, IsCutOff, IsRefused};
ghost use Rattle.chart_run.specs.Files.{MakesReads};
ghost use Rattle.chart_run.specs.Notes.{note_of};
ghost use Rattle.chart_run.specs.Settled.{Settles, Completes};
ghost use Rattle.chart_run.specs.Words.{path_in};

use crate::ChartStatus;
use crate::file::read_file;
use crate::note::write_note;
use crate::page::page_of;
use crate::words::read_words;
use raim_base::{Desk, Sink, write_all_counted};
use std::alloc::Global;

// Writes a page that is whole.
fn write_page<K: Sink>(out: &mut K, page: &[u8]) -> ChartStatus
    ensures cause { WritingEnds page.now (K.contents out.old) (K.contents out.new) (K.faults out.old) (K.faults out.new) result }
    ensures later { K.faults out.old ≤ K.faults out.new }
{
    match write_all_counted(out, page) {
        Ok(()) => ChartStatus::Done,
        Err(_) => ChartStatus::WriteFault,
    }
}

// Makes the page of a text, and then writes it.
fn answer_text<K: Sink>(alloc: Global, text: &[u8], out: &mut K) -> ChartStatus
    ensures cause { TextCause text.now (K.contents out.old) (K.contents out.new) (K.faults out.old) (K.faults out.new) result }
    ensures later { K.faults out.old ≤ K.faults out.new }
{
    match page_of(alloc, text) {
        Ok(page) => write_page(out, &page),
        Err(status) => status,
    }
}

// Reads the file of a path, and writes its page.
fn answer_path<D: Desk, K: Sink>(
    alloc: Global,
    path: &str,
    desk: &mut D,
    out: &mut K,
) -> ChartStatus
    ensures cause { ChartCause (D.holds desk.old path.now) (D.faults desk.old FileNo.Route) (D.faults desk.new FileNo.Route)
        (K.contents out.old) (K.contents out.new) (K.faults out.old) (K.faults out.new) result }
    ensures holds { (p : List ℕ) → D.holds desk.new p ≡ D.holds desk.old p }
    ensures later { D.faults desk.old FileNo.Route ≤ D.faults desk.new FileNo.Route }
    ensures out_later { K.faults out.old ≤ K.faults out.new }
    ensures others { KeepsOthers (D.left desk.old) (D.left desk.new) (D.faults desk.old) (D.faults desk.new) FileNo.Route }
    ensures calls { MakesCalls (D.calls desk.old) (D.calls desk.new) (MakesReads path.now result) }
{
    match read_file(alloc, desk, path) {
        Ok(text) => answer_text(alloc, &text, out),
        Err(status) => status,
    }
}

// Reads the words, and writes the page of the file that they name.
fn answer_words<D: Desk, K: Sink>(
    alloc: Global,
    words: &[String],
    desk: &mut D,
    out: &mut K,
) -> ChartStatus
    ensures cause { MatchOption (path_in (map string_bytes words.now)) (result ≡ ChartStatus.Usage)
        (λ path. ChartCause (D.holds desk.old path) (D.faults desk.old FileNo.Route) (D.faults desk.new FileNo.Route)
        (K.contents out.old) (K.contents out.new) (K.faults out.old) (K.faults out.new) result) }
    ensures unnamed { path_in (map string_bytes words.now) ≡ None → (K.contents out.new ≡ K.contents out.old) × (K.faults out.new ≡ K.faults out.old) }
    ensures holds { (p : List ℕ) → D.holds desk.new p ≡ D.holds desk.old p }
    ensures later { D.faults desk.old FileNo.Route ≤ D.faults desk.new FileNo.Route }
    ensures out_later { K.faults out.old ≤ K.faults out.new }
    ensures others { KeepsOthers (D.left desk.old) (D.left desk.new) (D.faults desk.old) (D.faults desk.new) FileNo.Route }
    ensures calls { MatchOption (path_in (map string_bytes words.now)) (D.calls desk.new ≡ D.calls desk.old)
        (λ path. MakesCalls (D.calls desk.old) (D.calls desk.new) (MakesReads path result)) }
{
    match read_words(words) {
        None => ChartStatus::Usage,
        Some(path) => answer_path(alloc, path, desk, out),
    }
}

/// Writes the page of a report or of the text of a fleet. The words are the program's name and the path of the file, which
/// is read whole from the desk's place of the route, and no more than eight mebibytes. The page is whole before its
/// first byte is written. The line of a status that is not `Done` goes to the note.
pub fn run_chart<D: Desk, K: Sink>(
    alloc: Global,
    words: &[String],
    desk: &mut D,
    out: &mut K,
    note: &mut K,
) -> ChartStatus
    // There are not two words, exactly.
    ensures usage { (result ≡ ChartStatus.Usage) ↔ (path_in (map string_bytes words.now) ≡ None) }

    // The page of what the file says was written, whole or, where a write failed, a front of it.
    ensures done { result ≡ ChartStatus.Done → IsSomeAnd (path_in (map string_bytes words.now)) (λ path.
        OfReport (D.holds desk.old path) (λ page. IsWholeWritten page (K.contents out.old) (K.contents out.new))) }
    ensures write_fault { result ≡ ChartStatus.WriteFault → IsSomeAnd (path_in (map string_bytes words.now)) (λ path.
        OfReport (D.holds desk.old path) (λ page. IsCutOff page (K.contents out.old) (K.contents out.new) (K.faults out.old) (K.faults out.new))) }

    // Why there is no page: the file has too many bytes or is refused; a call on it failed.
    ensures refused { (line : ℕ) (why : TextWhy) → result ≡ ChartStatus.Refused line why →
        IsSomeAnd (path_in (map string_bytes words.now)) (λ path. IsRefused (D.holds desk.old path) line why) }
    ensures read_fault { result ≡ ChartStatus.ReadFault → Rose (D.faults desk.old FileNo.Route) (D.faults desk.new FileNo.Route) }

    // The other direction: the bytes settle the status, but for want of memory and faults that were counted.
    ensures settled { (path : List ℕ) → path_in (map string_bytes words.now) ≡ Some path → Settles (D.holds desk.old path) result }
    ensures complete { (path : List ℕ) → path_in (map string_bytes words.now) ≡ Some path →
        Completes (D.holds desk.old path) (D.faults desk.old FileNo.Route) (D.faults desk.new FileNo.Route) (K.faults out.old) (K.faults out.new) result }

    ensures unchanged { result ≢ ChartStatus.Done → result ≢ ChartStatus.WriteFault →
        (K.contents out.new ≡ K.contents out.old) × (K.faults out.new ≡ K.faults out.old) }

    // The note gains a front of its status's line, and all of it where its count did not rise.
    ensures note { GrowsByFront (K.contents note.old) (K.contents note.new) (note_of result) }
    ensures note_whole { (Rose (K.faults note.old) (K.faults note.new) → ⊥) → Appends (K.contents note.old) (K.contents note.new) (note_of result) }

    ensures holds { (p : List ℕ) → D.holds desk.new p ≡ D.holds desk.old p }
    ensures others { KeepsOthers (D.left desk.old) (D.left desk.new) (D.faults desk.old) (D.faults desk.new) FileNo.Route }
    ensures later { (D.faults desk.old FileNo.Route ≤ D.faults desk.new FileNo.Route)
        × (K.faults out.old ≤ K.faults out.new) × (K.faults note.old ≤ K.faults note.new) }

    // The file is named once and read to its end, or up to the call that fails or the byte that is too many.
    ensures calls { MatchOption (path_in (map string_bytes words.now)) (D.calls desk.new ≡ D.calls desk.old)
        (λ path. MakesCalls (D.calls desk.old) (D.calls desk.new) (MakesReads path result)) }
{
    let status = answer_words(alloc, words, desk, out);
    write_note(note, status);
    status
}
