// The top call: the words of a file of notices, and all other words.
ghost use Rattle.std.specs.Prelude.{◌≡◌, ◌≢◌, ◌≤◌, ◌↔◌, ℕ, List, map, MatchOption, IfSome};
ghost use Rattle.std.specs.Io.KnownBytes.{Appends};
ghost use Rattle.std.specs.String.{string_bytes};
ghost use Rattle.raim_model.specs.declared.FileNo.{FileNo};
ghost use Rattle.raim_base.specs.Causes.{Rose, GrowsByFront};
ghost use Rattle.raim_base.specs.Desks.{KeepsOthers};
ghost use Rattle.raim_base.specs.Calls.{MakesCalls};
ghost use Rattle.notice_book.specs.Gains.{IsKept, Gains};
ghost use Rattle.notice_book.specs.Commands.{command_of};
ghost use Rattle.notice_book.specs.Asking.{AsksList, AsksNotice};
ghost use Rattle.notice_book.specs.RunCauses.{WorkCause};
ghost use Rattle.notice_book.specs.Statuses.{IsDoneOrRefused};
ghost use Rattle.notice_command.specs.FileWords.{file_of};
ghost use Rattle.notice_command.specs.FileCauses.{FileCause};
ghost use Rattle.notice_command.specs.Accepted.{accepted_by, GainsAccepted};
ghost use Rattle.notice_command.specs.RunFacts.{HaveNoForm, IsPlainAnd, AcceptsFile, RefusesFile};
ghost use Rattle.notice_command.specs.Calls.{RunCalls, RunStarts};
ghost use Rattle.notice_command.specs.Notes.{note_of};

use crate::NanuStatus;
use crate::file::take_file;
use crate::note::nanu_note;
use crate::words::read_file_words;
use notice_book::{Keeper, NoticeStatus, notice_run};
use raim_base::{Desk, Sink, write_all_counted};
use raim_model::FileNo;
use std::alloc::Global;

/// Reads the words, and does what they ask of a book: `notice BOOK file PATH` accepts the notices of a
/// file in their order, and all other words are those of `notice_run`.
pub fn nanu_run<Q: Keeper, D: Desk, K: Sink>(
    alloc: Global,
    words: &[String],
    keeper: &mut Q,
    desk: &mut D,
    out: &mut K,
    note: &mut K,
) -> NanuStatus
    requires { IfSome (Q.tables keeper.old) IsKept }

    // The words have no form, and then the keeper is not called.
    ensures usage { (result ≡ NanuStatus.Plain NoticeStatus.Usage) ↔ HaveNoForm (map string_bytes words.now) }
    ensures uncalled { result ≡ NanuStatus.Plain NoticeStatus.Usage → Q.faults keeper.new ≡ Q.faults keeper.old }

    // The calls on the desk: a file is named once and read, and other words make none.
    ensures calls { MakesCalls (D.calls desk.old) (D.calls desk.new) (RunCalls (file_of (map string_bytes words.now)) result) }
    // The keeper is started once, from the book of the words, of a file only where it says notices.
    ensures started { RunStarts (file_of (map string_bytes words.now)) (command_of (map string_bytes words.now)) result (Q.started keeper.old) (Q.started keeper.new) }

    // What each status says: of a file, of what its path holds and of the notices that it says; of a command
    // of the book, of the work that is asked.
    ensures file { IfSome (file_of (map string_bytes words.now)) (λ file.
        FileCause (D.holds desk.old file.1) (D.faults desk.old FileNo.Outages) (D.faults desk.new FileNo.Outages)
        (Q.tables keeper.new) (Q.faults keeper.old) (Q.faults keeper.new) result) }
    ensures cause { IfSome (command_of (map string_bytes words.now)) (λ asked. IsPlainAnd result
        (WorkCause (Q.tables keeper.old) (Q.tables keeper.new) (Q.faults keeper.old) (Q.faults keeper.new)
        (K.contents out.old) (K.contents out.new) (K.faults out.old) (K.faults out.new) asked.work)) }

    // The held notices gained exactly those that this call accepted, in their order.
    ensures held { MatchOption (file_of (map string_bytes words.now))
        (Gains (Q.tables keeper.old) (accepted_by (command_of (map string_bytes words.now)) result) (Q.tables keeper.new))
        (λ file. GainsAccepted (D.holds desk.old file.1) result (Q.tables keeper.old) (Q.tables keeper.new)) }
    // They are a book again, and the entries are what is in effect after them.
    ensures again { IfSome (Q.tables keeper.new) IsKept }

    ensures read { IfSome (command_of (map string_bytes words.now)) (λ asked. AsksList asked → Q.tables keeper.new ≡ Q.tables keeper.old) }
    ensures unchanged { result ≢ NanuStatus.Plain NoticeStatus.Done → result ≢ NanuStatus.Plain NoticeStatus.WriteFault →
        (K.contents out.new ≡ K.contents out.old) × (K.faults out.new ≡ K.faults out.old) }
    ensures quiet { IfSome (file_of (map string_bytes words.now)) (λ file. (K.contents out.new ≡ K.contents out.old) × (K.faults out.new ≡ K.faults out.old)) }
    ensures quiet_command { IfSome (command_of (map string_bytes words.now)) (λ asked. AsksNotice asked →
        (K.contents out.new ≡ K.contents out.old) × (K.faults out.new ≡ K.faults out.old)) }

    // The other direction: the bytes of a file settle the status, and a command is done or refused, where no
    // count rose, but for want of memory.
    ensures accepts { IfSome (file_of (map string_bytes words.now)) (λ file.
        AcceptsFile (D.holds desk.old file.1) (D.faults desk.old FileNo.Outages) (D.faults desk.new FileNo.Outages) (Q.faults keeper.old) (Q.faults keeper.new) result) }
    ensures refuses { IfSome (file_of (map string_bytes words.now)) (λ file.
        RefusesFile (D.holds desk.old file.1) (D.faults desk.old FileNo.Outages) (D.faults desk.new FileNo.Outages) result) }
    ensures complete { IfSome (command_of (map string_bytes words.now)) (λ asked.
        (Rose (Q.faults keeper.old) (Q.faults keeper.new) → ⊥) → (Rose (K.faults out.old) (K.faults out.new) → ⊥) → IsPlainAnd result IsDoneOrRefused) }

    // The note gains a front of its status's line, and all of it where its count did not rise.
    ensures note { GrowsByFront (K.contents note.old) (K.contents note.new) (note_of result) }
    ensures note_whole { (Rose (K.faults note.old) (K.faults note.new) → ⊥) →
        Appends (K.contents note.old) (K.contents note.new) (note_of result) }

    ensures holds { (p : List ℕ) → D.holds desk.new p ≡ D.holds desk.old p }
    ensures others { KeepsOthers (D.left desk.old) (D.left desk.new) (D.faults desk.old) (D.faults desk.new) FileNo.Outages }
    ensures later { (Q.faults keeper.old ≤ Q.faults keeper.new) × (D.faults desk.old FileNo.Outages ≤ D.faults desk.new FileNo.Outages)
        × (K.faults out.old ≤ K.faults out.new) × (K.faults note.old ≤ K.faults note.new) }
{
    let Some((book, path)) = read_file_words(words) else {
        return NanuStatus::Plain(notice_run(alloc, words, keeper, out, note));
    };
    let status = take_file(alloc, book, path, keeper, desk);
    let _ = write_all_counted(note, nanu_note(status).as_str().as_bytes());
    status
}
