// From the words to the status.
ghost use Rattle.std.specs.Prelude.{◌≡◌, ◌≢◌, ◌≤◌, ◌↔◌, map, MatchOption, IfSome};
ghost use Rattle.std.specs.Io.KnownBytes.{Appends};
ghost use Rattle.std.specs.String.{string_bytes};
ghost use Rattle.raim_base.specs.Causes.{Rose, GrowsByFront};
ghost use Rattle.notice_model.specs.declared.notice.Notice.{Notice};
ghost use Rattle.notice_book.specs.Gains.{IsKept};
ghost use Rattle.notice_book.specs.Commands.{command_of, asked_by, Asked};
ghost use Rattle.notice_book.specs.Starts.{started_with};
ghost use Rattle.notice_book.specs.Asking.{started_by};
ghost use Rattle.notice_book.specs.RunCauses.{NoticeCause, ListCause, WorkCause};
ghost use Rattle.notice_book.specs.Notes.{note_of};
ghost use Rattle.notice_book.specs.Statuses.{status_for, IsDoneOrRefused};

use crate::accept::apply;
use crate::command::{Command, Work, read_command};
use crate::note::note_line;
use crate::outages::{gps_outages, outages_now};
use crate::{BookFault, KeepFault, Keeper, NoticeStatus};
use notice_model::Notice;
use outage_notice::print_outages;
use raim_base::{Sink, write_all_counted};
use std::alloc::Global;

// The status of a notice that is not accepted.
fn status_of(why: BookFault) -> NoticeStatus
    ensures { result ≡ status_for why }
{
    match why {
        BookFault::KeeperFault => NoticeStatus::KeeperFault,
        BookFault::Memory => NoticeStatus::Memory,
        _ => NoticeStatus::Refused { why },
    }
}

// Applies a notice. Of the output it says nothing.
fn accept<Q: Keeper>(keeper: &mut Q, notice: &Notice) -> NoticeStatus
    requires { IfSome (Q.tables keeper.old) IsKept }
    ensures cause { NoticeCause (Q.tables keeper.old) (Q.tables keeper.new) (Q.faults keeper.old) (Q.faults keeper.new) notice.now result }
    ensures unchanged { result ≢ NoticeStatus.Done → Q.tables keeper.new ≡ Q.tables keeper.old }
    ensures again { IfSome (Q.tables keeper.new) IsKept }
    ensures started { Q.started keeper.new ≡ Q.started keeper.old }
    ensures later { Q.faults keeper.old ≤ Q.faults keeper.new }
{
    match apply(keeper, notice) {
        Ok(()) => NoticeStatus::Done,
        Err(why) => status_of(why),
    }
}

// Writes what is in effect.
fn list<Q: Keeper, K: Sink>(alloc: Global, keeper: &mut Q, out: &mut K) -> NoticeStatus
    requires { IfSome (Q.tables keeper.old) IsKept }
    ensures cause { ListCause (Q.tables keeper.old) (Q.tables keeper.new) (Q.faults keeper.old) (Q.faults keeper.new)
        (K.contents out.old) (K.contents out.new) (K.faults out.old) (K.faults out.new) result }
    ensures same { Q.tables keeper.new ≡ Q.tables keeper.old }
    ensures unchanged { result ≢ NoticeStatus.Done → result ≢ NoticeStatus.WriteFault → (K.contents out.new ≡ K.contents out.old) × (K.faults out.new ≡ K.faults out.old) }
    ensures started { Q.started keeper.new ≡ Q.started keeper.old }
    ensures later { (Q.faults keeper.old ≤ Q.faults keeper.new) × (K.faults out.old ≤ K.faults out.new) }
{
    let outages = match outages_now(alloc, keeper) {
        Ok(outages) => outages,
        Err(why) => return status_of(why),
    };
    let Ok(outages) = gps_outages(alloc, &outages) else {
        return NoticeStatus::Memory;
    };
    let Ok(text) = print_outages(alloc, &outages, 0) else {
        return NoticeStatus::Memory;
    };
    match write_all_counted(out, &text) {
        Ok(()) => NoticeStatus::Done,
        Err(_) => NoticeStatus::WriteFault,
    }
}

// Makes the keeper ready, and does the work.
fn work<Q: Keeper, K: Sink>(
    alloc: Global,
    command: &Command<'_>,
    keeper: &mut Q,
    out: &mut K,
) -> NoticeStatus
    requires { IfSome (Q.tables keeper.old) IsKept }
    ensures cause { WorkCause (Q.tables keeper.old) (Q.tables keeper.new) (Q.faults keeper.old) (Q.faults keeper.new)
        (K.contents out.old) (K.contents out.new) (K.faults out.old) (K.faults out.new) command.now.work result }
    ensures kept { result ≢ NoticeStatus.Done → Q.tables keeper.new ≡ Q.tables keeper.old }
    ensures again { IfSome (Q.tables keeper.new) IsKept }
    ensures read { command.now.work ≡ Work.List → Q.tables keeper.new ≡ Q.tables keeper.old }
    ensures unchanged { result ≢ NoticeStatus.Done → result ≢ NoticeStatus.WriteFault → (K.contents out.new ≡ K.contents out.old) × (K.faults out.new ≡ K.faults out.old) }
    ensures quiet { (notice : Notice) → command.now.work ≡ Work.Apply notice → (K.contents out.new ≡ K.contents out.old) × (K.faults out.new ≡ K.faults out.old) }
    ensures started { Q.started keeper.new ≡ started_with command.now.book.now (Q.started keeper.old) }
    ensures later { (Q.faults keeper.old ≤ Q.faults keeper.new) × (K.faults out.old ≤ K.faults out.new) }
{
    match keeper.start(command.book) {
        Ok(()) => {}
        Err(KeepFault::Failed) => return NoticeStatus::KeeperFault,
        Err(KeepFault::NotOpened { why }) => return NoticeStatus::NotOpened { why },
        Err(KeepFault::Memory) => return NoticeStatus::Memory,
    }
    match command.work {
        Work::List => list(alloc, keeper, out),
        Work::Apply(notice) => accept(keeper, &notice),
    }
}

// Reads the words, and does what they ask.
fn answer<Q: Keeper, K: Sink>(
    alloc: Global,
    words: &[String],
    keeper: &mut Q,
    out: &mut K,
) -> NoticeStatus
    requires { IfSome (Q.tables keeper.old) IsKept }
    ensures cause { MatchOption (command_of (map string_bytes words.now))
        ((result ≡ NoticeStatus.Usage) × (Q.faults keeper.new ≡ Q.faults keeper.old))
        (λ asked. WorkCause (Q.tables keeper.old) (Q.tables keeper.new) (Q.faults keeper.old) (Q.faults keeper.new)
        (K.contents out.old) (K.contents out.new) (K.faults out.old) (K.faults out.new) asked.work result) }
    ensures kept { result ≢ NoticeStatus.Done → Q.tables keeper.new ≡ Q.tables keeper.old }
    ensures again { IfSome (Q.tables keeper.new) IsKept }
    ensures read { IfSome (command_of (map string_bytes words.now)) (λ asked. asked.work ≡ Work.List → Q.tables keeper.new ≡ Q.tables keeper.old) }
    ensures unchanged { result ≢ NoticeStatus.Done → result ≢ NoticeStatus.WriteFault → (K.contents out.new ≡ K.contents out.old) × (K.faults out.new ≡ K.faults out.old) }
    ensures quiet { IfSome (command_of (map string_bytes words.now)) (λ asked. (notice : Notice) → asked.work ≡ Work.Apply notice → (K.contents out.new ≡ K.contents out.old) × (K.faults out.new ≡ K.faults out.old)) }
    ensures started { Q.started keeper.new ≡ started_by (command_of (map string_bytes words.now)) (Q.started keeper.old) }
    ensures later { (Q.faults keeper.old ≤ Q.faults keeper.new) × (K.faults out.old ≤ K.faults out.new) }
{
    match read_command(words) {
        None => NoticeStatus::Usage,
        Some(command) => work(alloc, &command, keeper, out),
    }
}

/// Reads the words, and does what they ask of a book.
///
/// The words are those of the process, the program's name first: `notice BOOK add NUMBER PRN START END`,
/// `notice BOOK move NUMBER TARGET START END`, `notice BOOK cancel NUMBER TARGET` and `notice BOOK list`.
/// Times are those of UTC, and END `-` is no end. `list` writes the outages in effect to `out`; the others
/// write nothing there. Every status but `Done` writes one line to `note`, whose faults change nothing.
pub fn notice_run<Q: Keeper, K: Sink>(
    alloc: Global,
    words: &[String],
    keeper: &mut Q,
    out: &mut K,
    note: &mut K,
) -> NoticeStatus
    requires { IfSome (Q.tables keeper.old) IsKept }

    // The words have no form, and then the keeper is not called.
    ensures usage { (result ≡ NoticeStatus.Usage) ↔ (command_of (map string_bytes words.now) ≡ None) }
    ensures uncalled { result ≡ NoticeStatus.Usage → Q.faults keeper.new ≡ Q.faults keeper.old }

    // It is started once, from the book that the words name; of words that have no form it is not.
    ensures started { Q.started keeper.new ≡ started_by (command_of (map string_bytes words.now)) (Q.started keeper.old) }

    // What each other status says of the work that the words ask.
    ensures cause { IfSome (command_of (map string_bytes words.now)) (λ asked.
        WorkCause (Q.tables keeper.old) (Q.tables keeper.new) (Q.faults keeper.old) (Q.faults keeper.new)
        (K.contents out.old) (K.contents out.new) (K.faults out.old) (K.faults out.new) asked.work result) }

    ensures kept { result ≢ NoticeStatus.Done → Q.tables keeper.new ≡ Q.tables keeper.old }
    ensures again { IfSome (Q.tables keeper.new) IsKept }
    ensures read { IfSome (command_of (map string_bytes words.now)) (λ asked. asked.work ≡ Work.List → Q.tables keeper.new ≡ Q.tables keeper.old) }
    ensures unchanged { result ≢ NoticeStatus.Done → result ≢ NoticeStatus.WriteFault → (K.contents out.new ≡ K.contents out.old) × (K.faults out.new ≡ K.faults out.old) }
    ensures quiet { IfSome (command_of (map string_bytes words.now)) (λ asked. (notice : Notice) → asked.work ≡ Work.Apply notice →
        (K.contents out.new ≡ K.contents out.old) × (K.faults out.new ≡ K.faults out.old)) }

    // The note gains a front of its status's line, and all of it where its count did not rise.
    ensures note { GrowsByFront (K.contents note.old) (K.contents note.new) (note_of result) }
    ensures note_whole { (Rose (K.faults note.old) (K.faults note.new) → ⊥) →
        Appends (K.contents note.old) (K.contents note.new) (note_of result) }

    // Where no count rose, words of a form are done or refused, but for want of memory.
    ensures complete { IfSome (command_of (map string_bytes words.now)) (λ asked.
        (Rose (Q.faults keeper.old) (Q.faults keeper.new) → ⊥) → (Rose (K.faults out.old) (K.faults out.new) → ⊥) → IsDoneOrRefused result) }

    ensures later { (Q.faults keeper.old ≤ Q.faults keeper.new) × (K.faults out.old ≤ K.faults out.new) × (K.faults note.old ≤ K.faults note.new) }
{
    let status = answer(alloc, words, keeper, out);
    let _ = write_all_counted(note, note_line(status).as_str().as_bytes());
    status
}
