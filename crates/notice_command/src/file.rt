// The notices of a file.
ghost use Rattle.std.specs.Prelude.{◌≡◌, ◌≤◌, ◌<◌, ◌^◌, ℕ, List, length, All, IfOk, IfErr, IfSome};
ghost use Rattle.raim_model.specs.declared.FileNo.{FileNo};
ghost use Rattle.raim_base.specs.Desks.{KeepsOthers};
ghost use Rattle.raim_base.specs.Calls.{MakesCalls};
ghost use Rattle.notice_model.specs.Notices.{IsWellFormed};
ghost use Rattle.notice_book.specs.Gains.{IsKept};
ghost use Rattle.notice_command.specs.FileCauses.{Says, ReadCause, FileCause};
ghost use Rattle.notice_command.specs.Calls.{ReadCalls, FileCalls, FileStarts};
ghost use Rattle.notice_command.specs.Accepted.{GainsAccepted};
ghost use Rattle.notice_command.specs.RunFacts.{AcceptsFile, RefusesFile};

use crate::status::{NanuStatus, status_of};
use nanu_text::read_nanus;
use notice_book::{KeepFault, Keeper, NoticeStatus, apply_all};
use notice_model::Notice;
use raim_base::{Desk, ReadStop, read_whole};
use raim_model::{FileNo, Refusal, TextWhy};
use std::alloc::Global;

// Reads the file under a path whole, and the notices that it says.
fn read_file<D: Desk>(alloc: Global, desk: &mut D, path: &str) -> Result<Vec<Notice>, NanuStatus>
    ensures accepted { IfOk result (λ v. IfSome (D.holds desk.old path.now) (Says v.items)) }
    ensures formed { IfOk result (λ v. All IsWellFormed v.items) }
    ensures few { IfOk result (λ v. length v.items < 2 ^ 32) }
    ensures cause { IfErr result (ReadCause (D.holds desk.old path.now) (D.faults desk.old FileNo.Outages) (D.faults desk.new FileNo.Outages)) }
    ensures calls { MakesCalls (D.calls desk.old) (D.calls desk.new) (ReadCalls path.now result) }
    ensures holds { (p : List ℕ) → D.holds desk.new p ≡ D.holds desk.old p }
    ensures later { D.faults desk.old FileNo.Outages ≤ D.faults desk.new FileNo.Outages }
    ensures others { KeepsOthers (D.left desk.old) (D.left desk.new) (D.faults desk.old) (D.faults desk.new) FileNo.Outages }
{
    let bytes = match read_whole(alloc, desk, FileNo::Outages, path) {
        Ok(bytes) => bytes,
        Err(ReadStop::Memory) => return Err(NanuStatus::Plain(NoticeStatus::Memory)),
        Err(ReadStop::Fault) => return Err(NanuStatus::ReadFault),
        Err(ReadStop::TooLong) => {
            let why = TextWhy::FileTooLong;
            return Err(NanuStatus::BadText { line: 0, why });
        }
    };
    match read_nanus(alloc, &bytes) {
        Ok(notices) => Ok(notices),
        Err(Refusal::Memory) => Err(NanuStatus::Plain(NoticeStatus::Memory)),
        Err(Refusal::Text(fault)) => {
            let line = fault.line;
            let why = fault.why;
            Err(NanuStatus::BadText { line, why })
        }
    }
}

// Reads the notices of a file, makes the keeper ready, and accepts them into its book.
fn take_notices<Q: Keeper, D: Desk>(
    alloc: Global,
    book: &str,
    path: &str,
    keeper: &mut Q,
    desk: &mut D,
) -> NanuStatus
    requires { IfSome (Q.tables keeper.old) IsKept }
    ensures cause { FileCause (D.holds desk.old path.now) (D.faults desk.old FileNo.Outages) (D.faults desk.new FileNo.Outages)
        (Q.tables keeper.new) (Q.faults keeper.old) (Q.faults keeper.new) result }
    ensures held { GainsAccepted (D.holds desk.old path.now) result (Q.tables keeper.old) (Q.tables keeper.new) }
    ensures again { IfSome (Q.tables keeper.new) IsKept }
    ensures calls { MakesCalls (D.calls desk.old) (D.calls desk.new) (FileCalls path.now result) }
    ensures started { FileStarts book.now result (Q.started keeper.old) (Q.started keeper.new) }
    ensures holds { (p : List ℕ) → D.holds desk.new p ≡ D.holds desk.old p }
    ensures others { KeepsOthers (D.left desk.old) (D.left desk.new) (D.faults desk.old) (D.faults desk.new) FileNo.Outages }
    ensures later { (Q.faults keeper.old ≤ Q.faults keeper.new) × (D.faults desk.old FileNo.Outages ≤ D.faults desk.new FileNo.Outages) }
{
    let notices = match read_file(alloc, desk, path) {
        Ok(notices) => notices,
        Err(status) => return status,
    };
    match keeper.start(book) {
        Ok(()) => {}
        Err(KeepFault::Failed) => return NanuStatus::Plain(NoticeStatus::KeeperFault),
        Err(KeepFault::NotOpened { why }) => {
            return NanuStatus::Plain(NoticeStatus::NotOpened { why });
        }
        Err(KeepFault::Memory) => return NanuStatus::Plain(NoticeStatus::Memory),
    }
    match apply_all(keeper, &notices) {
        Ok(()) => NanuStatus::Plain(NoticeStatus::Done),
        Err(stop) => status_of(stop),
    }
}

// Accepts the notices of a file into a book. What the path holds settles how it ends.
pub(crate) fn take_file<Q: Keeper, D: Desk>(
    alloc: Global,
    book: &str,
    path: &str,
    keeper: &mut Q,
    desk: &mut D,
) -> NanuStatus
    requires { IfSome (Q.tables keeper.old) IsKept }
    ensures cause { FileCause (D.holds desk.old path.now) (D.faults desk.old FileNo.Outages) (D.faults desk.new FileNo.Outages)
        (Q.tables keeper.new) (Q.faults keeper.old) (Q.faults keeper.new) result }
    ensures held { GainsAccepted (D.holds desk.old path.now) result (Q.tables keeper.old) (Q.tables keeper.new) }
    ensures accepts { AcceptsFile (D.holds desk.old path.now) (D.faults desk.old FileNo.Outages) (D.faults desk.new FileNo.Outages)
        (Q.faults keeper.old) (Q.faults keeper.new) result }
    ensures refuses { RefusesFile (D.holds desk.old path.now) (D.faults desk.old FileNo.Outages) (D.faults desk.new FileNo.Outages) result }
    ensures again { IfSome (Q.tables keeper.new) IsKept }
    ensures calls { MakesCalls (D.calls desk.old) (D.calls desk.new) (FileCalls path.now result) }
    ensures started { FileStarts book.now result (Q.started keeper.old) (Q.started keeper.new) }
    ensures holds { (p : List ℕ) → D.holds desk.new p ≡ D.holds desk.old p }
    ensures others { KeepsOthers (D.left desk.old) (D.left desk.new) (D.faults desk.old) (D.faults desk.new) FileNo.Outages }
    ensures later { (Q.faults keeper.old ≤ Q.faults keeper.new) × (D.faults desk.old FileNo.Outages ≤ D.faults desk.new FileNo.Outages) }
{
    take_notices(alloc, book, path, keeper, desk)
}
