// One notice and a keeper.
ghost use Rattle.std.specs.Prelude.{◌≡◌, ◌≢◌, ◌↔◌, ◌⊎◌, ◌++◌, [], ◌∷◌, ◌≤◌, ◌<◌, Ok, Err, Some, None, length, IfOk, IfErr, IfSome, IsOk, IsSome, IsSomeAnd, OnOk, OnErr};
ghost use Rattle.raim_base.specs.Causes.{Rose};
ghost use Rattle.notice_model.specs.Notices.{IsWellFormed};
ghost use Rattle.notice_model.specs.InEffect.{entry};
ghost use Rattle.notice_model.specs.Entries.{entry_at, moved, change_of};
ghost use Rattle.notice_model.specs.Next.{IsNext};
ghost use Rattle.notice_book.specs.Tables.{GoesWith, IsLive};
ghost use Rattle.notice_book.specs.Answers.{Answers, HasBookCause};
ghost use Rattle.notice_book.specs.Gains.{IsKept, Gains};
ghost use Rattle.notice_book.specs.Changes.{IsRoomAnswer, IsFindAnswer, IsChange};

use crate::fault::book_fault;
use crate::form::{is_well_formed, number_of};
use crate::{BookFault, Keeper};
use notice_model::{Live, Notice};

const MOST_ENTRIES: u32 = 256;

// Whether there is room for one entry more.
fn check_room<Q: Keeper>(keeper: &mut Q) -> Result<(), BookFault>
    ensures value { IfSome (Q.tables keeper.old) (λ t. IsRoomAnswer t.live result) }
    ensures formed { result ≢ Err BookFault.BadNotice }
    ensures same { Q.tables keeper.new ≡ Q.tables keeper.old }
    ensures started { Q.started keeper.new ≡ Q.started keeper.old }
    ensures cause { HasBookCause (Q.faults keeper.old) (Q.faults keeper.new) result }
{
    match keeper.live_count() {
        Ok(count) => {
            if count >= MOST_ENTRIES {
                return Err(BookFault::Full);
            }
            Ok(())
        }
        Err(fault) => Err(book_fault(fault)),
    }
}

// The entry of a number.
fn found<Q: Keeper>(keeper: &mut Q, number: u32) -> Result<Live, BookFault>
    ensures value { IfSome (Q.tables keeper.old) (λ t. IsFindAnswer number t.live result) }
    ensures formed { result ≢ Err BookFault.BadNotice }
    ensures sound { IfOk result (λ e. (e.number ≡ number) × IsLive e) }
    ensures same { Q.tables keeper.new ≡ Q.tables keeper.old }
    ensures started { Q.started keeper.new ≡ Q.started keeper.old }
    ensures cause { HasBookCause (Q.faults keeper.old) (Q.faults keeper.new) result }
{
    match keeper.find(number) {
        Ok(Some(entry)) => Ok(entry),
        Ok(None) => Err(BookFault::Unknown),
        Err(fault) => Err(book_fault(fault)),
    }
}

// What is to be committed with a notice.
fn change<Q: Keeper>(keeper: &mut Q, notice: &Notice) -> Result<Option<Live>, BookFault>
    ensures value { IfSome (Q.tables keeper.old) (λ t. IsChange t.live notice.now result) }
    ensures formed { result ≢ Err BookFault.BadNotice }
    ensures goes { IfOk result (GoesWith notice.now) }
    ensures same { Q.tables keeper.new ≡ Q.tables keeper.old }
    ensures started { Q.started keeper.new ≡ Q.started keeper.old }
    ensures cause { HasBookCause (Q.faults keeper.old) (Q.faults keeper.new) result }
{
    match *notice {
        Notice::Add {
            number,
            prn,
            start,
            end,
        } => {
            check_room(keeper)?;
            Ok(Some(Live {
                number,
                prn,
                start,
                end,
            }))
        }
        Notice::Reschedule {
            target,
            start,
            end,
            ..
        } => {
            let old = found(keeper, target)?;
            Ok(Some(Live { start, end, ..old }))
        }
        Notice::Cancel { target, .. } => {
            found(keeper, target)?;
            Ok(None)
        }
    }
}

// What `apply` answers, by its tests in their order.
fn answer<Q: Keeper>(keeper: &mut Q, notice: &Notice) -> Result<(), BookFault>
    requires { IfSome (Q.tables keeper.old) IsKept }
    ensures accepted { OnOk result (Gains (Q.tables keeper.old) (notice.now ∷ []) (Q.tables keeper.new)) }
    ensures answer { IfSome (Q.tables keeper.old) (λ t. Answers t notice.now result) }
    ensures bad { (result ≡ Err BookFault.BadNotice) ↔ (IsWellFormed notice.now → ⊥) }
    ensures formed { OnOk result (IsWellFormed notice.now) }
    ensures unchanged { OnErr result (Q.tables keeper.new ≡ Q.tables keeper.old) }
    ensures again { IfSome (Q.tables keeper.new) IsKept }
    ensures started { Q.started keeper.new ≡ Q.started keeper.old }
    ensures cause { HasBookCause (Q.faults keeper.old) (Q.faults keeper.new) result }
{
    if !is_well_formed(notice) {
        return Err(BookFault::BadNotice);
    }
    let last = match keeper.last() {
        Ok(last) => last,
        Err(fault) => return Err(book_fault(fault)),
    };
    if number_of(notice) <= last {
        return Err(BookFault::Old { last });
    }
    let change = change(keeper, notice)?;
    match keeper.commit(notice, &change) {
        Ok(()) => Ok(()),
        Err(fault) => Err(book_fault(fault)),
    }
}

/// Accepts a notice into a book, or says why not: the first of the faults that there is, in the order
/// of `BookFault`.
///
/// Of a keeper that tells its tables the held notices are a book again, with this one at its end, and
/// the entries are what is in effect after it. At `Err` the tables are as they were.
pub fn apply<Q: Keeper>(keeper: &mut Q, notice: &Notice) -> Result<(), BookFault>
    requires { IfSome (Q.tables keeper.old) IsKept }

    // The book gained the notice, and is a book again.
    ensures accepted { OnOk result (Gains (Q.tables keeper.old) (notice.now ∷ []) (Q.tables keeper.new)) }

    // What each answer says of the tables and the notice. The law of one answer makes it exact.
    ensures answer { IfSome (Q.tables keeper.old) (λ t. Answers t notice.now result) }

    // The notice by itself is judged by every keeper.
    ensures bad { (result ≡ Err BookFault.BadNotice) ↔ (IsWellFormed notice.now → ⊥) }
    ensures formed { OnOk result (IsWellFormed notice.now) }

    ensures unchanged { OnErr result (Q.tables keeper.new ≡ Q.tables keeper.old) }
    ensures again { IfSome (Q.tables keeper.new) IsKept }
    ensures started { Q.started keeper.new ≡ Q.started keeper.old }
    ensures cause { HasBookCause (Q.faults keeper.old) (Q.faults keeper.new) result }

    // A notice that may come next is accepted where the keeper does not fail, but for want of memory.
    ensures complete { IfSome (Q.tables keeper.old) (λ t. IsNext t.held notice.now → (Rose (Q.faults keeper.old) (Q.faults keeper.new) → ⊥) → IsOk result ⊎ (result ≡ Err BookFault.Memory)) }
{
    answer(keeper, notice)
}
