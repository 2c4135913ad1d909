// Several notices in order.
ghost use Rattle.std.specs.Prelude.{◌≡◌, ◌<◌, ◌^◌, length, All, IfErr, IfSome, OnOk};
ghost use Rattle.raim_base.specs.Causes.{Rose};
ghost use Rattle.notice_model.specs.Notices.{IsWellFormed};
ghost use Rattle.notice_model.specs.Next.{MayComeNext};
ghost use Rattle.notice_book.specs.Gains.{IsKept, Gains};
ghost use Rattle.notice_book.specs.Stops.{IsStopped, HasStopCause};

use crate::accept::apply;
use crate::{BookFault, Keeper};
use notice_model::Notice;

/// Where a list of notices was stopped, and why.
#[derive(Clone, Copy, Debug, PartialEq, Eq)]
pub struct BookStop {
    /// How many of them were accepted.
    pub at: u32,
    /// What is said of the next one.
    pub why: BookFault,
}

// Accepts notices in order, up to the first that is not accepted.
fn accept_each<Q: Keeper>(keeper: &mut Q, list: &[Notice]) -> Result<(), BookStop>
    requires few { length list.now < 2 ^ 32 }
    requires kept { IfSome (Q.tables keeper.old) IsKept }
    ensures accepted { OnOk result (Gains (Q.tables keeper.old) list.now (Q.tables keeper.new)) }
    ensures formed { OnOk result (All IsWellFormed list.now) }
    ensures stopped { IfErr result (IsStopped (Q.tables keeper.old) (Q.tables keeper.new) list.now) }
    ensures again { IfSome (Q.tables keeper.new) IsKept }
    ensures started { Q.started keeper.new ≡ Q.started keeper.old }
    ensures cause { HasStopCause (Q.faults keeper.old) (Q.faults keeper.new) result }
{
    let mut at = 0;
    for notice in list {
        match apply(keeper, notice) {
            Ok(()) => at += 1,
            Err(why) => return Err(BookStop { at, why }),
        }
    }
    Ok(())
}

/// Accepts notices in order, up to the first that is not accepted.
///
/// Of a keeper that tells its tables the held notices gained exactly those that were accepted, and `why`
/// is what `apply` answers to the next one.
pub fn apply_all<Q: Keeper>(keeper: &mut Q, list: &[Notice]) -> Result<(), BookStop>
    requires few { length list.now < 2 ^ 32 }
    requires kept { IfSome (Q.tables keeper.old) IsKept }

    // All are held; or the first `at` of them, and why the next one is not.
    ensures accepted { OnOk result (Gains (Q.tables keeper.old) list.now (Q.tables keeper.new)) }
    ensures formed { OnOk result (All IsWellFormed list.now) }
    ensures stopped { IfErr result (IsStopped (Q.tables keeper.old) (Q.tables keeper.new) list.now) }

    ensures again { IfSome (Q.tables keeper.new) IsKept }
    ensures started { Q.started keeper.new ≡ Q.started keeper.old }
    ensures cause { HasStopCause (Q.faults keeper.old) (Q.faults keeper.new) result }

    // Notices that may come next, one after the other, are accepted where the keeper does not fail, but for want of memory.
    ensures complete { IfSome (Q.tables keeper.old) (λ t. MayComeNext t.held list.now → (Rose (Q.faults keeper.old) (Q.faults keeper.new) → ⊥) → IfErr result (λ stop. stop.why ≡ BookFault.Memory)) }
{
    accept_each(keeper, list)
}
