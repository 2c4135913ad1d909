// The test of the visible rows, as the mode has it.
ghost use Rattle.std.specs.Prelude.{◌≡◌, ◌≤◌, ◌-◌, length};
ghost use Rattle.raim_model.specs.PointVerdict.{least_count};
ghost use Rattle.raim_model.specs.Ranges.{IsLimits};
ghost use Rattle.slope_laws.specs.ShiftSlopes.{slopes_for};
ghost use Rattle.slope_test.specs.Marks.{SlopesPass, ListsPass};
ghost use Rattle.slope_test.specs.Named.{named};
ghost use Rattle.verdict_laws.specs.PieceVerdict.{kappa_over, test_by};
ghost use Rattle.piece_verdict.specs.Alerts.{IsAlert, shift_of, limit_for};

use crate::alert::{Alert, limit_mm, shift};
use crate::factor::kappa;
use exclusion_subsets::exclude;
use geom_inverse::Row;
use raim_model::{Limits, Verdict};
use slope_test::{Marks, detect};

/// How many satellites the test asks for.
pub(crate) fn needed(limits: &Limits) -> usize
    ensures value { result ≡ least_count limits.now.exclude }
    ensures five { 5 ≤ result }
{
    if limits.exclude { 6 } else { 5 }
}

/// The test of the rows, held against this alert limit, where the slopes at the places of `slopes`, and the lists
/// without the row at a place of `lists`, are known to pass. Those that pass are known then.
pub(crate) fn test(
    limits: &Limits,
    alert: Alert,
    rows: &[Row],
    slopes: &mut Marks,
    lists: &mut Marks,
) -> Verdict
    requires limits { IsLimits limits.now }
    requires alert { IsAlert alert }
    requires few { length rows.now ≤ 32 }
    requires enough { least_count limits.now.exclude ≤ length rows.now }
    requires slopes { SlopesPass (shift_of alert) (named rows.now) (kappa_over limits.now (limit_for alert limits.now) (length rows.now)) slopes.old.places }
    requires lists { ListsPass (shift_of alert) (named rows.now) (kappa_over limits.now (limit_for alert limits.now) (length rows.now - 1)) lists.old.places }
    ensures value { result ≡ test_by (slopes_for (shift_of alert)) limits.now (limit_for alert limits.now) (named rows.now) }
    ensures slopes { SlopesPass (shift_of alert) (named rows.now) (kappa_over limits.now (limit_for alert limits.now) (length rows.now)) slopes.new.places }
    ensures lists { ListsPass (shift_of alert) (named rows.now) (kappa_over limits.now (limit_for alert limits.now) (length rows.now - 1)) lists.new.places }
{
    let n = rows.len();
    let shift = shift(alert);
    let alert_mm = limit_mm(alert, limits);
    if limits.exclude {
        let factor_of_all = kappa(limits, alert_mm, n);
        let factor_of_fewer = kappa(limits, alert_mm, n - 1);
        exclude(shift, rows, factor_of_all, factor_of_fewer, slopes, lists)
    } else {
        let factor = kappa(limits, alert_mm, n);
        detect(shift, rows, factor, slopes)
    }
}
