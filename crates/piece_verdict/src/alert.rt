// What a verdict is held against.
ghost use Rattle.std.specs.Prelude.{◌≡◌};
ghost use Rattle.raim_model.specs.Ranges.{IsLength, IsLimits};
ghost use Rattle.piece_verdict.specs.Alerts.{IsAlert, shift_of, limit_for};

use raim_model::Limits;
use slope_laws::Shift;

/// What a verdict is held against.
#[derive(Clone, Copy, Debug, PartialEq, Eq)]
pub enum Alert {
    /// The horizontal shift, under the alert limit of the limits.
    Horizontal,
    /// The vertical shift, under a limit of its own in millimetres, from 1 to 1,000,000,000.
    Vertical { limit_mm: u32 },
}

/// The shift whose slopes are tested.
pub(crate) fn shift(alert: Alert) -> Shift
    ensures { result ≡ shift_of alert }
{
    match alert {
        Alert::Horizontal => Shift::Horizontal,
        Alert::Vertical { .. } => Shift::Vertical,
    }
}

/// The alert limit in millimetres.
pub(crate) fn limit_mm(alert: Alert, limits: &Limits) -> u32
    requires alert { IsAlert alert }
    requires limits { IsLimits limits.now }
    ensures value { result ≡ limit_for alert limits.now }
    ensures length { IsLength result }
{
    match alert {
        Alert::Horizontal => limits.alert_mm,
        Alert::Vertical { limit_mm } => limit_mm,
    }
}
