// The factor of the slopes.
ghost use Rattle.std.specs.Prelude.{◌≡◌, ◌≤◌, ◌-◌};
ghost use Rattle.fix_interval.specs.Intervals.{ends};
ghost use Rattle.raim_model.specs.PointVerdict.{bias_of};
ghost use Rattle.raim_model.specs.Ranges.{IsLimits, IsLength};
ghost use Rattle.verdict_laws.specs.PieceVerdict.{kappa_over};

use fix_interval::Iv;
use raim_model::Limits;

/// The bias for `n` satellites, in millimetres: the last one given where `n` is past it.
fn bias(limits: &Limits, n: usize) -> u32
    requires limits { IsLimits limits.now }
    requires enough { 5 ≤ n }
    ensures value { result ≡ bias_of limits.now n }
    ensures small { result ≤ 1000000000 }
{
    let last = limits.bias_mm.len() - 1;
    let at = if n - 5 < last { n - 5 } else { last };
    limits.bias_mm[at]
}

/// The squared bias for `n` satellites over the square of an alert limit in millimetres.
pub(crate) fn kappa(limits: &Limits, alert_mm: u32, n: usize) -> Iv
    requires limits { IsLimits limits.now }
    requires alert { IsLength alert_mm }
    requires enough { 5 ≤ n }
    ensures { ends result ≡ kappa_over limits.now alert_mm n }
{
    let bias = bias(limits, n) as i128;
    let alert = alert_mm as i128;
    Iv::from_ratio(bias * bias, alert * alert)
}
