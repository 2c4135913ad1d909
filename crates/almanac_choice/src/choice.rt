// The almanac in force.
ghost use Rattle.std.specs.Prelude.{◌≡◌, ◌≤◌, ◌<◌, List, [], length, map, All, slice_index_or, true, false};
ghost use Rattle.raim_model.specs.declared.almanac.AlmRecord.{AlmRecord};
ghost use Rattle.raim_model.specs.AlmanacInForce.{time_of, in_force};
ghost use Rattle.raim_model.specs.Cuts.{IsCutTime};
ghost use Rattle.almanac_choice.specs.Choices.{IsBetter, IsNotBetter, IsFirstBest};

/// Whether the time `other` serves `t` better than the time `kept`: it is nearer, or as near and earlier.
fn is_better(t: i64, other: i64, kept: i64) -> bool
    requires t { IsCutTime t }
    requires other { IsCutTime other }
    requires kept { IsCutTime kept }
    ensures better { result ≡ true → IsBetter t other kept }
    ensures not_better { result ≡ false → IsNotBetter t other kept }
{
    let apart = (t - other).unsigned_abs();
    let kept_apart = (t - kept).unsigned_abs();
    if apart < kept_apart {
        return true;
    }
    if kept_apart < apart {
        return false;
    }
    other < kept
}

/// The place of the almanac in force at `t`, for the times of the almanacs in their order.
pub fn in_force_at(times: &[i64], t: i64) -> usize
    requires some { 1 ≤ length times.now }
    requires t { IsCutTime t }
    requires times { All IsCutTime times.now }
    ensures within { result < length times.now }
    ensures best { IsFirstBest t times.now (length times.now) result }
    // for almanacs that have these times it is the place of the one in force
    ensures exact { (almanacs : List (List AlmRecord)) → map time_of almanacs ≡ times.now → slice_index_or almanacs result [] ≡ in_force t almanacs }
{
    let mut best = 0;
    for k in 0..times.len() {
        if is_better(t, times[k], times[best]) {
            best = k;
        }
    }
    best
}
