// Where a satellite is over a piece of time.

ghost use Rattle.std.specs.Prelude.{◌≡◌, ℤ, pos, ◌^◌, ◌+ℤ◌, ◌-ℤ◌, ◌≤ℤ◌, unsigned_abs, IfSome};
ghost use Rattle.std.specs.Option.{option_map};
ghost use Rattle.fix_interval.specs.Intervals.{ends};
ghost use Rattle.fix_interval.specs.Pairs.{pair_ends};
ghost use Rattle.raim_model.specs.declared.almanac.AlmRecord.{AlmRecord};
ghost use Rattle.raim_model.specs.AlmanacRanges.{IsApplicable};
ghost use Rattle.orbit_laws.specs.Elements.{elements_of};
ghost use Rattle.orbit_laws.specs.Positions.{position_of};
ghost use Rattle.almanac_orbit.specs.Kept.{IsKept};
ghost use Rattle.time_forms.specs.Forms.{IsTime};
ghost use Rattle.time_forms.specs.Programs.{form, IsNumberWithin, IsFormWithin};
ghost use Rattle.orbit_forms.specs.Positions.{VectorHolds, fixed_pair};
ghost use Rattle.angle_forms.specs.Pairs.{pair_form, IsPairWithin};
ghost use Rattle.angle_forms.specs.Vectors.{vector_form, IsVectorWithin};
ghost use Rattle.satellite_forms.specs.Checked.{checked_anomaly, checked_node, checked_orbit, checked_position};

use crate::angles::{moved, moved_back};
use crate::place::{in_plane_x, in_plane_y, perifocal_x, place};
use almanac_orbit::{Kept, Orbit, orbit_elements, time_of_applicability};
use angle_forms::{SineCosine, ecc_sin_cos, sin_cos, sines_that_stay, steady};
use time_forms::{TimeForm, mul};

/// The sine and the cosine of the eccentric anomaly over a piece whose middle is `k` milliseconds after the time of
/// applicability.
fn anomaly(kept: &Kept, k: i64, half: i64) -> Option<SineCosine>
    requires kept { (rec : AlmRecord) × IsKept rec kept.now }
    requires k_small { IsNumberWithin k (2 ^ 50) }
    requires half_positive { pos 1 ≤ℤ half }
    requires half_small { IsNumberWithin half (2 ^ 50) }
    ensures exact { option_map pair_form result ≡ checked_anomaly (ends kept.now.mean_anomaly) (ends kept.now.motion) (ends kept.now.in_turns) k (unsigned_abs half) }
    ensures small { IfSome result (λ p. IsPairWithin (pair_form p) (2 ^ 58)) }
{
    let mean = moved(kept.mean_anomaly, kept.motion, k, half)?;
    ecc_sin_cos(mean, kept.in_turns)
}

/// The sine and the cosine of the ascending node's longitude over that piece.
fn node(kept: &Kept, k: i64, half: i64) -> Option<SineCosine>
    requires kept { (rec : AlmRecord) × IsKept rec kept.now }
    requires k_small { IsNumberWithin k (2 ^ 50) }
    requires half_positive { pos 1 ≤ℤ half }
    requires half_small { IsNumberWithin half (2 ^ 50) }
    ensures exact { option_map pair_form result ≡ checked_node (ends kept.now.node) (ends kept.now.drift) (ends kept.now.turned) k (unsigned_abs half) }
    ensures small { IfSome result (λ p. IsPairWithin (pair_form p) (2 ^ 58)) }
{
    let turns = moved_back(kept.node, kept.drift, kept.turned, k, half)?;
    sin_cos(turns)
}

/// The place, from the sines and cosines of the eccentric anomaly and of the node.
fn in_orbit(kept: &Kept, anomaly: SineCosine, node: SineCosine) -> Option<[TimeForm; 3]>
    requires kept { (rec : AlmRecord) × IsKept rec kept.now }
    requires anomaly_small { IsPairWithin (pair_form anomaly) (2 ^ 58) }
    requires node_small { IsPairWithin (pair_form node) (2 ^ 58) }
    ensures exact { (rec : AlmRecord) → IsKept rec kept.now → option_map vector_form result ≡ checked_orbit (elements_of rec) (pair_form anomaly) (pair_form node) }
    ensures small { IfSome result (λ p. IsVectorWithin (vector_form p) (2 ^ 59)) }
{
    let perigee = sines_that_stay(kept.sin_perigee, kept.cos_perigee);
    let inclination = sines_that_stay(kept.sin_inclination, kept.cos_inclination);
    let x = perifocal_x(
        steady(kept.semi_major_axis),
        anomaly.cosine,
        steady(kept.eccentricity),
    )?;
    let y = mul(steady(kept.semi_minor_axis), anomaly.sine)?;
    let along = in_plane_x(x, y, perigee)?;
    let across = in_plane_y(x, y, perigee)?;
    place(along, across, node, inclination)
}

/// Where a satellite is over the piece from the millisecond `middle - half` to `middle + half`, in milliseconds since the GPS
/// epoch: its place in megametres in units of 2^-38, in axes that turn with the Earth. None where its eccentric anomaly or its
/// node changes by more than half a turn either way, or where a number would be 2^58 or more in size.
pub fn position(orbit: &Orbit, middle: i64, half: i64) -> Option<[TimeForm; 3]>
    requires half_positive { pos 1 ≤ℤ half }
    requires half_small { IsNumberWithin half (2 ^ 50) }
    requires applicable { IsApplicable orbit.now middle }
    ensures exact { option_map vector_form result ≡ checked_position orbit.now middle (unsigned_abs half) }
    // it holds the interval place of each millisecond of the piece
    ensures holds { (d : ℤ) → IsTime (unsigned_abs half) d
        → IfSome result (λ p. VectorHolds (unsigned_abs half) d (vector_form p) (position_of orbit.now (middle +ℤ d) (middle +ℤ d))) }
    ensures small { IfSome result (λ p. IsVectorWithin (vector_form p) (2 ^ 59)) }
{
    let kept = orbit_elements(orbit);
    let k = middle - time_of_applicability(orbit);
    let anomaly = anomaly(kept, k, half)?;
    let node = node(kept, k, half)?;
    in_orbit(kept, anomaly, node)
}
