// An orbit, and where its satellite is over a piece of time.

ghost use Rattle.std.specs.Prelude.{◌≡◌, ℤ, ◌^◌, ◌≤ℤ◌};
ghost use Rattle.raim_model.specs.AlmanacRanges.{IsAlmRecord, IsApplicable};
ghost use Rattle.raim_model.specs.Level.{Level};
ghost use Rattle.raim_model.specs.Orbit.{OrbitSolution, satellite_position};
ghost use Rattle.orbit_laws.specs.Positions.{position_of};
ghost use Rattle.fix_interval.specs.Vectors.{VectorLies, VectorInside, VectorBelow, VectorNarrow, vector_ends};
ghost use Rattle.almanac_orbit.specs.Kept.{IsKept};

use crate::angles::{EARTH_RATE, rate, turns};
use crate::elements::{in_turns, motion, semi_major_axis, semi_minor_axis, turned};
use crate::kept::Kept;
use crate::place::{in_plane_x, in_plane_y, moved, moved_back, perifocal_x, perifocal_y, place};
use fix_interval::{Iv, dec56_milli, sub};
use kepler_bracket::ecc_sin_cos;
use raim_model::AlmRecord;
use std::marker::Model;
use trig_enclose::sin_cos;

/// The orbit of a record of an almanac, which contracts see as the record.
#[derive(Drop)]
pub struct Orbit {
    of: AlmRecord,
    kept: Kept,
}

impl Model for Orbit {
    ghost use Rattle.raim_model.specs.declared.almanac.AlmRecord.{AlmRecord};
    ghost use Rattle.almanac_orbit.specs.Kept.{IsKept};

    ghost Value = { AlmRecord };

    ghost view = { λ o. o.of };

    ghost invariant = { λ o. IsKept o.of o.kept };
}

/// The orbit of an accepted record.
pub fn prepare(rec: &AlmRecord) -> Orbit
    requires { IsAlmRecord rec.now }
    ensures { result ≡ rec.now }
{
    let root = dec56_milli(&rec.sqrt_a);
    let axis = semi_major_axis(root);
    let eccentricity = Iv::from_dec(&rec.e);
    let perigee = sin_cos(turns(&rec.perigee));
    let inclination = sin_cos(turns(&rec.incl));
    Orbit {
        of: *rec,
        kept: Kept {
            semi_major_axis: axis,
            motion: motion(root),
            eccentricity,
            in_turns: in_turns(eccentricity),
            semi_minor_axis: semi_minor_axis(axis, eccentricity),
            mean_anomaly: turns(&rec.m0),
            node: turns(&rec.omega0),
            sin_perigee: perigee.0,
            cos_perigee: perigee.1,
            sin_inclination: inclination.0,
            cos_inclination: inclination.1,
            drift: sub(rate(&rec.rate), EARTH_RATE),
            turned: turned(rec.toa_ms),
        },
    }
}

/// The elements of an orbit, for those who find its place in another way.
#[inline(always)]
pub fn orbit_elements(orbit: &Orbit) -> &Kept
    ensures { IsKept orbit.now result.now }
{
    &orbit.kept
}

/// The millisecond at which its record holds.
#[inline(always)]
pub fn time_of_applicability(orbit: &Orbit) -> i64
    ensures { result ≡ orbit.now.toa_ms }
{
    orbit.of.toa_ms
}

/// Where the satellite is from the millisecond `first` to `last`: its place in megametres, in axes that turn with the
/// Earth.
pub fn position(orbit: &Orbit, first: i64, last: i64) -> [Iv; 3]
    requires order { first ≤ℤ last }
    requires first_applicable { IsApplicable orbit.now first }
    requires last_applicable { IsApplicable orbit.now last }
    ensures exact { vector_ends result ≡ position_of orbit.now first last }
    ensures encloses { (t : ℤ) (N : Level) (s : OrbitSolution N orbit.now t) → first ≤ℤ t → t ≤ℤ last
        → VectorLies (vector_ends result) (satellite_position s) }
    ensures isotone { (f l : ℤ) → f ≤ℤ first → last ≤ℤ l
        → VectorInside (vector_ends result) (position_of orbit.now f l) }
    ensures bound { VectorBelow (vector_ends result) (2 ^ 46) }
    ensures narrow { first ≡ last → VectorNarrow (vector_ends result) (2 ^ 20) }
{
    let kept = &orbit.kept;
    let k = first - orbit.of.toa_ms;
    let l = last - orbit.of.toa_ms;
    let anomaly = ecc_sin_cos(moved(kept.mean_anomaly, kept.motion, k, l), kept.in_turns);
    let node = sin_cos(moved_back(kept.node, kept.drift, kept.turned, k, l));
    let x = perifocal_x(kept.semi_major_axis, anomaly.1, kept.eccentricity);
    let y = perifocal_y(kept.semi_minor_axis, anomaly.0);
    place(
        in_plane_x(x, y, kept.sin_perigee, kept.cos_perigee),
        in_plane_y(x, y, kept.sin_perigee, kept.cos_perigee),
        node,
        (kept.sin_inclination, kept.cos_inclination),
    )
}
