// Laws of forms of sines, cosines, eccentric anomalies and places, each the contract of a function that does nothing.
ghost use Rattle.std.specs.Prelude.{ℕ, ℤ, pos, ◌^◌, ◌+ℤ◌, ◌-ℤ◌, ◌≤ℤ◌};
ghost use Rattle.fix_interval.specs.Ends.{Ends, width_of};
ghost use Rattle.time_forms.specs.Forms.{Form, IsTime, Holds, size};
ghost use Rattle.trig_laws.specs.SinCos.{sin_cos_of};
ghost use Rattle.orbit_forms.specs.Lines.{sine_form, cosine_form};
ghost use Rattle.orbit_forms.specs.Anomalies.{anomaly_form, ecc_sine_form, ecc_cosine_form};
ghost use Rattle.kepler_laws.specs.Anomalies.{IsEccentricityInTurns};
ghost use Rattle.kepler_laws.specs.EccentricSine.{ecc_sin_cos_of};
ghost use Rattle.raim_model.specs.declared.almanac.AlmRecord.{AlmRecord};
ghost use Rattle.raim_model.specs.AlmanacRanges.{IsAlmRecord};
ghost use Rattle.orbit_laws.specs.Elements.{elements_of};
ghost use Rattle.orbit_laws.specs.Positions.{position_of};
ghost use Rattle.orbit_forms.specs.Positions.{VectorHolds, IsShort, position_form};

/// The sine and the cosine of turns that change by at most half a turn either way.
pub fn sines_of_forms_hold()
    ensures sine { (h : ℕ) (d : ℤ) (f : Form) (a : Ends) → IsTime h d → size f.turning ≤ℤ pos (2 ^ 37)
        → Holds h d f a → Holds h d (sine_form f) (sin_cos_of a).sine }
    ensures cosine { (h : ℕ) (d : ℤ) (f : Form) (a : Ends) → IsTime h d → size f.turning ≤ℤ pos (2 ^ 37)
        → Holds h d f a → Holds h d (cosine_form f) (sin_cos_of a).cosine }
{}

/// The sine and the cosine of the eccentric anomaly, where its form changes by at most half a turn either way.
pub fn anomalies_of_forms_hold()
    ensures sine { (h : ℕ) (d : ℤ) (f : Form) (eps a : Ends) → IsTime h d → IsEccentricityInTurns eps
        → width_of eps ≤ℤ pos 4 → size (anomaly_form f eps).turning ≤ℤ pos (2 ^ 37)
        → Holds h d f a → Holds h d (ecc_sine_form f eps) (ecc_sin_cos_of a eps).sine }
    ensures cosine { (h : ℕ) (d : ℤ) (f : Form) (eps a : Ends) → IsTime h d → IsEccentricityInTurns eps
        → width_of eps ≤ℤ pos 4 → size (anomaly_form f eps).turning ≤ℤ pos (2 ^ 37)
        → Holds h d f a → Holds h d (ecc_cosine_form f eps) (ecc_sin_cos_of a eps).cosine }
{}

/// The place of a satellite at each millisecond of a piece lies in the form of the piece, where the eccentric anomaly and
/// the node change by at most half a turn either way.
pub fn positions_of_forms_hold()
    ensures { (h : ℕ) (d : ℤ) (rec : AlmRecord) (mid : ℤ) → IsAlmRecord rec → IsTime h d
        → IsShort (elements_of rec) (mid -ℤ rec.toa_ms) h
        → VectorHolds h d (position_form rec mid h) (position_of rec (mid +ℤ d) (mid +ℤ d)) }
{}
