// Laws of the orbit over intervals, each the contract of a function that does nothing.
ghost use Rattle.std.specs.Prelude.{ℕ, ℤ, ◌*◌, ◌^◌, ◌≤◌, ◌≤ℤ◌, ◌↔◌};
ghost use Rattle.raim_model.specs.declared.almanac.AlmRecord.{AlmRecord};
ghost use Rattle.raim_model.specs.declared.decimal.Angle.{Angle};
ghost use Rattle.raim_model.specs.AlmanacRanges.{IsAlmRecord, IsApplicable};
ghost use Rattle.raim_model.specs.Decimal.{turns_of_angle, turns_of_rate};
ghost use Rattle.raim_model.specs.Level.{Level};
ghost use Rattle.raim_model.specs.Orbit.{OrbitSolution, satellite_position};
ghost use Rattle.fix_interval.specs.Lies.{Lies};
ghost use Rattle.fix_interval.specs.Vectors.{VectorLies, VectorInside, VectorBelow, VectorNarrow};
ghost use Rattle.trig_laws.specs.Quarter.{turn_parts};
ghost use Rattle.orbit_laws.specs.Angles.{turns_of, rate_of};
ghost use Rattle.orbit_laws.specs.Elements.{motion_units};
ghost use Rattle.orbit_laws.specs.Positions.{position_of};

/// The units of the mean motion are the root of the Earth's gravitational constant over a turn, rounded down.
pub fn motion_units_are_greatest()
    ensures { (k : ℕ) → (((k * turn_parts) * (k * turn_parts) ≤ 3986005 * 10 ^ 10 * 2 ^ 264) ↔ (k ≤ motion_units)) }
{}

/// Angles lie in their turns, and rates in their turns per millisecond.
pub fn angles_are_enclosed()
    ensures turns { (a : Angle) → Lies (turns_of a) 38 (turns_of_angle a) }
    ensures rate { (a : Angle) → Lies (rate_of a) 76 (turns_of_rate a) }
{}

/// The place of a satellite over a piece of time.
pub fn positions_are_enclosed()
    // it holds each place that the model admits at a millisecond of the piece
    ensures encloses { (rec : AlmRecord) (first last t : ℤ) → IsAlmRecord rec → first ≤ℤ t → t ≤ℤ last
        → (N : Level) (s : OrbitSolution N rec t) → VectorLies (position_of rec first last) (satellite_position s) }
    // it lies inside that over a longer piece
    ensures isotone { (rec : AlmRecord) (first last f l : ℤ) → IsAlmRecord rec → f ≤ℤ first → first ≤ℤ last → last ≤ℤ l
        → VectorInside (position_of rec first last) (position_of rec f l) }
    // it is within 256 megametres, whatever the piece
    ensures bound { (rec : AlmRecord) (first last : ℤ) → IsAlmRecord rec → first ≤ℤ last
        → VectorBelow (position_of rec first last) (2 ^ 46) }
    // and at one millisecond each component is at most 2^20 units wide, which is less than four metres
    ensures narrow { (rec : AlmRecord) (t : ℤ) → IsAlmRecord rec → IsApplicable rec t
        → VectorNarrow (position_of rec t t) (2 ^ 20) }
{}

/// The model admits a place of each satellite at each millisecond, at each level.
pub fn solutions_exist()
    ensures { (N : Level) (rec : AlmRecord) (t : ℤ) → IsAlmRecord rec → OrbitSolution N rec t }
{}
