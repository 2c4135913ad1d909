// Laws of the formulas of a solution, each the contract of a function that does nothing.
ghost use Rattle.std.specs.Prelude.{◌≡◌, ℕ, ℤ, pos, ◌-ℤ◌, ◌<ℤ◌, ◌≤ℤ◌, true, false, List, [], ◌∷◌, Some, None};
ghost use Rattle.std.specs.Int.{int_rem_euclid};
ghost use Rattle.std.specs.declared.option.Option.{Option};
ghost use Rattle.fractions.specs.Fraction.{Fraction, whole, zeroᶠ, oneᶠ, ◌+ᶠ◌, ◌-ᶠ◌, ◌*ᶠ◌, neg};
ghost use Rattle.raim_model.specs.declared.almanac.AlmRecord.{AlmRecord};
ghost use Rattle.raim_model.specs.declared.limits.Weight.{Weight};
ghost use Rattle.raim_model.specs.declared.outage.Outage.{Outage};
ghost use Rattle.raim_model.specs.Constants.{earth_rotation, eccentricity_squared, week_ms};
ghost use Rattle.raim_model.specs.Decimal.{turns_of_angle, turns_of_rate, value_of};
ghost use Rattle.raim_model.specs.Level.{Level};
ghost use Rattle.raim_model.specs.Orbit.{OrbitSolution, node, perifocal_x, perifocal_y, in_plane_x, in_plane_y, satellite_position};
ghost use Rattle.raim_model.specs.Receiver.{Place, ReceiverSolution, prime_vertical_radius, site};
ghost use Rattle.raim_model.specs.Usable.{holds};
ghost use Rattle.raim_model.specs.Vector.{dot};
ghost use Rattle.raim_model.specs.Weights.{weight_of};
ghost use Rattle.solution_laws.specs.Outages.{outage};

/// At the time of applicability the node stands where the almanac has it at the week's begin, less what the Earth has turned since; from
/// then on it drifts at its rate less the Earth's.
pub fn nodes_drift()
    ensures at_applicability { (rec : AlmRecord) → node rec rec.toa_ms ≡ turns_of_angle rec.omega0 -ᶠ earth_rotation *ᶠ whole (int_rem_euclid rec.toa_ms (pos week_ms)) }
    ensures since { (rec : AlmRecord) (t : ℤ) → node rec t -ᶠ node rec rec.toa_ms ≡ (turns_of_rate rec.rate -ᶠ earth_rotation) *ᶠ whole (t -ℤ rec.toa_ms) }
{}

/// The plane of the orbit is turned from the perigee to the node by the argument of perigee: turned back, it is what it was.
pub fn planes_turn_to_the_node()
    ensures back_x { (N : Level) (rec : AlmRecord) (t : ℤ) (s : OrbitSolution N rec t) → in_plane_x s *ᶠ s.cos_perigee +ᶠ in_plane_y s *ᶠ s.sin_perigee ≡ perifocal_x s *ᶠ (s.cos_perigee *ᶠ s.cos_perigee +ᶠ s.sin_perigee *ᶠ s.sin_perigee) }
    ensures back_y { (N : Level) (rec : AlmRecord) (t : ℤ) (s : OrbitSolution N rec t) → in_plane_y s *ᶠ s.cos_perigee -ᶠ in_plane_x s *ᶠ s.sin_perigee ≡ perifocal_y s *ᶠ (s.cos_perigee *ᶠ s.cos_perigee +ᶠ s.sin_perigee *ᶠ s.sin_perigee) }
{}

/// The satellite's place is the plane's, tilted about the line of nodes by the inclination, and turned about the axis of the Earth by
/// the longitude of the node: turned back, it has the plane's x along the line of nodes, and the plane's y across and up.
pub fn orbits_turn_with_the_earth()
    ensures along { (N : Level) (rec : AlmRecord) (t : ℤ) (s : OrbitSolution N rec t) → (satellite_position s).x *ᶠ s.cos_node +ᶠ (satellite_position s).y *ᶠ s.sin_node ≡ in_plane_x s *ᶠ (s.cos_node *ᶠ s.cos_node +ᶠ s.sin_node *ᶠ s.sin_node) }
    ensures across { (N : Level) (rec : AlmRecord) (t : ℤ) (s : OrbitSolution N rec t) → (satellite_position s).y *ᶠ s.cos_node -ᶠ (satellite_position s).x *ᶠ s.sin_node ≡ in_plane_y s *ᶠ s.cos_incl *ᶠ (s.cos_node *ᶠ s.cos_node +ᶠ s.sin_node *ᶠ s.sin_node) }
    ensures up { (N : Level) (rec : AlmRecord) (t : ℤ) (s : OrbitSolution N rec t) → (satellite_position s).z ≡ in_plane_y s *ᶠ s.sin_incl }
{}

/// East, north and up stand square on one another, east and north make up, and the receiver's place lies on the line up from the
/// ellipsoid, the radius of curvature and the height above the Earth's axis.
pub fn receivers_stand_on_the_ellipsoid()
    ensures east_and_north { (N : Level) (p : Place) (s : ReceiverSolution N p) → dot (site s).east (site s).north ≡ zeroᶠ }
    ensures east_and_up { (N : Level) (p : Place) (s : ReceiverSolution N p) → dot (site s).east (site s).up ≡ zeroᶠ }
    ensures north_and_up { (N : Level) (p : Place) (s : ReceiverSolution N p) → dot (site s).north (site s).up ≡ s.sin_lat *ᶠ s.cos_lat *ᶠ (oneᶠ -ᶠ (s.cos_lon *ᶠ s.cos_lon +ᶠ s.sin_lon *ᶠ s.sin_lon)) }
    // east times north, the vector product
    ensures up_x { (N : Level) (p : Place) (s : ReceiverSolution N p) → (site s).east.y *ᶠ (site s).north.z -ᶠ (site s).east.z *ᶠ (site s).north.y ≡ (site s).up.x }
    ensures up_y { (N : Level) (p : Place) (s : ReceiverSolution N p) → (site s).east.z *ᶠ (site s).north.x -ᶠ (site s).east.x *ᶠ (site s).north.z ≡ (site s).up.y }
    ensures up_z { (N : Level) (p : Place) (s : ReceiverSolution N p) → (site s).east.x *ᶠ (site s).north.y -ᶠ (site s).east.y *ᶠ (site s).north.x ≡ (site s).up.z *ᶠ (s.cos_lon *ᶠ s.cos_lon +ᶠ s.sin_lon *ᶠ s.sin_lon) }
    // the line up through the place meets the axis N e^2 sin phi below the Earth's centre
    ensures line_x { (N : Level) (p : Place) (s : ReceiverSolution N p) → (site s).position.x ≡ (prime_vertical_radius s +ᶠ p.height) *ᶠ (site s).up.x }
    ensures line_y { (N : Level) (p : Place) (s : ReceiverSolution N p) → (site s).position.y ≡ (prime_vertical_radius s +ᶠ p.height) *ᶠ (site s).up.y }
    ensures line_z { (N : Level) (p : Place) (s : ReceiverSolution N p) → (site s).position.z ≡ (prime_vertical_radius s +ᶠ p.height) *ᶠ (site s).up.z -ᶠ prime_vertical_radius s *ᶠ eccentricity_squared *ᶠ s.sin_lat }
{}

/// An outage holds its start and not its end; without an end it holds on.
pub fn outages_hold_from_start_to_end()
    ensures start { (prn : ℕ) (from until : ℤ) → from <ℤ until → holds (outage prn from (Some until)) from ≡ true }
    ensures end { (prn : ℕ) (from until : ℤ) → holds (outage prn from (Some until)) until ≡ false }
    ensures before { (prn : ℕ) (from : ℤ) (until : Option ℤ) (t : ℤ) → t <ℤ from → holds (outage prn from until) t ≡ false }
    ensures lasting { (prn : ℕ) (from t : ℤ) → from ≤ℤ t → holds (outage prn from None) t ≡ true }
{}

/// The weight of a satellite is the one that is given for it, and 1 where none is.
pub fn weights_are_looked_up()
    ensures given { (w : Weight) (ws : List Weight) → weight_of (w ∷ ws) w.prn ≡ value_of w.k }
    ensures none { (prn : ℕ) → weight_of [] prn ≡ oneᶠ }
{}
