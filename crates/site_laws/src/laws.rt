// Laws of receivers over intervals, each the contract of a function that does nothing.
ghost use Rattle.std.specs.Prelude.{◌≡◌, ◌⊎◌, ℤ, pos, ◌^◌, ◌≤ℤ◌, ◌<ℤ◌, true, false, List};
ghost use Rattle.fractions.specs.Fraction.{Fraction, ratio, oneᶠ, ◌+ᶠ◌, ◌*ᶠ◌, ◌≤ᶠ◌, IsNear};
ghost use Rattle.raim_model.specs.declared.waypoint.Waypoint.{Waypoint};
ghost use Rattle.raim_model.specs.Level.{Level};
ghost use Rattle.raim_model.specs.Sine.{IsSineCosine};
ghost use Rattle.raim_model.specs.Ranges.{IsWaypoint};
ghost use Rattle.raim_model.specs.Vector.{dot};
ghost use Rattle.raim_model.specs.Receiver.{Place, OnLeg, place_on, ReceiverSolution, site};
ghost use Rattle.raim_model.specs.Look.{line_of_sight, is_visible, direction_row};
ghost use Rattle.fix_interval.specs.Ends.{Ends, IsInside, IsNarrow};
ghost use Rattle.fix_interval.specs.Vectors.{VectorEnds, VectorInside, VectorNarrow};
ghost use Rattle.site_laws.specs.Places.{PlaceEnds, PlaceLies, PlaceInside, IsNearEarth, PlaceNarrow, place_over_of};
ghost use Rattle.site_laws.specs.Frames.{FrameEnds, FrameInside, SiteLies, frame_of, widest_frame};
ghost use Rattle.site_laws.specs.Sights.{DirectionEnds, DirectionLies, DirectionInside, SightInside, LookChoice, IsInReach, IsSineEnds, look_of, widest_direction, visible, hidden, straddle};

/// The model's sine and cosine of an angle lie on the unit circle, but for 5 x 2^-60.
pub fn sines_lie_on_the_circle()
    ensures { (N : Level) (u s c : Fraction) → IsSineCosine N u s c → s *ᶠ s +ᶠ c *ᶠ c ≤ᶠ oneᶠ +ᶠ ratio (pos 5) (2 ^ 60) }
{}

/// The place over a piece of a leg, from `first` to `last`.
pub fn places_are_enclosed()
    // it holds the place at each millisecond of the piece
    ensures encloses { (route : List Waypoint) (t first last : ℤ) (l : OnLeg route t) → l.start.at ≤ℤ first → first ≤ℤ t → t ≤ℤ last → last <ℤ l.stop.at
        → PlaceLies (place_over_of l.start l.stop first last) (place_on l) }
    // it lies inside that over a longer piece
    ensures isotone { (start stop : Waypoint) (first last f l : ℤ) → start.at ≤ℤ f → f ≤ℤ first → first ≤ℤ last → last ≤ℤ l → l <ℤ stop.at
        → PlaceInside (place_over_of start stop first last) (place_over_of start stop f l) }
    // it is one that a frame may be asked for
    ensures near_earth { (start stop : Waypoint) (first last : ℤ) → IsWaypoint start → IsWaypoint stop → start.at ≤ℤ first → first ≤ℤ last → last <ℤ stop.at
        → IsNearEarth (place_over_of start stop first last) }
    // and at one millisecond each part is at most four units wide
    ensures narrow { (start stop : Waypoint) (t : ℤ) → start.at ≤ℤ t → t <ℤ stop.at → PlaceNarrow (place_over_of start stop t t) 4 }
{}

/// At each level the model has a receiver at each place.
pub fn receivers_exist()
    ensures { (N : Level) (place : Place) → ReceiverSolution N place }
{}

/// The frame of a place near the Earth.
pub fn frames_are_enclosed()
    // it holds each receiver that the model admits at a place inside
    ensures encloses { (box : PlaceEnds) → IsNearEarth box → (N : Level) (place : Place) → PlaceLies box place → (s : ReceiverSolution N place) → SiteLies (frame_of box) (site s) }
    // and at each level there is one
    ensures exists { (box : PlaceEnds) → IsNearEarth box → (N : Level) (place : Place) → PlaceLies box place → (s : ReceiverSolution N place) × SiteLies (frame_of box) (site s) }
    // it lies inside that of a wider place
    ensures isotone { (place wide : PlaceEnds) → IsNearEarth wide → PlaceInside place wide → FrameInside (frame_of place) (frame_of wide) }
    // the position is at most 6430 km from each axis, and the parts of the directions are at most 1
    ensures bound { (place : PlaceEnds) → IsNearEarth place → FrameInside (frame_of place) widest_frame }
    // and where the place is at most four units wide, the position is at most 2^13, and up at most 2^10
    ensures narrow { (place : PlaceEnds) → IsNearEarth place → PlaceNarrow place 4
        → VectorNarrow (frame_of place).position (2 ^ 13) × VectorNarrow (frame_of place).up (2 ^ 10) }
{}

/// A look at a satellite from the frame of a place near the Earth.
pub fn looks_are_decided()
    // hidden: no choice of the model is visible
    ensures hidden { (box : PlaceEnds) (sat : VectorEnds) (mask : Ends) → IsNearEarth box → look_of (frame_of box) sat mask ≡ hidden
        → (N : Level) (c : LookChoice N box sat mask) → is_visible (site c.receiver) c.satellite c.sine c.range ≡ false }
    // visible: every choice is, and its row lies in the direction
    ensures visible { (box : PlaceEnds) (sat : VectorEnds) (mask : Ends) (row : DirectionEnds) → IsNearEarth box → look_of (frame_of box) sat mask ≡ visible row
        → (N : Level) (c : LookChoice N box sat mask) → (is_visible (site c.receiver) c.satellite c.sine c.range ≡ true) × DirectionLies row (direction_row (site c.receiver) c.satellite c.range) }
    // the parts of the direction are intervals from -1 to 1, and a unit more
    ensures bound { (box : PlaceEnds) (sat : VectorEnds) (mask : Ends) (row : DirectionEnds) → IsNearEarth box → IsInReach sat → IsSineEnds mask → look_of (frame_of box) sat mask ≡ visible row
        → DirectionInside row widest_direction }
    // what is decided on wide intervals is decided on those inside
    ensures isotone { (box : PlaceEnds) (sat : VectorEnds) (mask : Ends) (frame : FrameEnds) (wide : VectorEnds) (wide_mask : Ends) → IsNearEarth box → FrameInside (frame_of box) frame → VectorInside sat wide → IsInside mask wide_mask
        → SightInside (look_of (frame_of box) sat mask) (look_of frame wide wide_mask) }
    // and on narrow ones a look is undecided only near equality
    ensures narrow { (box : PlaceEnds) (sat : VectorEnds) (mask : Ends) → IsNearEarth box → IsInReach sat → IsSineEnds mask → PlaceNarrow box 4 → VectorNarrow sat (2 ^ 20) → IsNarrow mask (2 ^ 9)
        → look_of (frame_of box) sat mask ≡ straddle → (N : Level) (c : LookChoice N box sat mask)
        → (IsNear c.range oneᶠ (ratio (pos 1) (2 ^ 15))) ⊎ (IsNear (dot (site c.receiver).up (line_of_sight (site c.receiver) c.satellite)) (c.sine *ᶠ c.range) (ratio (pos 1) (2 ^ 15))) }
{}

/// A look decides whatever the frame, the satellite and the mask: at each level there is a choice.
pub fn choices_exist()
    ensures { (N : Level) (box : PlaceEnds) (sat : VectorEnds) (mask : Ends) → IsNearEarth box → IsInReach sat → IsSineEnds mask → LookChoice N box sat mask }
{}
