// Laws of looks in forms, each the contract of a function that does nothing.
ghost use Rattle.std.specs.Prelude.{◌≡◌, ℕ, ℤ, true};
ghost use Rattle.fix_interval.specs.Ends.{Ends};
ghost use Rattle.fix_interval.specs.Vectors.{VectorEnds};
ghost use Rattle.geom_laws.specs.Rows.{weighed_of};
ghost use Rattle.site_laws.specs.Frames.{FrameEnds};
ghost use Rattle.site_laws.specs.Sights.{IsDirection, line_of, look_of};
ghost use Rattle.time_forms.specs.Forms.{Form, IsTime, Holds};
ghost use Rattle.orbit_forms.specs.Positions.{VectorForm, VectorHolds};
ghost use Rattle.geometry_forms.specs.Rows.{RowHolds};
ghost use Rattle.look_forms.specs.Frames.{FrameForm, FrameHolds};
ghost use Rattle.look_forms.specs.Looks.{line_form, TellsLook, look_told, direction_to, has_direction, direction_form, weighed_form};

/// What forms tell of a look is so of the written one: that the satellite is visible, and in which direction, or that it is hidden.
pub fn looks_of_forms_tell()
    ensures { (h : ℕ) (d : ℤ) (f : FrameForm) (frame : FrameEnds) (fs : VectorForm) (sat : VectorEnds) (fm : Form) (mask : Ends) → IsTime h d
        → FrameHolds h d f frame → VectorHolds h d fs sat → Holds h d fm mask → TellsLook (look_told f fs fm) (direction_to frame sat) (look_of frame sat mask) }
{}

/// The line of sight, and where it has a direction of forms the row of that direction, times a weight.
pub fn rows_of_forms_hold()
    ensures line { (h : ℕ) (d : ℤ) (f : FrameForm) (frame : FrameEnds) (fs : VectorForm) (sat : VectorEnds)
        → FrameHolds h d f frame → VectorHolds h d fs sat → VectorHolds h d (line_form f.position fs) (line_of frame.position sat) }
    ensures row { (h : ℕ) (d : ℤ) (f : FrameForm) (frame : FrameEnds) (fs : VectorForm) (sat : VectorEnds) (fk : Form) (k : Ends) → IsTime h d
        → has_direction (line_form f.position fs) ≡ true → IsDirection (direction_to frame sat) → FrameHolds h d f frame → VectorHolds h d fs sat → Holds h d fk k
        → RowHolds h d (weighed_form (direction_form f (line_form f.position fs)) fk) (weighed_of (direction_to frame sat).east (direction_to frame sat).north (direction_to frame sat).up k) }
{}
