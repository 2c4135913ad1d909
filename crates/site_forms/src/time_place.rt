// A place as forms.

use time_forms::TimeForm;

/// Where a receiver is over a piece of time: three forms in units of 2^-38.
#[derive(Clone, Copy)]
pub struct TimePlace {
    /// Geodetic latitude in turns, positive to the north.
    pub lat: TimeForm,
    /// Longitude in turns, positive to the east, as written: up to a turn either way.
    pub lon: TimeForm,
    /// The height above the WGS 84 ellipsoid, in megametres.
    pub height: TimeForm,
}
