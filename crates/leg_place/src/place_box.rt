// A place as intervals.

use fix_interval::Iv;

/// Where a receiver is, over some milliseconds: three intervals in units of 2^-38.
#[derive(Clone, Copy)]
pub struct PlaceBox {
    /// Geodetic latitude in turns, positive to the north.
    pub lat: Iv,
    /// Longitude in turns, positive to the east, as written: up to a turn either way.
    pub lon: Iv,
    /// The height above the WGS 84 ellipsoid, in megametres.
    pub height: Iv,
}
