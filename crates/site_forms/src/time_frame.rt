// A frame as forms.

use time_forms::TimeForm;

/// Where a receiver is and how it stands over a piece of time: four vectors, each by its components in axes that turn with
/// the Earth (the first to the equator at longitude 0, the third to the north pole), in units of 2^-38.
#[derive(Clone, Copy)]
pub struct TimeFrame {
    /// The position, in megametres from the Earth's centre.
    pub position: [TimeForm; 3],
    /// The direction to the east, of length 1.
    pub east: [TimeForm; 3],
    /// The direction to the north, of length 1.
    pub north: [TimeForm; 3],
    /// The direction up, square to the ellipsoid, of length 1.
    pub up: [TimeForm; 3],
}
