// A frame as intervals.

use fix_interval::Iv;

/// Where a receiver is and how it stands: four vectors, each by its components in axes that turn with the Earth (the first
/// to the equator at longitude 0, the third to the north pole), in units of 2^-38.
#[derive(Clone, Copy)]
pub struct SiteFrame {
    /// The position, in megametres from the Earth's centre.
    pub pos: [Iv; 3],
    /// The direction to the east, of length 1.
    pub east: [Iv; 3],
    /// The direction to the north, of length 1.
    pub north: [Iv; 3],
    /// The direction up, square to the ellipsoid, of length 1.
    pub up: [Iv; 3],
}
