// What is kept of a record.
use fix_interval::Iv;

/// The elements of a record, in units of 2^-38 where no other is named.
#[derive(Clone, Copy)]
pub struct Kept {
    /// The semi-major axis in megametres.
    pub semi_major_axis: Iv,
    /// The mean motion in turns per millisecond, in units of 2^-76.
    pub motion: Iv,
    pub eccentricity: Iv,
    /// The same over the radians of a turn.
    pub in_turns: Iv,
    /// The semi-minor axis in megametres.
    pub semi_minor_axis: Iv,
    /// The mean anomaly at the time of applicability, in turns.
    pub mean_anomaly: Iv,
    /// The longitude of the node at the week's begin, in turns.
    pub node: Iv,
    pub sin_perigee: Iv,
    pub cos_perigee: Iv,
    pub sin_inclination: Iv,
    pub cos_inclination: Iv,
    /// The drift of the node relative to the turning Earth, in turns per millisecond, in units of 2^-76.
    pub drift: Iv,
    /// The Earth's turn from the start of the week up to the time of applicability, in units of 2^-76.
    pub turned: Iv,
}
