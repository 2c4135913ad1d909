// How a satellite is seen.

use fix_interval::Iv;

/// How a satellite is seen by a receiver, over intervals.
#[derive(Clone, Copy)]
pub enum Sight {
    /// At least one megametre away and not below the mask, whatever is chosen inside the intervals. The direction is given
    /// by its parts to the east, to the north and up, in units of 2^-38.
    Visible([Iv; 3]),
    /// Nearer or below the mask, whatever is chosen.
    Hidden,
    /// Neither is certain.
    Straddle,
}
