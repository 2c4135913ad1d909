// What is seen of the satellites over a piece of time, as a test of rows takes it.

use arrayvec::ArrayVec;
use geom_inverse::Row;

/// What is seen of the usable satellites over a piece of time.
#[derive(Drop)]
pub enum Looks {
    /// Fewer satellites are visible than the test asks for, throughout.
    Few,
    /// It is not known whether the satellite with this PRN is visible.
    Straddle(u8),
    /// The rows of the visible satellites, by rising PRN.
    Rows(ArrayVec<Row, 32>),
}
