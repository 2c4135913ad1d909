// Which way a position is shifted.

/// Which shift of the position a test of slopes holds against its alert limit.
#[derive(Clone, Copy, Debug, PartialEq, Eq)]
pub enum Shift {
    /// Across: to the east and to the north.
    Horizontal,
    /// Up or down.
    Vertical,
}
