// What is found of the satellites over a piece of time.

/// As `Looks`, where the rows of the visible satellites are kept apart.
#[derive(Clone, Copy)]
pub(crate) enum Found {
    /// Fewer satellites are visible than the test asks for, throughout.
    Few,
    /// It is not known whether the satellite with this PRN is visible.
    Straddle(u8),
    /// The rows are those of the visible satellites.
    Rows,
}
