// What a look at a satellite tells.

use matrix_forms::FormRow;

/// What is told of how a satellite is seen at each millisecond of a piece of time.
#[derive(Clone, Copy)]
pub enum TimeSight {
    /// It is above the mask, and this is the form of its row.
    Visible(FormRow),
    /// It is not.
    Hidden,
    /// Nothing is told.
    Unsure,
}
