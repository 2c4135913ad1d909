//! Laws of the test of slopes over a piece of time, for fault detection and fault exclusion: what it decides is right for every choice
//! of rows inside, and stays decided on rows inside. They are laws of any test of slopes that encloses and is isotone; `specs/Hold`
//! says what that is, and both shifts, horizontal and vertical, have such a test.
//!
//! The functions are empty: their contracts state what is proved.
#![tactic(auto)]

mod laws;
mod outcome;
mod shift;

pub use laws::{
    decided_tests_are_right, decided_tests_stay, few_rows_are_few, slopes_are_enclosed,
};
pub use outcome::Outcome;
pub use shift::Shift;
