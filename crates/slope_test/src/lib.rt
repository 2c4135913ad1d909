//! The test of slopes of one list of rows over a piece of time, for fault detection, horizontally or vertically.
//!
//! The contracts fix each answer by the definitions in `slope_laws`.
#![tactic(auto)]

mod detection;
mod determinants;
mod marks;
mod slope;
mod tally;

pub use detection::{detect, detect_by_sums};
pub use determinants::Determinants;
pub use marks::Marks;
