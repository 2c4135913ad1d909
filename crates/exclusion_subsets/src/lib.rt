//! The test of slopes of a list of rows over a piece of time and of each list without one of them, for fault exclusion, horizontally
//! or vertically.
//!
//! The contracts fix each answer by the definitions in `slope_laws`.
#![tactic(auto)]

mod exclusion;
mod pairs;

pub use exclusion::exclude;
