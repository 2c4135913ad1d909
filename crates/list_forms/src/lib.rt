//! The test of a list of rows in time forms, on 64 and 128 bits: fault detection and fault exclusion, across and up.
//!
//! What is told is what the definitions of `slope_forms` tell; where a number on the way leaves 64 bits nothing is told.
#![tactic(auto)]

mod detection;
mod exclusion;
mod lines;
mod slope;
mod told;

pub use detection::detect;
pub use exclusion::exclude;
pub use told::Told;
