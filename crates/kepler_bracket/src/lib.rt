//! Kepler's equation over intervals: the sine and the cosine of the eccentric anomaly, which hold what the model admits at
//! every level.
//!
//! The contracts fix each answer by the definition in `kepler_laws`, and its ends also as the greatest and the least number
//! that passes a test, so the search for them is free: each probe is tested as the definition tests it, and the next one is
//! about where the equation has its solution.
#![tactic(auto)]

mod anomaly;
mod eccentricity;
mod ends;
mod lead;
mod mean;
mod mean_tests;
mod search;
mod wraps;

pub use ends::anomalies;
pub use wraps::ecc_sin_cos;
