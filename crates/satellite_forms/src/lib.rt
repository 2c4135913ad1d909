//! The place of a satellite over a piece of time, as time forms that hold the interval place of each millisecond.
//!
//! The contracts fix each answer by the definitions in `specs/`: the steps of `orbit_forms`, each where its numbers fit 64
//! bits, and otherwise none.
#![tactic(auto)]

mod angles;
mod place;
mod satellite;

pub use satellite::position;
