//! Which of several almanacs is in force at a time, by the times of the almanacs, and the times at which another one is.
//!
//! A time is in milliseconds since the GPS epoch, in GPS time. The definitions stand in `raim_model`, and the laws of them
//! in `almanac_laws`.
#![tactic(auto)]

mod choice;
mod handover;

pub use choice::in_force_at;
pub use handover::handovers;
