//! How a receiver sees a satellite over intervals: surely above the mask of elevation, surely not, or undecided.
//!
//! The contract fixes each answer by the definitions in `site_laws`.
#![tactic(auto)]

mod components;
mod decision;
mod direction;
mod line;
mod looks;
mod sight;

pub use looks::look;
pub use sight::Sight;
