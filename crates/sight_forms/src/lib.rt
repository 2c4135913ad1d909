//! How a satellite is seen over a piece of time, in time forms, on 64 and 128 bits.
//!
//! What is told is what the definitions of `verdict_forms` tell of one satellite; where a number on the way leaves its range nothing
//! is told.
#![tactic(auto)]

mod components;
mod decision;
mod direction;
mod line;
mod looks;
mod parts;
mod row;
mod time_sight;

pub use looks::look;
pub use time_sight::TimeSight;
