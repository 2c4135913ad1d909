//! The sine and the cosine of turns, as intervals that hold what the model admits at every level.
//!
//! The contracts fix each answer by the definition in `trig_laws`. The code takes no division but by small constants:
//! within a quarter turn every quantity fits 64 bits, and each end is one chain of six products.
#![tactic(auto)]

mod eighth;
mod interval_of_turns;
mod nested;
mod pair;
mod points;
mod quarters;
mod radians;
mod square;
mod turns;
mod unit_iv;

pub use points::{sine_high, sine_low};
pub use turns::sin_cos;
