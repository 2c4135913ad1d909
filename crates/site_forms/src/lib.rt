//! The place of a flight on a leg and the frame of its receiver over a piece of time, as time forms that hold the interval
//! place and frame of each millisecond.
//!
//! The contracts fix each answer by the definitions in `specs/`: the steps of the interval evaluation over forms, each where its
//! numbers fit 64 bits, and otherwise none.
#![tactic(auto)]

mod directions;
mod ellipsoid;
mod leg;
mod place;
mod position;
mod receiver;
mod time_frame;
mod time_place;

pub use place::place_over;
pub use receiver::frame;
pub use time_frame::TimeFrame;
pub use time_place::TimePlace;
