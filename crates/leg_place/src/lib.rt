//! Where a flight is over some milliseconds of a leg, as intervals that hold its place at each of them.
//!
//! The contracts fix each answer by the definitions in `site_laws`.
#![tactic(auto)]

mod piece;
mod place;
mod place_box;

pub use place::place_over;
pub use place_box::PlaceBox;
