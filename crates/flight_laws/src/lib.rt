//! Laws of a case's flight: each of its milliseconds lies on one leg, nothing changes between two neighbouring cuts, and too few usable
//! satellites are too few in every solution.
//!
//! The functions are empty: their contracts state what is proved.
#![tactic(auto)]

mod laws;

pub use laws::{
    cuts_part_a_flight, flights_lie_on_legs, nothing_changes_in_a_root_piece, too_few_are_too_few,
};
