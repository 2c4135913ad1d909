//! Laws of the formulas that a solution is made of: how an orbit is turned into the axes of the Earth, how a receiver's directions stand
//! on the ellipsoid, which satellites are usable, what a weight and a bias do, and verdicts of satellites on the axes.
//!
//! The functions are empty: their contracts state what is proved. A sine and a cosine of the model are any two fractions near the
//! series, so the laws have the sum of their squares where geometry has 1.
#![tactic(auto)]

mod laws;
mod verdicts;

pub use laws::{
    nodes_drift, orbits_turn_with_the_earth, outages_hold_from_start_to_end,
    planes_turn_to_the_node, receivers_stand_on_the_ellipsoid, weights_are_looked_up,
};
pub use verdicts::{
    biases_are_looked_up, factors_are_squared_ratios, healthy_satellites_without_outage_are_usable,
    verdicts_of_satellites_on_the_axes,
};
