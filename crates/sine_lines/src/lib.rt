//! The first-order laws of the model's sines, cosines and eccentric anomalies: how far each may leave its tangent, over
//! fractions, at any two levels and across any quarters of a turn. There is no code: each function is empty, and its
//! contract is a law.
#![tactic(auto)]

mod laws;

pub use laws::{anomalies_follow_their_lines, sines_follow_their_lines};
