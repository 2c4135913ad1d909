//! Sines, cosines and eccentric anomalies of time forms: what each call answers holds what the interval call answers at each
//! millisecond of the piece.
//!
//! The contracts fix each answer by the definitions in `orbit_forms`, whose laws say what they hold. The sines are found at the
//! middle of the piece alone.
#![tactic(auto)]

mod anomalies;
mod at_turns;
mod brackets;
mod lines;
mod numbers;
mod sine_cosine;
mod turns;

pub use anomalies::ecc_sin_cos;
pub use at_turns::{sines_that_stay, steady, steady_wide};
pub use sine_cosine::SineCosine;
pub use turns::sin_cos;
