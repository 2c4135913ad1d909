//! Laws of the verdict on a piece of time of a case's flight: it is right in every solution, it stays on each piece inside, there is a
//! solution that it speaks of, the mask leaves a millisecond open only near equality, and the runs of the flight say what is so.
//!
//! The functions are empty: their contracts state what is proved.
#![tactic(auto)]

mod laws;

pub use laws::{
    certain_verdicts_are_right, certain_verdicts_settle, runs_are_a_forecast, sights_are_enclosed,
    solutions_exist, undecided_masks_are_near, weights_are_enclosed,
};
