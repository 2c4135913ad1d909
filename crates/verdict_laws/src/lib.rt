//! Laws of the verdict on a piece of time: it is right in every solution, it stays on each piece inside, there is a solution that it
//! speaks of, and the mask leaves a millisecond open only near equality. They are laws of any test of slopes that encloses and is
//! isotone (`slope_laws`, `specs/Hold`) and of any sight that does (`specs/Hold`).
//!
//! The functions are empty: their contracts state what is proved.
#![tactic(auto)]

mod laws;

pub use laws::{
    certain_verdicts_are_right, certain_verdicts_settle, solutions_exist, undecided_masks_are_near,
};
