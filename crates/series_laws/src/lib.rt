//! Laws of the model's sines and cosines: what it admits at any level lies from -1 to 1, near the sum of seven terms,
//! moves slowly with the angle, is there at every angle, and the same a turn on. There is no code: each function is
//! empty, and its contract is a law.
#![tactic(auto)]

mod laws;

pub use laws::{
    seven_terms_suffice, sines_exist, sines_lie_within_one, sines_move_slowly, sines_repeat,
};
