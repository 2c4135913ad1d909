//! Laws of the sine and cosine over intervals of turns: the definition in `specs/SinCos` holds each sine and cosine that
//! the model admits, at every level, gives wider answers for wider turns, and answers that are not too wide. There is no
//! code: each function is empty, and its contract is a law.
#![tactic(auto)]

mod laws;

pub use laws::{turns_are_enclosed, turns_repeat};
