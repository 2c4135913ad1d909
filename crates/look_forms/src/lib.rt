//! How a satellite is seen in time forms: the definitions, and the laws that what they tell of a piece of time is so of the written
//! look at each time of the piece, and that the row of its direction lies in the forms. There is no code: each function is empty,
//! and its contract is a law.
#![tactic(auto)]

mod laws;

pub use laws::{looks_of_forms_tell, rows_of_forms_hold};
