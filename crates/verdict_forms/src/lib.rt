//! The verdict of a piece of time by what forms tell of the satellites: the definitions, and the law that it is the written verdict of
//! each millisecond of the piece. There is no code: each function is empty, and its contract is a law.
#![tactic(auto)]

mod laws;

pub use laws::{sights_of_forms_hold, verdicts_of_forms_tell};
