//! Exact fractions, in which contracts speak of what the program's whole numbers stand for. There is no code: each
//! function is a law, which says what the definitions in `specs/` are.
#![tactic(auto)]

pub mod field;
pub mod floor;
pub mod ratio;
pub mod worked;
