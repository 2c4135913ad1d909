//! Cases of texts in memory, and their pieces judged one by one: on them `piece_verdict` is tried.
#![tactic(auto)]

mod piece;
mod texts;

pub use piece::{judge_within, looks_within};
pub use texts::case_of_texts;

#[cfg(test)]
mod tests;
