//! Judges in memory, which count their calls: on them halving is tried and measured.
#![tactic(auto)]

mod afresh;
mod alternating;
mod counted;
mod island;

pub use afresh::{split_afresh, split_each_afresh, split_told_afresh};
pub use alternating::Alternating;
pub use counted::Counted;
pub use island::Island;

#[cfg(test)]
mod tests;
