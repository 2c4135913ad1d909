//! The texts of a fleet: a file of several routes, cut at its `---` lines, and the text that has a block for each.
#![tactic(auto)]

mod head;
mod route;

pub use head::push_head;
pub use route::{excess_separator, split_route};
