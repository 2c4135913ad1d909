//! The call over a fleet: limits, almanacs and outages once, several routes, and a block of text for each.
#![tactic(auto)]

mod block;
mod files;
mod fleet;
mod laws;
mod note;
mod process;
mod texts;
mod words;
mod writing;

pub use fleet::run_fleet;
pub use laws::a_block_stands_alone;
pub use process::{run_fleet_process, run_fleet_to_end};
