//! The demonstration: the four texts that it judges, made from its number, and the line that it prints.
#![tactic(auto)]

mod almanac;
mod files;
mod laws;
mod summary;

pub use files::{DemoFiles, demo_files};
pub use laws::milliseconds_add_up;
pub use summary::print_summary;
