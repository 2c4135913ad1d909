//! SEM almanacs.
#![tactic(auto)]

mod field;
mod laws;
mod line;
mod reader;

pub use laws::{an_almanac_has_one_reading, an_almanac_means_its_records};
pub use line::SemLine;
pub use reader::{SemReader, read_sem};
