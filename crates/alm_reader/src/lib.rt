//! Almanacs of either format, read line by line; and files of several.
#![tactic(auto)]

mod choice;
mod laws;
mod reader;
mod section;
mod taker;

pub use choice::Choice;
pub use laws::a_file_has_one_reading;
pub use reader::AlmanacReader;
pub use section::SectionReader;
