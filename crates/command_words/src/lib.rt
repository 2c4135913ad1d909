//! The words of the command lines: those of `raim`, read by `clap`, the files of a prediction or the number of a demonstration; and those of
//! `raim_vert`, the files of a prediction and a vertical alert limit.
#![tactic(auto)]

mod demonstration;
mod laws;
mod prediction;
mod program;
mod request;
mod vertical;
mod words;

pub use laws::plain_words_are_read;
pub use program::Program;
pub use request::{Request, VerticalLimit};
pub use vertical::read_vertical_request;
pub use words::{read_request, read_words};
