//! The files of a prediction: limits, route, outages and almanacs, read from a desk in this order, and the
//! cause of every other answer.
#![tactic(auto)]

mod files;
mod one_file;
mod paths;
mod read;
mod stop;
mod sure;

pub use files::FlightFiles;
pub use paths::FlightPaths;
pub use read::read_files;
pub use stop::Stop;
pub use sure::read_files_surely;
