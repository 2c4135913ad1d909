//! The call that reads a report or the text of a fleet and writes its page.
#![tactic(auto)]

mod chart;
mod file;
mod note;
mod page;
mod process;
mod status;
mod words;

pub use chart::run_chart;
pub use process::{run_chart_process, run_chart_to_end};
pub use status::ChartStatus;
