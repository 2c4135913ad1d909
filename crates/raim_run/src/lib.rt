//! The top call: words and files in, the flight's intervals out, and the cause of every answer.
#![tactic(auto)]

mod answer;
mod ending;
mod files;
mod note;
mod predict;
mod process;
mod program;
mod runs;
mod status;
mod sure;
mod text;
mod top;

pub use ending::Ending;
pub use note::{Note, note_line};
pub use predict::{predict_texts, predict_to_ending};
pub use process::{exit_code, run_process, run_program_process, run_program_to_end};
pub use program::run_program;
pub use status::Status;
pub use sure::run_surely;
pub use top::run;
