//! The top call of the vertical verdicts: words and files in, the intervals of the flight's vertical verdicts out, and the cause of every
//! answer.
#![tactic(auto)]

mod laws;
mod process;
mod top;

pub use laws::vertical_answers_say_what_is_so;
pub use process::run_vertical_process;
pub use top::run_vertical;
