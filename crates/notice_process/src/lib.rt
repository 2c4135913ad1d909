//! What a process of the program `notice` does with its words, its database, its files and its streams.
#![tactic(auto)]

mod process;

pub use process::{exit_code, run_process, run_words};
