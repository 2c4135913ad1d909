//! The command `notice`: its words, what they do with a book and with files of messages, and how it ends.
#![tactic(auto)]

mod file;
mod note;
mod run;
mod status;
mod words;

pub use run::nanu_run;
pub use status::NanuStatus;
pub use words::makes_book;
