//! Reports: the text of a flight's runs, printed and read back.
#![tactic(auto)]

mod cut;
mod laws;
mod line;
mod printing;
mod reading;
mod verdict_form;
mod verdict_text;

pub use laws::printing_and_reading_are_inverse;
pub use printing::print_report;
pub use reading::read_report;
pub use verdict_text::words_of_verdict;
