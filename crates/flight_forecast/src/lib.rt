//! The flight's forecast: from what accepted files give to the runs of the flight's verdicts.
#![tactic(auto)]

mod against;
mod laws;
mod splits;

pub use against::forecast_against;
pub use laws::{a_flight_has_an_answer, runs_cover_a_span_in_order};
pub use piece_verdict::Alert;
