//! Reading for a chart: the report of a flight, or the text of a fleet, as what a chart shows.
#![tactic(auto)]

mod begins;
mod block;
mod fleet;
mod flight;
mod laws;
mod reading;
mod reason;
mod refusal;

pub use laws::{a_chart_text_has_one_reading, what_a_fleet_prints_is_read};
pub use reading::read_chart;
