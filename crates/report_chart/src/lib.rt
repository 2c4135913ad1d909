//! The page of a chart: where on a flight RAIM is not available, for how long, and why.
#![tactic(auto)]

mod band;
mod chart;
mod clock;
mod fleet;
mod flight;
mod gaps;
mod head;
mod hours;
mod kind;
mod laws;
mod page;
mod place;
mod push;
mod reason;
mod refused;
mod span;
mod totals;

pub use chart::{Chart, Row};
pub use laws::{
    a_chart_has_one_page, bars_lie_side_by_side, hours_are_whole, pages_are_ascii,
    reasons_are_plain, the_table_has_what_is_not_available, totals_add_up,
};
pub use page::print_chart;
