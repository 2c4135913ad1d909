//! Texts of limits, almanacs, outages and routes, made for tests: small flights, a flight of six hours, and a whole constellation.
#![tactic(auto)]

mod satellites;
mod second;
mod six_hours;
mod whole;

pub use satellites::{AT_ONE_PLACE, EIGHT, Elements, FIVE, OVERHEAD, sem_almanac};
pub use second::{MILD, OUTAGE, OVERFLOWING, SECOND, THREE_RUNS};
pub use six_hours::{
    ELEVEN_MINUTES, SIX_HOURS, SIX_HOURS_LIMITS, SIX_HOURS_OUTAGES, TWO_SATELLITES,
};
pub use whole::constellation;
