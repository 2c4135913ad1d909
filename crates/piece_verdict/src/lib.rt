//! The verdict on a piece of time of a flight: `FlightJudge` judges pieces for `time_split`, held against one alert limit or another.
#![tactic(auto)]

mod alert;
mod case;
mod constellation;
mod cuts;
mod factor;
mod found;
mod here;
mod judge;
mod known;
mod legs;
mod looks;
mod satellite;
mod seen;
mod sights;
mod slopes;
mod usable;
mod vertical;
mod views;
mod weight;

pub use alert::Alert;
pub use case::Case;
pub use judge::FlightJudge;
pub use known::Known;
pub use looks::Looks;
