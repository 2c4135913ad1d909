// What the files of a prediction say.

use raim_model::{Almanac, Limits, Outage};
use route_interp::Route;

/// What four accepted files say: all that a prediction hangs on.
#[derive(Drop)]
pub struct FlightFiles {
    pub limits: Limits,
    pub route: Route,
    /// In the order of the file.
    pub outages: Vec<Outage>,
    /// One to eight, in the order of the file.
    pub almanacs: Vec<Almanac>,
}
