//! Laws of Kepler's equation over intervals: the definition in `specs/EccentricSine` holds each sine and cosine of each
//! eccentric anomaly that the model admits, at every level, gives wider answers for wider inputs, and answers that are
//! not too wide; and the ends of the anomalies are the greatest and the least numbers that pass their tests. There is no
//! code: each function is empty, and its contract is a law.
#![tactic(auto)]

mod laws;

pub use laws::{anomalies_are_enclosed, anomalies_exist, ends_are_found, mean_anomaly_rises};
