//! Time forms of sines, cosines, eccentric anomalies and a satellite's place: the definitions, and their laws. There is no
//! code: each function is empty, and its contract is a law.
#![tactic(auto)]

mod laws;

pub use laws::{anomalies_of_forms_hold, positions_of_forms_hold, sines_of_forms_hold};
