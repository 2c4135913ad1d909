//! The test of slopes in time forms, for fault detection and fault exclusion: the definitions, and the laws that what it tells of a
//! piece is so of the written test at each time of the piece. There is no code: each function is empty, and its contract is a law.
#![tactic(auto)]

mod laws;

pub use laws::{lists_of_forms_tell, slopes_of_forms_tell};
