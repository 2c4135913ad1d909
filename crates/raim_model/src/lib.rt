//! Plain data of the predictor, and the definitions that its contracts cite: exact, in fractions.
//!
//! `specs/` has the definitions, one subject a file. The functions of `laws` are empty: their contracts
//! state what is proved of the definitions.
#![tactic(auto)]

mod almanac;
mod decimal;
mod fault;
mod file_no;
mod laws;
mod limits;
mod outage;
mod span;
mod verdict;
mod waypoint;

pub use almanac::{AlmRecord, Almanac};
pub use decimal::{Angle, Dec};
pub use fault::{OutOfMemory, Refusal, TextFault, TextWhy};
pub use file_no::FileNo;
pub use laws::{constants_are_those_of_their_sources, decimals_are_fractions, roots_hold_below};
pub use limits::{Limits, Weight};
pub use outage::Outage;
pub use span::{DAY_MS, FARTHEST_CUT_MS, LATEST_MS, Span, WEEK_MS};
pub use verdict::{Cmp, Piece, Run, SplitFault, Verdict, Why};
pub use waypoint::Waypoint;
