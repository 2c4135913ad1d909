//! What the almanac formats share: lines that say a record, one behind the other, and the records of an
//! almanac.
#![tactic(auto)]

mod begun;
mod count;
mod draft;
mod laws;
mod line;
mod reader;

pub use begun::Begun;
pub use draft::AlmanacDraft;
pub use laws::{an_almanac_has_one_reading, an_almanac_means_its_records};
pub use line::AlmanacLine;
pub use reader::{FormReader, read_form};
