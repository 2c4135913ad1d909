// How answering what is asked ends.

use crate::Status;

/// A status, and the leap seconds under which its note has a time: those of the limits, or 0 where it has none.
#[derive(Clone, Copy, Debug)]
pub struct Ending {
    pub status: Status,
    pub leap: u8,
}
