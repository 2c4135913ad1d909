// Plain data of notices.

/// The end of UTC here: the first millisecond after the year 9999, since the GPS epoch.
pub const END_OF_UTC: i64 = 253_086_336_000_000;

/// A notice about the outage of a satellite. Times are milliseconds of UTC since the GPS epoch.
#[derive(Clone, Copy, Debug, PartialEq, Eq)]
pub enum Notice {
    /// An outage is announced.
    Add {
        number: u32,
        prn: u8,
        start: i64,
        end: Option<i64>,
    },
    /// The outage that `target` announced has other times.
    Reschedule {
        number: u32,
        target: u32,
        start: i64,
        end: Option<i64>,
    },
    /// The outage that `target` announced does not take place.
    Cancel {
        number: u32,
        target: u32,
    },
}

/// An announced outage in effect: the number and the PRN of its `Add`, and the times that hold now.
#[derive(Clone, Copy, Debug, PartialEq, Eq)]
pub struct Live {
    pub number: u32,
    pub prn: u8,
    pub start: i64,
    pub end: Option<i64>,
}

/// An outage with times of UTC, in milliseconds since the GPS epoch: from `start`, up to `end` where it has one.
#[derive(Clone, Copy, Debug, PartialEq, Eq)]
pub struct UtcOutage {
    pub prn: u8,
    pub start: i64,
    pub end: Option<i64>,
}
