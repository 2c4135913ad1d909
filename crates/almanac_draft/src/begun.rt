// A record that has begun.
use raim_model::AlmRecord;

/// What the lines so far say of an almanac and of the record that is current.
#[derive(Clone, Copy, Debug, PartialEq, Eq)]
pub struct Begun {
    /// How many records the almanac says it has, where it says so.
    pub declared: Option<u8>,
    /// The time of applicability in its week, in milliseconds, for a format whose week comes later.
    pub time: u32,
    /// The record, whose values stand for themselves once their lines are read.
    pub values: AlmRecord,
}
