// What the words ask for.
ghost use Rattle.raim_model.specs.Ranges.{IsLength};

/// A vertical alert limit, from 1 to 1,000,000,000 mm.
#[derive(Clone, Copy, Debug, PartialEq, Eq)]
pub struct VerticalLimit {
    pub mm: u32,
    ghost length: { IsLength mm },
}

/// What the words of a command line ask for.
#[derive(Clone, Copy, Debug, PartialEq, Eq)]
pub enum Request<'a> {
    /// The prediction of a flight, from the files under these paths.
    Predict {
        limits: &'a str,
        almanac: &'a str,
        outages: &'a str,
        route: &'a str,
    },
    /// The demonstration of that number.
    Demo {
        number: u32,
    },
    /// The prediction of a flight's vertical verdicts, from the files under these paths.
    PredictUp {
        limits: &'a str,
        almanac: &'a str,
        outages: &'a str,
        route: &'a str,
        vertical: VerticalLimit,
    },
}
