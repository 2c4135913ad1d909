// What a chart shows.
use raim_model::Run;

/// What a chart shows, in milliseconds of UTC since 1980-01-06T00:00Z.
#[derive(Debug, Drop)]
pub enum Chart {
    /// The runs of one flight.
    Flight(Vec<Run>),
    /// The routes of a fleet, in their order.
    Fleet(Vec<Row>),
}

/// One route of a fleet.
#[derive(Debug, Drop)]
pub enum Row {
    /// The runs of its flight.
    Flight(Vec<Run>),
    /// The line that says why there are none, without its line feed: any bytes.
    Reason(Vec<u8>),
}
