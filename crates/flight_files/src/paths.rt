// The paths of the files of a prediction.

/// The paths of the four files that a prediction reads.
#[derive(Clone, Copy)]
pub struct FlightPaths<'a> {
    pub limits: &'a str,
    pub almanac: &'a str,
    pub outages: &'a str,
    pub route: &'a str,
}
