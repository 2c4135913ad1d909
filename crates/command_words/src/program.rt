// The programs whose words are read here.

/// A program that predicts a flight.
#[derive(Clone, Copy, Debug, PartialEq, Eq)]
pub enum Program {
    /// `raim predict LIMITS ALMANAC OUTAGES ROUTE` or `raim demo NUMBER`: the horizontal verdicts.
    Raim,
    /// `raim_vert LIMITS ALMANAC OUTAGES ROUTE VERTICAL`: the vertical verdicts.
    RaimVert,
}
