// The span of a flight.
ghost use Rattle.std.specs.Prelude.{◌≡◌};
ghost use Rattle.report_chart.specs.Chart.{span_of};

use raim_model::{Run, Span};

// From the start of the first run to the end of the last.
pub(crate) fn span_of(runs: &[Run]) -> Option<Span>
    ensures { result ≡ span_of runs.now }
{
    let Run { first, .. } = *runs.first()?;
    let Run { end, .. } = *runs.last()?;
    Some(Span { first, end })
}
