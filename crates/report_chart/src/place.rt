// Places on the band of a flight, and how long its runs last.
ghost use Rattle.std.specs.Prelude.{◌≡◌, ◌≤◌, ◌<ℤ◌};
ghost use Rattle.raim_model.specs.Constants.{day_ms};
ghost use Rattle.report_chart.specs.Band.{ms_between, ms_of_run, place};

use raim_model::{Run, Span};

const BAND_UNITS: u64 = 100_000;

// Where a time of the flight stands on its band, whose width is 100,000 units.
pub(crate) fn place(span: Span, t: i64) -> u64
    requires forward { span.first <ℤ span.end }
    requires short { ms_between span.first t ≤ day_ms }
    ensures { result ≡ place span t }
{
    BAND_UNITS * t.abs_diff(span.first) / span.end.abs_diff(span.first)
}

// How many milliseconds a run lasts.
pub(crate) fn ms_of_run(run: &Run) -> u64
    ensures { result ≡ ms_of_run run.now }
{
    run.end.abs_diff(run.first)
}
