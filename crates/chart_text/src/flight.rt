// The report of a flight.
ghost use Rattle.std.specs.Prelude.{◌≡◌, ◌≤ℤ◌, ◌+ℤ◌, pos, All, IfOk, IfErr, IfSome, IsNone, IfNone};
ghost use Rattle.raim_model.specs.Constants.{day_ms};
ghost use Rattle.gps_week.specs.GpsTime.{IsInstant};
ghost use Rattle.report_text.specs.Report.{IsReport, IsPrintable, IsReadable};
ghost use Rattle.report_chart.specs.Chart.{IsFlight};
ghost use Rattle.chart_text.specs.Flights.{CannotFollow, BreaksFlight};
ghost use Rattle.text_lines.specs.Reading.{number_after};
ghost use Rattle.chart_text.specs.Refusals.{IsFlightRefused};

use raim_model::{DAY_MS, Refusal, Run, TextFault, TextWhy};
use report_text::read_report;
use std::alloc::Global;

// The number of the line that has so many before it.
fn line_number(done: usize) -> u32
    ensures { result ≡ number_after done }
{
    u32::try_from(done).unwrap_or(u32::MAX).saturating_add(1)
}

// Why a run cannot follow runs that end there, in a flight from that start.
fn why_not_next(start: i64, end: i64, run: &Run) -> Option<TextWhy>
    requires { IsInstant 0 start }
    ensures some { IfSome result (CannotFollow start end run.now) }
    ensures none { IfNone result ((run.now.first ≡ end) × (run.now.end ≤ℤ (start +ℤ pos day_ms))) }
{
    if run.first != end {
        return Some(TextWhy::NotRising);
    }
    if run.end > start + DAY_MS {
        return Some(TextWhy::TooLong);
    }
    None
}

// The first run that is no part of a flight with those before it, by its line.
fn first_break(runs: &[Run]) -> Option<TextFault>
    requires printable { All (IsPrintable 0) runs.now }
    requires readable { All IsReadable runs.now }
    ensures some { IfSome result (λ fault. BreaksFlight runs.now fault.line fault.why) }
    ensures none { IfNone result (IsFlight runs.now) }
{
    let [first, ..] = runs else {
        return None;
    };
    let start = first.first;
    let mut end = start;
    for (done, run) in runs.iter().enumerate() {
        if let Some(why) = why_not_next(start, end, run) {
            let line = line_number(done);
            return Some(TextFault { line, why });
        }
        end = run.end;
    }
    None
}

// The runs of a flight, from its report.
pub(crate) fn read_flight(alloc: Global, text: &[u8]) -> Result<Vec<Run>, Refusal>
    ensures report { IfOk result (λ v. IsReport 0 v.items text.now) }
    ensures flight { IfOk result (λ v. IsFlight v.items) }
    ensures refused { IfErr result (IsFlightRefused text.now) }
{
    match read_report(alloc, text, 0) {
        Ok(runs) => match first_break(&runs) {
            None => Ok(runs),
            Some(fault) => Err(Refusal::Text(fault)),
        },
        Err(refusal) => Err(refusal),
    }
}
