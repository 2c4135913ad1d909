// What is shown of a flight.
ghost use Rattle.std.specs.Prelude.{◌≡◌, ◌++◌, OnOk, All};
ghost use Rattle.gps_week.specs.GpsTime.{IsInstant, SpellsInstant};
ghost use Rattle.report_chart.specs.Appended.{Appended};
ghost use Rattle.report_chart.specs.Band.{IsWithin};
ghost use Rattle.report_chart.specs.Chart.{span_of, AreRunsOf, IsFlight};
ghost use Rattle.report_chart.specs.Hours.{IsFlightSpan};
ghost use Rattle.report_chart.specs.Page.{IsSentence, details, ShowsRuns, ShowsFlight};
ghost use Rattle.report_chart.specs.Totals.{AreCountable};

use crate::band::push_band;
use crate::gaps::push_gaps;
use crate::hours::push_hours;
use crate::push::push;
use crate::span::span_of;
use crate::totals::push_totals;
use gps_week::utc_text;
use raim_model::{Run, Span};
use std::alloc::{AllocError, Global};

fn push_time(text: &mut Vec<u8>, t: i64) -> Result<(), AllocError>
    requires { IsInstant 0 t }
    ensures { OnOk result (Appended (λ more. SpellsInstant more 0 t) text.old.items text.new.items) }
{
    push(text, utc_text(t, 0).as_str().as_bytes())
}

fn push_sentence(text: &mut Vec<u8>, span: Span) -> Result<(), AllocError>
    requires first { IsInstant 0 span.first }
    requires end { IsInstant 0 span.end }
    ensures { OnOk result (Appended (IsSentence span) text.old.items text.new.items) }
{
    push(text, b"<p>From <time>")?;
    push_time(text, span.first)?;
    push(text, b"</time> to <time>")?;
    push_time(text, span.end)?;
    push(text, b"</time>.\n")
}

fn push_details(
    alloc: Global,
    text: &mut Vec<u8>,
    span: Span,
    runs: &[Run],
) -> Result<(), AllocError>
    requires span { IsFlightSpan span }
    requires within { All (IsWithin span) runs.now }
    requires countable { AreCountable runs.now }
    ensures { OnOk result (text.new.items ≡ text.old.items ++ details span runs.now) }
{
    push_band(text, span, runs)?;
    push_hours(text, span)?;
    push_totals(text, span, runs)?;
    push_gaps(alloc, text, runs)
}

fn push_runs(alloc: Global, text: &mut Vec<u8>, span: Span, runs: &[Run]) -> Result<(), AllocError>
    requires span { span_of runs.now ≡ Some span }
    requires runs { AreRunsOf span runs.now }
    ensures { OnOk result (Appended (ShowsRuns runs.now span) text.old.items text.new.items) }
{
    push_sentence(text, span)?;
    push_details(alloc, text, span, runs)
}

pub(crate) fn push_flight(alloc: Global, text: &mut Vec<u8>, runs: &[Run]) -> Result<(), AllocError>
    requires { IsFlight runs.now }
    ensures { OnOk result (Appended (ShowsFlight runs.now) text.old.items text.new.items) }
{
    match span_of(runs) {
        Some(span) => push_runs(alloc, text, span, runs),
        None => push(text, b"<p>The report has no runs.\n"),
    }
}
