// The hours below the band of a flight.
ghost use Rattle.std.specs.Prelude.{◌≡◌, ◌≤◌, ◌*◌, pos, ◌≤ℤ◌, ◌++◌, OnOk};
ghost use Rattle.report_chart.specs.Clock.{hour_ms};
ghost use Rattle.report_chart.specs.Hours.{hour_from, hour_until, mark, hour_mark, hours, IsFlightSpan};

use crate::clock::{HOUR_MS, two_digits};
use crate::place::place;
use crate::push::{push, push_number};
use raim_model::Span;
use std::alloc::AllocError;

fn hour_from(t: i64) -> u64
    ensures { result ≡ hour_from t }
{
    (t.unsigned_abs() + (HOUR_MS - 1)) / HOUR_MS
}

fn hour_until(t: i64) -> u64
    ensures { result ≡ hour_until t }
{
    t.unsigned_abs() / HOUR_MS
}

fn push_mark(text: &mut Vec<u8>, x: u64, hour: u64) -> Result<(), AllocError>
    ensures { OnOk result (text.new.items ≡ text.old.items ++ mark x hour) }
{
    push(text, b"<li style=--x:")?;
    push_number(text, x)?;
    push(text, b">")?;
    push(text, &two_digits(hour % 24))?;
    push(text, b"\n")
}

fn push_hour(text: &mut Vec<u8>, span: Span, hour: u64) -> Result<(), AllocError>
    requires span { IsFlightSpan span }
    requires after { span.first ≤ℤ pos (hour_ms * hour) }
    requires before { pos (hour_ms * hour) ≤ℤ span.end }
    ensures { OnOk result (text.new.items ≡ text.old.items ++ hour_mark span hour) }
{
    push_mark(text, place(span, (HOUR_MS * hour) as i64), hour)
}

pub(crate) fn push_hours(text: &mut Vec<u8>, span: Span) -> Result<(), AllocError>
    requires { IsFlightSpan span }
    ensures { OnOk result (text.new.items ≡ text.old.items ++ hours span) }
{
    push(text, b"<ol class=hours>\n")?;
    for hour in hour_from(span.first)..hour_until(span.end) + 1 {
        push_hour(text, span, hour)?;
    }
    push(text, b"</ol>\n<p class=utc>hours of UTC\n")
}
