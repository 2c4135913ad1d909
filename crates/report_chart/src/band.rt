// The band of a flight: a bar for each of its runs.
ghost use Rattle.std.specs.Prelude.{◌≡◌, ◌++◌, OnOk, All};
ghost use Rattle.report_chart.specs.Band.{bar_style, bar_title, bar, band, IsWithin};

use crate::clock::push_clock;
use crate::kind::Kind;
use crate::place::place;
use crate::push::{push, push_number};
use raim_model::{Run, Span};
use std::alloc::AllocError;

fn push_bar_style(text: &mut Vec<u8>, kind: Kind, x: u64, width: u64) -> Result<(), AllocError>
    ensures { OnOk result (text.new.items ≡ text.old.items ++ bar_style kind x width) }
{
    push(text, b"<li class=")?;
    push(text, kind.class())?;
    push(text, b" style=--x:")?;
    push_number(text, x)?;
    push(text, b";--w:")?;
    push_number(text, width)
}

fn push_bar_title(text: &mut Vec<u8>, kind: Kind, first: i64, end: i64) -> Result<(), AllocError>
    ensures { OnOk result (text.new.items ≡ text.old.items ++ bar_title kind first end) }
{
    push(text, b" title=\"")?;
    push_clock(text, first)?;
    push(text, b" to ")?;
    push_clock(text, end)?;
    push(text, b" ")?;
    push(text, kind.word())?;
    push(text, b"\">\n")
}

fn push_bar(text: &mut Vec<u8>, span: Span, run: &Run) -> Result<(), AllocError>
    requires { IsWithin span run.now }
    ensures { OnOk result (text.new.items ≡ text.old.items ++ bar span run.now) }
{
    let Run {
        first,
        end,
        verdict,
    } = *run;
    let kind = Kind::of(verdict);
    let x = place(span, first);
    push_bar_style(text, kind, x, place(span, end) - x)?;
    push_bar_title(text, kind, first, end)
}

pub(crate) fn push_band(text: &mut Vec<u8>, span: Span, runs: &[Run]) -> Result<(), AllocError>
    requires { All (IsWithin span) runs.now }
    ensures { OnOk result (text.new.items ≡ text.old.items ++ band span runs.now) }
{
    push(text, b"<ul class=band>\n")?;
    for run in runs {
        push_bar(text, span, run)?;
    }
    push(text, b"</ul>\n")
}
