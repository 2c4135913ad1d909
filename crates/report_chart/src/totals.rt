// The totals of a flight.
ghost use Rattle.std.specs.Prelude.{◌≡◌, ◌+◌, ◌*◌, ◌≤◌, ◌++◌, if◌then◌else◌, length, OnOk};
ghost use Rattle.raim_model.specs.Constants.{day_ms};
ghost use Rattle.report_chart.specs.Band.{ms_between};
ghost use Rattle.report_chart.specs.Kinds.{has_kind};
ghost use Rattle.report_chart.specs.Totals.{runs_of, ms_added, ms_of, total_row, kind_row, totals, IsShort, AreCountable};

use crate::clock::push_lasting;
use crate::kind::Kind;
use crate::place::ms_of_run;
use crate::push::{push, push_number};
use raim_model::{Run, Span};
use std::alloc::AllocError;

// How many runs, and how long they last.
#[derive(Clone, Copy)]
struct Total {
    runs: u64,
    ms: u64,
}

impl Total {
    // One run more, if it is of the kind.
    fn with(self, kind: Kind, run: &Run) -> Total
        requires short { IsShort run.now }
        requires runs { self.runs ≤ day_ms }
        requires ms { self.ms ≤ day_ms * day_ms }
        ensures runs { result.runs ≡ self.runs + (if has_kind kind run.now then 1 else 0) }
        ensures ms { result.ms ≡ self.ms + ms_added kind run.now }
    {
        if kind.has(run) {
            Total {
                runs: self.runs + 1,
                ms: self.ms + ms_of_run(run),
            }
        } else {
            self
        }
    }
}

// Of the runs of a kind.
fn total_of(runs: &[Run], kind: Kind) -> Total
    requires { AreCountable runs.now }
    ensures runs { result.runs ≡ runs_of kind runs.now }
    ensures ms { result.ms ≡ ms_of kind runs.now }
{
    let mut total = Total { runs: 0, ms: 0 };
    for run in runs {
        total = total.with(kind, run);
    }
    total
}

// Of the whole flight.
fn whole_of(span: Span, runs: &[Run]) -> Total
    ensures runs { result.runs ≡ length runs.now }
    ensures ms { result.ms ≡ ms_between span.first span.end }
{
    Total {
        runs: runs.len() as u64,
        ms: span.end.abs_diff(span.first),
    }
}

fn push_row(text: &mut Vec<u8>, name: &[u8], total: Total) -> Result<(), AllocError>
    ensures { OnOk result (text.new.items ≡ text.old.items ++ total_row name.now total.runs total.ms) }
{
    push(text, b"<tr><td>")?;
    push(text, name)?;
    push(text, b"<td>")?;
    push_number(text, total.runs)?;
    push(text, b"<td>")?;
    push_lasting(text, total.ms)?;
    push(text, b"\n")
}

fn push_kind(text: &mut Vec<u8>, kind: Kind, runs: &[Run]) -> Result<(), AllocError>
    requires { AreCountable runs.now }
    ensures { OnOk result (text.new.items ≡ text.old.items ++ kind_row kind runs.now) }
{
    push_row(text, kind.word(), total_of(runs, kind))
}

pub(crate) fn push_totals(text: &mut Vec<u8>, span: Span, runs: &[Run]) -> Result<(), AllocError>
    requires { AreCountable runs.now }
    ensures { OnOk result (text.new.items ≡ text.old.items ++ totals span runs.now) }
{
    push(text, b"<table>\n<tr><th>Kind<th>Runs<th>Time\n")?;
    push_kind(text, Kind::Available, runs)?;
    push_kind(text, Kind::Unavailable, runs)?;
    push_kind(text, Kind::Undecided, runs)?;
    push_row(text, b"Whole flight", whole_of(span, runs))?;
    push(text, b"</table>\n")
}
