// The table of what is not Available.
ghost use Rattle.std.specs.Prelude.{◌≡◌, ◌++◌, IfOk, OnOk};
ghost use Rattle.std.specs.List.{list_any};
ghost use Rattle.report_chart.specs.Kinds.{has_kind};
ghost use Rattle.report_chart.specs.Gaps.{is_gap, gaps_of, longest_of, length_cell, gap_times, gap_cause, gap_row, gap_rows, advice, gaps_summary, gap_table, gaps_text};

use crate::clock::{push_clock, push_lasting};
use crate::kind::Kind;
use crate::place::ms_of_run;
use crate::push::{push, push_number};
use crate::reason::push_reason;
use raim_model::{Run, Verdict};
use std::alloc::{AllocError, Global};

// Whether a run is not Available.
fn is_gap(run: &Run) -> bool
    ensures { result ≡ is_gap run.now }
{
    !Kind::Available.has(run)
}

fn gaps_of(alloc: Global, runs: &[Run]) -> Result<Vec<Run>, AllocError>
    ensures { IfOk result (λ gaps. gaps.items ≡ gaps_of runs.now) }
{
    let mut gaps = Vec::new(alloc);
    for run in runs {
        if is_gap(run) {
            gaps.push(*run)?;
        }
    }
    Ok(gaps)
}

fn longest_of(gaps: &[Run]) -> u64
    ensures { result ≡ longest_of gaps.now }
{
    let mut longest = 0;
    for run in gaps {
        longest = longest.max(ms_of_run(run));
    }
    longest
}

fn has_undecided(gaps: &[Run]) -> bool
    ensures { result ≡ list_any (has_kind Kind.Undecided) gaps.now }
{
    for run in gaps {
        if Kind::Undecided.has(run) {
            return true;
        }
    }
    false
}

fn push_length(text: &mut Vec<u8>, longest: u64, ms: u64) -> Result<(), AllocError>
    ensures { OnOk result (text.new.items ≡ text.old.items ++ length_cell longest ms) }
{
    if ms == longest {
        push(text, b"<th>")?;
        push_lasting(text, ms)
    } else {
        push(text, b"<td>")?;
        push_lasting(text, ms)
    }
}

fn push_times(text: &mut Vec<u8>, first: i64, end: i64) -> Result<(), AllocError>
    ensures { OnOk result (text.new.items ≡ text.old.items ++ gap_times first end) }
{
    push(text, b"<tr><td>")?;
    push_clock(text, first)?;
    push(text, b"<td>")?;
    push_clock(text, end)
}

fn push_cause(text: &mut Vec<u8>, verdict: Verdict) -> Result<(), AllocError>
    ensures { OnOk result (text.new.items ≡ text.old.items ++ gap_cause verdict) }
{
    push(text, b"<td>")?;
    push(text, Kind::of(verdict).word())?;
    push(text, b"<td>")?;
    push_reason(text, verdict)?;
    push(text, b"\n")
}

fn push_row(text: &mut Vec<u8>, longest: u64, run: &Run) -> Result<(), AllocError>
    ensures { OnOk result (text.new.items ≡ text.old.items ++ gap_row longest run.now) }
{
    let Run {
        first,
        end,
        verdict,
    } = *run;
    push_times(text, first, end)?;
    push_length(text, longest, ms_of_run(run))?;
    push_cause(text, verdict)
}

fn push_rows(text: &mut Vec<u8>, gaps: &[Run]) -> Result<(), AllocError>
    ensures { OnOk result (text.new.items ≡ text.old.items ++ gap_rows gaps.now) }
{
    let longest = longest_of(gaps);
    for run in gaps {
        push_row(text, longest, run)?;
    }
    Ok(())
}

fn push_summary(text: &mut Vec<u8>, gaps: &[Run]) -> Result<(), AllocError>
    ensures { OnOk result (text.new.items ≡ text.old.items ++ gaps_summary gaps.now) }
{
    push(text, b"<p>Runs that are not Available: ")?;
    push_number(text, gaps.len() as u64)?;
    push(text, b". The longest lasts ")?;
    push_lasting(text, longest_of(gaps))?;
    push(text, b".\n")
}

fn push_advice(text: &mut Vec<u8>, gaps: &[Run]) -> Result<(), AllocError>
    ensures { OnOk result (text.new.items ≡ text.old.items ++ advice gaps.now) }
{
    if has_undecided(gaps) {
        push(
            text,
            b"<p>Count undecided times as not available: there the evaluation cannot tell.\n",
        )
    } else {
        Ok(())
    }
}

fn push_table(text: &mut Vec<u8>, gaps: &[Run]) -> Result<(), AllocError>
    ensures { OnOk result (text.new.items ≡ text.old.items ++ gap_table gaps.now) }
{
    push(
        text,
        b"<table class=gaps>\n<tr><th>Start<th>End<th>Length<th>Kind<th>Reason\n",
    )?;
    push_rows(text, gaps)?;
    push(text, b"</table>\n")
}

fn push_told(text: &mut Vec<u8>, gaps: &[Run]) -> Result<(), AllocError>
    ensures { OnOk result (text.new.items ≡ text.old.items ++ gaps_text gaps.now) }
{
    if gaps.is_empty() {
        return push(text, b"<p>The whole flight is Available.\n");
    }
    push_summary(text, gaps)?;
    push_advice(text, gaps)?;
    push_table(text, gaps)
}

// What is said of the runs that are not Available.
pub(crate) fn push_gaps(alloc: Global, text: &mut Vec<u8>, runs: &[Run]) -> Result<(), AllocError>
    ensures { OnOk result (text.new.items ≡ text.old.items ++ gaps_text (gaps_of runs.now)) }
{
    let gaps = gaps_of(alloc, runs)?;
    push_told(text, &gaps)
}
