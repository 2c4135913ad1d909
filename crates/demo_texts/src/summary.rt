// The line that a demonstration prints.
ghost use Rattle.std.specs.Prelude.{◌≡◌, ◌+◌, ◌*◌, ◌≤◌, ℕ, IfOk, length};
ghost use Rattle.raim_model.specs.Constants.{day_ms};
ghost use Rattle.demo_texts.specs.Summary.{is_available, is_unavailable, is_undecided, ms_of_run, ms_added, ms_of, summary_line, summary_text, IsWithinDay, AreCountable};

use raim_model::{OutOfMemory, Run, Verdict};
use std::alloc::{AllocError, Global};

// How many milliseconds have each kind of verdict.
#[derive(Clone, Copy)]
struct Totals {
    available: u64,
    unavailable: u64,
    undecided: u64,
}

// How many milliseconds a run has.
fn ms_of_run(run: &Run) -> u64
    ensures { result ≡ ms_of_run run.now }
{
    run.end.abs_diff(run.first)
}

impl Totals {
    // One run more.
    fn with(self, run: &Run) -> Totals
        requires short { IsWithinDay run.now }
        requires available_fits { self.available ≤ day_ms * 65536 }
        requires unavailable_fits { self.unavailable ≤ day_ms * 65536 }
        requires undecided_fits { self.undecided ≤ day_ms * 65536 }
        ensures available { result.available ≡ self.available + ms_added is_available run.now }
        ensures unavailable { result.unavailable ≡ self.unavailable + ms_added is_unavailable run.now }
        ensures undecided { result.undecided ≡ self.undecided + ms_added is_undecided run.now }
    {
        let ms = ms_of_run(run);
        let Totals {
            available,
            unavailable,
            undecided,
        } = self;
        match run.verdict {
            Verdict::Available => Totals {
                available: available + ms,
                unavailable,
                undecided,
            },
            Verdict::Unavailable(_) => Totals {
                available,
                unavailable: unavailable + ms,
                undecided,
            },
            Verdict::Undecided(_) => Totals {
                available,
                unavailable,
                undecided: undecided + ms,
            },
            Verdict::Overflow(_) => self,
        }
    }
}

fn totals_of(runs: &[Run]) -> Totals
    requires { AreCountable runs.now }
    ensures available { result.available ≡ ms_of is_available runs.now }
    ensures unavailable { result.unavailable ≡ ms_of is_unavailable runs.now }
    ensures undecided { result.undecided ≡ ms_of is_undecided runs.now }
{
    let mut totals = Totals {
        available: 0,
        unavailable: 0,
        undecided: 0,
    };
    for run in runs {
        totals = totals.with(run);
    }
    totals
}

// The line, from what is counted.
fn line(alloc: Global, number: u32, intervals: usize, totals: Totals) -> Result<Vec<u8>, AllocError>
    ensures { IfOk result (λ text. text.items ≡ summary_line number intervals totals.available totals.unavailable totals.undecided) }
{
    let Totals {
        available,
        unavailable,
        undecided,
    } = totals;
    let line = format!(in alloc;
        "demo {number} satellites 24 intervals {intervals} available {available} unavailable {unavailable} undecided {undecided}\n"
    )?;
    Ok(line.into_bytes())
}

/// The line that the demonstration with this number prints: `demo NUMBER satellites 24 intervals R
/// available A unavailable U undecided D` and a line feed, R being the number of runs and A, U and D
/// the milliseconds of each kind.
pub fn print_summary(alloc: Global, number: u32, runs: &[Run]) -> Result<Vec<u8>, OutOfMemory>
    requires { AreCountable runs.now }
    ensures { IfOk result (λ text. text.items ≡ summary_text number runs.now) }
{
    match line(alloc, number, runs.len(), totals_of(runs)) {
        Ok(line) => Ok(line),
        Err(_) => Err(OutOfMemory),
    }
}
