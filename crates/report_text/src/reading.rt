// Reports read back.
ghost use Rattle.std.specs.Prelude.{◌≡◌, ℕ, ◌-◌, ◌^◌, List, All, IfOk, IfErr};
ghost use Rattle.raim_model.specs.declared.verdict.Run.{Run};
ghost use Rattle.text_lines.specs.Reading.{Accepts, number_after};
ghost use Rattle.text_lines.specs.Refusals.{IsRefused};
ghost use Rattle.report_text.specs.Report.{IsReport, IsPrintable, IsReadable};
ghost use Rattle.report_text.specs.ReportLines.{report_lines, pieces_of};

use crate::line::next_run;
use raim_model::{Refusal, Run, TextFault};
use std::alloc::Global;

// The number of the line that has so many before it.
fn line_number(done: usize) -> u32
    ensures { result ≡ number_after done }
{
    if done >= u32::MAX as usize {
        return u32::MAX;
    }
    done as u32 + 1
}

/// Reads a report: its runs in their order, with times in milliseconds since the GPS epoch, where GPS
/// time is ahead of UTC by `leap` seconds.
///
/// A refusal names the first line that is refused, counted from 1, and the first test that refuses it:
/// `Short` for a last line without its line feed, `Word` for a line that is not two words and a verdict
/// with one space between them, `Time` for a word that is no time of UTC, `Range` for a PRN that is not 01
/// to 32, `NotRising` for an end that is not after its start. A text without a line is accepted.
pub fn read_report(alloc: Global, text: &[u8], leap: u8) -> Result<Vec<Run>, Refusal>
    ensures accepted { IfOk result (λ v. Accepts (report_lines leap) (pieces_of text.now) v.items) }
    ensures refused { IfErr result (IsRefused (report_lines leap) (pieces_of text.now)) }

    // The text is the report of the runs, so there is no second spelling.
    ensures report { IfOk result (λ v. IsReport leap v.items text.now) }
    ensures readable { IfOk result (λ v. All IsReadable v.items) }

    // So `print_report` takes what this gives.
    ensures printable { IfOk result (λ v. All (IsPrintable leap) v.items) }

    // What is printed is read back, unless memory is wanting.
    ensures again { (runs : List Run) → IsReport leap runs text.now → All IsReadable runs → IfOk result (λ v. v.items ≡ runs) }
    ensures no_fault { (runs : List Run) → IsReport leap runs text.now → All IsReadable runs → IfErr result (λ e. e ≡ Refusal.Memory) }
{
    lines(alloc, text, leap)
}

// What `read_report` answers, by the lines.
fn lines(alloc: Global, text: &[u8], leap: u8) -> Result<Vec<Run>, Refusal>
    ensures accepted { IfOk result (λ v. Accepts (report_lines leap) (pieces_of text.now) v.items) }
    ensures refused { IfErr result (IsRefused (report_lines leap) (pieces_of text.now)) }
{
    let mut runs = Vec::new(alloc);
    let mut rest = text;
    while !rest.is_empty() {
        match next_run(rest, leap) {
            Ok((run, after)) => {
                let Ok(()) = runs.push(run) else {
                    return Err(Refusal::Memory);
                };
                rest = after;
            }
            Err(why) => {
                let line = line_number(runs.len());
                return Err(Refusal::Text(TextFault { line, why }));
            }
        }
    }
    Ok(runs)
}
