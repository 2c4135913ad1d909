// The text of the runs that were found.
ghost use Rattle.std.specs.Prelude.{All, IfOk};
ghost use Rattle.report_text.specs.Report.{IsPrintable};
ghost use Rattle.demo_texts.specs.Summary.{AreCountable};
ghost use Rattle.command_words.specs.Asked.{asked_by};
ghost use Rattle.raim_run.specs.Answers.{AreWritten};

use command_words::Request;
use demo_texts::print_summary;
use raim_model::{OutOfMemory, Run};
use report_text::print_report;
use std::alloc::Global;

// The report of a prediction, or the line of a demonstration.
pub(crate) fn print_runs(
    alloc: Global,
    request: &Request,
    runs: &[Run],
    leap: u8,
) -> Result<Vec<u8>, OutOfMemory>
    requires lines { All (IsPrintable leap) runs.now }
    requires countable { AreCountable runs.now }
    ensures { IfOk result (λ text. AreWritten (asked_by request.now) leap runs.now text.items) }
{
    match *request {
        Request::Predict { .. } => print_report(alloc, runs, leap),
        Request::Demo { number } => print_summary(alloc, number, runs),
        Request::PredictUp { .. } => print_report(alloc, runs, leap),
    }
}
