// The page of a text.
ghost use Rattle.std.specs.Prelude.{◌≡◌, IfOk, IfErr};
ghost use Rattle.chart_run.specs.Pages.{IsPageOf, TextStops, status_for};

use crate::ChartStatus;
use chart_text::read_chart;
use raim_model::Refusal;
use report_chart::print_chart;
use std::alloc::Global;

// The status of a text that is not read.
fn status_of(refusal: Refusal) -> ChartStatus
    ensures { result ≡ status_for refusal }
{
    match refusal {
        Refusal::Memory => ChartStatus::Memory,
        Refusal::Text(fault) => ChartStatus::Refused {
            line: fault.line,
            why: fault.why,
        },
    }
}

// Reads a text, and makes the whole page of what it shows.
pub(crate) fn page_of(alloc: Global, text: &[u8]) -> Result<Vec<u8>, ChartStatus>
    ensures page { IfOk result (λ v. IsPageOf text.now v.items) }
    ensures cause { IfErr result (TextStops text.now) }
{
    let chart = match read_chart(alloc, text) {
        Ok(chart) => chart,
        Err(refusal) => return Err(status_of(refusal)),
    };
    match print_chart(alloc, &chart) {
        Ok(page) => Ok(page),
        Err(_) => Err(ChartStatus::Memory),
    }
}
