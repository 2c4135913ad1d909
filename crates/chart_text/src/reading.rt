// What a text says for a chart.
ghost use Rattle.std.specs.Prelude.{◌≡◌, IfOk, IfErr};
ghost use Rattle.report_chart.specs.Chart.{IsChart};
ghost use Rattle.chart_text.specs.Charts.{Shown, shown_by, is_fleet, IsChartText, IsShowable};
ghost use Rattle.chart_text.specs.Refusals.{IsChartRefused};

use crate::fleet::read_fleet;
use crate::flight::read_flight;
use raim_model::Refusal;
use report_chart::Chart;
use std::alloc::Global;

// Whether the first line is that of a fleet's first block.
fn is_fleet(text: &[u8]) -> bool
    ensures { result ≡ is_fleet text.now }
{
    text.starts_with(b"route 1\n")
}

/// Reads what a chart shows: a flight from its report, or a fleet from its text, whose first line is `route 1`. The times
/// of the runs are milliseconds of UTC since 1980-01-06T00:00Z.
///
/// A refusal names the first line that is refused, counted from 1 through the whole text, and why. A report is refused as
/// `read_report` refuses it, and then with `NotRising` for a run that does not start where the one before it ends, and with
/// `TooLong` for one that ends more than a day after the first starts. A fleet's blocks are read one after another: a line
/// that begins with `route ` and is not the head of the block that comes is refused with `Label`, a block is refused as a
/// report is, or, where it has a line in place of a report, with `Short` for one without its line feed and with `Word`
/// for another line under it.
pub fn read_chart(alloc: Global, text: &[u8]) -> Result<Chart, Refusal>
    // The text says what the chart shows.
    ensures chart { IfOk result (λ chart. IsChartText text.now (shown_by chart)) }
    ensures showable { IfOk result (λ chart. IsShowable (shown_by chart)) }
    // So `print_chart` takes it.
    ensures ranges { IfOk result (λ chart. IsChart chart) }
    ensures refused { IfErr result (IsChartRefused text.now) }

    // The text of a chart is answered with what it shows, unless memory is wanting.
    ensures again { (shown : Shown) → IsChartText text.now shown → IsShowable shown → IfOk result (λ chart. shown_by chart ≡ shown) }
    ensures no_fault { (shown : Shown) → IsChartText text.now shown → IsShowable shown → IfErr result (λ refusal. refusal ≡ Refusal.Memory) }
{
    read(alloc, text)
}

// What `read_chart` answers, by its parts.
fn read(alloc: Global, text: &[u8]) -> Result<Chart, Refusal>
    ensures chart { IfOk result (λ chart. IsChartText text.now (shown_by chart)) }
    ensures showable { IfOk result (λ chart. IsShowable (shown_by chart)) }
    ensures ranges { IfOk result (λ chart. IsChart chart) }
    ensures refused { IfErr result (IsChartRefused text.now) }
{
    if is_fleet(text) {
        return match read_fleet(alloc, text) {
            Ok(rows) => Ok(Chart::Fleet(rows)),
            Err(refusal) => Err(refusal),
        };
    }
    match read_flight(alloc, text) {
        Ok(runs) => Ok(Chart::Flight(runs)),
        Err(refusal) => Err(refusal),
    }
}
